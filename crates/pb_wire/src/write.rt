// Writing varints, always by their shortest spelling.
ghost use Rattle.std.specs.Prelude.{◌≡◌, ◌+◌, ◌*◌, ◌^◌, ◌<◌, ◌≤◌, ◌++◌, List, ℕ, length, take, drop};
ghost use Rattle.std.specs.Int.Digits.{AllBelowBase};
ghost use Rattle.std.specs.Simd.Lanes.{number_l};
ghost use Rattle.pb_schema.specs.Varint.{varint_of};

/// The most bytes of a varint.
const MOST_BYTES: usize = 10;

/// Values of more bytes don't fit a word when they are spelled.
const WORD_BYTES: usize = 8;

/// Values below this have at most eight bytes.
const WORD_END: u64 = 1 << 56;

/// The highest bit of each byte, which is set where a varint goes on.
const CONTINUATION_BITS: u64 = 0x8080_8080_8080_8080;

/// How many bytes the shortest varint of a value has: 1 to 10.
pub fn varint_len(value: u64) -> u32
    ensures { result ≡ length (varint_of value) }
{
    if value < 128 {
        return 1;
    }
    last_group(value) as u32 + 1
}

/// Writes the shortest varint of a value to the front of the room, and answers how many bytes it has. The room behind
/// is left as it was; [`put_varint`] is faster where that isn't wanted.
#[inline]
pub fn write_varint(value: u64, room: &mut [u8; 10]) -> usize
    ensures spelled { take result room.new ≡ varint_of value }
    ensures count { result ≡ length (varint_of value) }
    ensures rest { drop result room.new ≡ drop result room.old }
    ensures bound { (0 < result) × (result ≤ 10) }
{
    let mut varint = [0u8; MOST_BYTES];
    let count = put_varint(&mut varint, 0, value);
    room[..count].copy_from_slice(&varint[..count]);
    count
}

/// Writes the shortest varint of a value behind the first `start` bytes of a room, and answers the place behind it
/// (encoding guide, "Base 128 Varints"). The first `start` bytes stay as they were; those behind the varint may be
/// written over, up to the tenth from `start` on.
#[inline]
pub fn put_varint(room: &mut [u8], start: usize, value: u64) -> usize
    requires { start + 10 ≤ length room.old }
    ensures spelled { take result room.new ≡ take start room.old ++ varint_of value }
    ensures beyond { drop (start + 10) room.new ≡ drop (start + 10) room.old }
    ensures count { result ≡ start + length (varint_of value) }
    ensures bound { (start < result) × (result ≤ start + 10) }
{
    if value < 128 {
        room[start] = value as u8;
        return start + 1;
    }
    if value >= WORD_END {
        return put_groups(room, start, value);
    }
    let (word, count) = spelled_word(value);
    room[start..start + WORD_BYTES].copy_from_slice(&word.to_le_bytes());
    start + count
}

// The same of a value that a word doesn't hold. All ten groups are put, and the last is put again without its mark.
fn put_groups(room: &mut [u8], start: usize, value: u64) -> usize
    requires room { start + 10 ≤ length room.old }
    requires some { 0 < value }
    ensures spelled { take result room.new ≡ take start room.old ++ varint_of value }
    ensures beyond { drop (start + 10) room.new ≡ drop (start + 10) room.old }
    ensures count { result ≡ start + length (varint_of value) }
    ensures bound { (start < result) × (result ≤ start + 10) }
{
    let mut rest = value;
    for group in 0..MOST_BYTES {
        room[start + group] = (rest % 128) as u8 + 128;
        rest /= 128;
    }
    let last = last_group(value);
    room[start + last] = (value >> (7 * last)) as u8;
    start + last + 1
}

// The shortest varint of a value in the low bytes of a word, and how many bytes it has; the others are 0. How many
// there are can't be foreseen, and a branch on each costs more than to put all eight.
#[inline]
fn spelled_word(value: u64) -> (u64, usize)
    requires some { 0 < value }
    requires short { value < 2 ^ 56 }
    ensures word { result.0 ≡ number_l 256 (varint_of value) }
    ensures count { result.1 ≡ length (varint_of value) }
    ensures bound { (1 ≤ result.1) × (result.1 ≤ 8) }
{
    let last = last_group(value);
    let marks = CONTINUATION_BITS & !(u64::MAX << (8 * last));
    (spread_groups(value) + marks, last + 1)
}

// The groups of seven bits of a value below 2^56, one to a byte. Halves are parted: first two groups of 28 bits, then
// each of these into groups of 14, and these into the bytes.
#[inline]
fn spread_groups(value: u64) -> u64
    ensures same { (s : List ℕ) → length s ≡ 8 → AllBelowBase 128 s → value ≡ number_l 128 s → result ≡ number_l 256 s }
    ensures bound { result ≤ 0x7f7f_7f7f_7f7f_7f7f }
{
    let twenty_eights = value % (1 << 28) + ((value >> 28) << 32);
    let low = twenty_eights & 0x0000_3fff_0000_3fff;
    let fourteens = low + ((twenty_eights & 0x0fff_c000_0fff_c000) << 2);
    (fourteens & 0x007f_007f_007f_007f) + ((fourteens & 0x3f80_3f80_3f80_3f80) << 1)
}

// How many whole groups of seven bits lie below the highest bit that is set.
#[inline]
fn last_group(value: u64) -> usize
    requires { 0 < value }
    ensures below { 2 ^ (7 * result) ≤ value }
    ensures above { value < 2 ^ (7 * (result + 1)) }
    ensures bound { result ≤ 9 }
{
    (63 - value.leading_zeros() as usize) / 7
}
