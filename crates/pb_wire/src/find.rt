// Varints in the front of some bytes, read eight bytes at a time: for readers of whole payloads.
ghost use Rattle.std.specs.Prelude.{◌≡◌, ◌+◌, ◌-◌, ◌^◌, ◌<◌, ◌≤◌, List, ℕ, length, take, drop};
ghost use Rattle.std.specs.Prelude.{Ok, Some, IsErr, IfSome, IfNone};
ghost use Rattle.std.specs.Int.Digits.{AllBelowBase};
ghost use Rattle.std.specs.Simd.Lanes.{number_l};
ghost use Rattle.pb_schema.specs.Varint.{seven_bits, varint_at};
ghost use Rattle.pb_wire.specs.Placed.{found_from, value_in, length_in};

use crate::tag::{LENGTH_BYTES, LENGTH_END};
use crate::varint::{VALUE_BYTES, find_varint};

/// How many bytes are read at once.
const WINDOW_BYTES: usize = 8;

/// The highest bit of each byte of a window, which is set where a varint goes on.
const CONTINUATION_BITS: u64 = 0x8080_8080_8080_8080;

/// The value at `start` in the first `end` bytes, and the place behind it (encoding guide, "Base 128 Varints"). None
/// exactly where none of at most ten bytes ends there: then [`read_varint`](crate::read_varint) over these bytes tells
/// the fault, `Cut` or `LongVarint`.
///
/// What follows the first `end` bytes is looked at and doesn't count: where at least eight bytes follow `start`, a
/// value of at most eight bytes is read with no branch on its length.
#[inline]
pub fn find_value(bytes: &[u8], start: usize, end: usize) -> Option<(u64, usize)>
    requires start { start ≤ end }
    requires end { end ≤ length bytes.now }
    ensures found { IfSome result (λ found. value_in bytes.now start end ≡ Ok (found.0, found.1 - start)) }
    ensures none { IfNone result (IsErr (value_in bytes.now start end)) }
    ensures bound { IfSome result (λ found. (start < found.1) × (found.1 ≤ end)) }
{
    find_ahead(bytes, start, end, VALUE_BYTES)
}

/// The length at `start` in the first `end` bytes, and the place behind it (encoding guide, "Length-Delimited
/// Records"). None exactly where none of at most five bytes ends there, or it is 2^31 or more: the fault is `Cut`,
/// `LongVarint` or `BadLength`. Whether as many bytes follow isn't asked.
///
/// What follows the first `end` bytes is looked at and doesn't count, as in [`find_value`]; a length of one byte is
/// read first.
#[inline]
pub fn find_length(bytes: &[u8], start: usize, end: usize) -> Option<(usize, usize)>
    requires start { start ≤ end }
    requires end { end ≤ length bytes.now }
    ensures found { IfSome result (λ found. length_in bytes.now start end ≡ Ok (found.0, found.1 - start)) }
    ensures none { IfNone result (IsErr (length_in bytes.now start end)) }
    ensures bound { IfSome result (λ found. (found.0 < 2 ^ 31) × (start < found.1) × (found.1 ≤ end)) }
{
    if start < end && bytes[start] < 128 {
        return Some((usize::from(bytes[start]), start + 1));
    }
    let (len, behind) = find_ahead(bytes, start, end, LENGTH_BYTES)?;
    if len >= LENGTH_END {
        return None;
    }
    Some((len as usize, behind))
}

// The varint of at most `most` bytes at `start` in the first `end` bytes, and the place behind it. One that the window
// doesn't tell is read byte by byte.
#[inline]
fn find_ahead(bytes: &[u8], start: usize, end: usize, most: usize) -> Option<(u64, usize)>
    requires start { start ≤ end }
    requires end { end ≤ length bytes.now }
    requires some { 2 ≤ most }
    requires most { most ≤ 10 }
    ensures found { result ≡ found_from start (varint_at most (drop start (take end bytes.now))) }
    ensures bound { IfSome result (λ found. (start < found.1) × (found.1 ≤ end)) }
{
    if bytes.len() - start >= WINDOW_BYTES {
        if let Some((value, count)) = read_window(bytes, start) {
            if count <= most && count <= end - start {
                return Some((value, start + count));
            }
        }
    }
    find_varint(&bytes[..end], start, most)
}

// The varint of at most 8 bytes at `start`, and how many it has. That can't be foreseen, and a branch on each byte
// costs more than to take all 8 at once and to clear those behind its end.
#[inline]
fn read_window(bytes: &[u8], start: usize) -> Option<(u64, usize)>
    requires { start + 8 ≤ length bytes.now }
    ensures { IfSome result (λ found. varint_at 10 (drop start bytes.now) ≡ Some found) }
{
    let window = window_at(bytes, start);
    // The lowest bit that is set stands in the varint's last byte, and is the byte's highest.
    let ends = !window & CONTINUATION_BITS;
    if ends == 0 {
        return None;
    }
    let value = join_groups(window & (ends ^ (ends - 1)));
    Some((value, ends.trailing_zeros() as usize / 8 + 1))
}

// The window at `start` as one number, whose lowest byte is the first.
#[inline]
fn window_at(bytes: &[u8], start: usize) -> u64
    requires { start + 8 ≤ length bytes.now }
    ensures { result ≡ number_l 256 (take 8 (drop start bytes.now)) }
{
    let mut window = [0u8; WINDOW_BYTES];
    window.copy_from_slice(&bytes[start..start + WINDOW_BYTES]);
    u64::from_le_bytes(window)
}

// The number that the low seven bits of the window's bytes spell. Neighbours are joined: first bytes to groups of 14
// bits, then these to groups of 28, and then the two that are left.
#[inline]
fn join_groups(window: u64) -> u64
    ensures { (s : List ℕ) → length s ≤ 8 → AllBelowBase 256 s → window ≡ number_l 256 s → result ≡ seven_bits s }
{
    let sevens = window & !CONTINUATION_BITS;
    let fourteens = (sevens & 0x007f_007f_007f_007f) + ((sevens & 0x7f00_7f00_7f00_7f00) >> 1);
    let low = fourteens & 0x0000_3fff_0000_3fff;
    let twenty_eights = low + ((fourteens & 0x3fff_0000_3fff_0000) >> 2);
    twenty_eights % (1 << 32) + ((twenty_eights >> 32) << 28)
}
