// Numbers in bytes, the lowest byte first.
ghost use Rattle.std.specs.Prelude.{◌≡◌, ◌+◌, ◌≤◌, ◌<◌, ◌/◌, ◌^◌, length, drop};
ghost use Rattle.pb_schema.specs.Kinds.{value_type_of, slot_of};
ghost use Rattle.dyn_message.specs.Slots.{part, number_in, word as word_of, told_by, bit_in};

use msg_layout::Entry;
use pb_schema::Kind;

/// The word of four bytes at this place.
#[inline]
pub fn word_at(bytes: &[u8], at: u32) -> u32
    requires { at + 4 ≤ length bytes.now }
    ensures { result ≡ word_of 0 (drop at bytes.now) }
{
    let start = at as usize;
    let mut word = [0u8; 4];
    word.copy_from_slice(&bytes[start..start + 4]);
    u32::from_le_bytes(word)
}

/// The eight bytes at this place as a number.
#[inline]
pub fn long_at(bytes: &[u8], at: u32) -> u64
    requires { at + 8 ≤ length bytes.now }
    ensures { result ≡ number_in (part at 8 bytes.now) }
{
    let start = at as usize;
    let mut long = [0u8; 8];
    long.copy_from_slice(&bytes[start..start + 8]);
    u64::from_le_bytes(long)
}

/// The bit of this number.
#[inline]
pub fn bit_at(bytes: &[u8], bit: u32) -> bool
    requires { bit / 8 < length bytes.now }
    ensures { result ≡ bit_in bit bytes.now }
{
    bytes[(bit / 8) as usize] >> (bit % 8) & 1 == 1
}
