// Slots of 24 bytes: six words of four bytes, the lowest byte first.
ghost use Rattle.std.specs.Prelude.{◌≡◌, ◌+◌, ◌^◌, ◌<◌, ◌≤◌, ℕ, length, slice_index};
ghost use Rattle.dyn_message.specs.Slots.{word as word_of, part, place_in, buffer_in};

use crate::bytes::word_at;
use arena_mem::{Buffer, Place};

/// How many bytes a slot has.
pub const SLOT_BYTES: usize = 24;

/// The word that tells the form.
pub const FORM: usize = 5;

/// The word that tells how many bytes or elements there are.
pub const COUNT: usize = 4;

/// The form of a slot that holds nothing. All its words are zero.
pub const NOTHING: u32 = 0;

/// The form of a slot whose bytes lie in a place.
pub const PLACED: u32 = 1;

/// The form of a slot whose bytes are a kept buffer.
pub const KEPT: u32 = 2;

/// The form of a slot whose elements lie in a place.
pub const ARRAY: u32 = 3;

/// The slot of a place with so many bytes or elements in it.
pub fn place_slot(place: Place, count: u32, form: u32) -> [u8; 24]
    ensures place { place_in result ≡ place }
    ensures count { word_of 4 result ≡ count }
    ensures form { word_of 5 result ≡ form }
{
    slot_of([
        place.region,
        place.block,
        place.offset,
        place.len,
        count,
        form,
    ])
}

/// The slot of a buffer of so many bytes.
pub fn buffer_slot(buffer: Buffer, count: u32) -> [u8; 24]
    ensures buffer { buffer_in result ≡ buffer }
    ensures zero { word_of 3 result ≡ 0 }
    ensures count { word_of 4 result ≡ count }
    ensures form { word_of 5 result ≡ 2 }
{
    let low = (buffer.number % (1 << 32)) as u32;
    let high = (buffer.number / (1 << 32)) as u32;
    slot_of([buffer.region, low, high, 0, count, KEPT])
}

/// The place that a slot names.
pub fn place_at(slot: &[u8]) -> Place
    requires { 24 ≤ length slot.now }
    ensures { result ≡ place_in slot.now }
{
    Place {
        region: word(slot, 0),
        block: word(slot, 1),
        offset: word(slot, 2),
        len: word(slot, 3),
    }
}

/// The buffer that a slot names.
pub fn buffer_at(slot: &[u8]) -> Buffer
    requires { 24 ≤ length slot.now }
    ensures { result ≡ buffer_in slot.now }
{
    Buffer {
        region: word(slot, 0),
        number: u64::from(word(slot, 1)) + (1 << 32) * u64::from(word(slot, 2)),
    }
}

/// The word of a slot at this index.
#[inline]
pub fn word(slot: &[u8], index: usize) -> u32
    requires index { index < 6 }
    requires slot { 24 ≤ length slot.now }
    ensures { result ≡ word_of index slot.now }
{
    let mut bytes = [0u8; 4];
    bytes.copy_from_slice(&slot[4 * index..4 * index + 4]);
    u32::from_le_bytes(bytes)
}

// The slot with these words.
fn slot_of(words: [u32; 6]) -> [u8; 24]
    ensures { (i : ℕ) → i < 6 → word_of i result ≡ slice_index words i }
{
    let mut slot = [0u8; SLOT_BYTES];
    for i in 0..6 {
        slot[4 * i..4 * i + 4].copy_from_slice(&words[i].to_le_bytes());
    }
    slot
}

/// The place that the 16 bytes at this one of a record name.
#[inline]
pub fn link_at(bytes: &[u8], at: u32) -> Place
    requires within { at + 16 ≤ length bytes.now }
    requires small { at < 2 ^ 31 }
    ensures { result ≡ place_in (part at 16 bytes.now) }
{
    Place {
        region: word_at(bytes, at),
        block: word_at(bytes, at + 4),
        offset: word_at(bytes, at + 8),
        len: word_at(bytes, at + 12),
    }
}

/// The 16 bytes that name a place.
pub fn link_slot(place: Place) -> [u8; 16]
    ensures { place_in result ≡ place }
{
    let whole = place_slot(place, 0, 0);
    let mut slot = [0u8; 16];
    slot.copy_from_slice(&whole[..16]);
    slot
}
