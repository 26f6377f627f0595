// Writes to the record of a message.
ghost use Rattle.std.specs.Prelude.{◌≡◌, ◌+◌, ◌≤◌, ◌<◌, ◌/◌, ◌^◌, length, Some};
ghost use Rattle.arena_mem.specs.Places.{IsLive, splice};
ghost use Rattle.pb_schema.specs.Kinds.{value_type_of, slot_of};
ghost use Rattle.pb_schema.specs.Fitted.{IsPatternOf};
ghost use Rattle.msg_layout.specs.Layout.{entry_among};
ghost use Rattle.msg_layout.specs.Words.{is_word_at};
ghost use Rattle.msg_layout.specs.Sound.{IsSound};
ghost use Rattle.msg_layout.specs.Slots.{slot_bytes};
ghost use Rattle.dyn_message.specs.Writes.{Rewritten, marked, number_bytes, taken, with_bit, with_word, with_zeros, without_other};

use crate::bytes::word_at;
use arena_mem::{Memory, Place};
use msg_layout::tables::TypeLayout;
use msg_layout::{Entry, Mark, single_bytes, slot_bytes};
use pb_schema::Kind;

/// Marks a field as set, and takes the value of another member of its oneof away.
#[inline(always)]
pub fn mark_set<M: Memory>(mem: &mut M, layout: &TypeLayout, place: Place, entry: Entry)
    requires live { IsLive (M.places mem.old) place }
    requires sound { IsSound layout.now }
    requires len { place.len ≡ layout.now.size }
    requires found { entry_among layout.now.entries entry.field.number ≡ Some entry }
    ensures { Rewritten M.key M.places M.buffers M.blocks place (marked layout.now.entries entry) mem.old mem.new }
{
    match entry.mark {
        Mark::Unmarked => {}
        Mark::Bit(bit) => set_bit(mem, place, bit),
        Mark::Word(at) => {
            zero_other(mem, layout, place, entry.field.number, at);
            set_word(mem, place, at, entry.field.number);
        }
    }
}

/// Unsets a field that is told by its slot or by the word of its oneof.
pub fn take_away<M: Memory>(mem: &mut M, layout: &TypeLayout, place: Place, entry: Entry)
    requires live { IsLive (M.places mem.old) place }
    requires sound { IsSound layout.now }
    requires len { place.len ≡ layout.now.size }
    requires found { entry_among layout.now.entries entry.field.number ≡ Some entry }
    ensures { Rewritten M.key M.places M.buffers M.blocks place (taken entry) mem.old mem.new }
{
    zero_slot(mem, place, entry);
    if let Mark::Word(at) = entry.mark {
        set_word(mem, place, at, 0);
    }
}

/// Writes a number into a slot of its kind.
#[inline]
pub fn set_number<M: Memory>(mem: &mut M, place: Place, at: u32, kind: Kind, bits: u64)
    requires live { IsLive (M.places mem.old) place }
    requires within { at + slot_of (value_type_of kind) ≤ place.len }
    requires pattern { IsPatternOf (value_type_of kind) bits }
    ensures { Rewritten M.key M.places M.buffers M.blocks place (splice at (number_bytes (slot_of (value_type_of kind)) bits)) mem.old mem.new }
{
    match single_bytes(kind) {
        8 => mem.write(place, at, &bits.to_le_bytes()),
        4 => mem.write(place, at, &(bits as u32).to_le_bytes()),
        _ => mem.write(place, at, &[bits as u8]),
    }
}

/// Writes a slot.
#[inline]
pub fn set_slot<M: Memory>(mem: &mut M, place: Place, at: u32, slot: &[u8])
    requires live { IsLive (M.places mem.old) place }
    requires within { at + length slot.now ≤ place.len }
    ensures { Rewritten M.key M.places M.buffers M.blocks place (splice at slot.now) mem.old mem.new }
{
    mem.write(place, at, slot);
}

// Sets the bit of this number.
fn set_bit<M: Memory>(mem: &mut M, place: Place, bit: u32)
    requires live { IsLive (M.places mem.old) place }
    requires within { bit / 8 < place.len }
    ensures { Rewritten M.key M.places M.buffers M.blocks place (with_bit bit) mem.old mem.new }
{
    let byte = mem.read(place)[(bit / 8) as usize];
    mem.write(place, bit / 8, &[byte | 1 << (bit % 8)]);
}

// Writes the word of four bytes at this place.
fn set_word<M: Memory>(mem: &mut M, place: Place, at: u32, word: u32)
    requires live { IsLive (M.places mem.old) place }
    requires within { at + 4 ≤ place.len }
    ensures { Rewritten M.key M.places M.buffers M.blocks place (with_word at word) mem.old mem.new }
{
    mem.write(place, at, &word.to_le_bytes());
}

// Zeroes the slot of the member that the word at this place tells, where it isn't the one with this number. It is apart
// so that the common case is a few instructions.
#[inline(never)]
fn zero_other<M: Memory>(mem: &mut M, layout: &TypeLayout, place: Place, number: u32, at: u32)
    requires live { IsLive (M.places mem.old) place }
    requires sound { IsSound layout.now }
    requires len { place.len ≡ layout.now.size }
    requires within { at + 4 ≤ place.len }
    ensures { Rewritten M.key M.places M.buffers M.blocks place (without_other layout.now.entries number at) mem.old mem.new }
{
    let set = word_at(mem.read(place), at);
    if let Some(other) = layout.find(set) {
        if is_word_at(other.mark, at) && other.field.number != number {
            zero_slot(mem, place, other);
        }
    }
}

// Zeroes the slot of a field.
fn zero_slot<M: Memory>(mem: &mut M, place: Place, entry: Entry)
    requires live { IsLive (M.places mem.old) place }
    requires within { entry.slot + slot_bytes entry.field ≤ place.len }
    ensures { Rewritten M.key M.places M.buffers M.blocks place (with_zeros entry) mem.old mem.new }
{
    let zeros = [0u8; 24];
    mem.write(
        place,
        entry.slot,
        &zeros[..slot_bytes(&entry.field) as usize],
    );
}

/// Whether the mark is the word at this place.
pub fn is_word_at(mark: Mark, at: u32) -> bool
    ensures { result ≡ is_word_at at mark }
{
    match mark {
        Mark::Word(there) => there == at,
        _ => false,
    }
}
