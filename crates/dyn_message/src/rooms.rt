// Room for the elements of lists.
ghost use Rattle.std.specs.Prelude.{◌≡◌, ◌+◌, ◌*◌, ◌^◌, ◌≤◌, ◌<◌, length, IfOk, IfErr, OnErr};
ghost use Rattle.arena_mem.specs.Grows.{Grows};
ghost use Rattle.arena_mem.specs.Places.{IsLive, NamesFullRegion, round8, used};
ghost use Rattle.pb_schema.specs.Meter.{array_bytes, rooms};
ghost use Rattle.dyn_message.specs.Slots.{part, word as word_of, place_in};
ghost use Rattle.dyn_message.specs.Rooms.{IsRoom, IsAppended, GrowsBy, MayGrow, list_slot, is_full};

use crate::slot::{ARRAY, COUNT, SLOT_BYTES, place_at, place_slot, word};
use arena_mem::{MemFault, Memory, Place};

// How many elements the first place of a list has room for.
const FIRST_ROOM: u32 = 4;

/// Makes room for one element more, of `size` bytes, in the list whose slot lies in the record at `place` from byte `at`
/// on. It answers the place of the elements and how many there are; the record stays as it is.
pub fn room_for_one<M: Memory>(
    mem: &mut M,
    place: Place,
    at: u32,
    size: u32,
) -> Result<(Place, u32), MemFault>
    requires live { IsLive (M.places mem.old) place }
    requires within { at + 24 ≤ place.len }
    requires some { 1 ≤ size }
    requires most { size ≤ 24 }
    requires list { MayGrow (M.places mem.old) size (list_slot (M.places mem.old) place at) }
    ensures made { IfOk result (λ made. IsRoom (M.places mem.old) (M.places mem.new) size (list_slot (M.places mem.old) place at) made.1 made.0) }
    ensures space { IfOk result (λ made. used (M.places mem.new) ≡ used (M.places mem.old) + array_bytes size made.1 (made.1 + 1)) }
    ensures grows { Grows M.key M.places M.buffers M.blocks 1 0 mem.old mem.new }
    ensures buffers { M.buffers mem.new ≡ M.buffers mem.old }
    ensures unchanged { OnErr result (M.places mem.new ≡ M.places mem.old) }
    ensures spent { IfErr result (NamesFullRegion (M.blocks mem.new)) }
{
    let (array, count) = list_at(mem.read(place), at);
    if count == 0 {
        let first = mem.place(FIRST_ROOM * size)?;
        Ok((first, 0))
    } else if is_full(array.len, count, size) {
        let next = mem.place(2 * count * size)?;
        mem.copy_front(array, next, count * size);
        Ok((next, count))
    } else {
        Ok((array, count))
    }
}

/// The place of a list's elements and how many there are, by the slot from this byte on.
#[inline]
pub fn list_at(bytes: &[u8], at: u32) -> (Place, u32)
    requires { at + 24 ≤ length bytes.now }
    ensures place { result.0 ≡ place_in (part at 24 bytes.now) }
    ensures count { result.1 ≡ word_of 4 (part at 24 bytes.now) }
{
    let start = at as usize;
    let slot = &bytes[start..start + SLOT_BYTES];
    (place_at(slot), word(slot, COUNT))
}

// Whether so many elements are all that a place of this length has room for. A place for four bools has room for eight,
// but is for four.
pub fn is_full(len: u32, count: u32, size: u32) -> bool
    requires small { count * size < 2 ^ 32 }
    ensures { result ≡ is_full len count size }
{
    count == FIRST_ROOM || count * size == len
}

/// Puts an element behind those of the list whose slot lies in the record at `place` from byte `at` on.
pub fn append_element<M: Memory>(
    mem: &mut M,
    place: Place,
    at: u32,
    element: &[u8],
) -> Result<(), MemFault>
    requires live { IsLive (M.places mem.old) place }
    requires within { at + 24 ≤ place.len }
    requires some { 1 ≤ length element.now }
    requires most { length element.now ≤ 24 }
    requires list { MayGrow (M.places mem.old) (length element.now) (list_slot (M.places mem.old) place at) }
    ensures appended { IfOk result (λ _. IsAppended (M.places mem.old) (M.places mem.new) place at element.now) }
    ensures space { IfOk result (λ _. used (M.places mem.new) ≡ used (M.places mem.old) + array_bytes (length element.now) (word_of 4 (list_slot (M.places mem.old) place at)) (word_of 4 (list_slot (M.places mem.old) place at) + 1)) }
    ensures grows { GrowsBy M.key M.places M.buffers M.blocks 1 mem.old mem.new }
    ensures unchanged { OnErr result (M.places mem.new ≡ M.places mem.old) }
    ensures spent { IfErr result (NamesFullRegion (M.blocks mem.new)) }
{
    let size = element.len() as u32;
    let (array, count) = room_for_one(mem, place, at, size)?;
    mem.write(array, count * size, element);
    let slot = place_slot(array, count + 1, ARRAY);
    mem.write(place, at, &slot);
    Ok(())
}
