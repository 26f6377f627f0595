// Lists of texts and bytes.
ghost use Rattle.std.specs.Prelude.{◌≡◌, ◌+◌, ◌<◌, ◌≤◌, ◌^◌, ℕ, List, length, IfOk, IfErr, OnErr, Some, slice_get};
ghost use Rattle.std.specs.FinMap as fin;
ghost use Rattle.arena_mem.specs.Places.{NamesFullRegion, used};
ghost use Rattle.pb_schema.specs.Meter.{array_bytes, string_bytes, cleanups};
ghost use Rattle.pb_schema.specs.Tree.{Shape, Bytes};
ghost use Rattle.dyn_message.specs.Feet.{Foot};
ghost use Rattle.dyn_message.specs.Stands.{Stands};
ghost use Rattle.dyn_message.specs.Changes.{Changes, NowStands};
ghost use Rattle.dyn_message.specs.Fields.{IsMessageIn};
ghost use Rattle.dyn_message.specs.Lists.{HasStrings, ListsBytes, HasFewer, HasMore, count_at, elements_at, with_appended};

use crate::fields::{entry_in, record_is_there};
use crate::msg_ref::MsgRef;
use crate::rooms::{append_element, list_at};
use crate::strings::{bytes_in, keep_bytes, slot_at};
use arena_mem::{MemFault, Memory};
use msg_layout::tables::Layouts;

/// Appends these bytes, which are fewer than 2^31, and UTF-8 where they are a text, to a list of fewer than 2^26 elements.
pub fn append_bytes<M: Memory>(
    mem: &mut M,
    types: &Layouts,
    msg: MsgRef,
    field: u32,
    bytes: &[u8],
) -> Result<(), MemFault>
    requires message { IsMessageIn types.now (M.places mem.old) (M.buffers mem.old) msg }
    requires field { ListsBytes types.now msg.type_no field bytes.now }
    requires short { length bytes.now < 2 ^ 31 }
    requires few { HasFewer types.now (M.places mem.old) (M.buffers mem.old) msg field }
    ensures appended { IfOk result (λ _. (t : Shape) (feet : List Foot) → Stands types.now (M.places mem.old) (M.buffers mem.old) msg t feet
        → NowStands types.now (M.places mem.old) (M.buffers mem.old) (M.places mem.new) (M.buffers mem.new) msg (with_appended types.now msg.type_no field (Bytes bytes.now) t) feet) }
    ensures space { IfOk result (λ _. (t : Shape) (feet : List Foot) → Stands types.now (M.places mem.old) (M.buffers mem.old) msg t feet
        → used (M.places mem.new) ≡ used (M.places mem.old) + string_bytes (length bytes.now) + array_bytes 24 (count_at types.now msg.type_no field t) (count_at types.now msg.type_no field t + 1)) }
    ensures kept { IfOk result (λ _. fin.len (M.buffers mem.new) ≡ fin.len (M.buffers mem.old) + cleanups.bytes (length bytes.now)) }
    ensures stands { OnErr result ((t : Shape) (feet : List Foot) → Stands types.now (M.places mem.old) (M.buffers mem.old) msg t feet → Stands types.now (M.places mem.new) (M.buffers mem.new) msg t feet) }
    ensures changes { (t : Shape) (feet : List Foot) → Stands types.now (M.places mem.old) (M.buffers mem.old) msg t feet → Changes M.key M.places M.buffers M.blocks 2 1 feet mem.old mem.new }
    ensures spent { IfErr result (NamesFullRegion (M.blocks mem.new)) }
{
    record_is_there(mem, types, msg);
    let entry = entry_in(types, msg.type_no, field);
    let element = keep_bytes(mem, bytes)?;
    append_element(mem, msg.place, entry.slot, &element)?;
    Ok(())
}

/// Lends the bytes at this index of a list, where they lie.
#[inline]
pub fn element_bytes<'a, M: Memory>(
    mem: &'a M,
    types: &Layouts,
    msg: MsgRef,
    field: u32,
    index: u32,
) -> &'a [u8]
    requires message { IsMessageIn types.now (M.places mem.now) (M.buffers mem.now) msg }
    requires field { HasStrings types.now msg.type_no field }
    requires index { HasMore types.now (M.places mem.now) (M.buffers mem.now) msg field index }
    ensures { (t : Shape) (feet : List Foot) → Stands types.now (M.places mem.now) (M.buffers mem.now) msg t feet
        → slice_get (elements_at types.now msg.type_no field t) index ≡ Some (Bytes result.now) }
{
    record_is_there(mem, types, msg);
    let entry = entry_in(types, msg.type_no, field);
    let (array, _) = list_at(mem.read(msg.place), entry.slot);
    bytes_in(mem, slot_at(mem.read(array), index * 24))
}
