// The lists of a message: how many elements there are, and lists of numbers.
ghost use Rattle.std.specs.Prelude.{◌≡◌, ◌+◌, ◌<◌, ◌^◌, ℕ, List, IfOk, IfErr, OnErr, Some, slice_get};
ghost use Rattle.arena_mem.specs.Grows.{Grows};
ghost use Rattle.arena_mem.specs.Places.{NamesFullRegion, used};
ghost use Rattle.pb_schema.specs.Kinds.{value_type_of, slot_of};
ghost use Rattle.pb_schema.specs.HeldAt.{field_at};
ghost use Rattle.pb_schema.specs.Meter.{array_bytes};
ghost use Rattle.pb_schema.specs.Tree.{Shape, Number};
ghost use Rattle.dyn_message.specs.Feet.{Foot};
ghost use Rattle.dyn_message.specs.Stands.{Stands};
ghost use Rattle.dyn_message.specs.Changes.{Changes, NowStands};
ghost use Rattle.dyn_message.specs.Fields.{IsMessageIn};
ghost use Rattle.dyn_message.specs.Lists.{HasList, HasNumbers, ListsNumber, HasFewer, HasMore, count_at, elements_at, element_bytes, with_appended};

use crate::by_entry::{append_scalar_by, list_by};
use crate::fields::{entry_in, record_is_there};
use crate::msg_ref::MsgRef;
use crate::rooms::list_at;
use crate::scalar::number_at;
use arena_mem::{MemFault, Memory};
use msg_layout::single_bytes;
use msg_layout::tables::Layouts;

/// How many elements the list at this field has.
#[inline]
pub fn count<M: Memory>(mem: &M, types: &Layouts, msg: MsgRef, field: u32) -> u32
    requires message { IsMessageIn types.now (M.places mem.now) (M.buffers mem.now) msg }
    requires field { HasList types.now msg.type_no field }
    ensures { (t : Shape) (feet : List Foot) → Stands types.now (M.places mem.now) (M.buffers mem.now) msg t feet → result ≡ count_at types.now msg.type_no field t }
{
    record_is_there(mem, types, msg);
    let entry = entry_in(types, msg.type_no, field);
    list_at(mem.read(msg.place), entry.slot).1
}

/// Appends the number with this bit pattern, which is one of the field's kind, to a list of fewer than 2^26 elements.
pub fn append_scalar<M: Memory>(
    mem: &mut M,
    types: &Layouts,
    msg: MsgRef,
    field: u32,
    bits: u64,
) -> Result<(), MemFault>
    requires message { IsMessageIn types.now (M.places mem.old) (M.buffers mem.old) msg }
    requires field { ListsNumber types.now msg.type_no field bits }
    requires few { HasFewer types.now (M.places mem.old) (M.buffers mem.old) msg field }
    ensures appended { IfOk result (λ _. (t : Shape) (feet : List Foot) → Stands types.now (M.places mem.old) (M.buffers mem.old) msg t feet
        → NowStands types.now (M.places mem.old) (M.buffers mem.old) (M.places mem.new) (M.buffers mem.new) msg (with_appended types.now msg.type_no field (Number bits) t) feet) }
    ensures space { IfOk result (λ _. (t : Shape) (feet : List Foot) → Stands types.now (M.places mem.old) (M.buffers mem.old) msg t feet
        → used (M.places mem.new) ≡ used (M.places mem.old) + array_bytes (element_bytes types.now msg.type_no field) (count_at types.now msg.type_no field t) (count_at types.now msg.type_no field t + 1)) }
    ensures changes { (t : Shape) (feet : List Foot) → Stands types.now (M.places mem.old) (M.buffers mem.old) msg t feet → Changes M.key M.places M.buffers M.blocks 1 0 feet mem.old mem.new }
    ensures buffers { M.buffers mem.new ≡ M.buffers mem.old }
    ensures unchanged { OnErr result (M.places mem.new ≡ M.places mem.old) }
    ensures spent { IfErr result (NamesFullRegion (M.blocks mem.new)) }
{
    record_is_there(mem, types, msg);
    let entry = entry_in(types, msg.type_no, field);
    let (array, count) = list_by(mem, types, msg, field, entry);
    append_scalar_by(mem, types, msg, field, entry, array, count, bits)?;
    Ok(())
}

/// The number at this index of a list.
#[inline]
pub fn element_scalar<M: Memory>(
    mem: &M,
    types: &Layouts,
    msg: MsgRef,
    field: u32,
    index: u32,
) -> u64
    requires message { IsMessageIn types.now (M.places mem.now) (M.buffers mem.now) msg }
    requires field { HasNumbers types.now msg.type_no field }
    requires index { HasMore types.now (M.places mem.now) (M.buffers mem.now) msg field index }
    ensures { (t : Shape) (feet : List Foot) → Stands types.now (M.places mem.now) (M.buffers mem.now) msg t feet
        → slice_get (elements_at types.now msg.type_no field t) index ≡ Some (Number result) }
{
    record_is_there(mem, types, msg);
    let entry = entry_in(types, msg.type_no, field);
    let (array, _) = list_at(mem.read(msg.place), entry.slot);
    let size = single_bytes(entry.field.kind);
    number_at(mem.read(array), index * size, entry.field.kind)
}
