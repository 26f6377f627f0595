// Lists of messages.
ghost use Rattle.std.specs.Prelude.{◌≡◌, ◌+◌, ◌<◌, ℕ, List, IfOk, IfErr, OnErr};
ghost use Rattle.arena_mem.specs.Places.{NamesFullRegion, used};
ghost use Rattle.pb_schema.specs.Meter.{array_bytes};
ghost use Rattle.pb_schema.specs.Tree.{Shape};
ghost use Rattle.msg_layout.specs.Layout.{layout_of};
ghost use Rattle.dyn_message.specs.Feet.{Foot};
ghost use Rattle.dyn_message.specs.Stands.{Stands};
ghost use Rattle.dyn_message.specs.Changes.{Changes};
ghost use Rattle.dyn_message.specs.Fields.{IsMessageIn};
ghost use Rattle.dyn_message.specs.Lists.{HasAppended, HasElement, HasFewer, HasMessages, HasMore, count_at};

use crate::fields::{entry_in, record_is_there};
use crate::links::type_of_messages;
use crate::message::create;
use crate::msg_ref::MsgRef;
use crate::rooms::{append_element, list_at};
use crate::slot::{link_at, link_slot};
use arena_mem::{MemFault, Memory};
use msg_layout::tables::Layouts;

/// Appends an empty message to a list of fewer than 2^26 elements, and answers it.
pub fn append_sub<M: Memory>(
    mem: &mut M,
    types: &Layouts,
    msg: MsgRef,
    field: u32,
) -> Result<MsgRef, MemFault>
    requires message { IsMessageIn types.now (M.places mem.old) (M.buffers mem.old) msg }
    requires field { HasMessages types.now msg.type_no field }
    requires few { HasFewer types.now (M.places mem.old) (M.buffers mem.old) msg field }
    ensures appended { IfOk result (λ child. (t : Shape) (feet : List Foot) → Stands types.now (M.places mem.old) (M.buffers mem.old) msg t feet
        → HasAppended types.now (M.places mem.old) (M.buffers mem.old) (M.places mem.new) (M.buffers mem.new) msg t feet field child) }
    ensures space { IfOk result (λ child. (t : Shape) (feet : List Foot) → Stands types.now (M.places mem.old) (M.buffers mem.old) msg t feet
        → used (M.places mem.new) ≡ used (M.places mem.old) + (layout_of types.now child.type_no).size + array_bytes 16 (count_at types.now msg.type_no field t) (count_at types.now msg.type_no field t + 1)) }
    ensures stands { OnErr result ((t : Shape) (feet : List Foot) → Stands types.now (M.places mem.old) (M.buffers mem.old) msg t feet → Stands types.now (M.places mem.new) (M.buffers mem.new) msg t feet) }
    ensures changes { (t : Shape) (feet : List Foot) → Stands types.now (M.places mem.old) (M.buffers mem.old) msg t feet → Changes M.key M.places M.buffers M.blocks 2 0 feet mem.old mem.new }
    ensures buffers { M.buffers mem.new ≡ M.buffers mem.old }
    ensures spent { IfErr result (NamesFullRegion (M.blocks mem.new)) }
{
    record_is_there(mem, types, msg);
    let entry = entry_in(types, msg.type_no, field);
    let child = create(mem, types, type_of_messages(entry.field.kind))?;
    let element = link_slot(child.place);
    append_element(mem, msg.place, entry.slot, &element)?;
    Ok(child)
}

/// The message at this index of a list.
#[inline]
pub fn element_sub<M: Memory>(
    mem: &M,
    types: &Layouts,
    msg: MsgRef,
    field: u32,
    index: u32,
) -> MsgRef
    requires message { IsMessageIn types.now (M.places mem.now) (M.buffers mem.now) msg }
    requires field { HasMessages types.now msg.type_no field }
    requires index { HasMore types.now (M.places mem.now) (M.buffers mem.now) msg field index }
    ensures { (t : Shape) (feet : List Foot) → Stands types.now (M.places mem.now) (M.buffers mem.now) msg t feet
        → HasElement types.now (M.places mem.now) (M.buffers mem.now) msg t feet field index result }
{
    record_is_there(mem, types, msg);
    let entry = entry_in(types, msg.type_no, field);
    let (array, _) = list_at(mem.read(msg.place), entry.slot);
    MsgRef {
        place: link_at(mem.read(array), index * 16),
        type_no: type_of_messages(entry.field.kind),
    }
}
