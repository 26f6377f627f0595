// Messages in fields of messages.
ghost use Rattle.std.specs.Prelude.{◌≡◌, ◌≤◌, ◌<◌, ◌+◌, ◌∷◌, ◌^◌, [], ℕ, List, Some, false, length, map, take, IfOk, IfErr, OnErr, MatchOption};
ghost use Rattle.std.specs.FinMap as fin;
ghost use Rattle.arena_mem.specs.Places.{IsLive, NamesFullRegion, used};
ghost use Rattle.pb_schema.specs.Tree.{Shape, Nothing, One, Sub};
ghost use Rattle.pb_schema.specs.Kinds.{Nested, value_type_of};
ghost use Rattle.pb_schema.specs.HeldAt.{held_at, with_held};
ghost use Rattle.msg_layout.specs.Layout.{layout_of};
ghost use Rattle.msg_layout.specs.Slots.{slot_bytes};
ghost use Rattle.msg_layout.specs.Sound.{MarkWithin};
ghost use Rattle.dyn_message.specs.Feet.{Foot, InPlace, Separate};
ghost use Rattle.dyn_message.specs.Slots.{part, place_in};
ghost use Rattle.dyn_message.specs.Stands.{Stands};
ghost use Rattle.dyn_message.specs.Changes.{Changes, NowStands};
ghost use Rattle.dyn_message.specs.Links.{HasMadeSub, HasSub, IsLinked, IsLinkRead, IsUnlinked, LinksTo, link_set, made_bytes};
ghost use Rattle.dyn_message.specs.Fields.{IsMessageIn, HasMessage, IsMessageType};

use crate::fields::{entry_in, is_set, record_is_there};
use crate::message::create;
use crate::msg_ref::MsgRef;
use crate::rewrite::{mark_set, set_slot, take_away};
use crate::slot::{link_at, link_slot};
use arena_mem::{MemFault, Memory, Place};
use msg_layout::Entry;
use msg_layout::tables::Layouts;
use pb_schema::Kind;

/// The message that this one holds at the field; none where it holds none.
#[inline]
pub fn sub<M: Memory>(mem: &M, types: &Layouts, msg: MsgRef, field: u32) -> Option<MsgRef>
    requires message { IsMessageIn types.now (M.places mem.now) (M.buffers mem.now) msg }
    requires field { HasMessage types.now msg.type_no field }
    ensures { (t : Shape) (feet : List Foot) → Stands types.now (M.places mem.now) (M.buffers mem.now) msg t feet
        → MatchOption result (held_at types.now msg.type_no field t ≡ Nothing) (λ child. HasSub types.now (M.places mem.now) (M.buffers mem.now) msg t feet field child) }
{
    record_is_there(mem, types, msg);
    let entry = entry_in(types, msg.type_no, field);
    child_at(mem, msg.place, entry)
}

/// Links a message in the field, which has its type. The two share no place or buffer. It takes no memory.
pub fn link_sub<M: Memory>(mem: &mut M, types: &Layouts, msg: MsgRef, field: u32, child: MsgRef)
    requires stand { (t : Shape) × (feet : List Foot) × (u : Shape) × (own : List Foot)
        × Stands types.now (M.places mem.old) (M.buffers mem.old) msg t feet
        × Stands types.now (M.places mem.old) (M.buffers mem.old) child u own × Separate own feet }
    requires field { LinksTo types.now msg.type_no field child.type_no }
    ensures linked { (t : Shape) (feet : List Foot) (u : Shape) (own : List Foot)
        → Stands types.now (M.places mem.old) (M.buffers mem.old) msg t feet
        → Stands types.now (M.places mem.old) (M.buffers mem.old) child u own → Separate own feet
        → IsLinked types.now (M.places mem.new) (M.buffers mem.new) msg (with_held types.now msg.type_no field (One (Sub u)) t) feet own field child }
    ensures changes { Changes M.key M.places M.buffers M.blocks 0 0 (InPlace msg.place ∷ []) mem.old mem.new }
    ensures space { used (M.places mem.new) ≡ used (M.places mem.old) }
    ensures buffers { M.buffers mem.new ≡ M.buffers mem.old }
{
    record_is_there(mem, types, msg);
    let entry = entry_in(types, msg.type_no, field);
    mark_set(mem, types.of_type(msg.type_no), msg.place, entry);
    set_slot(mem, msg.place, entry.slot, &link_slot(child.place));
}

/// Takes the message out of the field, which is unset then; none where it was unset before. It takes no memory.
pub fn unlink_sub<M: Memory>(
    mem: &mut M,
    types: &Layouts,
    msg: MsgRef,
    field: u32,
) -> Option<MsgRef>
    requires message { IsMessageIn types.now (M.places mem.old) (M.buffers mem.old) msg }
    requires field { HasMessage types.now msg.type_no field }
    ensures unlinked { (t : Shape) (feet : List Foot) → Stands types.now (M.places mem.old) (M.buffers mem.old) msg t feet
        → MatchOption result
        ((held_at types.now msg.type_no field t ≡ Nothing) × NowStands types.now (M.places mem.old) (M.buffers mem.old) (M.places mem.new) (M.buffers mem.new) msg t feet)
        (λ child. IsUnlinked types.now (M.places mem.new) (M.buffers mem.new) msg t feet field child) }
    ensures changes { Changes M.key M.places M.buffers M.blocks 0 0 (InPlace msg.place ∷ []) mem.old mem.new }
    ensures space { used (M.places mem.new) ≡ used (M.places mem.old) }
    ensures buffers { M.buffers mem.new ≡ M.buffers mem.old }
{
    record_is_there(mem, types, msg);
    let entry = entry_in(types, msg.type_no, field);
    match child_at(mem, msg.place, entry) {
        Some(child) => {
            take_away(mem, types.of_type(msg.type_no), msg.place, entry);
            Some(child)
        }
        None => None,
    }
}

/// The message that this one holds at the field, or an empty one that is made and linked there.
pub fn make_sub<M: Memory>(
    mem: &mut M,
    types: &Layouts,
    msg: MsgRef,
    field: u32,
) -> Result<MsgRef, MemFault>
    requires message { IsMessageIn types.now (M.places mem.old) (M.buffers mem.old) msg }
    requires field { HasMessage types.now msg.type_no field }
    ensures made { IfOk result (λ child. (t : Shape) (feet : List Foot) → Stands types.now (M.places mem.old) (M.buffers mem.old) msg t feet
        → HasMadeSub types.now (M.places mem.old) (M.buffers mem.old) (M.places mem.new) (M.buffers mem.new) msg t feet field child) }
    ensures space { IfOk result (λ child. (t : Shape) (feet : List Foot) → Stands types.now (M.places mem.old) (M.buffers mem.old) msg t feet
        → used (M.places mem.new) ≡ used (M.places mem.old) + made_bytes (layout_of types.now child.type_no).size (held_at types.now msg.type_no field t)) }
    ensures changes { Changes M.key M.places M.buffers M.blocks 1 0 (InPlace msg.place ∷ []) mem.old mem.new }
    ensures buffers { M.buffers mem.new ≡ M.buffers mem.old }
    ensures unchanged { OnErr result (M.places mem.new ≡ M.places mem.old) }
    ensures spent { IfErr result (NamesFullRegion (M.blocks mem.new)) }
{
    record_is_there(mem, types, msg);
    let entry = entry_in(types, msg.type_no, field);
    match child_at(mem, msg.place, entry) {
        Some(child) => Ok(child),
        None => {
            let child = create(mem, types, type_of_messages(entry.field.kind))?;
            link_sub(mem, types, msg, field, child);
            Ok(child)
        }
    }
}

// The message that the slot of a field names; none where the field is unset.
#[inline]
fn child_at<M: Memory>(mem: &M, place: Place, entry: Entry) -> Option<MsgRef>
    requires live { IsLive (M.places mem.now) place }
    requires within { entry.slot + 16 ≤ place.len }
    requires mark { MarkWithin place.len entry.mark }
    requires small { place.len ≤ 2 ^ 25 }
    requires size { slot_bytes entry.field ≡ 16 }
    requires kind { IsMessageType (value_type_of entry.field.kind) }
    ensures { (bytes : List ℕ) → fin.get (M.places mem.now) place ≡ Some bytes
        → MatchOption result (link_set entry bytes ≡ false) (IsLinkRead entry bytes) }
{
    let record = mem.read(place);
    let named = link_at(record, entry.slot);
    if is_set(record, entry, named.len != 0) {
        Some(MsgRef {
            place: named,
            type_no: type_of_messages(entry.field.kind),
        })
    } else {
        None
    }
}

/// The number of the type of a field's messages.
pub fn type_of_messages(kind: Kind) -> u32
    requires { IsMessageType (value_type_of kind) }
    ensures { value_type_of kind ≡ Nested result }
{
    match kind {
        Kind::Message(type_no) => type_no,
        _ => unreachable!(),
    }
}
