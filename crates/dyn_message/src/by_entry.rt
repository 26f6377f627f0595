// Numbers of messages by the entries of their fields, for callers that have looked the entry up.
ghost use Rattle.std.specs.Prelude.{◌≡◌, ◌≤◌, ◌<◌, ◌+◌, ◌∷◌, [], ℕ, List, Some, length, IfOk, IfErr, OnErr};
ghost use Rattle.arena_mem.specs.Grows.{Grows};
ghost use Rattle.arena_mem.specs.Places.{IsLive, NamesFullRegion, used};
ghost use Rattle.pb_schema.specs.HeldAt.{field_at, with_held};
ghost use Rattle.pb_schema.specs.Meter.{array_bytes};
ghost use Rattle.pb_schema.specs.Tree.{Shape, Number};
ghost use Rattle.msg_layout.specs.Layout.{layout_of, entry_of, entry_among};
ghost use Rattle.msg_layout.specs.Sound.{FitsIn};
ghost use Rattle.dyn_message.specs.Feet.{Foot, InPlace};
ghost use Rattle.dyn_message.specs.Slots.{word as word_of, place_in};
ghost use Rattle.dyn_message.specs.Stands.{Stands};
ghost use Rattle.dyn_message.specs.Changes.{Changes, NowStands};
ghost use Rattle.dyn_message.specs.Fields.{IsMessageIn, TakesNumber, number_put};
ghost use Rattle.dyn_message.specs.Lists.{HasList, ListsNumber, count_at, element_bytes, with_appended};
ghost use Rattle.dyn_message.specs.Arrays.{most_elements};
ghost use Rattle.dyn_message.specs.Rooms.{IsListAt, IsRoom, MayGrow, list_slot};

use crate::fields::record_is_there;
use crate::msg_ref::MsgRef;
use crate::rewrite::{mark_set, set_number};
use crate::rooms::{is_full, list_at, room_for_one};
use crate::slot::{ARRAY, place_slot};
use arena_mem::{MemFault, Memory, Place};
use msg_layout::tables::Layouts;
use msg_layout::{Entry, single_bytes};

// A law: what a field's entry says of the field, and that its slot and mark lie in the record.
#[inline]
fn entry_is_there(types: &Layouts, type_no: u32, field: u32, entry: Entry)
    requires known { type_no < length types.now.types }
    requires entry { entry_of types.now type_no field ≡ Some entry }
    ensures again { entry_among (layout_of types.now type_no).entries entry.field.number ≡ Some entry }
    ensures number { entry.field.number ≡ field }
    ensures field { field_at types.now type_no field ≡ Some entry.field }
    ensures fits { FitsIn (layout_of types.now type_no) entry }
{
    let _schema = types.schema();
}

/// Sets a field as [`set_scalar`](crate::set_scalar) does, by its entry.
#[inline(always)]
pub fn set_scalar_by<M: Memory>(
    mem: &mut M,
    types: &Layouts,
    msg: MsgRef,
    field: u32,
    entry: Entry,
    bits: u64,
)
    requires message { IsMessageIn types.now (M.places mem.old) (M.buffers mem.old) msg }
    requires entry { entry_of types.now msg.type_no field ≡ Some entry }
    requires field { TakesNumber types.now msg.type_no field bits }
    ensures set { (t : Shape) (feet : List Foot) → Stands types.now (M.places mem.old) (M.buffers mem.old) msg t feet
        → NowStands types.now (M.places mem.old) (M.buffers mem.old) (M.places mem.new) (M.buffers mem.new) msg
        (with_held types.now msg.type_no field (number_put types.now msg.type_no field bits) t) feet }
    ensures changes { Changes M.key M.places M.buffers M.blocks 0 0 (InPlace msg.place ∷ []) mem.old mem.new }
    ensures space { used (M.places mem.new) ≡ used (M.places mem.old) }
    ensures buffers { M.buffers mem.new ≡ M.buffers mem.old }
{
    record_is_there(mem, types, msg);
    entry_is_there(types, msg.type_no, field, entry);
    mark_set(mem, types.of_type(msg.type_no), msg.place, entry);
    set_number(mem, msg.place, entry.slot, entry.field.kind, bits);
}

/// Where the elements of the list of this entry lie, and how many there are, for [`append_scalar_by`].
#[inline(always)]
pub fn list_by<M: Memory>(
    mem: &M,
    types: &Layouts,
    msg: MsgRef,
    field: u32,
    entry: Entry,
) -> (Place, u32)
    requires message { IsMessageIn types.now (M.places mem.now) (M.buffers mem.now) msg }
    requires entry { entry_of types.now msg.type_no field ≡ Some entry }
    requires field { HasList types.now msg.type_no field }
    ensures told { IsListAt (M.places mem.now) msg.place entry.slot result.0 result.1 }
{
    record_is_there(mem, types, msg);
    entry_is_there(types, msg.type_no, field, entry);
    list_at(mem.read(msg.place), entry.slot)
}

/// Appends a number to a list of fewer than 2^26 elements as [`append_scalar`](crate::append_scalar) does, by the list's
/// entry and by what its slot says now: where its elements lie, and how many there are. It answers where they lie then.
#[inline(always)]
pub fn append_scalar_by<M: Memory>(
    mem: &mut M,
    types: &Layouts,
    msg: MsgRef,
    field: u32,
    entry: Entry,
    array: Place,
    count: u32,
    bits: u64,
) -> Result<Place, MemFault>
    requires message { IsMessageIn types.now (M.places mem.old) (M.buffers mem.old) msg }
    requires entry { entry_of types.now msg.type_no field ≡ Some entry }
    requires field { ListsNumber types.now msg.type_no field bits }
    requires told { IsListAt (M.places mem.old) msg.place entry.slot array count }
    requires few { count < most_elements }
    ensures appended { IfOk result (λ _. (t : Shape) (feet : List Foot) → Stands types.now (M.places mem.old) (M.buffers mem.old) msg t feet
        → NowStands types.now (M.places mem.old) (M.buffers mem.old) (M.places mem.new) (M.buffers mem.new) msg (with_appended types.now msg.type_no field (Number bits) t) feet) }
    ensures space { IfOk result (λ _. (t : Shape) (feet : List Foot) → Stands types.now (M.places mem.old) (M.buffers mem.old) msg t feet
        → used (M.places mem.new) ≡ used (M.places mem.old) + array_bytes (element_bytes types.now msg.type_no field) (count_at types.now msg.type_no field t) (count_at types.now msg.type_no field t + 1)) }
    ensures told { IfOk result (λ next. IsListAt (M.places mem.new) msg.place entry.slot next (count + 1)) }
    ensures changes { (t : Shape) (feet : List Foot) → Stands types.now (M.places mem.old) (M.buffers mem.old) msg t feet → Changes M.key M.places M.buffers M.blocks 1 0 feet mem.old mem.new }
    ensures buffers { M.buffers mem.new ≡ M.buffers mem.old }
    ensures unchanged { OnErr result (M.places mem.new ≡ M.places mem.old) }
    ensures spent { IfErr result (NamesFullRegion (M.blocks mem.new)) }
{
    record_is_there(mem, types, msg);
    entry_is_there(types, msg.type_no, field, entry);
    let size = single_bytes(entry.field.kind);
    let next = room_behind(mem, msg.place, entry.slot, size, array, count)?;
    set_number(mem, next, count * size, entry.field.kind, bits);
    let slot = place_slot(next, count + 1, ARRAY);
    mem.write(msg.place, entry.slot, &slot);
    Ok(next)
}

// Makes room as `room_for_one` does, where what the slot says is known: mostly there is room.
#[inline(always)]
fn room_behind<M: Memory>(
    mem: &mut M,
    place: Place,
    at: u32,
    size: u32,
    array: Place,
    count: u32,
) -> Result<Place, MemFault>
    requires live { IsLive (M.places mem.old) place }
    requires within { at + 24 ≤ place.len }
    requires some { 1 ≤ size }
    requires most { size ≤ 24 }
    requires list { MayGrow (M.places mem.old) size (list_slot (M.places mem.old) place at) }
    requires told { IsListAt (M.places mem.old) place at array count }
    ensures made { IfOk result (λ next. IsRoom (M.places mem.old) (M.places mem.new) size (list_slot (M.places mem.old) place at) count next) }
    ensures space { IfOk result (λ _. used (M.places mem.new) ≡ used (M.places mem.old) + array_bytes size count (count + 1)) }
    ensures grows { Grows M.key M.places M.buffers M.blocks 1 0 mem.old mem.new }
    ensures buffers { M.buffers mem.new ≡ M.buffers mem.old }
    ensures unchanged { OnErr result (M.places mem.new ≡ M.places mem.old) }
    ensures spent { IfErr result (NamesFullRegion (M.blocks mem.new)) }
{
    if count == 0 || is_full(array.len, count, size) {
        let (next, _) = room_for_one(mem, place, at, size)?;
        return Ok(next);
    }
    Ok(array)
}
