// The walk that merges a message into one of another memory: field by field, and then its unknown bytes.
ghost use Rattle.std.specs.Prelude.{◌≡◌, ◌+◌, ◌*◌, ◌<◌, ◌≤◌, ℕ, List, Some, slice_get, IfOk, IfErr};
ghost use Rattle.std.specs.FinMap as fin;
ghost use Rattle.arena_mem.specs.Places.{NamesFullRegion, used};
ghost use Rattle.pb_schema.specs.Cards.{is_repeated};
ghost use Rattle.pb_schema.specs.HeldAt.{field_at};
ghost use Rattle.pb_schema.specs.Kinds.{value_type_of};
ghost use Rattle.pb_schema.specs.Merge.{shape_merge};
ghost use Rattle.pb_schema.specs.MergeCost.{merge_cost, value_merge_cost};
ghost use Rattle.pb_schema.specs.Meter.{array_bytes, cleanups};
ghost use Rattle.pb_schema.specs.Tree.{Shape, ValueWith, Nothing};
ghost use Rattle.pb_schema.specs.Units.{value_units};
ghost use Rattle.dyn_message.specs.Changes.{Changes, NowStands};
ghost use Rattle.dyn_message.specs.Feet.{Foot};
ghost use Rattle.dyn_message.specs.Fields.{IsMessageIn, IsMessageType};
ghost use Rattle.dyn_message.specs.Lists.{HasMore, count_at, elements_at, with_appended};
ghost use Rattle.dyn_message.specs.Stands.{IsList, IsSingle, Stands};
ghost use Rattle.msg_merge.specs.Across.{ForBoth, field_cost, field_into, field_units, inner_units, record_meter};
ghost use Rattle.msg_merge.specs.Extents.{pieces_bytes};

use crate::values::{
    MOST_ELEMENTS, append_numbers, append_pieces, append_strings, put_bytes, put_number,
};
use arena_mem::{MemFault, Memory};
use dyn_message::{MsgRef, append_sub, count, element_sub, make_sub, sub};
use msg_layout::tables::Layouts;
use pb_schema::{Card, FieldType, Kind};

/// More levels than any memory has place for.
pub(crate) const MOST_LEVELS: u32 = u32::MAX;

/// Merges a message in which messages nest at most `left` levels deep; a deeper one is refused as want of memory.
#[cycle(merge)]
pub(crate) fn merge_message<M: Memory, N: Memory>(
    to_mem: &mut M,
    types: &Layouts,
    to: MsgRef,
    from_mem: &N,
    from: MsgRef,
    left: u32,
) -> Result<(), MemFault>
    requires to { IsMessageIn types.now (M.places to_mem.old) (M.buffers to_mem.old) to }
    requires from { IsMessageIn types.now (N.places from_mem.now) (N.buffers from_mem.now) from }
    requires same { from.type_no ≡ to.type_no }
    ensures merged { IfOk result (λ _. ForBoth types.now (M.places to_mem.old) (M.buffers to_mem.old) to (N.places from_mem.now) (N.buffers from_mem.now) from (λ t feet u. NowStands types.now (M.places to_mem.old) (M.buffers to_mem.old) (M.places to_mem.new) (M.buffers to_mem.new) to (shape_merge types.now to.type_no t u) feet)) }
    ensures space { IfOk result (λ _. ForBoth types.now (M.places to_mem.old) (M.buffers to_mem.old) to (N.places from_mem.now) (N.buffers from_mem.now) from (λ t feet u. used (M.places to_mem.new) ≡ used (M.places to_mem.old) + merge_cost (record_meter types.now) types.now to.type_no t u)) }
    ensures kept { IfOk result (λ _. ForBoth types.now (M.places to_mem.old) (M.buffers to_mem.old) to (N.places from_mem.now) (N.buffers from_mem.now) from (λ t feet u. fin.len (M.buffers to_mem.new) ≡ fin.len (M.buffers to_mem.old) + merge_cost cleanups types.now to.type_no t u)) }
    ensures changes { ForBoth types.now (M.places to_mem.old) (M.buffers to_mem.old) to (N.places from_mem.now) (N.buffers from_mem.now) from (λ t feet u. Changes M.key M.places M.buffers M.blocks (4 * inner_units u) (4 * inner_units u) feet to_mem.old to_mem.new) }
    ensures spent { IfErr result (NamesFullRegion (M.blocks to_mem.new)) }
{
    let _schema = types.schema();
    let entries = types.of_type(to.type_no).entries();
    let mut i = 0;
    'fields: while i < entries.len() {
        match merge_field(to_mem, types, to, from_mem, from, entries[i].field, left) {
            Ok(()) => i += 1,
            Err(fault) => return Err(fault),
        }
    }
    append_pieces(to_mem, types, to, from_mem, from)
}

// Merges what the other message holds at a field.
#[cycle(merge)]
fn merge_field<M: Memory, N: Memory>(
    to_mem: &mut M,
    types: &Layouts,
    to: MsgRef,
    from_mem: &N,
    from: MsgRef,
    field: FieldType,
    left: u32,
) -> Result<(), MemFault>
    requires to { IsMessageIn types.now (M.places to_mem.old) (M.buffers to_mem.old) to }
    requires from { IsMessageIn types.now (N.places from_mem.now) (N.buffers from_mem.now) from }
    requires same { from.type_no ≡ to.type_no }
    requires known { field_at types.now to.type_no field.number ≡ Some field }
    ensures merged { IfOk result (λ _. ForBoth types.now (M.places to_mem.old) (M.buffers to_mem.old) to (N.places from_mem.now) (N.buffers from_mem.now) from (λ t feet u. NowStands types.now (M.places to_mem.old) (M.buffers to_mem.old) (M.places to_mem.new) (M.buffers to_mem.new) to (field_into types.now to.type_no field t u) feet)) }
    ensures space { IfOk result (λ _. ForBoth types.now (M.places to_mem.old) (M.buffers to_mem.old) to (N.places from_mem.now) (N.buffers from_mem.now) from (λ t feet u. used (M.places to_mem.new) ≡ used (M.places to_mem.old) + field_cost (record_meter types.now) types.now to.type_no field t u)) }
    ensures kept { IfOk result (λ _. ForBoth types.now (M.places to_mem.old) (M.buffers to_mem.old) to (N.places from_mem.now) (N.buffers from_mem.now) from (λ t feet u. fin.len (M.buffers to_mem.new) ≡ fin.len (M.buffers to_mem.old) + field_cost cleanups types.now to.type_no field t u)) }
    ensures changes { ForBoth types.now (M.places to_mem.old) (M.buffers to_mem.old) to (N.places from_mem.now) (N.buffers from_mem.now) from (λ t feet u. Changes M.key M.places M.buffers M.blocks (4 * field_units types.now to.type_no field u) (4 * field_units types.now to.type_no field u) feet to_mem.old to_mem.new) }
    ensures spent { IfErr result (NamesFullRegion (M.blocks to_mem.new)) }
{
    let listed = is_list(field.card);
    match field.kind {
        Kind::Message(_) if listed => {
            merge_elements(to_mem, types, to, from_mem, from, field, left)
        }
        Kind::Message(_) => merge_sub(to_mem, types, to, from_mem, from, field, left),
        Kind::Text | Kind::Bytes if listed => {
            append_strings(to_mem, types, to, from_mem, from, field)
        }
        Kind::Text | Kind::Bytes => put_bytes(to_mem, types, to, from_mem, from, field),
        _ if listed => append_numbers(to_mem, types, to, from_mem, from, field),
        _ => {
            put_number(to_mem, types, to, from_mem, from, field);
            Ok(())
        }
    }
}

// Whether a field of a card is a list.
#[inline]
fn is_list(card: Card) -> bool
    ensures { result ≡ is_repeated card }
{
    matches!(card, Card::Repeated { .. })
}

// Merges the one message of a field into the one that is there, or into an empty one that is made there.
#[cycle(merge)]
fn merge_sub<M: Memory, N: Memory>(
    to_mem: &mut M,
    types: &Layouts,
    to: MsgRef,
    from_mem: &N,
    from: MsgRef,
    field: FieldType,
    left: u32,
) -> Result<(), MemFault>
    requires to { IsMessageIn types.now (M.places to_mem.old) (M.buffers to_mem.old) to }
    requires from { IsMessageIn types.now (N.places from_mem.now) (N.buffers from_mem.now) from }
    requires same { from.type_no ≡ to.type_no }
    requires known { field_at types.now to.type_no field.number ≡ Some field }
    requires kind { IsMessageType (value_type_of field.kind) }
    requires single { IsSingle field.card }
    ensures merged { IfOk result (λ _. ForBoth types.now (M.places to_mem.old) (M.buffers to_mem.old) to (N.places from_mem.now) (N.buffers from_mem.now) from (λ t feet u. NowStands types.now (M.places to_mem.old) (M.buffers to_mem.old) (M.places to_mem.new) (M.buffers to_mem.new) to (field_into types.now to.type_no field t u) feet)) }
    ensures space { IfOk result (λ _. ForBoth types.now (M.places to_mem.old) (M.buffers to_mem.old) to (N.places from_mem.now) (N.buffers from_mem.now) from (λ t feet u. used (M.places to_mem.new) ≡ used (M.places to_mem.old) + field_cost (record_meter types.now) types.now to.type_no field t u)) }
    ensures kept { IfOk result (λ _. ForBoth types.now (M.places to_mem.old) (M.buffers to_mem.old) to (N.places from_mem.now) (N.buffers from_mem.now) from (λ t feet u. fin.len (M.buffers to_mem.new) ≡ fin.len (M.buffers to_mem.old) + field_cost cleanups types.now to.type_no field t u)) }
    ensures changes { ForBoth types.now (M.places to_mem.old) (M.buffers to_mem.old) to (N.places from_mem.now) (N.buffers from_mem.now) from (λ t feet u. Changes M.key M.places M.buffers M.blocks (4 * field_units types.now to.type_no field u) (4 * field_units types.now to.type_no field u) feet to_mem.old to_mem.new) }
    ensures spent { IfErr result (NamesFullRegion (M.blocks to_mem.new)) }
{
    let _schema = types.schema();
    let theirs = MsgRef {
        place: from.place,
        type_no: to.type_no,
    };
    let Some(source) = sub(from_mem, types, theirs, field.number) else {
        return Ok(());
    };
    if left == 0 {
        return Err(MemFault::NoMemory);
    }
    match make_sub(to_mem, types, to, field.number) {
        Ok(child) => merge_message(to_mem, types, child, from_mem, source, left - 1),
        Err(fault) => Err(fault),
    }
}

// Copies the messages of a list behind those that are there.
#[cycle(merge)]
fn merge_elements<M: Memory, N: Memory>(
    to_mem: &mut M,
    types: &Layouts,
    to: MsgRef,
    from_mem: &N,
    from: MsgRef,
    field: FieldType,
    left: u32,
) -> Result<(), MemFault>
    requires to { IsMessageIn types.now (M.places to_mem.old) (M.buffers to_mem.old) to }
    requires from { IsMessageIn types.now (N.places from_mem.now) (N.buffers from_mem.now) from }
    requires same { from.type_no ≡ to.type_no }
    requires known { field_at types.now to.type_no field.number ≡ Some field }
    requires kind { IsMessageType (value_type_of field.kind) }
    requires list { IsList field.card }
    ensures merged { IfOk result (λ _. ForBoth types.now (M.places to_mem.old) (M.buffers to_mem.old) to (N.places from_mem.now) (N.buffers from_mem.now) from (λ t feet u. NowStands types.now (M.places to_mem.old) (M.buffers to_mem.old) (M.places to_mem.new) (M.buffers to_mem.new) to (field_into types.now to.type_no field t u) feet)) }
    ensures space { IfOk result (λ _. ForBoth types.now (M.places to_mem.old) (M.buffers to_mem.old) to (N.places from_mem.now) (N.buffers from_mem.now) from (λ t feet u. used (M.places to_mem.new) ≡ used (M.places to_mem.old) + field_cost (record_meter types.now) types.now to.type_no field t u)) }
    ensures kept { IfOk result (λ _. ForBoth types.now (M.places to_mem.old) (M.buffers to_mem.old) to (N.places from_mem.now) (N.buffers from_mem.now) from (λ t feet u. fin.len (M.buffers to_mem.new) ≡ fin.len (M.buffers to_mem.old) + field_cost cleanups types.now to.type_no field t u)) }
    ensures changes { ForBoth types.now (M.places to_mem.old) (M.buffers to_mem.old) to (N.places from_mem.now) (N.buffers from_mem.now) from (λ t feet u. Changes M.key M.places M.buffers M.blocks (4 * field_units types.now to.type_no field u) (4 * field_units types.now to.type_no field u) feet to_mem.old to_mem.new) }
    ensures spent { IfErr result (NamesFullRegion (M.blocks to_mem.new)) }
{
    let _schema = types.schema();
    let theirs = MsgRef {
        place: from.place,
        type_no: to.type_no,
    };
    let len = count(from_mem, types, theirs, field.number);
    let mut i = 0;
    'elements: while i < len {
        match append_element(to_mem, types, to, from_mem, from, field, i, left) {
            Ok(()) => i += 1,
            Err(fault) => return Err(fault),
        }
    }
    Ok(())
}

// Copies the message at an index of a list behind those that are there.
#[cycle(merge)]
fn append_element<M: Memory, N: Memory>(
    to_mem: &mut M,
    types: &Layouts,
    to: MsgRef,
    from_mem: &N,
    from: MsgRef,
    field: FieldType,
    index: u32,
    left: u32,
) -> Result<(), MemFault>
    requires to { IsMessageIn types.now (M.places to_mem.old) (M.buffers to_mem.old) to }
    requires from { IsMessageIn types.now (N.places from_mem.now) (N.buffers from_mem.now) from }
    requires same { from.type_no ≡ to.type_no }
    requires known { field_at types.now to.type_no field.number ≡ Some field }
    requires kind { IsMessageType (value_type_of field.kind) }
    requires list { IsList field.card }
    requires index { (u : Shape) (own : List Foot) → Stands types.now (N.places from_mem.now) (N.buffers from_mem.now) from u own → index < count_at types.now to.type_no field.number u }
    ensures merged { IfOk result (λ _. ForBoth types.now (M.places to_mem.old) (M.buffers to_mem.old) to (N.places from_mem.now) (N.buffers from_mem.now) from (λ t feet u. (value : ValueWith (List (List ℕ))) → slice_get (elements_at types.now to.type_no field.number u) index ≡ Some value
        → NowStands types.now (M.places to_mem.old) (M.buffers to_mem.old) (M.places to_mem.new) (M.buffers to_mem.new) to (with_appended types.now to.type_no field.number value t) feet)) }
    ensures space { IfOk result (λ _. ForBoth types.now (M.places to_mem.old) (M.buffers to_mem.old) to (N.places from_mem.now) (N.buffers from_mem.now) from (λ t feet u. (value : ValueWith (List (List ℕ))) → slice_get (elements_at types.now to.type_no field.number u) index ≡ Some value
        → used (M.places to_mem.new) ≡ used (M.places to_mem.old) + value_merge_cost (record_meter types.now) types.now field Nothing value + array_bytes 16 (count_at types.now to.type_no field.number t) (count_at types.now to.type_no field.number t + 1))) }
    ensures kept { IfOk result (λ _. ForBoth types.now (M.places to_mem.old) (M.buffers to_mem.old) to (N.places from_mem.now) (N.buffers from_mem.now) from (λ t feet u. (value : ValueWith (List (List ℕ))) → slice_get (elements_at types.now to.type_no field.number u) index ≡ Some value
        → fin.len (M.buffers to_mem.new) ≡ fin.len (M.buffers to_mem.old) + value_merge_cost cleanups types.now field Nothing value)) }
    ensures changes { ForBoth types.now (M.places to_mem.old) (M.buffers to_mem.old) to (N.places from_mem.now) (N.buffers from_mem.now) from (λ t feet u. (value : ValueWith (List (List ℕ))) → slice_get (elements_at types.now to.type_no field.number u) index ≡ Some value
        → Changes M.key M.places M.buffers M.blocks (4 * value_units pieces_bytes value) (4 * value_units pieces_bytes value) feet to_mem.old to_mem.new) }
    ensures spent { IfErr result (NamesFullRegion (M.blocks to_mem.new)) }
{
    let _schema = types.schema();
    let theirs = MsgRef {
        place: from.place,
        type_no: to.type_no,
    };
    if left == 0 || count(to_mem, types, to, field.number) >= MOST_ELEMENTS {
        return Err(MemFault::NoMemory);
    }
    let source = element_sub(from_mem, types, theirs, field.number, index);
    match append_sub(to_mem, types, to, field.number) {
        Ok(child) => merge_message(to_mem, types, child, from_mem, source, left - 1),
        Err(fault) => Err(fault),
    }
}
