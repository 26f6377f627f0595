// What a message holds at a field of numbers, texts or bytes, and its unknown bytes, merged into another message.
ghost use Rattle.std.specs.Prelude.{◌≡◌, ◌+◌, ◌*◌, ◌≤◌, ◌<◌, ℕ, List, Some, length, IfOk, IfErr};
ghost use Rattle.std.specs.FinMap as fin;
ghost use Rattle.arena_mem.specs.Places.{NamesFullRegion, used};
ghost use Rattle.pb_schema.specs.HeldAt.{field_at};
ghost use Rattle.pb_schema.specs.Kinds.{value_type_of};
ghost use Rattle.pb_schema.specs.Meter.{cleanups};
ghost use Rattle.pb_schema.specs.ParseCost.{pieces_cost};
ghost use Rattle.dyn_message.specs.Changes.{Changes, NowStands};
ghost use Rattle.dyn_message.specs.Fields.{IsBytesType, IsMessageIn, IsNumberType};
ghost use Rattle.dyn_message.specs.Stands.{IsList, IsSingle};
ghost use Rattle.dyn_message.specs.Unknown.{pieces_of};
ghost use Rattle.msg_merge.specs.Across.{ForBoth, field_cost, field_into, field_units, record_meter};
ghost use Rattle.msg_merge.specs.Extents.{pieces_bytes};
ghost use Rattle.msg_merge.specs.Merging.{pieces_into};

use crate::lists::{merge_numbers, merge_pieces, merge_strings};
use arena_mem::{MemFault, Memory};
use dyn_message::{MsgRef, count, get_bytes, get_scalar, set_bytes, set_scalar, unknown_count};
use msg_layout::tables::Layouts;
use pb_schema::FieldType;

/// A message has at most so many pieces of unknown bytes, and a list so many elements.
pub(crate) const MOST_ELEMENTS: u32 = 1 << 26;

/// Sets a field to the number that the other message holds there. It takes no memory.
pub(crate) fn put_number<M: Memory, N: Memory>(
    to_mem: &mut M,
    types: &Layouts,
    to: MsgRef,
    from_mem: &N,
    from: MsgRef,
    field: FieldType,
)
    requires to { IsMessageIn types.now (M.places to_mem.old) (M.buffers to_mem.old) to }
    requires from { IsMessageIn types.now (N.places from_mem.now) (N.buffers from_mem.now) from }
    requires same { from.type_no ≡ to.type_no }
    requires known { field_at types.now to.type_no field.number ≡ Some field }
    requires number { IsNumberType (value_type_of field.kind) }
    requires single { IsSingle field.card }
    ensures merged { ForBoth types.now (M.places to_mem.old) (M.buffers to_mem.old) to (N.places from_mem.now) (N.buffers from_mem.now) from (λ t feet u. NowStands types.now (M.places to_mem.old) (M.buffers to_mem.old) (M.places to_mem.new) (M.buffers to_mem.new) to (field_into types.now to.type_no field t u) feet) }
    ensures space { ForBoth types.now (M.places to_mem.old) (M.buffers to_mem.old) to (N.places from_mem.now) (N.buffers from_mem.now) from (λ t feet u. used (M.places to_mem.new) ≡ used (M.places to_mem.old) + field_cost (record_meter types.now) types.now to.type_no field t u) }
    ensures kept { ForBoth types.now (M.places to_mem.old) (M.buffers to_mem.old) to (N.places from_mem.now) (N.buffers from_mem.now) from (λ t feet u. fin.len (M.buffers to_mem.new) ≡ fin.len (M.buffers to_mem.old) + field_cost cleanups types.now to.type_no field t u) }
    ensures changes { ForBoth types.now (M.places to_mem.old) (M.buffers to_mem.old) to (N.places from_mem.now) (N.buffers from_mem.now) from (λ t feet u. Changes M.key M.places M.buffers M.blocks (4 * field_units types.now to.type_no field u) (4 * field_units types.now to.type_no field u) feet to_mem.old to_mem.new) }
{
    let _schema = types.schema();
    let theirs = MsgRef {
        place: from.place,
        type_no: to.type_no,
    };
    let Some(bits) = get_scalar(from_mem, types, theirs, field.number) else {
        return;
    };
    set_scalar(to_mem, types, to, field.number, bits);
}

/// Sets a field to a copy of the text or bytes that the other message holds there.
pub(crate) fn put_bytes<M: Memory, N: Memory>(
    to_mem: &mut M,
    types: &Layouts,
    to: MsgRef,
    from_mem: &N,
    from: MsgRef,
    field: FieldType,
) -> Result<(), MemFault>
    requires to { IsMessageIn types.now (M.places to_mem.old) (M.buffers to_mem.old) to }
    requires from { IsMessageIn types.now (N.places from_mem.now) (N.buffers from_mem.now) from }
    requires same { from.type_no ≡ to.type_no }
    requires known { field_at types.now to.type_no field.number ≡ Some field }
    requires bytes { IsBytesType (value_type_of field.kind) }
    requires single { IsSingle field.card }
    ensures merged { IfOk result (λ _. ForBoth types.now (M.places to_mem.old) (M.buffers to_mem.old) to (N.places from_mem.now) (N.buffers from_mem.now) from (λ t feet u. NowStands types.now (M.places to_mem.old) (M.buffers to_mem.old) (M.places to_mem.new) (M.buffers to_mem.new) to (field_into types.now to.type_no field t u) feet)) }
    ensures space { IfOk result (λ _. ForBoth types.now (M.places to_mem.old) (M.buffers to_mem.old) to (N.places from_mem.now) (N.buffers from_mem.now) from (λ t feet u. used (M.places to_mem.new) ≡ used (M.places to_mem.old) + field_cost (record_meter types.now) types.now to.type_no field t u)) }
    ensures kept { IfOk result (λ _. ForBoth types.now (M.places to_mem.old) (M.buffers to_mem.old) to (N.places from_mem.now) (N.buffers from_mem.now) from (λ t feet u. fin.len (M.buffers to_mem.new) ≡ fin.len (M.buffers to_mem.old) + field_cost cleanups types.now to.type_no field t u)) }
    ensures changes { ForBoth types.now (M.places to_mem.old) (M.buffers to_mem.old) to (N.places from_mem.now) (N.buffers from_mem.now) from (λ t feet u. Changes M.key M.places M.buffers M.blocks (4 * field_units types.now to.type_no field u) (4 * field_units types.now to.type_no field u) feet to_mem.old to_mem.new) }
    ensures spent { IfErr result (NamesFullRegion (M.blocks to_mem.new)) }
{
    let _schema = types.schema();
    let theirs = MsgRef {
        place: from.place,
        type_no: to.type_no,
    };
    let Some(bytes) = get_bytes(from_mem, types, theirs, field.number) else {
        return Ok(());
    };
    set_bytes(to_mem, types, to, field.number, bytes)
}

/// Copies the numbers of a list behind those that are there.
pub(crate) fn append_numbers<M: Memory, N: Memory>(
    to_mem: &mut M,
    types: &Layouts,
    to: MsgRef,
    from_mem: &N,
    from: MsgRef,
    field: FieldType,
) -> Result<(), MemFault>
    requires to { IsMessageIn types.now (M.places to_mem.old) (M.buffers to_mem.old) to }
    requires from { IsMessageIn types.now (N.places from_mem.now) (N.buffers from_mem.now) from }
    requires same { from.type_no ≡ to.type_no }
    requires known { field_at types.now to.type_no field.number ≡ Some field }
    requires number { IsNumberType (value_type_of field.kind) }
    requires list { IsList field.card }
    ensures merged { IfOk result (λ _. ForBoth types.now (M.places to_mem.old) (M.buffers to_mem.old) to (N.places from_mem.now) (N.buffers from_mem.now) from (λ t feet u. NowStands types.now (M.places to_mem.old) (M.buffers to_mem.old) (M.places to_mem.new) (M.buffers to_mem.new) to (field_into types.now to.type_no field t u) feet)) }
    ensures space { IfOk result (λ _. ForBoth types.now (M.places to_mem.old) (M.buffers to_mem.old) to (N.places from_mem.now) (N.buffers from_mem.now) from (λ t feet u. used (M.places to_mem.new) ≡ used (M.places to_mem.old) + field_cost (record_meter types.now) types.now to.type_no field t u)) }
    ensures kept { IfOk result (λ _. ForBoth types.now (M.places to_mem.old) (M.buffers to_mem.old) to (N.places from_mem.now) (N.buffers from_mem.now) from (λ t feet u. fin.len (M.buffers to_mem.new) ≡ fin.len (M.buffers to_mem.old) + field_cost cleanups types.now to.type_no field t u)) }
    ensures changes { ForBoth types.now (M.places to_mem.old) (M.buffers to_mem.old) to (N.places from_mem.now) (N.buffers from_mem.now) from (λ t feet u. Changes M.key M.places M.buffers M.blocks (4 * field_units types.now to.type_no field u) (4 * field_units types.now to.type_no field u) feet to_mem.old to_mem.new) }
    ensures spent { IfErr result (NamesFullRegion (M.blocks to_mem.new)) }
{
    let _schema = types.schema();
    let theirs = MsgRef {
        place: from.place,
        type_no: to.type_no,
    };
    let there = count(to_mem, types, to, field.number);
    let more = count(from_mem, types, theirs, field.number);
    if there.saturating_add(more) > MOST_ELEMENTS {
        return Err(MemFault::NoMemory);
    }
    merge_numbers(to_mem, types, to, from_mem, from, field.number)
}

/// Copies the texts or bytes of a list behind those that are there.
pub(crate) fn append_strings<M: Memory, N: Memory>(
    to_mem: &mut M,
    types: &Layouts,
    to: MsgRef,
    from_mem: &N,
    from: MsgRef,
    field: FieldType,
) -> Result<(), MemFault>
    requires to { IsMessageIn types.now (M.places to_mem.old) (M.buffers to_mem.old) to }
    requires from { IsMessageIn types.now (N.places from_mem.now) (N.buffers from_mem.now) from }
    requires same { from.type_no ≡ to.type_no }
    requires known { field_at types.now to.type_no field.number ≡ Some field }
    requires bytes { IsBytesType (value_type_of field.kind) }
    requires list { IsList field.card }
    ensures merged { IfOk result (λ _. ForBoth types.now (M.places to_mem.old) (M.buffers to_mem.old) to (N.places from_mem.now) (N.buffers from_mem.now) from (λ t feet u. NowStands types.now (M.places to_mem.old) (M.buffers to_mem.old) (M.places to_mem.new) (M.buffers to_mem.new) to (field_into types.now to.type_no field t u) feet)) }
    ensures space { IfOk result (λ _. ForBoth types.now (M.places to_mem.old) (M.buffers to_mem.old) to (N.places from_mem.now) (N.buffers from_mem.now) from (λ t feet u. used (M.places to_mem.new) ≡ used (M.places to_mem.old) + field_cost (record_meter types.now) types.now to.type_no field t u)) }
    ensures kept { IfOk result (λ _. ForBoth types.now (M.places to_mem.old) (M.buffers to_mem.old) to (N.places from_mem.now) (N.buffers from_mem.now) from (λ t feet u. fin.len (M.buffers to_mem.new) ≡ fin.len (M.buffers to_mem.old) + field_cost cleanups types.now to.type_no field t u)) }
    ensures changes { ForBoth types.now (M.places to_mem.old) (M.buffers to_mem.old) to (N.places from_mem.now) (N.buffers from_mem.now) from (λ t feet u. Changes M.key M.places M.buffers M.blocks (4 * field_units types.now to.type_no field u) (4 * field_units types.now to.type_no field u) feet to_mem.old to_mem.new) }
    ensures spent { IfErr result (NamesFullRegion (M.blocks to_mem.new)) }
{
    let _schema = types.schema();
    let theirs = MsgRef {
        place: from.place,
        type_no: to.type_no,
    };
    let there = count(to_mem, types, to, field.number);
    let more = count(from_mem, types, theirs, field.number);
    if there.saturating_add(more) > MOST_ELEMENTS {
        return Err(MemFault::NoMemory);
    }
    merge_strings(to_mem, types, to, from_mem, from, field.number)
}

/// Copies the pieces of unknown bytes behind those that are there.
pub(crate) fn append_pieces<M: Memory, N: Memory>(
    to_mem: &mut M,
    types: &Layouts,
    to: MsgRef,
    from_mem: &N,
    from: MsgRef,
) -> Result<(), MemFault>
    requires to { IsMessageIn types.now (M.places to_mem.old) (M.buffers to_mem.old) to }
    requires from { IsMessageIn types.now (N.places from_mem.now) (N.buffers from_mem.now) from }
    requires same { from.type_no ≡ to.type_no }
    ensures merged { IfOk result (λ _. ForBoth types.now (M.places to_mem.old) (M.buffers to_mem.old) to (N.places from_mem.now) (N.buffers from_mem.now) from (λ t feet u. NowStands types.now (M.places to_mem.old) (M.buffers to_mem.old) (M.places to_mem.new) (M.buffers to_mem.new) to (pieces_into (pieces_of u) t) feet)) }
    ensures space { IfOk result (λ _. ForBoth types.now (M.places to_mem.old) (M.buffers to_mem.old) to (N.places from_mem.now) (N.buffers from_mem.now) from (λ t feet u. used (M.places to_mem.new) ≡ used (M.places to_mem.old) + pieces_cost (record_meter types.now) (length (pieces_of t)) (pieces_of u))) }
    ensures kept { IfOk result (λ _. ForBoth types.now (M.places to_mem.old) (M.buffers to_mem.old) to (N.places from_mem.now) (N.buffers from_mem.now) from (λ t feet u. fin.len (M.buffers to_mem.new) ≡ fin.len (M.buffers to_mem.old) + pieces_cost cleanups (length (pieces_of t)) (pieces_of u))) }
    ensures changes { ForBoth types.now (M.places to_mem.old) (M.buffers to_mem.old) to (N.places from_mem.now) (N.buffers from_mem.now) from (λ t feet u. Changes M.key M.places M.buffers M.blocks (4 * pieces_bytes (pieces_of u)) (4 * pieces_bytes (pieces_of u)) feet to_mem.old to_mem.new) }
    ensures spent { IfErr result (NamesFullRegion (M.blocks to_mem.new)) }
{
    let _schema = types.schema();
    let theirs = MsgRef {
        place: from.place,
        type_no: to.type_no,
    };
    let there = unknown_count(to_mem, types, to);
    let more = unknown_count(from_mem, types, theirs);
    if there.saturating_add(more) > MOST_ELEMENTS {
        return Err(MemFault::NoMemory);
    }
    merge_pieces(to_mem, types, to, from_mem, from)
}
