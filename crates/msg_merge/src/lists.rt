// Lists of numbers, lists of texts or bytes, and unknown bytes, copied behind those of another message.
ghost use Rattle.std.specs.Prelude.{◌≡◌, ◌+◌, ◌*◌, ◌≤◌, ℕ, List, length, IfOk, IfErr};
ghost use Rattle.std.specs.FinMap as fin;
ghost use Rattle.arena_mem.specs.Places.{NamesFullRegion, used};
ghost use Rattle.pb_schema.specs.HeldAt.{held_at};
ghost use Rattle.pb_schema.specs.Meter.{array_bytes, cleanups, string_bytes};
ghost use Rattle.pb_schema.specs.Put.{values_held};
ghost use Rattle.pb_schema.specs.Tree.{Shape};
ghost use Rattle.dyn_message.specs.Arrays.{most_elements};
ghost use Rattle.dyn_message.specs.Changes.{Changes, NowStands};
ghost use Rattle.dyn_message.specs.Feet.{Foot};
ghost use Rattle.dyn_message.specs.Fields.{IsMessageIn};
ghost use Rattle.dyn_message.specs.Lists.{HasNumbers, HasStrings, count_at, element_bytes as size_at};
ghost use Rattle.dyn_message.specs.Stands.{Stands};
ghost use Rattle.dyn_message.specs.Unknown.{pieces_of};
ghost use Rattle.msg_merge.specs.Merging.{pieces_count, pieces_into, strings_cost, values_into};

use arena_mem::{MemFault, Memory};
use dyn_message::{
    MsgRef, append_bytes, append_scalar, append_unknown, count, element_bytes, element_scalar,
    unknown_count, unknown_element,
};
use msg_layout::tables::Layouts;

/// Copies the numbers of a list behind those that are there, which are no more than 2^26 together.
pub(crate) fn merge_numbers<M: Memory, N: Memory>(
    to_mem: &mut M,
    types: &Layouts,
    to: MsgRef,
    from_mem: &N,
    from: MsgRef,
    field: u32,
) -> Result<(), MemFault>
    requires to { IsMessageIn types.now (M.places to_mem.old) (M.buffers to_mem.old) to }
    requires from { IsMessageIn types.now (N.places from_mem.now) (N.buffers from_mem.now) from }
    requires same { from.type_no ≡ to.type_no }
    requires field { HasNumbers types.now to.type_no field }
    requires few { (t : Shape) (feet : List Foot) (u : Shape) (own : List Foot) → Stands types.now (M.places to_mem.old) (M.buffers to_mem.old) to t feet
        → Stands types.now (N.places from_mem.now) (N.buffers from_mem.now) from u own
        → count_at types.now to.type_no field t + count_at types.now to.type_no field u ≤ most_elements }
    ensures merged { IfOk result (λ _. (t : Shape) (feet : List Foot) (u : Shape) (own : List Foot) → Stands types.now (M.places to_mem.old) (M.buffers to_mem.old) to t feet
        → Stands types.now (N.places from_mem.now) (N.buffers from_mem.now) from u own
        → NowStands types.now (M.places to_mem.old) (M.buffers to_mem.old) (M.places to_mem.new) (M.buffers to_mem.new) to (values_into types.now to.type_no field (values_held (held_at types.now to.type_no field u)) t) feet) }
    ensures space { IfOk result (λ _. (t : Shape) (feet : List Foot) (u : Shape) (own : List Foot) → Stands types.now (M.places to_mem.old) (M.buffers to_mem.old) to t feet
        → Stands types.now (N.places from_mem.now) (N.buffers from_mem.now) from u own
        → used (M.places to_mem.new) ≡ used (M.places to_mem.old) + array_bytes (size_at types.now to.type_no field) (count_at types.now to.type_no field t) (count_at types.now to.type_no field t + count_at types.now to.type_no field u)) }
    ensures changes { (t : Shape) (feet : List Foot) (u : Shape) (own : List Foot) → Stands types.now (M.places to_mem.old) (M.buffers to_mem.old) to t feet
        → Stands types.now (N.places from_mem.now) (N.buffers from_mem.now) from u own
        → Changes M.key M.places M.buffers M.blocks (count_at types.now to.type_no field u) 0 feet to_mem.old to_mem.new }
    ensures buffers { M.buffers to_mem.new ≡ M.buffers to_mem.old }
    ensures spent { IfErr result (NamesFullRegion (M.blocks to_mem.new)) }
{
    let _schema = types.schema();
    let theirs = MsgRef {
        place: from.place,
        type_no: to.type_no,
    };
    let len = count(from_mem, types, theirs, field);
    let mut i = 0;
    'elements: while i < len {
        let bits = element_scalar(from_mem, types, theirs, field, i);
        append_scalar(to_mem, types, to, field, bits)?;
        i += 1;
    }
    Ok(())
}

/// Copies the texts or bytes of a list behind those that are there, which are no more than 2^26 together.
pub(crate) fn merge_strings<M: Memory, N: Memory>(
    to_mem: &mut M,
    types: &Layouts,
    to: MsgRef,
    from_mem: &N,
    from: MsgRef,
    field: u32,
) -> Result<(), MemFault>
    requires to { IsMessageIn types.now (M.places to_mem.old) (M.buffers to_mem.old) to }
    requires from { IsMessageIn types.now (N.places from_mem.now) (N.buffers from_mem.now) from }
    requires same { from.type_no ≡ to.type_no }
    requires field { HasStrings types.now to.type_no field }
    requires few { (t : Shape) (feet : List Foot) (u : Shape) (own : List Foot) → Stands types.now (M.places to_mem.old) (M.buffers to_mem.old) to t feet
        → Stands types.now (N.places from_mem.now) (N.buffers from_mem.now) from u own
        → count_at types.now to.type_no field t + count_at types.now to.type_no field u ≤ most_elements }
    ensures merged { IfOk result (λ _. (t : Shape) (feet : List Foot) (u : Shape) (own : List Foot) → Stands types.now (M.places to_mem.old) (M.buffers to_mem.old) to t feet
        → Stands types.now (N.places from_mem.now) (N.buffers from_mem.now) from u own
        → NowStands types.now (M.places to_mem.old) (M.buffers to_mem.old) (M.places to_mem.new) (M.buffers to_mem.new) to (values_into types.now to.type_no field (values_held (held_at types.now to.type_no field u)) t) feet) }
    ensures space { IfOk result (λ _. (t : Shape) (feet : List Foot) (u : Shape) (own : List Foot) → Stands types.now (M.places to_mem.old) (M.buffers to_mem.old) to t feet
        → Stands types.now (N.places from_mem.now) (N.buffers from_mem.now) from u own
        → used (M.places to_mem.new) ≡ used (M.places to_mem.old) + array_bytes 24 (count_at types.now to.type_no field t) (count_at types.now to.type_no field t + count_at types.now to.type_no field u) + strings_cost string_bytes (values_held (held_at types.now to.type_no field u))) }
    ensures changes { (t : Shape) (feet : List Foot) (u : Shape) (own : List Foot) → Stands types.now (M.places to_mem.old) (M.buffers to_mem.old) to t feet
        → Stands types.now (N.places from_mem.now) (N.buffers from_mem.now) from u own
        → Changes M.key M.places M.buffers M.blocks (2 * count_at types.now to.type_no field u) (count_at types.now to.type_no field u) feet to_mem.old to_mem.new }
    ensures kept { IfOk result (λ _. (u : Shape) (own : List Foot) → Stands types.now (N.places from_mem.now) (N.buffers from_mem.now) from u own
        → fin.len (M.buffers to_mem.new) ≡ fin.len (M.buffers to_mem.old) + strings_cost cleanups.bytes (values_held (held_at types.now to.type_no field u))) }
    ensures spent { IfErr result (NamesFullRegion (M.blocks to_mem.new)) }
{
    let _schema = types.schema();
    let theirs = MsgRef {
        place: from.place,
        type_no: to.type_no,
    };
    let len = count(from_mem, types, theirs, field);
    let mut i = 0;
    'elements: while i < len {
        let bytes = element_bytes(from_mem, types, theirs, field, i);
        append_bytes(to_mem, types, to, field, bytes)?;
        i += 1;
    }
    Ok(())
}

/// Copies the pieces of unknown bytes behind those that are there, one for each, no more than 2^26 together.
pub(crate) fn merge_pieces<M: Memory, N: Memory>(
    to_mem: &mut M,
    types: &Layouts,
    to: MsgRef,
    from_mem: &N,
    from: MsgRef,
) -> Result<(), MemFault>
    requires to { IsMessageIn types.now (M.places to_mem.old) (M.buffers to_mem.old) to }
    requires from { IsMessageIn types.now (N.places from_mem.now) (N.buffers from_mem.now) from }
    requires same { from.type_no ≡ to.type_no }
    requires few { (t : Shape) (feet : List Foot) (u : Shape) (own : List Foot) → Stands types.now (M.places to_mem.old) (M.buffers to_mem.old) to t feet
        → Stands types.now (N.places from_mem.now) (N.buffers from_mem.now) from u own
        → length (pieces_of t) + length (pieces_of u) ≤ most_elements }
    ensures merged { IfOk result (λ _. (t : Shape) (feet : List Foot) (u : Shape) (own : List Foot) → Stands types.now (M.places to_mem.old) (M.buffers to_mem.old) to t feet
        → Stands types.now (N.places from_mem.now) (N.buffers from_mem.now) from u own
        → NowStands types.now (M.places to_mem.old) (M.buffers to_mem.old) (M.places to_mem.new) (M.buffers to_mem.new) to (pieces_into (pieces_of u) t) feet) }
    ensures space { IfOk result (λ _. (t : Shape) (feet : List Foot) (u : Shape) (own : List Foot) → Stands types.now (M.places to_mem.old) (M.buffers to_mem.old) to t feet
        → Stands types.now (N.places from_mem.now) (N.buffers from_mem.now) from u own
        → used (M.places to_mem.new) ≡ used (M.places to_mem.old) + array_bytes 24 (length (pieces_of t)) (length (pieces_of t) + length (pieces_of u)) + pieces_count string_bytes (pieces_of u)) }
    ensures changes { (t : Shape) (feet : List Foot) (u : Shape) (own : List Foot) → Stands types.now (M.places to_mem.old) (M.buffers to_mem.old) to t feet
        → Stands types.now (N.places from_mem.now) (N.buffers from_mem.now) from u own
        → Changes M.key M.places M.buffers M.blocks (2 * length (pieces_of u)) (length (pieces_of u)) feet to_mem.old to_mem.new }
    ensures kept { IfOk result (λ _. (u : Shape) (own : List Foot) → Stands types.now (N.places from_mem.now) (N.buffers from_mem.now) from u own
        → fin.len (M.buffers to_mem.new) ≡ fin.len (M.buffers to_mem.old) + pieces_count cleanups.bytes (pieces_of u)) }
    ensures spent { IfErr result (NamesFullRegion (M.blocks to_mem.new)) }
{
    let _schema = types.schema();
    let theirs = MsgRef {
        place: from.place,
        type_no: to.type_no,
    };
    let len = unknown_count(from_mem, types, theirs);
    let mut i = 0;
    'pieces: while i < len {
        let piece = unknown_element(from_mem, types, theirs, i);
        append_unknown(to_mem, types, to, piece)?;
        i += 1;
    }
    Ok(())
}
