// Merging a message into another, and copying one.
ghost use Rattle.std.specs.Prelude.{◌≡◌, ◌+◌, ◌*◌, [], List, IfOk, IfErr};
ghost use Rattle.std.specs.FinMap as fin;
ghost use Rattle.arena_mem.specs.Places.{NamesFullRegion, used};
ghost use Rattle.pb_schema.specs.Merge.{shape_merge};
ghost use Rattle.pb_schema.specs.MergeCost.{fresh_cost, merge_cost};
ghost use Rattle.pb_schema.specs.Meter.{cleanups};
ghost use Rattle.pb_schema.specs.Tree.{Shape};
ghost use Rattle.dyn_message.specs.Changes.{Changes, NowStands};
ghost use Rattle.dyn_message.specs.Feet.{Foot};
ghost use Rattle.dyn_message.specs.Fields.{IsMessageIn};
ghost use Rattle.dyn_message.specs.Stands.{Stands};
ghost use Rattle.msg_merge.specs.Across.{record_meter};
ghost use Rattle.msg_merge.specs.Extents.{shape_units};

use crate::across::{MOST_LEVELS, merge_message};
use arena_mem::{MemFault, Memory};
use dyn_message::{MsgRef, create};
use msg_layout::tables::Layouts;

/// Merges a message of another memory into one of its type: what the other one sets is set, lists and the pieces of
/// unknown bytes come behind those that are there, and messages are merged in turn; a member of a oneof takes the place of
/// another one. The other message stays as it is.
///
/// A list, or unknown bytes, of more than 2^26 elements are refused as want of memory. After a refusal the message isn't
/// to be read, and all that it didn't stand on is as it was.
pub fn merge_across<M: Memory, N: Memory>(
    to_mem: &mut M,
    types: &Layouts,
    to: MsgRef,
    from_mem: &N,
    from: MsgRef,
) -> Result<(), MemFault>
    requires to { IsMessageIn types.now (M.places to_mem.old) (M.buffers to_mem.old) to }
    requires from { IsMessageIn types.now (N.places from_mem.now) (N.buffers from_mem.now) from }
    requires same { from.type_no ≡ to.type_no }
    ensures merged { IfOk result (λ _. (t : Shape) (feet : List Foot) (u : Shape) (own : List Foot) → Stands types.now (M.places to_mem.old) (M.buffers to_mem.old) to t feet
        → Stands types.now (N.places from_mem.now) (N.buffers from_mem.now) from u own
        → NowStands types.now (M.places to_mem.old) (M.buffers to_mem.old) (M.places to_mem.new) (M.buffers to_mem.new) to (shape_merge types.now to.type_no t u) feet) }
    ensures space { IfOk result (λ _. (t : Shape) (feet : List Foot) (u : Shape) (own : List Foot) → Stands types.now (M.places to_mem.old) (M.buffers to_mem.old) to t feet
        → Stands types.now (N.places from_mem.now) (N.buffers from_mem.now) from u own
        → used (M.places to_mem.new) ≡ used (M.places to_mem.old) + merge_cost (record_meter types.now) types.now to.type_no t u) }
    ensures kept { IfOk result (λ _. (t : Shape) (feet : List Foot) (u : Shape) (own : List Foot) → Stands types.now (M.places to_mem.old) (M.buffers to_mem.old) to t feet
        → Stands types.now (N.places from_mem.now) (N.buffers from_mem.now) from u own
        → fin.len (M.buffers to_mem.new) ≡ fin.len (M.buffers to_mem.old) + merge_cost cleanups types.now to.type_no t u) }
    ensures changes { (t : Shape) (feet : List Foot) (u : Shape) (own : List Foot) → Stands types.now (M.places to_mem.old) (M.buffers to_mem.old) to t feet
        → Stands types.now (N.places from_mem.now) (N.buffers from_mem.now) from u own
        → Changes M.key M.places M.buffers M.blocks (4 * shape_units u) (4 * shape_units u) feet to_mem.old to_mem.new }
    ensures spent { IfErr result (NamesFullRegion (M.blocks to_mem.new)) }
{
    merge_message(to_mem, types, to, from_mem, from, MOST_LEVELS)
}

/// A copy of a message of another memory: it stands for the same, on places and buffers that weren't there. The other
/// message stays as it is. All that was there keeps its bytes, after a refusal too.
pub fn copy<M: Memory, N: Memory>(
    to_mem: &mut M,
    types: &Layouts,
    from_mem: &N,
    from: MsgRef,
) -> Result<MsgRef, MemFault>
    requires from { IsMessageIn types.now (N.places from_mem.now) (N.buffers from_mem.now) from }
    ensures typed { IfOk result (λ copy. copy.type_no ≡ from.type_no) }
    ensures copied { IfOk result (λ copy. (u : Shape) (own : List Foot) → Stands types.now (N.places from_mem.now) (N.buffers from_mem.now) from u own
        → NowStands types.now (M.places to_mem.old) (M.buffers to_mem.old) (M.places to_mem.new) (M.buffers to_mem.new) copy u []) }
    ensures space { IfOk result (λ copy. (u : Shape) (own : List Foot) → Stands types.now (N.places from_mem.now) (N.buffers from_mem.now) from u own
        → used (M.places to_mem.new) ≡ used (M.places to_mem.old) + fresh_cost (record_meter types.now) types.now from.type_no u) }
    ensures kept { IfOk result (λ copy. (u : Shape) (own : List Foot) → Stands types.now (N.places from_mem.now) (N.buffers from_mem.now) from u own
        → fin.len (M.buffers to_mem.new) ≡ fin.len (M.buffers to_mem.old) + fresh_cost cleanups types.now from.type_no u) }
    ensures changes { (u : Shape) (own : List Foot) → Stands types.now (N.places from_mem.now) (N.buffers from_mem.now) from u own
        → Changes M.key M.places M.buffers M.blocks (4 * shape_units u) (4 * shape_units u) [] to_mem.old to_mem.new }
    ensures spent { IfErr result (NamesFullRegion (M.blocks to_mem.new)) }
{
    let _schema = types.schema();
    let made = create(to_mem, types, from.type_no)?;
    merge_message(to_mem, types, made, from_mem, from, MOST_LEVELS)?;
    Ok(made)
}
