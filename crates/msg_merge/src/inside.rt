// Merging a message into another one of the same memory.
ghost use Rattle.std.specs.Prelude.{◌≡◌, ◌+◌, ◌*◌, List, IfOk, IfErr};
ghost use Rattle.std.specs.FinMap as fin;
ghost use Rattle.arena_mem.specs.Places.{NamesFullRegion, used};
ghost use Rattle.pb_schema.specs.Merge.{shape_merge};
ghost use Rattle.pb_schema.specs.MergeCost.{merge_cost};
ghost use Rattle.pb_schema.specs.Meter.{cleanups};
ghost use Rattle.pb_schema.specs.Tree.{Shape};
ghost use Rattle.dyn_message.specs.Changes.{Changes};
ghost use Rattle.dyn_message.specs.Feet.{Foot, Separate};
ghost use Rattle.dyn_message.specs.Stands.{Stands};
ghost use Rattle.msg_merge.specs.Across.{StandsBeside, record_meter};
ghost use Rattle.msg_merge.specs.Extents.{shape_units};

use crate::across::{MOST_LEVELS, merge_message};
use crate::between::copy;
use arena_mem::{MemFault, Memory, PlainMemory};
use dyn_message::{MsgRef, separate_messages_stay, strangers_change_nothing};
use msg_layout::tables::Layouts;
use std::alloc::Global;

/// Merges a message into another one of its type, as [`merge_across`](crate::merge_across) does, where both stand in one
/// memory and share no place or buffer. The other message stays as it is, and still shares none with the first.
///
/// The other message is first copied into a memory of its own, which is freed at the end, since what a memory lends can't be
/// read while it grows. A refusal of that memory is told as want of memory.
pub fn merge<M: Memory>(
    alloc: Global,
    mem: &mut M,
    types: &Layouts,
    to: MsgRef,
    from: MsgRef,
) -> Result<(), MemFault>
    requires same { from.type_no ≡ to.type_no }
    requires stand { (t : Shape) × (feet : List Foot) × (u : Shape) × (own : List Foot)
        × Stands types.now (M.places mem.old) (M.buffers mem.old) to t feet
        × Stands types.now (M.places mem.old) (M.buffers mem.old) from u own × Separate own feet }
    ensures merged { IfOk result (λ _. (t : Shape) (feet : List Foot) (u : Shape) (own : List Foot) → Stands types.now (M.places mem.old) (M.buffers mem.old) to t feet
        → Stands types.now (M.places mem.old) (M.buffers mem.old) from u own → Separate own feet
        → StandsBeside types.now (M.places mem.old) (M.buffers mem.old) (M.places mem.new) (M.buffers mem.new) to (shape_merge types.now to.type_no t u) feet own) }
    ensures stays { (t : Shape) (feet : List Foot) (u : Shape) (own : List Foot) → Stands types.now (M.places mem.old) (M.buffers mem.old) to t feet
        → Stands types.now (M.places mem.old) (M.buffers mem.old) from u own → Separate own feet
        → Stands types.now (M.places mem.new) (M.buffers mem.new) from u own }
    ensures space { IfOk result (λ _. (t : Shape) (feet : List Foot) (u : Shape) (own : List Foot) → Stands types.now (M.places mem.old) (M.buffers mem.old) to t feet
        → Stands types.now (M.places mem.old) (M.buffers mem.old) from u own
        → used (M.places mem.new) ≡ used (M.places mem.old) + merge_cost (record_meter types.now) types.now to.type_no t u) }
    ensures kept { IfOk result (λ _. (t : Shape) (feet : List Foot) (u : Shape) (own : List Foot) → Stands types.now (M.places mem.old) (M.buffers mem.old) to t feet
        → Stands types.now (M.places mem.old) (M.buffers mem.old) from u own
        → fin.len (M.buffers mem.new) ≡ fin.len (M.buffers mem.old) + merge_cost cleanups types.now to.type_no t u) }
    ensures changes { (t : Shape) (feet : List Foot) (u : Shape) (own : List Foot) → Stands types.now (M.places mem.old) (M.buffers mem.old) to t feet
        → Stands types.now (M.places mem.old) (M.buffers mem.old) from u own
        → Changes M.key M.places M.buffers M.blocks (4 * shape_units u) (4 * shape_units u) feet mem.old mem.new }
    ensures spent { IfErr result (NamesFullRegion (M.blocks mem.new)) }
{
    strangers_change_nothing();
    separate_messages_stay();
    let mut aside = PlainMemory::new(alloc);
    match copy(&mut aside, types, mem, from) {
        Ok(source) => merge_message(mem, types, to, &aside, source, MOST_LEVELS),
        Err(_) => Err(MemFault::NoMemory),
    }
}
