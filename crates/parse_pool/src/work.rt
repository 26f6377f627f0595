// A phase of a shared arena, from its passes to the messages.
ghost use Rattle.std.specs.Prelude.{◌≡◌, ◌≤◌, ◌<◌, ◌^◌, ◌+◌, [], length, vec_capacity};
ghost use Rattle.ts_arena.specs.Passes.{AreAllOf};
ghost use Rattle.parse_pool.specs.declared.pool_end.PoolEnd.TheVariants.{Done};
ghost use Rattle.parse_pool.specs.Phases.{AreShort, phase};
ghost use Rattle.parse_pool.specs.Collecting.{AreCovered};
ghost use Rattle.parse_pool.specs.Phased.{AreCollected, HasRun};
ghost use Rattle.parse_pool.specs.Starting.{AreInOrder, FitPasses};

use crate::collect::collect;
use crate::gate::Gate;
use crate::halves::parse_all;
use crate::pool_end::PoolEnd;
use crate::seating::{leave_seats, seat_workers};
use crate::worker::Worker;
use dyn_message::MsgRef;
use life_ids::ThreadCache;
use msg_layout::tables::Layouts;
use pb_wire::Frames;
use std::alloc::Global;
use std::thread::Threads;
use ts_arena::{Pass, Shared};

/// Collects the messages where all frames were parsed.
fn collect_done(end: PoolEnd, workers: &[Worker], count: u32, messages: &mut Vec<MsgRef>)
    requires some { 0 < length workers.now }
    requires covered { end ≡ Done → AreCovered workers.now count }
    requires room { (messages.old.items ≡ []) × (count ≤ vec_capacity messages.old) }
    ensures { end ≡ Done → AreCollected workers.now count messages.new.items }
{
    if let PoolEnd::Done = end {
        collect(workers, count, messages);
    }
}

/// Seats a worker for each pass and the cache at its place, parses, and leaves the seats; the messages are in the order
/// of their frames where all were parsed.
pub(crate) fn work_phase<R: Threads + Sync, G: Gate + Sync>(
    rt: &R,
    alloc: Global,
    shared: &Shared,
    passes: &mut Vec<Pass>,
    caches: &mut [ThreadCache],
    workers: &mut Vec<Worker>,
    messages: &mut Vec<MsgRef>,
    frames: &Frames,
    first: u32,
    count: u32,
    types: &Layouts,
    root: u32,
    gate: &G,
) -> PoolEnd
    requires some { (0 < length passes.old.items) × (length passes.old.items < 2 ^ 32) }
    requires all { AreAllOf shared.now passes.old.items }
    requires order { AreInOrder passes.old.items }
    requires each { length caches.old ≡ length passes.old.items }
    requires fit { FitPasses caches.old passes.old.items }
    requires seats { (workers.old.items ≡ []) × (length passes.old.items ≤ vec_capacity workers.old) × (length passes.old.items ≤ vec_capacity passes.old) }
    requires room { (messages.old.items ≡ []) × (count ≤ vec_capacity messages.old) }
    requires there { first + count ≤ length frames.now }
    requires short { AreShort frames.now first (first + count) }
    requires root { root < length types.now.types }
    ensures run { HasRun (phase shared.now types.now root frames.now first count (length passes.old.items)) passes.old.items passes.new.items caches.old caches.new messages.new.items result }
    ensures caches { length caches.new ≡ length caches.old }
{
    seat_workers(alloc, passes, caches, workers);
    let seated = workers.as_mut_slice();
    let end = parse_all(
        rt, alloc, shared, seated, frames, first, count, types, root, gate,
    );
    collect_done(end, seated, count, messages);
    leave_seats(workers, caches, passes);
    end
}
