// All workers of a phase, each on a thread of its own.
ghost use Rattle.std.specs.Prelude.{◌≡◌, ◌+◌, ◌<◌, ◌≤◌, List, ◌++◌, length};
ghost use Rattle.std.specs.Thread.{IsSync};
ghost use Rattle.parse_pool.specs.Workers.{WorkerState};
ghost use Rattle.parse_pool.specs.Phases.{PhaseState, AreShort, phase};
ghost use Rattle.parse_pool.specs.Ends.{AreReady, AreNumbered, HaveWorked, EndsAs, HasEnded};

use crate::gate::Gate;
use crate::phase::Phase;
use crate::pool_end::PoolEnd;
use crate::turns::work;
use crate::worker::Worker;
use msg_layout::tables::Layouts;
use pb_wire::Frames;
use std::alloc::Global;
use std::thread::{Threads, join_mut};
use ts_arena::Shared;

/// The end of both: want of memory first, then a region without a block left, then the lesser bad frame.
fn end_of_both(one: PoolEnd, other: PoolEnd) -> PoolEnd
    ensures { (ph : PhaseState) (first second : List WorkerState) → EndsAs ph first one → EndsAs ph second other → EndsAs ph (first ++ second) result }
{
    match one {
        PoolEnd::Done => other,
        PoolEnd::NoMemory => PoolEnd::NoMemory,
        PoolEnd::BlocksSpent { region } => match other {
            PoolEnd::NoMemory => PoolEnd::NoMemory,
            _ => PoolEnd::BlocksSpent { region },
        },
        PoolEnd::BadFrame { index, fault } => match other {
            PoolEnd::Done => PoolEnd::BadFrame { index, fault },
            PoolEnd::NoMemory => PoolEnd::NoMemory,
            PoolEnd::BlocksSpent { region } => PoolEnd::BlocksSpent { region },
            PoolEnd::BadFrame {
                index: second,
                fault: its,
            } => {
                if second < index {
                    PoolEnd::BadFrame {
                        index: second,
                        fault: its,
                    }
                } else {
                    PoolEnd::BadFrame { index, fault }
                }
            }
        },
    }
}

/// These workers, by halves, until one is left. One worker makes no thread.
#[cycle(halves)]
fn work_all<R: Threads + Sync, G: Gate + Sync>(
    rt: &R,
    alloc: Global,
    phase: &Phase<'_, G>,
    workers: &mut [Worker],
) -> PoolEnd
    requires some { 0 < length workers.old }
    requires ready { AreReady phase.now.shared workers.old }
    ensures worked { HaveWorked phase.now workers.old workers.new }
    ensures ends { EndsAs phase.now workers.new result }
{
    if workers.len() < 2 {
        return work(alloc, phase, &mut workers[0]);
    }
    let (left, right) = workers.split_at_mut(workers.len() / 2);
    let (one, other) = work_both(rt, alloc, phase, left, right);
    end_of_both(one, other)
}

/// The workers of both halves at once.
#[cycle(halves)]
fn work_both<R: Threads + Sync, G: Gate + Sync>(
    rt: &R,
    alloc: Global,
    phase: &Phase<'_, G>,
    left: &mut [Worker],
    right: &mut [Worker],
) -> (PoolEnd, PoolEnd)
    requires some { (0 < length left.old) × (0 < length right.old) }
    requires left { AreReady phase.now.shared left.old }
    requires right { AreReady phase.now.shared right.old }
    ensures left { HaveWorked phase.now left.old left.new }
    ensures right { HaveWorked phase.now right.old right.new }
    ensures one { EndsAs phase.now left.new result.0 }
    ensures other { EndsAs phase.now right.new result.1 }
{
    join_mut(
        rt,
        &mut || -> PoolEnd
            requires { IsSync R.row × IsSync G.row × (0 < length left.now) × AreReady phase.now.shared left.now }
            ensures { HaveWorked phase.entry.now left.entry.now left.exit.now × EndsAs phase.entry.now left.exit.now result }
        { work_all(rt, alloc, phase, left) },
        &mut || -> PoolEnd
            requires { IsSync R.row × IsSync G.row × (0 < length right.now) × AreReady phase.now.shared right.now }
            ensures { HaveWorked phase.entry.now right.entry.now right.exit.now × EndsAs phase.entry.now right.exit.now result }
        { work_all(rt, alloc, phase, right) },
    )
}

/// Parses the frames `first` to `first + count - 1` into the shared arena. Frame `first + i` goes to worker
/// `i mod n`, where there are n; each worker has a thread of its own, parses its frames in their order, each into its own
/// part of the arena, and stops at its first refused frame. Each frame passes the gate before it is parsed.
///
/// Where each frame was parsed the answer is `Done`, and each worker's results are its frames in their order. Else it is
/// `NoMemory`, `BlocksSpent`, or `BadFrame` with the least frame that has a fault, whatever the others met.
pub fn parse_all<R: Threads + Sync, G: Gate + Sync>(
    rt: &R,
    alloc: Global,
    shared: &Shared,
    workers: &mut [Worker],
    frames: &Frames,
    first: u32,
    count: u32,
    types: &Layouts,
    root: u32,
    gate: &G,
) -> PoolEnd
    requires some { 0 < length workers.old }
    requires numbers { AreNumbered workers.old }
    requires ready { AreReady shared.now workers.old }
    requires there { first + count ≤ length frames.now }
    requires short { AreShort frames.now first (first + count) }
    requires root { root < length types.now.types }
    ensures worked { HaveWorked (phase shared.now types.now root frames.now first count (length workers.old)) workers.old workers.new }
    ensures ended { HasEnded (phase shared.now types.now root frames.now first count (length workers.old)) workers.new result }
{
    let _ = frames.count();
    let phase = Phase {
        shared,
        frames,
        first,
        count,
        types,
        root,
        workers: workers.len(),
        gate,
    };
    work_all(rt, alloc, &phase, workers)
}
