// A phase over a whole arena: it is shared among the workers, parsed into, and settled.
ghost use Rattle.std.specs.Prelude.{◌≡◌, ◌+◌, ◌<◌, ◌≤◌, Err, [], length, vec_capacity, IfOk, IfErr};
ghost use Rattle.ts_arena.specs.Sides.{HoldsPasses};
ghost use Rattle.parse_pool.specs.Arenas.{AreAfter, AreEarly, AreOwnersAfter, AreParsed, CostsArena, FitSide, GrowsTo, HasSpent, IfSole, IsBad, IsSole, KeepsKeys, most_made, part_of};
ghost use Rattle.parse_pool.specs.Leaving.{Leaves};
ghost use Rattle.parse_pool.specs.Phases.{AreShort};
ghost use Rattle.parse_pool.specs.Starting.{AreBelow, FitOwners};

use crate::gate::Gate;
use crate::pool_end::PoolEnd;
use crate::sharing::share_among;
use crate::work::work_phase;
use crate::worker::Worker;
use dyn_message::MsgRef;
use life_ids::ThreadCache;
use msg_layout::tables::Layouts;
use no_memory::NoMemory;
use pb_wire::Frames;
use std::alloc::Global;
use std::thread::Threads;
use ts_arena::{Arena, Side, arenas_are_lawful};

/// Room for so many workers and so many messages.
fn make_rooms(
    alloc: Global,
    workers: usize,
    count: u32,
) -> Result<(Vec<Worker>, Vec<MsgRef>), NoMemory>
    ensures workers { IfOk result (λ r. (r.0.items ≡ []) × (workers ≤ vec_capacity r.0)) }
    ensures messages { IfOk result (λ r. (r.1.items ≡ []) × (count ≤ vec_capacity r.1)) }
{
    let seats = Vec::with_capacity(alloc, workers)?;
    let messages = Vec::with_capacity(alloc, count as usize)?;
    Ok((seats, messages))
}

/// Parses the frames `first` to `first + count - 1` into an arena, on a worker for each cache: it is shared among the
/// callers 0, 1 and so on, parsed into as [`crate::parse_all`] says, and settled. The answer has the messages in the order of the
/// frames.
///
/// The arena comes back with its life, its policy and its adopted regions; it is `Unsettled` only where memory was wanted.
/// All that was in it keeps its bytes, and it has at most 4 places and 4 buffers more for each byte of a payload and each frame.
/// Where all frames were parsed it uses exactly as much more as the payloads count, whoever parsed which.
///
/// # Errors
///
/// `BadFrame` exactly at the least frame that has a fault, with its first fault; it yields to `BlocksSpent` and to `NoMemory`.
/// The error is never `Done`.
pub fn parse_phase<R: Threads + Sync, G: Gate + Sync>(
    rt: &R,
    alloc: Global,
    arena: Arena,
    caches: &mut [ThreadCache],
    frames: &Frames,
    first: u32,
    count: u32,
    types: &Layouts,
    root: u32,
    gate: &G,
) -> (Side, Result<Vec<MsgRef>, PoolEnd>)
    requires some { (1 ≤ length caches.old) × (length caches.old ≤ 64) }
    requires owners { AreBelow 64 arena.owners }
    requires fit { FitOwners arena.life arena.owners caches.old }
    requires there { first + count ≤ length frames.now }
    requires short { AreShort frames.now first (first + count) }
    requires root { root < length types.now.types }
    // on every answer
    ensures passes { HoldsPasses result.0 }
    ensures keys { KeepsKeys arena result.0 }
    ensures settled { (result.1 ≡ Err PoolEnd.NoMemory → ⊥) → IsSole result.0 }
    ensures owners { IfSole result.0 (AreOwnersAfter (length caches.old) arena) }
    ensures grows { IfSole result.0 (GrowsTo (most_made (part_of first count frames.now)) arena) }
    ensures caches { AreAfter arena.life caches.old caches.new }
    ensures fit { FitSide result.0 caches.new }
    // where all was parsed
    ensures parsed { IfOk result.1 (λ messages. IfSole result.0 (λ b. AreParsed types.now root arena b (part_of first count frames.now) messages.items)) }
    ensures costs { IfOk result.1 (λ messages. IfSole result.0 (CostsArena types.now root (part_of first count frames.now) arena)) }
    ensures early { IfOk result.1 (λ messages. IfSole result.0 (λ b. AreEarly (length caches.old) b messages.items)) }
    // and where it wasn't
    ensures bad { (index : _) (fault : _) → result.1 ≡ Err (PoolEnd.BadFrame index fault) → IsBad types.now root first (part_of first count frames.now) index fault }
    ensures spent { (region : _) → result.1 ≡ Err (PoolEnd.BlocksSpent region) → IfSole result.0 (λ b. HasSpent b region) }
    ensures not_done { result.1 ≡ Err PoolEnd.Done → ⊥ }
{
    let (side, end, messages) = run_phase(
        rt, alloc, arena, caches, frames, first, count, types, root, gate,
    );
    (side, answer(end, messages))
}

/// A phase: the arena behind it, how it ended, and the messages where all frames were parsed.
fn run_phase<R: Threads + Sync, G: Gate + Sync>(
    rt: &R,
    alloc: Global,
    arena: Arena,
    caches: &mut [ThreadCache],
    frames: &Frames,
    first: u32,
    count: u32,
    types: &Layouts,
    root: u32,
    gate: &G,
) -> (Side, PoolEnd, Vec<MsgRef>)
    requires some { (1 ≤ length caches.old) × (length caches.old ≤ 64) }
    requires owners { AreBelow 64 arena.owners }
    requires fit { FitOwners arena.life arena.owners caches.old }
    requires there { first + count ≤ length frames.now }
    requires short { AreShort frames.now first (first + count) }
    requires root { root < length types.now.types }
    ensures leaves { Leaves types.now root first (part_of first count frames.now) (length caches.old) arena result.0 caches.old caches.new result.2.items result.1 }
{
    let Ok((mut workers, mut messages)) = make_rooms(alloc, caches.len(), count) else {
        return (Side::Sole(arena), PoolEnd::NoMemory, Vec::new(alloc));
    };
    let (shared, mut passes) = match share_among(arena, caches.len()) {
        Ok(shared) => shared,
        Err((_, arena)) => return (Side::Sole(arena), PoolEnd::NoMemory, messages),
    };
    let end = work_phase(
        rt,
        alloc,
        &shared,
        &mut passes,
        caches,
        &mut workers,
        &mut messages,
        frames,
        first,
        count,
        types,
        root,
        gate,
    );
    match shared.settle(passes) {
        Ok(arena) => {
            arenas_are_lawful(&arena);
            (Side::Sole(arena), end, messages)
        }
        Err((_, shared, passes)) => (Side::Unsettled(shared, passes), PoolEnd::NoMemory, messages),
    }
}

/// The messages where all frames were parsed, and else why they weren't.
fn answer(end: PoolEnd, messages: Vec<MsgRef>) -> Result<Vec<MsgRef>, PoolEnd>
    ensures done { IfOk result (λ answered. (end ≡ PoolEnd.Done) × (answered ≡ messages)) }
    ensures refused { IfErr result (λ why. (why ≡ end) × (end ≡ PoolEnd.Done → ⊥)) }
{
    match end {
        PoolEnd::Done => Ok(messages),
        end => Err(end),
    }
}
