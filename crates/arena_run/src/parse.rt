// Parsing the frames of a file into messages, by workers.
ghost use Rattle.std.specs.Prelude.{◌≡◌, ◌⊎◌, ◌+◌, ◌^◌, ◌<◌, ◌≤◌, [], None, Some, length, sum_by, IfOk, IfErr};
ghost use Rattle.std.specs.Option.{option_map};
ghost use Rattle.pb_schema.specs.Payloads.{bad_payload};
ghost use Rattle.parse_pool.specs.Arenas.{AreEarly};
ghost use Rattle.parse_pool.specs.Starting.{AreEmpty};
ghost use Rattle.ts_arena.specs.Sole.{arena_places, arena_buffers};
ghost use Rattle.arena_run.specs.Ends.{IsLimited, IsOfPayloads};
ghost use Rattle.arena_run.specs.Faults.{bad_frame};
ghost use Rattle.arena_run.specs.Inputs.{IsSmall, LeavesSide};
ghost use Rattle.arena_run.specs.Stands.{StandDecoded};

use crate::fault::Fault;
use crate::gather::Input;
use dyn_message::MsgRef;
use life_ids::ThreadCache;
use parse_pool::{Gate, PoolEnd, parse_phase};
use std::alloc::Global;
use std::thread::Threads;
use ts_arena::{Arena, Side};

/// How many workers there may be.
const MOST_WORKERS: usize = 64;

/// Parses each frame into a message of its own in the arena, which has no owners yet, and answers the messages in the order
/// of the frames.
pub fn parse_input<R: Threads + Sync, G: Gate + Sync>(
    rt: &R,
    alloc: Global,
    input: &Input,
    gate: &G,
    arena: Arena,
) -> Result<(Arena, Vec<MsgRef>), (Fault, Side)>
    requires small { IsSmall input.now.types input.now.root input.now.frames input.now.workers }
    requires owners { arena.owners ≡ [] }
    ensures leaves { IfOk result (λ r. LeavesSide input.now.workers input.now.frames None arena (Side.Sole r.0)) }
    ensures stand { IfOk result (λ r. StandDecoded input.now.types (arena_places r.0) (arena_buffers r.0) input.now.root input.now.frames r.1.items) }
    ensures sound { IfOk result (λ _. bad_payload input.now.types input.now.root input.now.frames ≡ None) }
    ensures early { IfOk result (λ r. AreEarly input.now.workers r.0 r.1.items) }
    ensures count { IfOk result (λ r. length r.1.items ≡ length input.now.frames) }
    ensures left { IfErr result (λ e. LeavesSide input.now.workers input.now.frames (Some e.0) arena e.1) }
    ensures kind { IfErr result (λ e. IsOfPayloads e.0) }
    ensures limits { IfErr result (λ e. IsLimited e.0) }
    ensures fault { IfErr result (λ e. (e.0 ≡ Fault.NoMemory) ⊎ (option_map bad_frame (bad_payload input.now.types input.now.root input.now.frames) ≡ Some e.0)) }
{
    let mut caches = empty_caches();
    parse_with(
        rt,
        alloc,
        input,
        gate,
        arena,
        &mut caches[..input.workers as usize],
    )
}

// Caches of no life, one for each worker that there may be.
fn empty_caches() -> [ThreadCache; MOST_WORKERS]
    ensures { AreEmpty result }
{
    [ThreadCache::empty(); MOST_WORKERS]
}

// The same with a cache for each worker.
fn parse_with<R: Threads + Sync, G: Gate + Sync>(
    rt: &R,
    alloc: Global,
    input: &Input,
    gate: &G,
    arena: Arena,
    caches: &mut [ThreadCache],
) -> Result<(Arena, Vec<MsgRef>), (Fault, Side)>
    requires small { IsSmall input.now.types input.now.root input.now.frames input.now.workers }
    requires owners { arena.owners ≡ [] }
    requires caches { AreEmpty caches.old }
    requires count { length caches.old ≡ input.now.workers }
    ensures leaves { IfOk result (λ r. LeavesSide input.now.workers input.now.frames None arena (Side.Sole r.0)) }
    ensures stand { IfOk result (λ r. StandDecoded input.now.types (arena_places r.0) (arena_buffers r.0) input.now.root input.now.frames r.1.items) }
    ensures sound { IfOk result (λ _. bad_payload input.now.types input.now.root input.now.frames ≡ None) }
    ensures early { IfOk result (λ r. AreEarly input.now.workers r.0 r.1.items) }
    ensures count { IfOk result (λ r. length r.1.items ≡ length input.now.frames) }
    ensures left { IfErr result (λ e. LeavesSide input.now.workers input.now.frames (Some e.0) arena e.1) }
    ensures kind { IfErr result (λ e. IsOfPayloads e.0) }
    ensures limits { IfErr result (λ e. IsLimited e.0) }
    ensures fault { IfErr result (λ e. (e.0 ≡ Fault.NoMemory) ⊎ (option_map bad_frame (bad_payload input.now.types input.now.root input.now.frames) ≡ Some e.0)) }
{
    let _life = arena.life();
    let count = input.frames.count();
    let (side, parsed) = parse_phase(
        rt,
        alloc,
        arena,
        caches,
        &input.frames,
        0,
        count,
        &input.types,
        input.root,
        gate,
    );
    match parsed {
        Ok(messages) => match side {
            Side::Sole(arena) => Ok((arena, messages)),
            Side::Unsettled(_, _) => unreachable!(),
        },
        Err(end) => Err((fault_of_end(end), side)),
    }
}

// The fault of a run whose phase ended so. No file of 2^24 bytes asks for so many blocks that they are spent.
fn fault_of_end(end: PoolEnd) -> Fault
    ensures bad { (index : _) (fault : _) → end ≡ PoolEnd.BadFrame index fault → result ≡ Fault.BadFrame index fault }
    ensures other { ((index : _) (fault : _) → end ≡ PoolEnd.BadFrame index fault → ⊥) → result ≡ Fault.NoMemory }
    ensures kind { IsOfPayloads result }
    ensures limits { IsLimited result }
{
    match end {
        PoolEnd::BadFrame { index, fault } => Fault::BadFrame { index, fault },
        PoolEnd::Done | PoolEnd::NoMemory | PoolEnd::BlocksSpent { .. } => Fault::NoMemory,
    }
}
