// An arena is shared among workers.
ghost use Rattle.std.specs.Prelude.{◌≡◌, ◌<◌, ◌≤◌, IfOk, IfErr, ℕ, List, length, vec_capacity};
ghost use Rattle.ts_arena.specs.Arena.{IsArena};
ghost use Rattle.ts_arena.specs.Passes.{IsSharedFrom, AreFirstPasses};
ghost use Rattle.parse_pool.specs.Starting.{AreBelow, AreCounted};

use no_memory::NoMemory;
use ts_arena::{Arena, Pass, ShareFault, Shared, arenas_are_lawful};

/// How many callers an arena can have.
pub(crate) const MOST_WORKERS: usize = 64;

/// The numbers of the workers, each at its own place.
fn all_numbers() -> [u32; MOST_WORKERS]
    ensures own { AreCounted result }
    ensures long { length result ≡ 64 }
{
    let mut numbers = [0u32; MOST_WORKERS];
    for i in 0..MOST_WORKERS {
        numbers[i] = i as u32;
    }
    numbers
}

/// Shares an arena among so many workers, with a pass for each, in their order. A refusal hands the arena back.
pub(crate) fn share_among(
    arena: Arena,
    workers: usize,
) -> Result<(Shared, Vec<Pass>), (NoMemory, Arena)>
    requires workers { (1 ≤ workers) × (workers ≤ 64) }
    requires owners { AreBelow 64 arena.owners }
    ensures refused { IfErr result (λ e. e.1 ≡ arena) }
    ensures lawful { IsArena arena }
    ensures room { IfOk result (λ r. length r.1.items ≤ vec_capacity r.1) }
    ensures shared { IfOk result (λ r. (numbers : List ℕ) × AreCounted numbers × (length numbers ≡ workers) × IsSharedFrom arena numbers r.0 × AreFirstPasses arena numbers r.0 r.1.items) }
{
    arenas_are_lawful(&arena);
    let numbers = all_numbers();
    match arena.share(&numbers[..workers]) {
        Ok(shared) => Ok(shared),
        Err((ShareFault::NoMemory, arena)) => Err((NoMemory, arena)),
        Err((ShareFault::SameCaller { .. }, _)) => unreachable!(),
        Err((ShareFault::TooManyCallers { .. }, _)) => unreachable!(),
    }
}
