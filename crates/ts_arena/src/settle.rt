//! A shared arena is settled: it is one owner's again.
ghost use Rattle.std.specs.Prelude.{◌≡◌, ◌≤◌, ◌<◌, ◌^◌, ◌-◌, min, IfOk, IfErr, IfSome, IfNone, length, map, vec_capacity, []};
ghost use mathlib.Core.Option.{some};
ghost use lib.ListN.{get_elem?};
ghost use Rattle.ts_arena.specs.Passes.{made_by};
ghost use Rattle.ts_arena.specs.Settling.{AreOwn, AreOfLife, IsForeign, IsSettledFrom, RefusesSettle};

use crate::arena::Arena;
use crate::faults::SettleFault;
use crate::pass::Pass;
use crate::share::make_passes;
use crate::shared::Shared;
use arena_list::ListSeat;

/// The first pass with another life, and that life.
fn first_foreign(passes: &[Pass], life: u64) -> Option<(usize, u64)>
    ensures foreign { IfSome result (λ r. IsForeign life passes.now r.0 r.1) }
    ensures none { IfNone result (AreOfLife life passes.now) }
{
    for (place, pass) in passes.iter().enumerate() {
        if pass.life != life {
            return Some((place, pass.life));
        }
    }
    None
}

/// A place as a fault tells it.
fn told(place: usize) -> u32
    ensures { result ≡ min place (2 ^ 32 - 1) }
{
    match u32::try_from(place) {
        Ok(place) => place,
        Err(_) => u32::MAX,
    }
}

/// Moves the seats out of the passes. The room of the passes stays.
fn take_seats(passes: &mut Vec<Pass>, seats: &mut Vec<ListSeat>)
    requires room { (seats.old.items ≡ []) × (length passes.old.items ≤ vec_capacity seats.old) }
    ensures seats { seats.new.items ≡ map (λ p. p.seat) passes.old.items }
    ensures passes { (passes.new.items ≡ []) × (vec_capacity passes.old ≤ vec_capacity passes.new) }
{
    while let Some(pass) = passes.pop() {
        if seats.push(pass.seat).is_err() {
            unreachable!();
        }
    }
    seats.reverse();
}

impl Shared {
    /// Ends the sharing: the arena is one owner's again, with each serial arena as its caller's pass left it last. The
    /// spares of callers that never entered are given up. A refusal hands everything back.
    ///
    /// # Errors
    ///
    /// `ForeignPass` exactly where a pass is of another life, with the first such place; then `PassesOut` exactly where
    /// fewer passes are given than were made; `NoMemory`.
    pub fn settle(self, passes: Vec<Pass>) -> Result<Arena, (SettleFault, Shared, Vec<Pass>)>
        requires own { AreOwn self passes.items }
        ensures refused { IfErr result (λ e. (e.1 ≡ self) × (e.2.items ≡ passes.items) × RefusesSettle self passes.items e.0) }
        ensures settled { IfOk result (λ a. IsSettledFrom self passes.items a) }
    {
        if let Some((place, life)) = first_foreign(&passes, self.life) {
            let place = told(place);
            return Err((SettleFault::ForeignPass { place, life }, self, passes));
        }
        let made = self.made;
        if passes.len() < made as usize {
            let given = passes.len() as u32;
            return Err((SettleFault::PassesOut { made, given }, self, passes));
        }
        self.settle_all(passes)
    }

    fn settle_all(self, mut passes: Vec<Pass>) -> Result<Arena, (SettleFault, Shared, Vec<Pass>)>
        requires own { AreOwn self passes.items }
        requires life { AreOfLife self.life passes.items }
        requires all { made_by self ≤ length passes.items }
        ensures refused { IfErr result (λ e. (e.1 ≡ self) × (e.2.items ≡ passes.items) × RefusesSettle self passes.items e.0) }
        ensures settled { IfOk result (λ a. IsSettledFrom self passes.items a) }
    {
        let alloc = self.adopted.allocator();
        let Ok(mut seats) = Vec::with_capacity(alloc, passes.len()) else {
            return Err((SettleFault::NoMemory, self, passes));
        };
        take_seats(&mut passes, &mut seats);
        let Shared {
            life,
            policy,
            list,
            adopted,
            made,
            adopted_used,
        } = self;
        match list.close(alloc, seats) {
            Ok((owners, _)) => Ok(Arena {
                life,
                policy,
                owners,
                adopted,
            }),
            Err((_, list, seats)) => {
                make_passes(seats, life, &mut passes);
                let shared = Shared {
                    life,
                    policy,
                    list,
                    adopted,
                    made,
                    adopted_used,
                };
                Err((SettleFault::NoMemory, shared, passes))
            }
        }
    }
}
