// A counter and one seat, in one value.
ghost use Rattle.std.specs.Prelude.{◌≡◌, ◌+◌, ◌-◌, ◌*◌, ◌^◌, ◌<◌, ◌≤◌, ◌↔◌, ◌∷◌, ◌++◌, [], length, IsErr, IsOk, IfOk, OnOk, OnErr};
ghost use Rattle.std.specs.List.Sorted.{IsStrictlyIncreasing};
ghost use Rattle.life_ids.specs.Moments.{TookBatch};
ghost use Rattle.life_ids.specs.Seats.{SeatState, new_seat, next_id, drawn, greatest_drawn, ids_left, IsAlone, IsFresh};

use crate::ids::{IdsSpent, LifeIds};
use crate::seat::IdSeat;
use atomic_table::Table;
use no_memory::NoMemory;
use std::alloc::Global;
use std::marker::Model;

/// A source of ids for one caller: a counter, and a seat of it. Contracts see it as its seat.
#[derive(Drop)]
pub struct IdSource {
    ids: LifeIds,
    seat: IdSeat,
}

impl Model for IdSource {
    ghost use Rattle.std.specs.Prelude.{◌≡◌};
    ghost use Rattle.life_ids.specs.Seats.{SeatState};

    ghost Value = { SeatState };

    ghost view = { λ s. s.seat };

    ghost invariant = { λ s. s.seat.counter ≡ s.ids };
}

impl IdSource {
    /// A counter with `quota` batches of 256 ids, all of them at its seat. The first id is 1.
    ///
    /// # Errors
    ///
    /// `NoMemory`.
    pub fn new(alloc: Global, quota: u64) -> Result<IdSource, NoMemory>
        requires { quota ≤ 2 ^ 55 }
        ensures { IfOk result (λ ids. (ids.counter.total ≡ quota) × (ids ≡ new_seat ids.counter quota)) }
    {
        let (table, seat) = Table::of_words(alloc, &[1], &quota)?;
        Ok(IdSource {
            ids: LifeIds { table },
            seat: IdSeat {
                seat,
                batch: 0..0,
                quota,
            },
        })
    }

    /// The next id, of its own seat: see `LifeIds::draw`. It takes no memory.
    ///
    /// # Errors
    ///
    /// `IdsSpent` exactly where no id is left. Nothing changes then.
    pub fn draw(&mut self) -> Result<u64, IdsSpent>
        ensures spent { IsErr result ↔ (ids_left self.old ≡ 0) }
        ensures answers { 0 < ids_left self.old → IsOk result }
        ensures unchanged { OnErr result (self.new ≡ self.old) }
        ensures counter { self.new.counter ≡ self.old.counter }
        ensures next { IfOk result (λ id. 0 < self.old.rest → (id ≡ next_id self.old) × (self.new ≡ record self.old { rest = self.old.rest - 1 })) }
        ensures batch { IfOk result (λ id. self.old.rest ≡ 0 → self.new ≡ record self.old { taken = self.old.taken ++ id ∷ []; quota = self.old.quota - 1; rest = 255 }) }
        ensures fresh { IfOk result (λ id. self.old.rest ≡ 0 → IsFresh id self.old) }
        ensures moment { IfOk result (λ id. self.old.rest ≡ 0 → TookBatch id self.old self.new) }
        ensures drawn { IfOk result (λ id. drawn self.new ≡ drawn self.old ++ id ∷ []) }
        ensures ascends { IfOk result (λ id. greatest_drawn self.old < id) }
        ensures ascending { IsStrictlyIncreasing (drawn self.new) }
        ensures greatest { IfOk result (λ id. greatest_drawn self.new ≡ id) }
        ensures left { OnOk result (ids_left self.new + 1 ≡ ids_left self.old) }
        ensures alone { IfOk result (λ id. self.old.rest ≡ 0 → IsAlone self.old → id ≡ 1 + 256 * (length self.old.taken + length self.old.given)) }
    {
        self.ids.draw(&mut self.seat)
    }

    /// How many ids are left: 256 for each batch of the quota, and the rest of the last batch.
    pub fn left(&self) -> u64
        ensures { result ≡ ids_left self.now }
    {
        self.seat.left()
    }

    /// The counter, to be shared, and the seat. It takes no memory.
    pub fn into_parts(self) -> (LifeIds, IdSeat)
        ensures seat { result.1 ≡ self }
        ensures own { result.0 ≡ self.counter }
    {
        let IdSource { ids, seat } = self;
        (ids, seat)
    }

    /// What `into_parts` took apart, or the counter with another seat of it. It takes no memory.
    pub fn of_parts(ids: LifeIds, seat: IdSeat) -> IdSource
        requires own { seat.counter ≡ ids }
        ensures { result ≡ seat }
    {
        IdSource { ids, seat }
    }
}
