// A seat of the counter, with what is left of its batch.
ghost use Rattle.std.specs.Prelude.{◌≡◌, ◌-◌, ◌<◌, [], ◌∷◌, ◌++◌, IfSome, IfNone};

use crate::view::View;
use atomic_table::Seat;
use std::marker::Model;
use std::ops::Range;

/// How many ids a batch has.
pub(crate) const BATCH: u64 = 256;

/// What draws ids of one counter: a quota of batches, and what is left of the last batch that it took.
///
/// Contracts see it as a `SeatState`.
#[derive(Drop)]
pub struct IdSeat {
    pub(crate) seat: Seat<(), View>,
    pub(crate) batch: Range<u64>,
    pub(crate) quota: u64,
}

impl Model for IdSeat {
    ghost use Rattle.std.specs.Prelude.{◌≡◌, ◌-◌, []};
    ghost use Rattle.life_ids.specs.Seats.{SeatState};
    ghost use Rattle.life_ids.specs.Fields.{IsRest};

    ghost Value = { SeatState };

    ghost view = { λ s. record {
      counter = record { table = s.seat.table_id; total = s.seat.me.0.total };
      taken = s.seat.me.0.taken;
      given = s.seat.me.0.given;
      quota = s.quota;
      rest = s.batch.end - s.batch.start;
    } };

    ghost invariant = { λ s. IsRest s.seat.me.0 s.batch.start s.batch.end s.quota × (s.seat.me.1 ≡ []) };
}

impl IdSeat {
    ghost use Rattle.std.specs.List.Sorted.{IsStrictlyIncreasing};
    ghost use Rattle.life_ids.specs.Seats.{SeatState, next_id, drawn, greatest_drawn, ids_left};

    // The next id of the batch, if any is left.
    pub(crate) fn next_of_batch(&mut self) -> Option<u64>
        ensures none { IfNone result ((self.old.rest ≡ 0) × (self.new ≡ self.old)) }
        ensures some { IfSome result (λ id. (0 < self.old.rest) × (id ≡ next_id self.old) × (self.new ≡ record self.old { rest = self.old.rest - 1 })) }
        ensures drawn { IfSome result (λ id. drawn self.new ≡ drawn self.old ++ id ∷ []) }
        ensures ascending { IsStrictlyIncreasing (drawn self.new) }
        ensures ascends { IfSome result (λ id. greatest_drawn self.old < id) }
    {
        self.batch.next()
    }

    // How many ids it can still draw.
    pub(crate) fn left(&self) -> u64
        ensures { result ≡ ids_left self.now }
    {
        BATCH * self.quota + (self.batch.end - self.batch.start)
    }
}
