// The shared counter.
ghost use Rattle.std.specs.Prelude.{◌≡◌, ◌+◌, ◌-◌, ◌*◌, ◌<◌, ◌≤◌, ◌↔◌, ℕ, [], ◌∷◌, ◌++◌, length, IsErr, IsOk, IfOk, OnOk, OnErr};
ghost use Rattle.std.specs.List.{Contains};
ghost use Rattle.std.specs.List.Sorted.{IsStrictlyIncreasing};
ghost use Rattle.life_ids.specs.Plays.{kept, cut_off};
ghost use Rattle.life_ids.specs.Moments.{IsRuled, TookBatch};
ghost use Rattle.life_ids.specs.Seats.{SeatState, new_seat, next_id, drawn, greatest_drawn, ids_held, ids_left, IsAlone, IsFresh};

use crate::rule::{Batches, Both, Cut, IdLaw, Look, Take};
use crate::seat::{BATCH, IdSeat};
use crate::view::View;
use atomic_table::{Seat, Shared, Table};
use std::alloc::Global;
use std::marker::{Brand, Model};

/// The quota and the batch of a seat are used up. Nothing has changed.
#[derive(Clone, Copy, Debug, PartialEq, Eq)]
pub struct IdsSpent;

/// The counter that the seats of many threads share: one word, the first id of the next batch.
///
/// Contracts see it as a `Counter`, and a seat names the counter that it is of.
#[derive(Drop)]
pub struct LifeIds {
    pub(crate) table: Table<(), View, u64, IdLaw, Global>,
}

impl Model for LifeIds {
    ghost use Rattle.std.specs.Prelude.{◌≡◌};
    ghost use Rattle.life_ids.specs.Seats.{Counter};

    ghost Value = { Counter };

    ghost view = { λ l. record { table = l.table.shared.table_id; total = l.table.shared.key } };

    ghost invariant = { λ l. l.table.shared.table_id.words ≡ 1 };
}

impl LifeIds {
    /// The next id of the seat's batch. Where that is used up, 256 new ids are taken first, by one fetch and add, and
    /// the quota falls by 1. It takes no memory, and has no loop to wait in.
    ///
    /// # Errors
    ///
    /// `IdsSpent` exactly where the batch and the quota are used up. Nothing changes then.
    pub fn draw(&self, seat: &mut IdSeat) -> Result<u64, IdsSpent>
        requires own { seat.old.counter ≡ self.now }
        ensures spent { IsErr result ↔ (ids_left seat.old ≡ 0) }
        ensures answers { 0 < ids_left seat.old → IsOk result }
        ensures unchanged { OnErr result (seat.new ≡ seat.old) }
        ensures counter { seat.new.counter ≡ seat.old.counter }
        ensures next { IfOk result (λ id. 0 < seat.old.rest → (id ≡ next_id seat.old) × (seat.new ≡ record seat.old { rest = seat.old.rest - 1 })) }
        ensures batch { IfOk result (λ id. seat.old.rest ≡ 0 → seat.new ≡ record seat.old { taken = seat.old.taken ++ id ∷ []; quota = seat.old.quota - 1; rest = 255 }) }
        // A new batch has no id of those that the seat had, and the rule of all seats holds as it is taken.
        ensures fresh { IfOk result (λ id. seat.old.rest ≡ 0 → IsFresh id seat.old) }
        ensures moment { IfOk result (λ id. seat.old.rest ≡ 0 → TookBatch id seat.old seat.new) }
        ensures drawn { IfOk result (λ id. drawn seat.new ≡ drawn seat.old ++ id ∷ []) }
        ensures ascends { IfOk result (λ id. greatest_drawn seat.old < id) }
        ensures ascending { IsStrictlyIncreasing (drawn seat.new) }
        ensures greatest { IfOk result (λ id. greatest_drawn seat.new ≡ id) }
        ensures left { OnOk result (ids_left seat.new + 1 ≡ ids_left seat.old) }
        // Which batch comes next, where no other seat took one.
        ensures alone { IfOk result (λ id. seat.old.rest ≡ 0 → IsAlone seat.old → id ≡ 1 + 256 * (length seat.old.taken + length seat.old.given)) }
    {
        if let Some(id) = seat.next_of_batch() {
            return Ok(id);
        }
        if seat.quota == 0 {
            return Err(IdsSpent);
        }
        Ok(self.draw_from_new_batch(seat))
    }

    // Takes a batch, and answers its first id.
    fn draw_from_new_batch(&self, seat: &mut IdSeat) -> u64
        requires own { seat.old.counter ≡ self.now }
        requires used_up { seat.old.rest ≡ 0 }
        requires quota { 0 < seat.old.quota }
        ensures batch { seat.new ≡ record seat.old { taken = seat.old.taken ++ result ∷ []; quota = seat.old.quota - 1; rest = 255 } }
        ensures fresh { IsFresh result seat.old }
        ensures moment { TookBatch result seat.old seat.new }
        ensures drawn { drawn seat.new ≡ drawn seat.old ++ result ∷ [] }
        ensures ascends { greatest_drawn seat.old < result }
        ensures ascending { IsStrictlyIncreasing (drawn seat.new) }
        ensures alone { IsAlone seat.old → result ≡ 1 + 256 * (length seat.old.taken + length seat.old.given) }
    {
        let start = self
            .table
            .shared
            .fetch_add::<Take>(&mut seat.seat, 0, BATCH);
        seat.quota -= 1;
        seat.batch = start + 1..start + BATCH;
        start
    }

    /// Cuts off a seat with `batches` of the seat's quota. It takes no memory.
    pub fn share_quota(&self, seat: &mut IdSeat, batches: u64) -> IdSeat
        requires own { seat.old.counter ≡ self.now }
        requires quota { batches ≤ seat.old.quota }
        ensures kept { seat.new ≡ record seat.old { quota = seat.old.quota - batches } }
        ensures shared { result ≡ new_seat self.now batches }
    {
        let other = cut_off::<Brand>(&self.table.shared, &mut seat.seat, batches);
        seat.quota -= batches;
        IdSeat {
            seat: other,
            batch: 0..0,
            quota: batches,
        }
    }

    /// Adds the other seat's quota to this one's. The rest of the other's batch is given up: no seat draws it. It
    /// takes no memory.
    pub fn give_back(&self, seat: &mut IdSeat, other: IdSeat)
        requires own { (seat.old.counter ≡ self.now) × (other.counter ≡ self.now) }
        ensures added { seat.new ≡ record seat.old { given = seat.old.given ++ other.taken ++ other.given; quota = seat.old.quota + other.quota } }
        ensures moment { IsRuled seat.new }
        // No id was drawn by both.
        ensures apart { (id : ℕ) → Contains (drawn seat.old) id → ¬ Contains (drawn other) id }
        // Nor does one stand in the batches of both, those that were given back to either among them.
        ensures held_apart { (id : ℕ) → Contains (ids_held seat.old) id → ¬ Contains (ids_held other) id }
    {
        let IdSeat {
            seat: given,
            batch: _,
            quota,
        } = other;
        self.table.shared.join_seat::<Both>(&mut seat.seat, given);
        self.table.shared.load::<Look>(&mut seat.seat, 0);
        seat.quota += quota;
    }
}

// A seat with this quota, of the other's.
fn cut_off<N: Batches>(
    shared: &Shared<(), View, u64, IdLaw>,
    seat: &mut Seat<(), View>,
    batches: u64,
) -> Seat<(), View>
    requires number { batches ≡ N.batches }
    requires quota { batches ≤ seat.old.me.0.quota }
    requires own { (seat.old.table_id ≡ shared.now.table_id) × (shared.now.table_id.words ≡ 1) }
    ensures kept { (seat.new.table_id ≡ seat.old.table_id) × (seat.new.me ≡ (kept batches seat.old.me.0, seat.old.me.1)) }
    ensures shared { (result.table_id ≡ seat.old.table_id) × (result.me ≡ (cut_off batches seat.old.me.0, [])) }
{
    shared.split_seat::<Cut<N>>(seat)
}
