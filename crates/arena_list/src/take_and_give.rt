//! A caller takes the value out of its slot, and gives it back.
ghost use Rattle.std.specs.Prelude.{◌≡◌, ℕ, ◌≤◌, Some};
ghost use Rattle.arena_list.specs.Words.Written.{word_count};
ghost use Rattle.arena_list.specs.declared.for_clauses.view.Hold.TheVariants.{Away, Rests};
ghost use Rattle.arena_list.specs.Rule.Founded.{meter, Fits};
ghost use Rattle.arena_list.specs.Marks.OfParts.{marks, mark};
ghost use Rattle.arena_list.specs.Rule.Views.{who, mine, out, shown};
ghost use Rattle.arena_list.specs.Steps.After.{IsOut, used_now, with_seat, held, settled};
ghost use Rattle.arena_list.specs.Steps.Moments.{SeenTake, SeenGive};
ghost use Rattle.arena_list.specs.Calls.Seats.{view, life_of, IsSeatOf, SameList, HasValue};

use crate::list::{ArenaList, ListSeat, Words, take_up};
use crate::single_steps::{SPACING, STATES, STRIDE};
use crate::step_kinds::{Claim, Empty, Give, Take};
use arena_mem::Part;

impl<V: Part> ArenaList<V> {
    /// The value of the caller's own slot, which is out with the caller from then on. It is one exchange on the slot's
    /// state and one load of it, and takes no memory.
    pub fn take_slot(&self, seat: &mut ListSeat, slot: u32) -> V
        requires list { IsSeatOf self.now seat.old }
        requires own { mine (view seat.old) ≡ Some slot }
        requires home { (part : _) × (out (view seat.old) ≡ Rests part) }
        ensures list { SameList seat.old seat.new }
        // the value given last, or the one handed to `make`
        ensures value { HasValue V.row.coded (meter V.owner_of V.life_of V.used_of) seat.old result }
        ensures view { view seat.new ≡ held (view seat.old) (Away (V.used_of result)) }
        ensures moment { SeenTake marks (view seat.old).base (view seat.old) (V.used_of result) }
    {
        let words = &self.table.shared;
        let state = STATES + slot as usize * STRIDE;
        let mut own = take_up(&mut seat.badge);
        words.swap::<Take>(&mut own, state, 2 * seat.used);
        let part = words.exchange(&mut own, slot as usize * SPACING, None);
        words.load::<Empty>(&mut own, state);
        seat.badge = own.into_badge();
        match part {
            Some(part) => part,
            None => unreachable!(),
        }
    }

    /// Gives a value back to the caller's own slot, whose state shows its used sum from then on. It is one load and one
    /// store, and takes no memory.
    pub fn give_slot(&self, seat: &mut ListSeat, slot: u32, part: V)
        requires list { IsSeatOf self.now seat.old }
        requires own { mine (view seat.old) ≡ Some slot }
        // the slot is out, and the value has at least the used sum that it had when it was taken
        requires out { (used : ℕ) × (out (view seat.old) ≡ Away used) × (used ≤ V.used_of part) }
        requires part { Fits (meter V.owner_of V.life_of V.used_of) (life_of self.now) (who (view seat.old)) part }
        ensures list { SameList seat.old seat.new }
        ensures view { view seat.new ≡ settled marks (view seat.old) (mark V.row.coded (meter V.owner_of V.life_of V.used_of) part) }
        ensures moment { SeenGive marks (view seat.old).base (held (view seat.old) (with_seat (out (view seat.old)))) (mark V.row.coded (meter V.owner_of V.life_of V.used_of) part) }
        // what a seat was shown never falls
        ensures earlier { shown (view seat.old) ≤ shown (view seat.new) }
    {
        let _ = slot;
        put(&self.table.shared, seat, part);
    }
}

/// Gives a value to a seat's slot, which is empty.
pub(crate) fn put<V: Part>(words: &Words<V>, seat: &mut ListSeat, part: V)
    requires list { (seat.old.badge.table_id ≡ words.now.table_id) × (words.now.table_id.words ≡ word_count) }
    requires out { IsOut (out (view seat.old)) }
    requires more { used_now marks (out (view seat.old)) ≤ V.used_of part }
    requires part { Fits (meter V.owner_of V.life_of V.used_of) words.now.key.life (who (view seat.old)) part }
    ensures list { SameList seat.old seat.new }
    ensures view { view seat.new ≡ settled marks (view seat.old) (mark V.row.coded (meter V.owner_of V.life_of V.used_of) part) }
    ensures moment { SeenGive marks (view seat.old).base (held (view seat.old) (with_seat (out (view seat.old)))) (mark V.row.coded (meter V.owner_of V.life_of V.used_of) part) }
    ensures earlier { shown (view seat.old) ≤ shown (view seat.new) }
{
    let slot = seat.slot as usize;
    let used = part.used();
    let mut own = take_up(&mut seat.badge);
    words.load::<Claim>(&mut own, STATES + slot * STRIDE);
    match words.exchange(&mut own, slot * SPACING, Some(part)) {
        None => {}
        Some(_) => unreachable!(),
    }
    words.store::<Give>(&mut own, STATES + slot * STRIDE, 2 * used + 1);
    seat.badge = own.into_badge();
    seat.used = used;
}
