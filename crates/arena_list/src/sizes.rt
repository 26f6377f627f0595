//! A caller adds up what the list has used.
ghost use Rattle.std.specs.Prelude.{◌≡◌, ◌*◌, ◌^◌, ◌<◌, ◌≤◌, slice_index};
ghost use Rattle.arena_list.specs.Words.Core.{slot_count};
ghost use Rattle.arena_list.specs.Marks.OfParts.{marks};
ghost use Rattle.arena_list.specs.Rule.Views.{hand, out};
ghost use Rattle.arena_list.specs.Steps.After.{sized, used_now};
ghost use Rattle.arena_list.specs.Steps.Moments.{SeenSize};
ghost use Rattle.arena_list.specs.Calls.Outcomes.{HasSummed};
ghost use Rattle.arena_list.specs.Calls.Seats.{view, IsSeatOf, SameList};

use crate::list::{ArenaList, ListSeat, take_up};
use crate::single_steps::{SPAN, STATES, STRIDE};
use crate::step_kinds::ReadSize;
use arena_mem::Part;

impl<V: Part> ArenaList<V> {
    /// The sum of the used sums that the states of the list's slots show, each when it is read. It is at least the
    /// caller's own part and each answer that this seat got before. It takes no memory, one list step for the look and
    /// one for each node.
    pub fn sizes(&self, seat: &mut ListSeat) -> u128
        requires list { IsSeatOf self.now seat.old }
        ensures list { SameList seat.old seat.new }
        ensures summed { HasSummed marks (view seat.old) (view seat.new) result }
        ensures small { result ≤ slot_count * 2 ^ 63 }
    {
        let head = self.look(seat);
        let mut left = head / SPAN;
        let mut link = head % SPAN;
        let mut sum = 0;
        while left > 0 {
            let slot = link - 1;
            let node = self.read_node(seat, slot);
            sum += self.read_size(seat, slot) as u128;
            link = node % SPAN;
            left -= 1;
        }
        sum
    }

    /// Loads the state of a slot, and answers the used sum that it shows.
    fn read_size(&self, seat: &mut ListSeat, slot: u64) -> u64
        requires list { IsSeatOf self.now seat.old }
        requires slot { slot < slot_count }
        ensures list { SameList seat.old seat.new }
        ensures view { view seat.new ≡ sized (view seat.old) slot result }
        ensures more { slice_index (view seat.old).sizes slot ≤ result }
        ensures here { slice_index (view seat.new).sizes slot ≡ result }
        ensures own { slot ≡ (hand (view seat.old)).slot → result ≡ used_now marks (out (view seat.old)) }
        ensures small { result < 2 ^ 63 }
        ensures moment { SeenSize marks (view seat.old).base (view seat.old) slot result }
    {
        let state = STATES + slot as usize * STRIDE;
        let mut own = take_up(&mut seat.badge);
        let word = self.table.shared.load::<ReadSize>(&mut own, state);
        seat.badge = own.into_badge();
        word / 2
    }
}
