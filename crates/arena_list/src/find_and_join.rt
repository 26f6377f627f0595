//! Callers find their slot in the list, and join it.
ghost use Rattle.std.specs.Prelude.{◌≡◌, None};
ghost use Rattle.arena_list.specs.Marks.OfParts.{marks};
ghost use Rattle.arena_list.specs.Rule.Views.{mine};
ghost use Rattle.arena_list.specs.Calls.Outcomes.{HasFound, HasJoined};
ghost use Rattle.arena_list.specs.Calls.Seats.{view, IsSeatOf, SameList};

use crate::list::{ArenaList, ListSeat};
use crate::single_steps::SPAN;
use arena_mem::Part;

impl<V: Part> ArenaList<V> {
    /// The caller's slot, or `None` exactly where the list that was looked at has no node of the caller. It takes no
    /// memory, and at most a list step for the look and one for each node.
    pub fn find(&self, seat: &mut ListSeat) -> Option<u32>
        requires list { IsSeatOf self.now seat.old }
        ensures list { SameList seat.old seat.new }
        ensures found { HasFound marks (view seat.old) (view seat.new) result }
    {
        let head = self.look(seat);
        let mut left = head / SPAN;
        let mut link = head % SPAN;
        while left > 0 {
            let slot = link - 1;
            let node = self.read_node(seat, slot);
            if node / SPAN == seat.caller as u64 {
                return Some(slot as u32);
            }
            link = node % SPAN;
            left -= 1;
        }
        None
    }

    /// Links the caller's spare at the end of the list, and answers its slot. It takes no memory, and two list steps
    /// for each of at most `slot_count` tries: an exchange that fails showed a longer list.
    pub fn join(&self, seat: &mut ListSeat) -> u32
        requires list { IsSeatOf self.now seat.old }
        requires spare { mine (view seat.old) ≡ None }
        ensures list { SameList seat.old seat.new }
        ensures joined { HasJoined marks (view seat.old) (view seat.new) result }
    {
        while !self.try_link(seat) {}
        seat.slot
    }
}
