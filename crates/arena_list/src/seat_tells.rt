//! What a seat tells of its caller.
ghost use Rattle.std.specs.Prelude.{◌≡◌};
ghost use Rattle.arena_list.specs.Rule.Views.{who, mine};
ghost use Rattle.arena_list.specs.Calls.Seats.{view};

use crate::list::ListSeat;

impl ListSeat {
    /// The caller whose seat it is.
    pub fn caller(&self) -> u32
        ensures { result ≡ who (view self.now) }
    {
        self.caller
    }

    /// The caller's slot, where it is in the list.
    pub fn slot(&self) -> Option<u32>
        ensures { result ≡ mine (view self.now) }
    {
        if self.linked { Some(self.slot) } else { None }
    }
}
