// Calls that fail where they were told to, with a count of their faults.
ghost use Rattle.std.specs.Prelude.{◌≡◌, ◌≤◌};
ghost use Rattle.arena_mem.specs.Calls.{fails_next, no_calls, one_more};

use crate::outside::Failed;
use std::marker::Model;

/// Which calls fail, by their numbers from 0, with the number of the next call and the count of faults.
///
/// The numbers and the count stand still at the end of a `u64`.
#[derive(Drop)]
pub(crate) struct Calls {
    failing: Vec<u64>,
    next: u64,
    faults: u64,
}

impl Model for Calls {
    ghost use Rattle.arena_mem.specs.Calls.{CallCounts};

    ghost Value = { CallCounts };

    ghost view = { λ c. record { failing = c.failing.items; next = c.next; faults = c.faults } };
}

impl Calls {
    /// Nothing was called yet, and the calls of these numbers will fail.
    pub(crate) fn new(failing: Vec<u64>) -> Calls
        ensures { result ≡ no_calls failing.items }
    {
        Calls {
            failing,
            next: 0,
            faults: 0,
        }
    }

    /// Counts a call, and answers whether it is listed to fail.
    pub(crate) fn next_fails(&mut self) -> bool
        ensures listed { result ≡ fails_next self.old }
        ensures counted { self.new ≡ record self.old { next = one_more self.old.next } }
    {
        let fails = self.failing.contains(&self.next);
        self.next = self.next.saturating_add(1);
        fails
    }

    /// Counts a fault.
    pub(crate) fn fault(&mut self) -> Failed
        ensures counted { self.new ≡ record self.old { faults = one_more self.old.faults } }
        ensures never_falls { self.old.faults ≤ self.new.faults }
    {
        self.faults = self.faults.saturating_add(1);
        Failed
    }

    /// How many calls have failed.
    pub(crate) fn faults(&self) -> u64
        ensures { result ≡ self.now.faults }
    {
        self.faults
    }
}
