//! The one answer for want of memory, as a type of its own that every crate shares.
//!
//! It stands at the bottom of the flow, so that `NoMemory` is the same type in each signature that names it.
//! Its contract: the errors of std's allocations turn into it by `?`, and into nothing else.
#![tactic(auto)]

ghost use Rattle.std.specs.Prelude.{◌≡◌};

use std::alloc::{AllocError, AllocFailed};

/// A growth was refused. What stands after this answer is said by the call that gives it.
#[derive(Clone, Copy, Debug, PartialEq, Eq)]
pub struct NoMemory;

impl From<AllocError> for NoMemory {
    ghost from_gives = { λ _ e. e ≡ record {} };

    fn from(_: AllocError) -> Self {
        NoMemory
    }
}

impl<T: Drop> From<AllocFailed<T>> for NoMemory {
    ghost from_gives = { λ _ e. e ≡ record {} };

    fn from(_: AllocFailed<T>) -> Self {
        NoMemory
    }
}
