//! A list that only clauses read.
//!
//! It stands at the bottom of the flow, for types whose meaning is a function of more than their bytes: what a part was
//! placed at, or what a call was handed. Its contract: a new list is empty, one more item stands behind the others, and a
//! list of a slice has the slice's items. It has no bytes and takes no memory, and no code can read it; so whoever holds
//! one ties its items to real data by an invariant.
#![tactic(auto)]

ghost use Rattle.std.specs.Prelude.{◌≡◌, List, [], ◌∷◌, ◌++◌};
ghost use Rattle.std.specs.Borrow.{ftrue};
ghost use Rattle.std.specs.Coded.{coded_list};

use std::marker::{Model, PhantomData};

/// The items that were handed to it, in order.
#[derive(Drop)]
pub struct GhostList<T> {
    marker: PhantomData<T>,
    pub ghost items: { List T } by { coded_list T.code },
}

impl<T> Model for GhostList<T> {
    ghost also_owns = { λ _. ftrue };
}

// A struct with `also_owns` has neither by itself. This one owns nothing, whatever its items are.
unsafe impl<T> Send for GhostList<T> {}

unsafe impl<T> Sync for GhostList<T> {}

impl<T> GhostList<T> {
    /// A list of nothing.
    pub fn new() -> GhostList<T>
        ensures { result.items ≡ [] }
    {
        GhostList {
            marker: PhantomData,
        }
    }

    /// The list with one more item behind the others.
    pub fn with(&self, item: &T) -> GhostList<T>
        ensures { result.items ≡ self.now.items ++ item.now ∷ [] }
    {
        GhostList {
            marker: PhantomData,
        }
    }

    /// The list of what stands in a slice.
    pub fn of(items: &[T]) -> GhostList<T>
        ensures { result.items ≡ items.now }
    {
        GhostList {
            marker: PhantomData,
        }
    }
}
