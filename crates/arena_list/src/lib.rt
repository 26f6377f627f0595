//! The shared list of the parts of an arena, by single steps on atomic words.
//!
//! It stands between the parts, which each of several callers fills alone, and the arena that is shared by threads.
//! Its contract, over every interleaving of steps: the list is one list that only grows, each caller has one slot in it
//! or beside it, and the value of a caller with a seat is in the caller's slot or out with that seat. The values of
//! linked callers without a seat lie with the list, where no step reaches them. That no call waits is seen in its code.
#![tactic(auto)]

#[cfg(test)]
mod callers;
mod close;
mod collect;
mod entry;
mod find_and_join;
mod for_clauses;
mod laws;
mod laying;
mod list;
mod make;
mod seat_tells;
mod single_steps;
mod sizes;
mod step_kinds;
mod take_and_give;
#[cfg(test)]
mod tests;

pub use entry::Entry;
pub use for_clauses::founding::Founding;
pub use for_clauses::mark::Mark;
pub use for_clauses::view::{Hand, Hold, Node, View};
pub use laws::{a_slot_has_one_value, words_show_one_list};
pub use list::{ArenaList, ListRule, ListSeat};
