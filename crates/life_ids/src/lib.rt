//! Ids for the lives of arenas, drawn in batches over one atomic word.
//!
//! It stands on `atomic_table`, and the arenas that threads share stand on it: each life of an arena has an id of
//! its own, and a thread's cache names the life that it is of. Its contract: the ids that one seat draws ascend
//! (`ascends`), a batch that a seat takes has no id that any seat of the counter has at that moment (`moment`, with the
//! law `ids_differ`), and each seat draws exactly as many as its quota allows (`left`, `spent`).
#![tactic(auto)]

mod cache;
mod ids;
mod laws;
mod rule;
mod seat;
mod source;
#[cfg(test)]
mod tests;
mod view;

pub use cache::ThreadCache;
pub use ids::{IdsSpent, LifeIds};
pub use laws::ids_differ;
pub use no_memory::NoMemory;
pub use seat::IdSeat;
pub use source::IdSource;
