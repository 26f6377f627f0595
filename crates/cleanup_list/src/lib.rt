//! Owned cleanups, run once and in reverse order, and the watch that is told of each.
//!
//! It stands at the bottom of the flow, below the serial arena, which registers one cleanup for each byte string that
//! it keeps. Its contract: a number is given to each item in the order of registration, a refusal hands the item back,
//! and `run_all`, which takes the list away, tells the watch every number once, from the last down to 0.
#![tactic(auto)]

mod list;
mod list_watch;
#[cfg(test)]
mod tests;
mod watch;

pub use list::{Cleanup, CleanupList};
pub use list_watch::ListWatch;
pub use no_memory::NoMemory;
pub use watch::{CleanupWatch, SilentWatch};
