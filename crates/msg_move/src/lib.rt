//! Moves of messages: between the fields of others, between two messages, and out of one memory into another.
//!
//! It stands on the messages of `dyn_message`, above what the places of a memory are. Its contract: after a move each
//! message stands for what it was given, on places and buffers of its own memory alone, and no two of them share one;
//! all else keeps its bytes.
#![tactic(auto)]

mod across;
mod adopted;
mod links;
mod swap;

pub use across::{give_across, release, swap_across};
pub use adopted::give_adopted;
pub use links::{give_same, take_sub};
pub use swap::swap_same;

#[cfg(test)]
mod tests;
