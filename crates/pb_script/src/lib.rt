//! Registers: what a script's lines name.
//!
//! It stands on messages and on the serial arenas of those on the heap, and the program stands on it. Its contract: a
//! register has a region of its own exactly where it has a message on the heap.
#![tactic(auto)]

mod home;
mod register;

pub use home::Home;
pub use register::{Register, regions_are_of_the_heap};
