//! The layouts of messages: where the record of a message has the slot of each field, and what tells that a field is
//! set.
//!
//! It stands above the schema and below the messages, which read and write records by it. Its contract: `layouts` makes
//! the layouts that the definitions say of a lawful schema, or hands the schema back; a field's entry is found by its
//! number; and in every layout slots and marks lie in the record, and those of different fields have no byte in common.
#![tactic(auto)]

mod entry;
mod find;
mod laws;
mod make;
mod slots;
pub mod tables;

pub use entry::{Entry, Mark};
pub use laws::layouts_are_sound;
pub use make::layouts;
pub use no_memory::NoMemory;
pub use slots::{single_bytes, slot_bytes};

#[cfg(test)]
mod tests;
