//! Descriptor sets: the files of descriptors that `protoc` writes, read and linked to a schema.
//!
//! It stands on the definitions of `pb_schema` and the readers of `pb_wire`, and the top call hands it the bytes of a set.
//! Its contract: a set is read by the messages of descriptor.proto as any payload is read by a schema, and what it
//! declares is what its tree says; a set with a fault is refused at the first one.
#![tactic(auto)]

mod check;
mod descriptor;
mod fault;
mod fields;
mod file;
mod kinds;
mod link;
mod lists;
mod message;
mod names;
mod numbers;
mod payload;
mod read;
mod records;
mod refusals;
mod rules;
mod set;

pub use fault::{ReadSetFault, SchemaFault};
pub use no_memory::NoMemory;
pub use set::read_set;

#[cfg(test)]
mod tests;
