//! The blocks of an arena: how large each one is made, and bump placement within one.
//!
//! It stands at the bottom of the flow, below the serial arena, which opens one block after the other. Its contract:
//! the next size is twice the last one up to a bound, or what is asked for where that is more; a part is placed where
//! the block is filled to, rounded up to 8 bytes, and all of it is zero; a write changes one part.
#![tactic(auto)]

mod block;
mod filled;
mod policy;
#[cfg(test)]
mod tests;

pub use block::Block;
pub use no_memory::NoMemory;
pub use policy::Policy;
