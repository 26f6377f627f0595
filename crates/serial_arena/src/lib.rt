//! One caller's arena: it places messages in blocks, keeps byte strings, and gives all up together.
//!
//! It stands over `arena_block` and `cleanup_list`, implements `Memory` and `Part` of `arena_mem`, and the program's
//! arena is made of it. Its contract: it is a finite map from places and buffers to bytes; its placements are laid in
//! blocks by the policy, and no two share a byte; its end tells the watch each cleanup once, the last one first.
#![tactic(auto)]

mod arena;
mod blocks;
mod kept;
mod laws;
mod memory;
mod row;
mod sharing;
mod span;
mod strings;
#[cfg(test)]
mod tests;

pub use arena::{SerialArena, SerialKey, SerialRecord};
pub use laws::{arena_is_laid, blocks_hold_places, laid_spans_lie_apart, places_lie_apart};
