//! Merging and copying messages, over any memory, and how large they are.
//!
//! It stands on the messages of `dyn_message`, beside what reads and writes them. Its contract: a message into which
//! another one is merged stands for the merge of the two, and a copy for what was copied, each in its own memory alone;
//! what that takes of the memory is a function of what the two stood for; and all that the message didn't stand on keeps
//! its bytes. `units` and `depth` are exactly those of the tree that a message stands for.
#![tactic(auto)]

mod across;
mod between;
mod extent;
mod inside;
mod laws;
mod lists;
mod measure;
mod values;
mod walk;

pub use between::{copy, merge_across};
pub use inside::merge;
pub use laws::{standing_messages_hold_by_cards, walks_cost_what_merges_cost, walks_merge};
pub use measure::{depth, units};

#[cfg(test)]
mod merge_tests;
#[cfg(test)]
mod tests;
