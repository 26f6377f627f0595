//! Messages of any schema as records of bytes in any memory.
//!
//! It stands above the memory and the layouts, and below whatever reads, writes, merges or moves messages. Its contract:
//! a message stands for a shape on places and buffers of its own (`specs/Stands.antt`); a getter tells exactly what the
//! shape holds at a field; a setter leaves the message standing for the shape with that field changed, and all that the
//! message doesn't stand on keeps its bytes.
#![tactic(auto)]

mod by_entry;
mod bytes;
mod fields;
mod laws;
mod links;
mod lists;
mod message;
mod message_lists;
mod msg_ref;
mod rewrite;
mod rooms;
mod scalar;
mod slot;
mod string_lists;
mod strings;
mod unknown;

pub use by_entry::{append_scalar_by, list_by, set_scalar_by};
pub use fields::{entry_in, is_set};
pub use laws::{
    changes_join, changes_widen, feet_are_few, feet_are_there, growth_changes, old_or_fresh_joins,
    one_shape_stands, one_tree_stands, record_is_a_foot, same_bytes_stand, separate_messages_stay,
    strangers_change_nothing,
};
pub use links::{link_sub, make_sub, sub, unlink_sub};
pub use lists::{append_scalar, count, element_scalar};
pub use message::{clear, create};
pub use message_lists::{append_sub, element_sub};
pub use msg_ref::MsgRef;
pub use rooms::list_at;
pub use scalar::{case_of, get_scalar, number_at, set_scalar};
pub use slot::{link_at, word};
pub use string_lists::{append_bytes, element_bytes};
pub use strings::{bytes_in, get_bytes, set_bytes, slot_at};
pub use unknown::{append_unknown, unknown_count, unknown_element};

#[cfg(test)]
mod hand_made;
#[cfg(test)]
mod kind_tests;
#[cfg(test)]
mod list_tests;
#[cfg(test)]
mod string_tests;
#[cfg(test)]
mod tests;
