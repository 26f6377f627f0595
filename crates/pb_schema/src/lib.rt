//! The definitions of the wire format: what bytes mean, and which bytes are written for a tree; and the types of
//! fields, messages and faults that the layers above hand on.
//!
//! It stands at the bottom, beside the code: the contracts of the layers above cite its `specs/`, and its
//! functions state laws over them. Its contract: varints, frames and records have at most one reading, and the
//! function that computes it finds it exactly where there is one. A payload has a tree exactly where it has no fault,
//! and by a lawful schema that tree is one that a message of its type may be. The shape of payloads, a tree with its
//! unknown bytes in pieces, is their tree once the pieces are joined, and what payloads count in a memory is said over
//! it. What a payload stands for is also what putting its records into a message one after another gives; a text
//! behind it merges; bytes have the fault of their first bad record, and a front of sound bytes is sound or cut. What
//! is written is read back: numbers, frames, and each message that was decoded.
#![tactic(auto)]

mod built_in;
mod find;
mod kind;
mod laws;
mod lists;
mod schema;
mod step_laws;
mod wire_fault;

pub use built_in::builtin;
pub use kind::{Card, FieldType, Kind};
pub use laws::{
    a_tree_where_no_fault, decoded_trees_are_fitted, empty_merges_to_the_same,
    frames_are_read_back, kinds_read_what_they_write, later_payloads_count_more, one_framing,
    one_list_of_records, one_record, one_varint, shapes_are_trees_in_pieces, shortest_varint,
    ticks_are_read_back, trees_where_none_is_bad, unknown_parts_are_changed_alone,
    varint_by_places, what_is_put_is_held, what_stands_behind,
};
pub use lists::{ByteList, FieldList, Name};
pub use no_memory::NoMemory;
pub use schema::{MessageType, Schema, TypeList};
pub use step_laws::{
    a_prefix_is_sound_or_cut, appended_text_merges, first_fault, one_record_more,
    written_messages_are_read_back,
};
pub use wire_fault::{WireFault, WireKind};

#[cfg(test)]
mod tests;
