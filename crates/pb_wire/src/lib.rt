//! Reading and writing the wire format: varints, tags, records with the groups in them, and the frames of a file.
//!
//! It stands on the definitions of `pb_schema`, and the parsers and writers of messages stand on it. Its contract is
//! exact both ways: each `read_` call answers what the definitions find at that place, or exactly the first fault, with its
//! kind and its byte; each `find_` call the same, or nothing exactly where there is a fault; each writer gives the shortest
//! spelling.
#![tactic(auto)]

mod find;
mod frame_fault;
mod frame_place;
mod frames;
mod record;
mod tag;
mod varint;
mod wire_record;
mod write;

pub use find::{find_length, find_value};
pub use frame_fault::FrameFault;
pub use frames::{Frames, read_frames};
pub use pb_schema::{WireFault, WireKind};
pub use record::read_record;
pub use tag::{read_tag, write_tag};
pub use varint::read_varint;
pub use wire_record::WireRecord;
pub use write::{put_varint, varint_len, write_varint};

#[cfg(test)]
mod tests;
