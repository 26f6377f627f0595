//! Writing messages: the text of a message of any schema, and its length.
//!
//! It stands on the messages of `dyn_message`, beside whatever reads or merges them, and below the program. Its contract:
//! `size` is the length of the text of what a message stands for, and `write_message` hands exactly that text to a sink,
//! or, where the sink failed, a front of it that isn't the whole. Neither takes memory or changes the message. `write_framed`
//! writes messages behind their lengths, and gathers them on the way.
#![tactic(auto)]

mod backwards;
mod counter;
mod forwards;
mod framed;
mod gathered;
mod laws;
mod number;
mod pieces;
mod room;
mod sending;
mod target;
mod text_rooms;
mod text_size;
mod write;

pub use framed::write_framed;
pub use laws::texts_are_short;
pub use text_rooms::TextRooms;
pub use text_size::size;
pub use write::write_message;

#[cfg(test)]
mod tests;
