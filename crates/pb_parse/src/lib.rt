//! Parsing: the bytes of a message of any type, read into a message in a memory.
//!
//! It stands on the readers of `pb_wire` and the messages of `dyn_message`, and whatever reads frames stands on it. Its
//! contract: a payload without a fault leaves the message standing for what the definitions decode it to, with the unknown
//! bytes of each message's payload as one piece; a payload with a fault is refused with the first one, of that kind and at
//! that byte; all that the message didn't stand on keeps its bytes; and what the memory holds more, in bytes of places and
//! in buffers, is exactly what the payload counts.
#![tactic(auto)]

mod contents;
mod exact;
mod laws;
mod message;
mod number;
mod parse;
mod short;
mod stop;
mod unknown;
mod values;

pub use exact::first_fault;
pub use laws::decoded_texts_are_bounded;
pub use parse::parse_into;
pub use pb_wire::{WireFault, WireKind};
pub use stop::ParseFault;

#[cfg(test)]
mod fault_tests;
#[cfg(test)]
mod hand_made;
#[cfg(test)]
mod kind_tests;
#[cfg(test)]
mod parse_tests;
