//! The top call: the whole program over files, sinks and two arenas that are handed in.
//!
//! It stands above all other crates, and the program's `main` calls it. Its contract: a run that ends well has
//! written exactly the framed texts of the decoded frames in order, however its workers' steps fell; each register stands
//! for its tree in the arena that is handed back; every status but that of want of memory says when it comes; and the end
//! of an outcome tells each cleanup once.
#![tactic(auto)]

mod command;
mod fault;
mod gather;
mod input;
mod outcome;
mod parse;
mod program;
mod registers;
mod set;
mod tell;
mod words;
mod write;

pub use desc_pool::SchemaFault;
pub use dyn_message::MsgRef;
pub use fault::{Fault, InputKind};
pub use outcome::{LastLives, Outcome};
pub use parse_pool::{Gate, OpenGate};
pub use pb_schema::Name;
pub use pb_script::{Home, Register};
pub use pb_wire::{WireFault, WireKind};
pub use program::{Pair, run};
pub use tell::fault_text;
