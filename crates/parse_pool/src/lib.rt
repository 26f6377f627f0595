//! Workers: the frames of a phase, parsed into one shared arena by threads that each fill a part of it.
//!
//! It stands on the shared arena and the parser, and whatever parses many frames stands on it. Its contract: frame
//! `first + i` goes to worker `i mod n`; where all went well each frame's message stands in its worker's part of the
//! arena for what its payload decodes to, apart from all others, on places and buffers that came in this call; else the
//! least frame that has a fault is told, with its first fault, however the workers' steps fell.
#![tactic(auto)]

mod collect;
mod frame;
mod gate;
mod halves;
mod phase;
mod pool_end;
mod seating;
mod sharing;
mod turns;
mod whole;
mod work;
mod worker;

pub use gate::{Gate, OpenGate};
pub use halves::parse_all;
pub use pool_end::{FrameResult, PoolEnd};
pub use whole::parse_phase;
pub use worker::Worker;

#[cfg(test)]
mod tests;
#[cfg(test)]
mod trials;
