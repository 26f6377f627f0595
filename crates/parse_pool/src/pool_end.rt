// How a phase ended, and what a worker parsed.

use dyn_message::MsgRef;
use pb_wire::WireFault;

/// How a phase ended. Where several hold, `NoMemory` stands first and `BlocksSpent` second.
#[derive(Clone, Copy, Debug, PartialEq, Eq)]
pub enum PoolEnd {
    /// Every frame was parsed.
    Done,
    /// The least frame of the phase that has a fault, with its first fault.
    BadFrame { index: u32, fault: WireFault },
    NoMemory,
    /// The region of a worker's part has 2^32 - 1 blocks, and there is no number for another one.
    BlocksSpent { region: u32 },
}

/// The message that was parsed from a frame.
#[derive(Clone, Copy, Debug, PartialEq, Eq)]
pub struct FrameResult {
    pub frame: u32,
    pub msg: MsgRef,
}
