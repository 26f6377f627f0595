// Why parsing stopped.

use arena_mem::MemFault;
use pb_wire::WireFault;
use std::alloc::AllocError;
use thiserror::Error;

/// Why a payload was refused.
#[derive(Clone, Copy, Debug, PartialEq, Eq, Error)]
pub enum ParseFault {
    /// The payload's first fault.
    #[error("bad bytes")]
    Bad(WireFault),
    #[error("no memory")]
    NoMemory,
    /// The region has 2^32 - 1 blocks, and there is no number for another one.
    #[error("region {region} has no block left")]
    BlocksSpent { region: u32 },
}

/// Why a reading stopped: a fast reading only says that the bytes are bad.
#[derive(Clone, Copy, Debug, PartialEq, Eq)]
pub enum Halt {
    Bad,
    Refused(MemFault),
}
