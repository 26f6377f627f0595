//! Why an arena isn't shared, entered or settled.
use thiserror::Error;

/// Why an arena isn't shared.
#[derive(Clone, Copy, Debug, PartialEq, Eq, Error)]
pub enum ShareFault {
    /// The callers at these places are equal; the second is the least place whose caller stood before.
    #[error("callers {first} and {second} are the same")]
    SameCaller { first: u32, second: u32 },
    /// The owners and the callers that own nothing yet are more than 64 together.
    #[error("{owners} owners and {asked} callers more are too many")]
    TooManyCallers { owners: u32, asked: u32 },
    #[error("no memory")]
    NoMemory,
}

/// Why a caller doesn't enter an arena alone.
#[derive(Clone, Copy, Debug, PartialEq, Eq, Error)]
pub enum SoleFault {
    /// The caller owns nothing, and there are 64 owners. One slot is asked for.
    #[error("{owners} owners and {asked} callers more are too many")]
    TooManyCallers { owners: u32, asked: u32 },
    #[error("no memory")]
    NoMemory,
}

/// Why a shared arena isn't settled.
#[derive(Clone, Copy, Debug, PartialEq, Eq, Error)]
pub enum SettleFault {
    /// The pass at this place, the first such one, is of another life. A place beyond 32 bits is told as the greatest
    /// number of 32 bits.
    #[error("pass {place} is of life {life}")]
    ForeignPass { place: u32, life: u64 },
    /// Fewer passes are given than were made.
    #[error("{given} of {made} passes are given")]
    PassesOut { made: u32, given: u32 },
    #[error("no memory")]
    NoMemory,
}
