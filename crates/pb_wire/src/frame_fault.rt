// Why a file isn't taken as frames.

/// Why a file isn't taken as frames.
#[derive(Clone, Copy, Debug, PartialEq, Eq)]
pub enum FrameFault {
    /// So many frames are whole, and behind them none can be read: its prefix isn't whole, has more than five bytes or
    /// is 2^31 or more, or its payload isn't whole.
    FrameCut { index: u32 },
    /// The first 2^20 frames are whole, and bytes follow.
    TooManyFrames,
    NoMemory,
}
