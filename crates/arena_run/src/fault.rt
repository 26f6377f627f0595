// The faults of a run, and their statuses.
ghost use Rattle.std.specs.Prelude.{◌≡◌};

use desc_pool::SchemaFault;
use pb_schema::Name;
use pb_wire::WireFault;

/// An input that has a limit.
#[derive(Clone, Copy, Debug, PartialEq, Eq)]
pub enum InputKind {
    /// The bytes of the descriptor set, of which there may be 2^22.
    SetBytes,
    /// The bytes of the frames file, of which there may be 2^24.
    FrameBytes,
    /// Its frames, of which there may be 2^20.
    FrameCount,
}

/// Why a run didn't end well.
#[derive(Debug, Drop)]
pub enum Fault {
    /// A growth was refused. Status 1.
    NoMemory,
    /// The words have none of the three forms. Status 2.
    Usage,
    /// The descriptor set isn't taken, for this. Status 3.
    Schema(SchemaFault),
    /// No type has the name that the words have. Status 3.
    NoType { name: Name },
    /// So many frames of the file are whole, and behind them none can be read. Status 4.
    FrameCut { index: u32 },
    /// The frame of this index is the first whose payload has a fault, and this is its first. Status 4.
    BadFrame { index: u32, fault: WireFault },
    /// A file failed: the descriptor set, or the frames. Status 6.
    ReadFault,
    /// The output failed. Status 7.
    WriteFault,
    /// There is more of an input than this. Status 8.
    TooLong { which: InputKind, limit: u32 },
    /// The words are those of a command that isn't built yet. Status 9.
    NotBuilt,
}

impl Fault {
    ghost use Rattle.std.specs.Prelude.{Some};
    ghost use Rattle.arena_run.specs.Ends.{status_of};

    /// The status that the fault ends a run with.
    pub fn status(&self) -> u8
        ensures { result ≡ status_of (Some self.now) }
    {
        match self {
            Fault::NoMemory => 1,
            Fault::Usage => 2,
            Fault::Schema(_) | Fault::NoType { .. } => 3,
            Fault::FrameCut { .. } | Fault::BadFrame { .. } => 4,
            Fault::ReadFault => 6,
            Fault::WriteFault => 7,
            Fault::TooLong { .. } => 8,
            Fault::NotBuilt => 9,
        }
    }
}
