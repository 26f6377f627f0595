// The files that a program reads and the sinks that it writes, with their counts of faults.
ghost use Rattle.std.specs.Prelude.{◌≡◌, ◌<◌, ◌≤◌, ℕ, Bool, true, false, List, Option, Some, None, Result, length, is_ok, IsTrue, IfOk, OnOk, OnErr};
ghost use Rattle.std.specs.String.{string_bytes};
ghost use Rattle.std.specs.Io.KnownBytes.{ReadConsumes, WriteAppends, Keeps};
ghost use Rattle.arena_mem.specs.Outside.{NamedFiles, HasCause, Opens, Blames};

use thiserror::Error;

/// A file or a sink has failed. Its count of faults rose in the call.
#[derive(Clone, Copy, Debug, PartialEq, Eq, Error)]
#[error("failed")]
pub struct Failed;

/// Named files, of which one is picked and read from its start to its end.
pub trait Files {
    /// The files by their names, where that is told.
    ghost contents: { Self → Option NamedFiles };

    /// What is left to be read of the picked file, where that is told.
    ghost left: { Self → Option (List ℕ) };

    /// How often a call has failed.
    ghost faults: { Self → ℕ };

    /// Whether the last `pick` succeeded; false before the first.
    ghost is_open: { Self → Bool };

    /// The name that was picked last; nothing before the first `pick`.
    ghost picked: { Self → Option (List ℕ) };

    /// The name that stood picked at the last fault; nothing before the first fault.
    ghost blamed: { Self → Option (List ℕ) };

    /// Picks a file, to be read from its start. A name that isn't there is a fault.
    fn pick(&mut self, name: String) -> Result<(), Failed>
        ensures contents { contents self.new ≡ contents self.old }
        ensures opens { OnOk result (Opens (contents self.old) (string_bytes name) (left self.new)) }
        ensures is_open { is_open self.new ≡ is_ok result }
        ensures picked { picked self.new ≡ Some (string_bytes name) }
        ensures blamed { Blames result (picked self.new) (blamed self.old) (blamed self.new) }
        ensures cause { HasCause (faults self.old) (faults self.new) result };

    /// Reads the next bytes into the front of `room`, and answers how many; 0 comes exactly at the end.
    fn read(&mut self, room: &mut [u8]) -> Result<usize, Failed>
        requires open { IsTrue (is_open self.old) }
        requires room { 0 < length room.old }
        ensures contents { contents self.new ≡ contents self.old }
        ensures bound { IfOk result (λ count. count ≤ length room.new) }
        ensures bytes { ReadConsumes (left self.old) (left self.new) result room.new }
        ensures is_open { is_open self.new ≡ is_open self.old }
        ensures picked { picked self.new ≡ picked self.old }
        ensures blamed { Blames result (picked self.new) (blamed self.old) (blamed self.new) }
        ensures cause { HasCause (faults self.old) (faults self.new) result };
}

/// A place that takes bytes in order.
pub trait Sink {
    /// All the bytes that were taken, where that is told.
    ghost taken: { Self → Option (List ℕ) };

    /// How often a call has failed.
    ghost faults: { Self → ℕ };

    /// Takes a front of the piece, and answers its length: at least a byte, where the piece has one.
    fn write(&mut self, piece: &[u8]) -> Result<usize, Failed>
        ensures bound { IfOk result (λ count. count ≤ length piece.now) }
        ensures progress { IfOk result (λ count. 0 < length piece.now → 0 < count) }
        ensures bytes { WriteAppends (taken self.old) (taken self.new) result piece.now }
        ensures cause { HasCause (faults self.old) (faults self.new) result };
}
