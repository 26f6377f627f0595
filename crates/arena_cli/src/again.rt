// Calls of the system that go on where a signal interrupted them.
ghost use Rattle.std.specs.Prelude.{◌≤◌, length, IfOk};

use std::io::{ErrorKind, Read, Write};
use std::{fs, io};

// Each loop ends, so a call is tried as often as a u64 counts. Past that the error itself is answered.

/// Opens the file of that name to be read.
pub fn open_again<R: std::rt::Files>(rt: &R, name: &str) -> io::Result<R::File> {
    for _ in 0..u64::MAX {
        match fs::open(rt, name) {
            Err(error) if error.kind() == ErrorKind::Interrupted => {}
            opened => return opened,
        }
    }
    Err(io::Error::from(ErrorKind::Interrupted))
}

/// Reads into the room once.
pub fn read_again<R: Read>(reader: &mut R, room: &mut [u8]) -> io::Result<usize>
    ensures { IfOk result (λ count. count ≤ length room.new) }
{
    for _ in 0..u64::MAX {
        match reader.read(room) {
            Err(error) if error.kind() == ErrorKind::Interrupted => {}
            read => return read,
        }
    }
    Err(io::Error::from(ErrorKind::Interrupted))
}

/// Writes a front of the piece once.
pub fn write_again<W: Write>(writer: &mut W, piece: &[u8]) -> io::Result<usize>
    ensures { IfOk result (λ count. count ≤ length piece.now) }
{
    for _ in 0..u64::MAX {
        match writer.write(piece) {
            Err(error) if error.kind() == ErrorKind::Interrupted => {}
            written => return written,
        }
    }
    Err(io::Error::from(ErrorKind::Interrupted))
}

/// Flushes what was written.
pub fn flush_again<W: Write>(writer: &mut W) -> io::Result<()> {
    for _ in 0..u64::MAX {
        match writer.flush() {
            Err(error) if error.kind() == ErrorKind::Interrupted => {}
            flushed => return flushed,
        }
    }
    Err(io::Error::from(ErrorKind::Interrupted))
}
