// Files of the system, writers that fail, and whole runs over both: no clause tells what these hold or do.
ghost use Rattle.std.specs.Prelude.{◌≤◌};

use super::*;
use crate::runs::fresh_arenas;
use arena_mem::{Failed, Files, Sink};
use std::alloc::{AllocError, Global};
use std::fs;
use std::io::{Cursor, Write};
use std::test::Fail;

// A frame with two records, and what the program writes for it.
const FRAMES: &[u8] = b"\x05\x08\x01\x08\x96\x01";

const WRITTEN: &[u8] = b"\x03\x08\x96\x01";

#[test]
fn real_files_are_read(rt: HostRuntime) -> Result<(), Fail> {
    let name = "read.frames";
    fs::write(&rt, name, FRAMES)?;
    let mut files = RealFiles::new(&rt);
    for turn in ["from the start", "again"] {
        files.pick(String::from_str(rt.alloc(), name)?)?;
        let mut room = [0u8; 4];
        assert_eq!(rt; files.read(&mut room), Ok(4), "{turn}");
        assert_eq!(rt; room.as_slice(), &FRAMES[..4], "{turn}");
        assert_eq!(rt; files.read(&mut room), Ok(2), "{turn}");
        assert_eq!(rt; &room[..2], &FRAMES[4..], "{turn}");
        assert_eq!(rt; files.read(&mut room), Ok(0), "{turn}");
        assert_eq!(rt; files.read(&mut room), Ok(0), "{turn}, behind the end");
    }
    fs::remove_file(&rt, name)?;
    Ok(())
}

// Picks a file and reads its first two bytes.
fn first_two<F: Files>(files: &mut F, name: String) -> Result<[u8; 2], Failed> {
    let mut room = [0u8; 2];
    files.pick(name)?;
    files.read(&mut room)?;
    Ok(room)
}

#[test]
fn a_missing_file_is_a_fault(rt: HostRuntime) -> Result<(), Fail> {
    let alloc = rt.alloc();
    fs::write(&rt, "good", "ab")?;
    let mut files = RealFiles::new(&rt);
    for name in ["missing", "", "good/below", "."] {
        let refused = first_two(&mut files, String::from_str(alloc, name)?);
        assert_eq!(rt; refused, Err(Failed), "{name}");
        let good = first_two(&mut files, String::from_str(alloc, "good")?);
        assert_eq!(rt; good, Ok(*b"ab"), "after {name}");
    }
    fs::remove_file(&rt, "good")?;
    Ok(())
}

// Takes at most so many bytes in a call. The call of that number fails, of those to write and to flush together.
#[derive(Drop)]
struct Failing {
    taken: Vec<u8>,
    per_call: usize,
    calls: u32,
    failing_call: u32,
}

impl Failing {
    fn call(&mut self) -> io::Result<()> {
        self.calls = self.calls.saturating_add(1);
        if self.calls == self.failing_call {
            return Err(io::Error::from(io::ErrorKind::StorageFull));
        }
        Ok(())
    }
}

impl Write for Failing {
    fn write(&mut self, buf: &[u8]) -> io::Result<usize> {
        self.call()?;
        let count = buf.len().min(self.per_call);
        self.taken.extend_from_slice(&buf[..count])?;
        Ok(count)
    }

    fn flush(&mut self) -> io::Result<()> {
        self.call()
    }
}

#[test]
fn a_writer_that_fails_is_a_fault(rt: HostRuntime) -> Result<(), Fail> {
    let rows: [(&str, usize, u32, [Result<usize, Failed>; 2], &[u8]); 6] = [
        ("no fault", 2, 0, [Ok(2), Ok(2)], b"abab"),
        ("the first write", 2, 1, [Err(Failed), Ok(2)], b"ab"),
        ("the first flush", 2, 2, [Err(Failed), Ok(2)], b"abab"),
        ("the second write", 2, 3, [Ok(2), Err(Failed)], b"ab"),
        ("the second flush", 2, 4, [Ok(2), Err(Failed)], b"abab"),
        ("nothing is taken", 0, 0, [Err(Failed), Err(Failed)], b""),
    ];
    for (name, per_call, failing_call, [first, second], taken) in rows {
        let mut writer = Failing {
            taken: Vec::new(rt.alloc()),
            per_call,
            calls: 0,
            failing_call,
        };
        let mut sink = WriterSink::new(&mut writer);
        assert_eq!(rt; sink.write(b"abc"), first, "{name}");
        assert_eq!(rt; sink.write(b"abc"), second, "{name}");
        assert_eq!(rt; sink.write(b""), Ok(0), "{name}");
        assert_eq!(rt; writer.taken.as_slice(), taken, "{name}");
    }
    Ok(())
}

#[test]
fn a_full_writer_is_a_fault(rt: HostRuntime) {
    let mut cursor = Cursor::new([0u8; 3]);
    let mut sink = WriterSink::new(&mut cursor);
    assert_eq!(rt; sink.write(b"ab"), Ok(2));
    assert_eq!(rt; sink.write(b"cd"), Ok(1));
    assert_eq!(rt; sink.write(b"d"), Err(Failed));
    assert_eq!(rt; cursor.get_ref(), b"abc");
}

// The words of a run over the file of that name.
fn words_over(alloc: Global, name: &str) -> Result<Vec<String>, AllocError> {
    let mut words = Vec::new(alloc);
    for word in ["cat", "builtin", "pb.Tick", name, "1"] {
        words.push(String::from_str(alloc, word)?)?;
    }
    Ok(words)
}

#[test]
fn a_file_goes_through_the_program(rt: HostRuntime) -> Result<(), Fail> {
    let alloc = rt.alloc();
    fs::write(&rt, "run.frames", FRAMES)?;
    for (name, failing_call, status, taken, text) in [
        ("run.frames", 0, 0, WRITTEN, b"".as_slice()),
        ("run.frames", 1, 7, b"", b""),
        ("run.frames", 2, 7, WRITTEN, b""),
        ("missing", 0, 6, b"", b"read fault\n"),
        (".", 0, 6, b"", b"read fault\n"),
    ] {
        let words = words_over(alloc, name)?;
        let mut files = RealFiles::new(&rt);
        let mut writer = Failing {
            taken: Vec::new(alloc),
            per_call: 64,
            calls: 0,
            failing_call,
        };
        let mut out = WriterSink::new(&mut writer);
        let mut error_writer = Failing {
            taken: Vec::new(alloc),
            per_call: 64,
            calls: 0,
            failing_call,
        };
        let mut err = WriterSink::new(&mut error_writer);
        let (mut ids, pair) = fresh_arenas(alloc)?;
        let mut watch = SilentWatch;
        let outcome = run(
            &rt, alloc, &words, &mut files, &mut out, &mut err, &OpenGate, &mut ids, pair,
            &mut watch,
        );
        assert_eq!(rt; outcome.status, status, "{name}, {failing_call}");
        assert_eq!(rt; writer.taken.as_slice(), taken, "{name}, {failing_call}");
        if failing_call == 0 {
            let told = error_writer.taken.as_slice();
            assert_eq!(rt; told, text, "{name}");
        }
    }
    fs::remove_file(&rt, "run.frames")?;
    Ok(())
}
