// Files and a sink in memory, call by call.
ghost use Rattle.std.specs.Prelude.{◌<◌, length};
ghost use Rattle.arena_mem.specs.Places.{IsPlaceable};

use super::*;
use std::alloc::{AllocError, Global};
use std::process::Abort;
use std::test::Fail;

fn named(alloc: Global, name: &[u8], content: &[u8]) -> Result<NamedBytes, AllocError> {
    Ok(NamedBytes {
        name: name.to_vec(alloc)?,
        content: content.to_vec(alloc)?,
    })
}

// "a" and "b", and "a" once more with other bytes, which don't count.
fn three_files(alloc: Global, failing: &[u64]) -> Result<MemoryFiles, AllocError> {
    let files = vec![in alloc;
        named(alloc, b"a", b"hello")?,
        named(alloc, b"b", b"")?,
        named(alloc, b"a", b"other")?,
    ]?;
    Ok(MemoryFiles::new(files, failing.to_vec(alloc)?))
}

fn check_names(
    rt: &impl Abort,
    files: &MemoryFiles,
    picked: Option<&str>,
    blamed: Option<&str>,
) -> Result<(), Fail> {
    let names = files.names();
    assert_eq!(rt; names.picked(), picked);
    assert_eq!(rt; names.blamed(), blamed);
    Ok(())
}

fn check_reads(
    rt: &(impl Abort + AllocGlobal),
    name: &str,
    room: &mut [u8],
    pieces: &[&str],
) -> Result<(), Fail>
    requires { 0 < length room.old }
{
    let mut files = three_files(rt.alloc(), &[])?;
    files.pick(String::from_str(rt.alloc(), name)?)?;
    for piece in pieces {
        let count = files.read(room)?;
        assert_eq!(rt; &room[..count], piece.as_bytes());
    }
    assert_eq!(rt; files.faults(), 0);
    Ok(())
}

#[test]
fn reads_the_first_file_of_a_name(rt: HostRuntime) -> Result<(), Fail> {
    check_reads(&rt, "a", &mut [0; 1], &["h", "e", "l", "l", "o", "", ""])?;
    check_reads(&rt, "a", &mut [0; 2], &["he", "ll", "o", ""])?;
    check_reads(&rt, "a", &mut [0; 5], &["hello", ""])?;
    check_reads(&rt, "a", &mut [0; 8], &["hello", ""])?;
    check_reads(&rt, "b", &mut [0; 3], &["", ""])
}

#[test]
fn blames_the_name_that_stood_picked(rt: HostRuntime) -> Result<(), Fail> {
    let text = |name: &str| String::from_str(rt.alloc(), name);
    let mut files = three_files(rt.alloc(), &[3, 1])?;
    let mut room = [0; 2];
    check_names(&rt, &files, None, None)?;
    files.pick(text("a")?)?;
    check_names(&rt, &files, Some("a"), None)?;
    assert_eq!(rt; files.read(&mut room), Err(Failed));
    check_names(&rt, &files, Some("a"), Some("a"))?;
    assert_eq!(rt; files.read(&mut room), Ok(2));
    assert_eq!(rt; room, *b"he");
    assert_eq!(rt; files.pick(text("b")?), Err(Failed));
    check_names(&rt, &files, Some("b"), Some("b"))?;
    assert_eq!(rt; files.pick(text("c")?), Err(Failed));
    check_names(&rt, &files, Some("c"), Some("c"))?;
    files.pick(text("a")?)?;
    check_names(&rt, &files, Some("a"), Some("c"))?;
    assert_eq!(rt; files.read(&mut room), Ok(2));
    assert_eq!(rt; files.faults(), 3);
    Ok(())
}

#[test]
fn takes_fronts_of_pieces(rt: HostRuntime) -> Result<(), Fail> {
    let mut sink = MemorySink::new(rt.alloc(), 3, [2].to_vec(rt.alloc())?);
    assert_eq!(rt; sink.write(b"hello"), Ok(3));
    assert_eq!(rt; sink.write(b"lo"), Ok(2));
    assert_eq!(rt; sink.write(b"?"), Err(Failed));
    assert_eq!(rt; sink.taken(), b"hello".as_slice());
    assert_eq!(rt; sink.write(b""), Ok(0));
    assert_eq!(rt; sink.write(b"!"), Ok(1));
    assert_eq!(rt; sink.taken(), b"hello!".as_slice());
    assert_eq!(rt; sink.faults(), 1);
    Ok(())
}

// Places `bytes` bytes in a plain memory, and looks for zeros there.
fn check_plain_place(
    rt: &impl Abort,
    mem: &mut PlainMemory,
    bytes: u32,
    block: u32,
    len: u32,
) -> Result<(), MemFault>
    requires { IsPlaceable bytes }
{
    let place = mem.place(bytes)?;
    let want = Place {
        region: 0,
        block,
        offset: 0,
        len,
    };
    assert_eq!(rt; place, want);
    assert!(rt; mem.read(place).iter().all(|byte| *byte == 0));
    Ok(())
}

#[test]
fn a_plain_memory_has_a_block_for_each_place(rt: HostRuntime) -> Result<(), Fail> {
    let mut mem = PlainMemory::new(rt.alloc());
    check_plain_place(&rt, &mut mem, 1, 0, 8)?;
    check_plain_place(&rt, &mut mem, 8, 1, 8)?;
    check_plain_place(&rt, &mut mem, 9, 2, 16)?;
    let first = mem.place(8)?;
    let last = mem.place(16)?;
    mem.write(first, 2, b"ab");
    mem.copy_front(first, last, 4);
    mem.copy_front(last, last, 8);
    assert_eq!(rt; mem.read(first), b"\0\0ab\0\0\0\0".as_slice());
    assert_eq!(rt;
        mem.read(last),
        b"\0\0ab\0\0\0\0\0\0\0\0\0\0\0\0".as_slice()
    );
    let buffer = mem.keep_copy(b"kept")?;
    assert_eq!(rt; (buffer.region, buffer.number), (0, 0));
    assert_eq!(rt; mem.kept(buffer), b"kept".as_slice());
    Ok(())
}
