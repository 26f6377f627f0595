// A message of `pb.Node`, written to sinks, beside its text by the encoding guide's rules.
ghost use Rattle.std.specs.Prelude.{◌≡◌, ◌<◌, ◌^◌, IfOk, length};
ghost use Rattle.pb_schema.specs.Builtin.{builtin as builtin_schema};
ghost use Rattle.pb_write.specs.Texts.{IsWritable};

use crate::{TextRooms, size, write_framed, write_message};
use arena_mem::{MemFault, Memory, MemorySink, PlainMemory};
use dyn_message::{
    MsgRef, append_scalar, append_unknown, count, create, make_sub, set_bytes, set_scalar,
    unknown_count,
};
use msg_layout::layouts;
use msg_layout::tables::Layouts;
use pb_schema::builtin;
use std::test::Fail;

// The text of the sample with a short blob: count -5, the mark -1 packed, the blob, an empty `next`, the member `word`
// with its default, and an unknown varint of number 127.
const SAMPLE: [u8; 35] = [
    0x10, 0xfb, 0xff, 0xff, 0xff, 0xff, 0xff, 0xff, 0xff, 0xff, 0x01, 0x22, 0x0a, 0xff, 0xff, 0xff,
    0xff, 0xff, 0xff, 0xff, 0xff, 0xff, 0x01, 0x2a, 0x01, 0x62, 0x32, 0x00, 0x3a, 0x00, 0xf8, 0x07,
    0x01, 0x00, 0x00,
];

// How many bytes of it are the text.
const SAMPLE_BYTES: usize = 33;

// A blob that is longer than a room, and the text with it.
const LONG_BYTES: usize = 70_000;

const LONG_TEXT_BYTES: u64 = 70_034;

// A node with a number, a packed list, bytes, a message, a member and an unknown field.
fn sample<M: Memory>(mem: &mut M, types: &Layouts, blob: &[u8]) -> Result<MsgRef, MemFault>
    requires schema { types.now ≡ builtin_schema }
    requires short { length blob.now < 2 ^ 31 }
    ensures { IfOk result (λ msg. IsWritable types.now (M.places mem.new) (M.buffers mem.new) msg) }
{
    let msg = create(mem, types, 1)?;
    if unknown_count(mem, types, msg) != 0 {
        return Ok(msg);
    }
    append_unknown(mem, types, msg, b"\xf8\x07\x01")?;
    if count(mem, types, msg, 4) != 0 {
        return Ok(msg);
    }
    append_scalar(mem, types, msg, 4, 4_294_967_295)?;
    set_scalar(mem, types, msg, 2, 18_446_744_073_709_551_611);
    set_bytes(mem, types, msg, 5, blob)?;
    set_bytes(mem, types, msg, 7, b"")?;
    make_sub(mem, types, msg, 6)?;
    Ok(msg)
}

#[test]
fn a_node_is_written(rt: HostRuntime) -> Result<(), Fail> {
    let types = layouts(rt.alloc(), builtin(rt.alloc())?)?;
    let mut mem = PlainMemory::new(rt.alloc());
    let msg = sample(&mut mem, &types, b"b")?;
    assert_eq!(rt; size(&mem, &types, msg), SAMPLE_BYTES as u64);
    let mut sink = MemorySink::new(rt.alloc(), 4, vec![in rt.alloc(); u64::MAX; 1]?);
    assert!(rt; write_message(&mem, &types, msg, &mut sink).is_ok());
    assert_eq!(rt; sink.taken(), &SAMPLE[..SAMPLE_BYTES]);
    Ok(())
}

#[test]
fn a_sink_that_fails_has_a_front(rt: HostRuntime) -> Result<(), Fail> {
    let types = layouts(rt.alloc(), builtin(rt.alloc())?)?;
    let mut mem = PlainMemory::new(rt.alloc());
    let msg = sample(&mut mem, &types, b"b")?;
    for failing in 0..9 {
        let mut sink = MemorySink::new(rt.alloc(), 4, vec![in rt.alloc(); failing; 1]?);
        assert!(rt; write_message(&mem, &types, msg, &mut sink).is_err());
        assert_eq!(rt; sink.faults(), 1);
        assert_eq!(rt; sink.taken(), &SAMPLE[..4 * failing as usize]);
    }
    Ok(())
}

// What stands before and behind a blob of so many bytes, where it is the sample's.
const LONG_FRONT: &[u8] =
    b"\x10\xfb\xff\xff\xff\xff\xff\xff\xff\xff\x01\x22\x0a\xff\xff\xff\xff\xff\xff\xff\xff\xff\x01\x2a\xf0\xa2\x04";

const LONG_BACK: &[u8] = b"\x32\x00\x3a\x00\xf8\x07\x01";

// Whether a text is the sample's with this blob.
fn is_long_text(text: &[u8], blob: &[u8]) -> bool {
    let Some(rest) = text.strip_prefix(LONG_FRONT) else {
        return false;
    };
    rest.strip_prefix(blob) == Some(LONG_BACK)
}

// A message that no room holds is written from its start.
#[test]
fn a_long_node_is_written(rt: HostRuntime) -> Result<(), Fail> {
    let types = layouts(rt.alloc(), builtin(rt.alloc())?)?;
    let mut mem = PlainMemory::new(rt.alloc());
    let blob = vec![in rt.alloc(); b'b'; LONG_BYTES]?;
    let msg = sample(&mut mem, &types, &blob)?;
    assert_eq!(rt; size(&mem, &types, msg), LONG_TEXT_BYTES);
    let mut sink = MemorySink::new(rt.alloc(), 4096, vec![in rt.alloc(); u64::MAX; 1]?);
    assert!(rt; write_message(&mem, &types, msg, &mut sink).is_ok());
    assert!(rt; is_long_text(sink.taken(), &blob));
    Ok(())
}

// What stands behind the sample's text and its length, where these are in front.
fn behind_framed(text: &[u8]) -> Option<&[u8]> {
    let rest = text.strip_prefix(&[SAMPLE_BYTES as u8])?;
    rest.strip_prefix(&SAMPLE[..SAMPLE_BYTES])
}

// Whether a text is that of two samples, each behind its length.
fn is_framed_twice(text: &[u8]) -> bool {
    match behind_framed(text) {
        Some(rest) => behind_framed(rest) == Some(&[]),
        None => false,
    }
}

// How many bytes two samples have, each behind its length of one byte.
const FRAMED_TWICE_BYTES: u64 = 68;

// Two messages wait until they are handed over; where that fails, nothing waits any more, and what was refused isn't counted.
#[test]
fn messages_wait_behind_their_lengths(rt: HostRuntime) -> Result<(), Fail> {
    let types = layouts(rt.alloc(), builtin(rt.alloc())?)?;
    let mut mem = PlainMemory::new(rt.alloc());
    let msg = sample(&mut mem, &types, b"b")?;
    let mut rooms = TextRooms::new();
    let mut sink = MemorySink::new(rt.alloc(), 100, vec![in rt.alloc(); 1; 1]?);
    for _ in 0..2 {
        assert!(rt; write_framed(&mem, &types, msg, &mut rooms, &mut sink).is_ok());
    }
    assert!(rt; sink.taken().is_empty());
    assert!(rt; rooms.flush(&mut sink).is_ok());
    assert!(rt; is_framed_twice(sink.taken()));
    assert_eq!(rt; rooms.bytes_taken(), FRAMED_TWICE_BYTES);
    assert!(rt; write_framed(&mem, &types, msg, &mut rooms, &mut sink).is_ok());
    assert!(rt; rooms.flush(&mut sink).is_err());
    assert!(rt; rooms.flush(&mut sink).is_ok());
    assert!(rt; is_framed_twice(sink.taken()));
    assert_eq!(rt; rooms.bytes_taken(), FRAMED_TWICE_BYTES);
    Ok(())
}
