// Payloads of `pb.Node`, parsed into two memories: what the messages hold then, and the first fault of damaged bytes.
ghost use Rattle.std.specs.Prelude.{◌≡◌, ◌<◌, ◌^◌, length, IfOk, IfSome};
ghost use Rattle.pb_schema.specs.Builtin.{builtin as builtin_schema};
ghost use Rattle.dyn_message.specs.Fields.{IsMessageIn};

use super::*;
use arena_block::Policy;
use arena_mem::{Memory, PlainMemory};
use dyn_message::{
    MsgRef, case_of, count, create, element_scalar, element_sub, get_bytes, get_scalar, sub,
    unknown_count, unknown_element,
};
use msg_layout::layouts;
use msg_layout::tables::Layouts;
use pb_schema::builtin;
use pb_wire::write_varint;
use serial_arena::SerialArena;
use std::alloc::{AllocError, Global};
use std::process::Abort;
use std::test::Fail;

const NODE: u32 = 1;

// A payload of a node; one that is too long isn't read.
fn parse<M: Memory>(
    alloc: Global,
    mem: &mut M,
    types: &Layouts,
    bytes: &[u8],
) -> Result<MsgRef, ParseFault>
    requires schema { types.now ≡ builtin_schema }
    ensures message { IfOk result (λ msg. IsMessageIn types.now (M.places mem.new) (M.buffers mem.new) msg) }
    ensures node { IfOk result (λ msg. msg.type_no ≡ 1) }
{
    if bytes.len() >= 1 << 25 {
        return Err(ParseFault::NoMemory);
    }
    let Ok(msg) = create(mem, types, NODE) else {
        return Err(ParseFault::NoMemory);
    };
    match parse_into(alloc, mem, types, msg, bytes) {
        Ok(()) => Ok(msg),
        Err(fault) => Err(fault),
    }
}

fn text<'a, M: Memory>(mem: &'a M, types: &Layouts, msg: MsgRef) -> Option<&'a [u8]>
    requires message { IsMessageIn types.now (M.places mem.now) (M.buffers mem.now) msg }
    requires schema { types.now ≡ builtin_schema }
    requires node { msg.type_no ≡ 1 }
{
    get_bytes(mem, types, msg, 1)
}

fn number<M: Memory>(mem: &M, types: &Layouts, msg: MsgRef) -> Option<u64>
    requires message { IsMessageIn types.now (M.places mem.now) (M.buffers mem.now) msg }
    requires schema { types.now ≡ builtin_schema }
    requires node { msg.type_no ≡ 1 }
{
    get_scalar(mem, types, msg, 2)
}

fn word<'a, M: Memory>(mem: &'a M, types: &Layouts, msg: MsgRef) -> Option<&'a [u8]>
    requires message { IsMessageIn types.now (M.places mem.now) (M.buffers mem.now) msg }
    requires schema { types.now ≡ builtin_schema }
    requires node { msg.type_no ≡ 1 }
{
    get_bytes(mem, types, msg, 7)
}

// The mark at this index; none where a node has fewer.
fn mark<M: Memory>(mem: &M, types: &Layouts, msg: MsgRef, index: u32) -> Option<u64>
    requires message { IsMessageIn types.now (M.places mem.now) (M.buffers mem.now) msg }
    requires schema { types.now ≡ builtin_schema }
    requires node { msg.type_no ≡ 1 }
{
    let marks = count(mem, types, msg, 4);
    if index >= marks {
        return None;
    }
    Some(element_scalar(mem, types, msg, 4, index))
}

// The child at this index, likewise.
fn child<M: Memory>(mem: &M, types: &Layouts, msg: MsgRef, index: u32) -> Option<MsgRef>
    requires message { IsMessageIn types.now (M.places mem.now) (M.buffers mem.now) msg }
    requires schema { types.now ≡ builtin_schema }
    requires node { msg.type_no ≡ 1 }
    ensures message { IfSome result (IsMessageIn types.now (M.places mem.now) (M.buffers mem.now)) }
    ensures node { IfSome result (λ child. child.type_no ≡ 1) }
{
    let children = count(mem, types, msg, 3);
    if index >= children {
        return None;
    }
    let child = element_sub(mem, types, msg, 3, index);
    if child.type_no != NODE {
        return None;
    }
    Some(child)
}

fn next<M: Memory>(mem: &M, types: &Layouts, msg: MsgRef) -> Option<MsgRef>
    requires message { IsMessageIn types.now (M.places mem.now) (M.buffers mem.now) msg }
    requires schema { types.now ≡ builtin_schema }
    requires node { msg.type_no ≡ 1 }
    ensures message { IfSome result (IsMessageIn types.now (M.places mem.now) (M.buffers mem.now)) }
    ensures node { IfSome result (λ next. next.type_no ≡ 1) }
{
    match sub(mem, types, msg, 6) {
        Some(next) if next.type_no == NODE => Some(next),
        _ => None,
    }
}

// The piece of unknown bytes at this index; none where there are fewer.
fn piece<'a, M: Memory>(mem: &'a M, types: &Layouts, msg: MsgRef, index: u32) -> Option<&'a [u8]>
    requires { IsMessageIn types.now (M.places mem.now) (M.buffers mem.now) msg }
{
    let pieces = unknown_count(mem, types, msg);
    if index >= pieces {
        return None;
    }
    Some(unknown_element(mem, types, msg, index))
}

// Of one number the last record counts, and a default is nothing; a list takes numbers packed and one by one; records that
// fit no field are kept as one piece, wherever they stood.
fn try_fields<M: Memory>(
    rt: &impl Abort,
    alloc: Global,
    mem: &mut M,
    types: &Layouts,
) -> Result<(), ParseFault>
    requires { types.now ≡ builtin_schema }
{
    let bytes =
        b"\x0a\x02ab\x10\x05\x22\x03\x01\xac\x02\x20\x07\xa0\x06\x01\x10\x06\xa8\x06\x02\xa8\x06\x03";
    let msg = parse(alloc, mem, types, bytes)?;
    assert_eq!(rt; text(mem, types, msg), Some(&b"ab"[..]));
    assert_eq!(rt; number(mem, types, msg), Some(6));
    assert_eq!(rt; mark(mem, types, msg, 0), Some(1));
    assert_eq!(rt; mark(mem, types, msg, 1), Some(300));
    assert_eq!(rt; mark(mem, types, msg, 2), Some(7));
    assert_eq!(rt; mark(mem, types, msg, 3), None);
    let unknown = b"\xa0\x06\x01\xa8\x06\x02\xa8\x06\x03";
    assert_eq!(rt; piece(mem, types, msg, 0), Some(&unknown[..]));
    assert_eq!(rt; piece(mem, types, msg, 1), None);
    let msg = parse(alloc, mem, types, b"\x10\x05\x10\x00")?;
    assert_eq!(rt; number(mem, types, msg), None);
    Ok(())
}

// Records of one message are read into it one after another, those of a list each into one of its own; and of a oneof the
// last member counts.
fn try_messages<M: Memory>(
    rt: &impl Abort,
    alloc: Global,
    mem: &mut M,
    types: &Layouts,
) -> Result<(), ParseFault>
    requires { types.now ≡ builtin_schema }
{
    let bytes = b"\x1a\x03\x0a\x01x\x32\x02\x10\x03\x42\x00\x32\x03\x0a\x01q\x3a\x01w\x1a\x00";
    let msg = parse(alloc, mem, types, bytes)?;
    assert_eq!(rt; case_of(mem, types, msg, 0), 7);
    assert_eq!(rt; word(mem, types, msg), Some(&b"w"[..]));
    let Some(first) = child(mem, types, msg, 0) else {
        panic!(rt; "no child")
    };
    assert_eq!(rt; text(mem, types, first), Some(&b"x"[..]));
    let Some(second) = child(mem, types, msg, 1) else {
        panic!(rt; "one child")
    };
    assert!(rt; text(mem, types, second).is_none());
    assert_eq!(rt; child(mem, types, msg, 2), None);
    let Some(next) = next(mem, types, msg) else {
        panic!(rt; "no next")
    };
    assert_eq!(rt; number(mem, types, next), Some(3));
    assert_eq!(rt; text(mem, types, next), Some(&b"q"[..]));
    Ok(())
}

// So many messages, each the one before's next.
fn nested(alloc: Global, levels: u32) -> Result<Vec<u8>, AllocError> {
    let mut inner = Vec::new(alloc);
    for _ in 0..levels {
        let mut room = [0u8; 10];
        let used = write_varint(inner.len() as u64, &mut room);
        let mut outer = Vec::new(alloc);
        outer.push(0x32)?;
        outer.extend_from_slice(&room[..used])?;
        outer.extend_from_slice(inner.as_slice())?;
        inner = outer;
    }
    Ok(inner)
}

fn bad(kind: WireKind, byte: u32) -> Option<ParseFault> {
    Some(ParseFault::Bad(WireFault { kind, byte }))
}

#[test]
fn fields_are_set(rt: HostRuntime) -> Result<(), Fail> {
    let types = layouts(rt.alloc(), builtin(rt.alloc())?)?;
    let mut plain = PlainMemory::new(rt.alloc());
    try_fields(&rt, rt.alloc(), &mut plain, &types)?;
    let mut arena = SerialArena::new(rt.alloc(), Policy::profile(), 3, 5, 7);
    try_fields(&rt, rt.alloc(), &mut arena, &types)?;
    Ok(())
}

#[test]
fn messages_are_made(rt: HostRuntime) -> Result<(), Fail> {
    let types = layouts(rt.alloc(), builtin(rt.alloc())?)?;
    let mut plain = PlainMemory::new(rt.alloc());
    try_messages(&rt, rt.alloc(), &mut plain, &types)?;
    let mut arena = SerialArena::new(rt.alloc(), Policy::profile(), 3, 5, 7);
    try_messages(&rt, rt.alloc(), &mut arena, &types)?;
    Ok(())
}

#[test]
fn a_hundred_levels_are_read(rt: HostRuntime) -> Result<(), Fail> {
    let types = layouts(rt.alloc(), builtin(rt.alloc())?)?;
    let mut mem = PlainMemory::new(rt.alloc());
    let deep = nested(rt.alloc(), 100)?;
    assert_eq!(rt; parse(rt.alloc(), &mut mem, &types, &deep).err(), None);
    let deeper = nested(rt.alloc(), 101)?;
    // Behind 37 tags with a length of two bytes and 63 with one of one byte.
    let fault = bad(WireKind::TooDeep, 237);
    assert_eq!(rt; parse(rt.alloc(), &mut mem, &types, &deeper).err(), fault);
    Ok(())
}

#[test]
fn damaged_bytes_are_refused(rt: HostRuntime) -> Result<(), Fail> {
    let types = layouts(rt.alloc(), builtin(rt.alloc())?)?;
    let mut mem = PlainMemory::new(rt.alloc());
    let rows: [(&[u8], Option<ParseFault>); 6] = [
        (b"\x10\x01", None),
        (b"\x10\x01\x0a\x02\xc3", bad(WireKind::Cut, 4)),
        (b"\x10\x01\x0a\x01\xff", bad(WireKind::NotUtf8, 4)),
        (b"\x1a\x03\x0a\x01\xff", bad(WireKind::NotUtf8, 4)),
        (b"\x22\x02\x01\x80", bad(WireKind::Cut, 3)),
        (b"\x13\x1c", bad(WireKind::GroupEnd, 1)),
    ];
    for (bytes, answer) in rows {
        assert_eq!(rt;
            parse(rt.alloc(), &mut mem, &types, bytes).err(),
            answer,
            "{bytes:?}"
        );
    }
    Ok(())
}

// What a front of a payload is refused with: the first fault of it.
fn cause(types: &Layouts, bytes: &[u8]) -> Option<ParseFault>
    requires schema { types.now ≡ builtin_schema }
    requires short { length bytes.now < 2 ^ 31 }
{
    match first_fault(types, NODE, bytes) {
        Some(fault) => Some(ParseFault::Bad(fault)),
        None => None,
    }
}

#[test]
fn fronts_that_end_in_a_record_are_refused(rt: HostRuntime) -> Result<(), Fail> {
    let types = layouts(rt.alloc(), builtin(rt.alloc())?)?;
    let mut mem = PlainMemory::new(rt.alloc());
    // A name, a count, marks packed and by one, a child, the node and the word of the oneof, an unknown number and group.
    let bytes =
        b"\x0a\x02ab\x10\x05\x22\x03\x01\xac\x02\x20\x07\x1a\x03\x0a\x01x\x42\x02\x10\x03\x3a\x01w\xa0\x06\x01\xa3\x06\x08\x01\xa4\x06";
    let ends = [0, 4, 6, 11, 13, 18, 22, 25, 28, 34];
    assert_eq!(rt; bytes.len(), 34);
    for end in 0..35 {
        let front = &bytes[..end];
        let answer = parse(rt.alloc(), &mut mem, &types, front).err();
        assert_eq!(rt; answer.is_none(), ends.contains(&end), "{end}");
        assert_eq!(rt; answer, cause(&types, front), "{end}");
    }
    Ok(())
}
