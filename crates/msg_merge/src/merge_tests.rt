// Messages of `pb.Node`, parsed into two memories and merged or copied: what they hold then, and what it takes.
ghost use Rattle.std.specs.Prelude.{◌≡◌, ◌<◌, ◌^◌, length, IfOk, IfSome};
ghost use Rattle.pb_schema.specs.Builtin.{builtin as builtin_schema};
ghost use Rattle.dyn_message.specs.Fields.{IsMessageIn};

use crate::{copy, merge, merge_across};
use arena_block::Policy;
use arena_mem::{Memory, PlainMemory};
use dyn_message::{
    MsgRef, case_of, count, create, element_scalar, element_sub, get_bytes, get_scalar,
    separate_messages_stay, strangers_change_nothing, sub, unknown_count, unknown_element,
};
use msg_layout::layouts;
use msg_layout::tables::Layouts;
use pb_parse::{ParseFault, parse_into};
use pb_schema::builtin;
use serial_arena::SerialArena;
use std::alloc::Global;
use std::process::Abort;
use std::test::Fail;

const NODE: u32 = 1;

// A payload of a node; one that is too long isn't read.
fn parse<M: Memory>(
    alloc: Global,
    mem: &mut M,
    types: &Layouts,
    bytes: &[u8],
) -> Result<MsgRef, ParseFault>
    requires schema { types.now ≡ builtin_schema }
    ensures message { IfOk result (λ msg. IsMessageIn types.now (M.places mem.new) (M.buffers mem.new) msg) }
    ensures node { IfOk result (λ msg. msg.type_no ≡ 1) }
{
    if bytes.len() >= 1 << 25 {
        return Err(ParseFault::NoMemory);
    }
    let Ok(msg) = create(mem, types, NODE) else {
        return Err(ParseFault::NoMemory);
    };
    match parse_into(alloc, mem, types, msg, bytes) {
        Ok(()) => Ok(msg),
        Err(fault) => Err(fault),
    }
}

fn text<'a, M: Memory>(mem: &'a M, types: &Layouts, msg: MsgRef) -> Option<&'a [u8]>
    requires message { IsMessageIn types.now (M.places mem.now) (M.buffers mem.now) msg }
    requires schema { types.now ≡ builtin_schema }
    requires node { msg.type_no ≡ 1 }
{
    get_bytes(mem, types, msg, 1)
}

fn number<M: Memory>(mem: &M, types: &Layouts, msg: MsgRef) -> Option<u64>
    requires message { IsMessageIn types.now (M.places mem.now) (M.buffers mem.now) msg }
    requires schema { types.now ≡ builtin_schema }
    requires node { msg.type_no ≡ 1 }
{
    get_scalar(mem, types, msg, 2)
}

// The mark at this index; none where a node has fewer.
fn mark<M: Memory>(mem: &M, types: &Layouts, msg: MsgRef, index: u32) -> Option<u64>
    requires message { IsMessageIn types.now (M.places mem.now) (M.buffers mem.now) msg }
    requires schema { types.now ≡ builtin_schema }
    requires node { msg.type_no ≡ 1 }
{
    let marks = count(mem, types, msg, 4);
    if index >= marks {
        return None;
    }
    Some(element_scalar(mem, types, msg, 4, index))
}

fn node<M: Memory>(mem: &M, types: &Layouts, msg: MsgRef) -> Option<MsgRef>
    requires message { IsMessageIn types.now (M.places mem.now) (M.buffers mem.now) msg }
    requires schema { types.now ≡ builtin_schema }
    requires node { msg.type_no ≡ 1 }
    ensures message { IfSome result (IsMessageIn types.now (M.places mem.now) (M.buffers mem.now)) }
    ensures node { IfSome result (λ node. node.type_no ≡ 1) }
{
    match sub(mem, types, msg, 8) {
        Some(node) if node.type_no == NODE => Some(node),
        _ => None,
    }
}

// The child at this index; none where a node has fewer.
fn child<M: Memory>(mem: &M, types: &Layouts, msg: MsgRef, index: u32) -> Option<MsgRef>
    requires message { IsMessageIn types.now (M.places mem.now) (M.buffers mem.now) msg }
    requires schema { types.now ≡ builtin_schema }
    requires node { msg.type_no ≡ 1 }
    ensures message { IfSome result (IsMessageIn types.now (M.places mem.now) (M.buffers mem.now)) }
    ensures node { IfSome result (λ node. node.type_no ≡ 1) }
{
    let children = count(mem, types, msg, 3);
    if index >= children {
        return None;
    }
    let node = element_sub(mem, types, msg, 3, index);
    if node.type_no == NODE {
        Some(node)
    } else {
        None
    }
}

// The piece of unknown bytes at this index; none where there are fewer.
fn piece<'a, M: Memory>(mem: &'a M, types: &Layouts, msg: MsgRef, index: u32) -> Option<&'a [u8]>
    requires { IsMessageIn types.now (M.places mem.now) (M.buffers mem.now) msg }
{
    let pieces = unknown_count(mem, types, msg);
    if index >= pieces {
        return None;
    }
    Some(unknown_element(mem, types, msg, index))
}

// A payload that is merged into what another one stands for, in another memory.
fn merged<M: Memory, N: Memory>(
    alloc: Global,
    mem: &mut M,
    other: &mut N,
    types: &Layouts,
    first: &[u8],
    second: &[u8],
) -> Result<MsgRef, ParseFault>
    requires schema { types.now ≡ builtin_schema }
    ensures message { IfOk result (λ msg. IsMessageIn types.now (M.places mem.new) (M.buffers mem.new) msg) }
    ensures node { IfOk result (λ msg. msg.type_no ≡ 1) }
{
    let to = parse(alloc, mem, types, first)?;
    let from = parse(alloc, other, types, second)?;
    match merge_across(mem, types, to, other, from) {
        Ok(()) => Ok(to),
        Err(_) => Err(ParseFault::NoMemory),
    }
}

// A copy of what a payload stands for, in another memory.
fn copied<M: Memory, N: Memory>(
    alloc: Global,
    mem: &mut M,
    other: &mut N,
    types: &Layouts,
    bytes: &[u8],
) -> Result<MsgRef, ParseFault>
    requires schema { types.now ≡ builtin_schema }
    ensures message { IfOk result (λ msg. IsMessageIn types.now (M.places mem.new) (M.buffers mem.new) msg) }
    ensures node { IfOk result (λ msg. msg.type_no ≡ 1) }
{
    let from = parse(alloc, other, types, bytes)?;
    match copy(mem, types, other, from) {
        Ok(msg) => Ok(msg),
        Err(_) => Err(ParseFault::NoMemory),
    }
}

// A payload that is merged into a copy of what another one stands for, in the same memory.
fn merged_inside<M: Memory, N: Memory>(
    alloc: Global,
    mem: &mut M,
    other: &mut N,
    types: &Layouts,
    first: &[u8],
    second: &[u8],
) -> Result<MsgRef, ParseFault>
    requires schema { types.now ≡ builtin_schema }
    ensures message { IfOk result (λ msg. IsMessageIn types.now (M.places mem.new) (M.buffers mem.new) msg) }
    ensures node { IfOk result (λ msg. msg.type_no ≡ 1) }
{
    strangers_change_nothing();
    separate_messages_stay();
    let from = parse(alloc, mem, types, second)?;
    let source = parse(alloc, other, types, first)?;
    let Ok(to) = copy(mem, types, other, source) else {
        return Err(ParseFault::NoMemory);
    };
    match merge(alloc, mem, types, to, from) {
        Ok(()) => Ok(to),
        Err(_) => Err(ParseFault::NoMemory),
    }
}

const ONE: &[u8] = b"\x0a\x01a\x22\x02\x01\x02";

const TWO: &[u8] = b"\x0a\x01b\x22\x01\x03";

// The second text takes the place of the first, and its marks come behind those of the first.
fn check_both<M: Memory>(rt: &impl Abort, mem: &M, types: &Layouts, msg: MsgRef)
    requires message { IsMessageIn types.now (M.places mem.now) (M.buffers mem.now) msg }
    requires schema { types.now ≡ builtin_schema }
    requires node { msg.type_no ≡ 1 }
{
    assert_eq!(rt; text(mem, types, msg), Some(&b"b"[..]));
    assert_eq!(rt; mark(mem, types, msg, 0), Some(1));
    assert_eq!(rt; mark(mem, types, msg, 1), Some(2));
    assert_eq!(rt; mark(mem, types, msg, 2), Some(3));
    assert_eq!(rt; mark(mem, types, msg, 3), None);
}

// A record of 192 bytes, the two texts, and the marks, of which there are no more than the first four that have room.
#[test]
fn a_merge_takes_what_is_new(rt: HostRuntime) -> Result<(), Fail> {
    let types = layouts(rt.alloc(), builtin(rt.alloc())?)?;
    let mut arena = SerialArena::new(rt.alloc(), Policy::profile(), 3, 5, 7);
    let mut other = SerialArena::new(rt.alloc(), Policy::profile(), 3, 5, 8);
    let msg = merged(rt.alloc(), &mut arena, &mut other, &types, ONE, TWO)?;
    assert_eq!(rt; arena.space_used(), 224);
    check_both(&rt, &arena, &types, msg);
    Ok(())
}

#[test]
fn a_merge_within_a_memory_gives_the_same(rt: HostRuntime) -> Result<(), Fail> {
    let types = layouts(rt.alloc(), builtin(rt.alloc())?)?;
    let mut arena = SerialArena::new(rt.alloc(), Policy::profile(), 3, 5, 7);
    let mut other = PlainMemory::new(rt.alloc());
    let msg = merged_inside(rt.alloc(), &mut arena, &mut other, &types, ONE, TWO)?;
    check_both(&rt, &arena, &types, msg);
    Ok(())
}

#[test]
fn a_copy_holds_the_same(rt: HostRuntime) -> Result<(), Fail> {
    let types = layouts(rt.alloc(), builtin(rt.alloc())?)?;
    let mut arena = SerialArena::new(rt.alloc(), Policy::profile(), 3, 5, 7);
    let mut other = PlainMemory::new(rt.alloc());
    let bytes = b"\x0a\x01a\x22\x02\x01\x02\xa8\x06\x02";
    let msg = copied(rt.alloc(), &mut arena, &mut other, &types, bytes)?;
    assert_eq!(rt; text(&arena, &types, msg), Some(&b"a"[..]));
    assert_eq!(rt; mark(&arena, &types, msg, 0), Some(1));
    assert_eq!(rt; mark(&arena, &types, msg, 1), Some(2));
    assert_eq!(rt; mark(&arena, &types, msg, 2), None);
    assert_eq!(rt; piece(&arena, &types, msg, 0), Some(&b"\xa8\x06\x02"[..]));
    assert_eq!(rt; piece(&arena, &types, msg, 1), None);
    Ok(())
}

// A member takes the place of another one, and a message of the same member is merged into the one that is there.
#[test]
fn members_are_replaced_or_merged(rt: HostRuntime) -> Result<(), Fail> {
    let types = layouts(rt.alloc(), builtin(rt.alloc())?)?;
    let mut arena = SerialArena::new(rt.alloc(), Policy::profile(), 3, 5, 7);
    let mut other = PlainMemory::new(rt.alloc());
    let five = b"\x42\x02\x10\x05";
    let msg = merged(
        rt.alloc(),
        &mut arena,
        &mut other,
        &types,
        b"\x3a\x01w",
        five,
    )?;
    assert_eq!(rt; case_of(&arena, &types, msg, 0), 8);
    let msg = merged(
        rt.alloc(),
        &mut arena,
        &mut other,
        &types,
        five,
        b"\x42\x03\x0a\x01q",
    )?;
    let Some(node) = node(&arena, &types, msg) else {
        panic!(rt; "no node")
    };
    assert_eq!(rt; number(&arena, &types, node), Some(5));
    assert_eq!(rt; text(&arena, &types, node), Some(&b"q"[..]));
    Ok(())
}

// Children come behind those that are there, each with what it held.
#[test]
fn children_come_behind(rt: HostRuntime) -> Result<(), Fail> {
    let types = layouts(rt.alloc(), builtin(rt.alloc())?)?;
    let mut arena = SerialArena::new(rt.alloc(), Policy::profile(), 3, 5, 7);
    let mut other = PlainMemory::new(rt.alloc());
    let one = b"\x1a\x02\x10\x05";
    let two = b"\x1a\x02\x10\x06\x1a\x02\x10\x07";
    let msg = merged(rt.alloc(), &mut arena, &mut other, &types, one, two)?;
    for (index, held) in [Some(5), Some(6), Some(7), None].into_iter().enumerate() {
        let found = match child(&arena, &types, msg, index as u32) {
            Some(node) => number(&arena, &types, node),
            None => None,
        };
        assert_eq!(rt; found, held);
    }
    Ok(())
}
