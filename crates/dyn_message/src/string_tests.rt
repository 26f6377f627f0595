// Lists of texts and of messages, links, and unknown bytes.
ghost use Rattle.std.specs.Prelude.{◌≡◌, ◌<◌, IfOk, length};
ghost use Rattle.arena_block.specs.Policy.{IsValid};
ghost use Rattle.dyn_message.specs.Fields.{IsMessageIn};

use crate::fields::record_is_there;
use crate::hand_made::{
    CHILDREN, NEXT, OTHERS, TEXTS, field_of, is_list, is_nested, is_text, links_to, made_by_hand,
};
use crate::{
    MsgRef, append_bytes, append_sub, append_unknown, count, create, element_bytes, element_sub,
    link_sub, sub, unknown_count, unknown_element,
};
use arena_block::Policy;
use arena_mem::{MemFault, Memory, PlainMemory};
use msg_layout::layouts;
use msg_layout::tables::Layouts;
use serial_arena::SerialArena;
use std::process::Abort;
use std::test::Fail;

// No byte, one, the most that are placed, the fewest that are kept, and a fifth text, for which the array grows.
fn text(index: u32) -> &'static str {
    match index {
        0 => "",
        1 => "a",
        2 => "fifteen bytes..",
        3 => "sixteen bytes...",
        _ => "an element of the greater array",
    }
}

// Appends a text to the list of texts.
fn append_text<M: Memory>(
    mem: &mut M,
    types: &Layouts,
    msg: MsgRef,
    text: &str,
) -> Result<bool, MemFault>
    requires { IsMessageIn types.now (M.places mem.old) (M.buffers mem.old) msg }
    ensures { IfOk result (λ _. IsMessageIn types.now (M.places mem.new) (M.buffers mem.new) msg) }
{
    record_is_there(mem, types, msg);
    let Some(field) = field_of(types, msg.type_no, TEXTS) else {
        return Ok(false);
    };
    if !is_list(field.card) || !is_text(field.kind) || text.len() >= 1 << 31 {
        return Ok(false);
    }
    if count(mem, types, msg, TEXTS) >= 1 << 26 {
        return Ok(false);
    }
    append_bytes(mem, types, msg, TEXTS, text.as_bytes())?;
    Ok(true)
}

// The text at this index of the list; none where it has fewer.
fn text_at<'a, M: Memory>(mem: &'a M, types: &Layouts, msg: MsgRef, index: u32) -> Option<&'a [u8]>
    requires { IsMessageIn types.now (M.places mem.now) (M.buffers mem.now) msg }
{
    record_is_there(mem, types, msg);
    let field = field_of(types, msg.type_no, TEXTS)?;
    if !is_list(field.card) || !is_text(field.kind) {
        return None;
    }
    if count(mem, types, msg, TEXTS) <= index {
        return None;
    }
    Some(element_bytes(mem, types, msg, TEXTS, index))
}

// Appends so many texts, the first of them that of this index.
fn append_texts<M: Memory>(
    rt: &impl Abort,
    mem: &mut M,
    types: &Layouts,
    msg: MsgRef,
    index: u32,
    more: u32,
) -> Result<(), MemFault>
    requires { IsMessageIn types.now (M.places mem.old) (M.buffers mem.old) msg }
    ensures { IfOk result (λ _. IsMessageIn types.now (M.places mem.new) (M.buffers mem.new) msg) }
{
    if more == 0 {
        return Ok(());
    }
    assert!(rt; append_text(mem, types, msg, text(index))?);
    append_texts(rt, mem, types, msg, index.saturating_add(1), more - 1)
}

fn check_texts<M: Memory>(rt: &impl Abort, mem: &M, types: &Layouts, msg: MsgRef, texts: u32)
    requires { IsMessageIn types.now (M.places mem.now) (M.buffers mem.now) msg }
{
    for index in 0..texts {
        assert_eq!(rt;
            text_at(mem, types, msg, index),
            Some(text(index).as_bytes()),
            "at {index}"
        );
    }
    assert!(rt; text_at(mem, types, msg, texts).is_none());
}

// Appends a message to the list of messages.
fn append_child<M: Memory>(
    mem: &mut M,
    types: &Layouts,
    msg: MsgRef,
) -> Result<Option<MsgRef>, MemFault>
    requires { IsMessageIn types.now (M.places mem.old) (M.buffers mem.old) msg }
    ensures { IfOk result (λ _. IsMessageIn types.now (M.places mem.new) (M.buffers mem.new) msg) }
{
    record_is_there(mem, types, msg);
    let Some(field) = field_of(types, msg.type_no, CHILDREN) else {
        return Ok(None);
    };
    if !is_list(field.card) || !is_nested(field.kind) {
        return Ok(None);
    }
    if count(mem, types, msg, CHILDREN) >= 1 << 26 {
        return Ok(None);
    }
    Ok(Some(append_sub(mem, types, msg, CHILDREN)?))
}

// The last message of the list.
fn last_child<M: Memory>(mem: &M, types: &Layouts, msg: MsgRef) -> Option<MsgRef>
    requires { IsMessageIn types.now (M.places mem.now) (M.buffers mem.now) msg }
{
    record_is_there(mem, types, msg);
    let field = field_of(types, msg.type_no, CHILDREN)?;
    if !is_list(field.card) || !is_nested(field.kind) {
        return None;
    }
    let children = count(mem, types, msg, CHILDREN);
    if children == 0 {
        return None;
    }
    Some(element_sub(mem, types, msg, CHILDREN, children - 1))
}

// Makes a message and links it.
fn link_next<M: Memory>(
    mem: &mut M,
    types: &Layouts,
    msg: MsgRef,
) -> Result<Option<MsgRef>, MemFault>
    requires { IsMessageIn types.now (M.places mem.old) (M.buffers mem.old) msg }
    ensures { IfOk result (λ _. IsMessageIn types.now (M.places mem.new) (M.buffers mem.new) msg) }
{
    record_is_there(mem, types, msg);
    let Some(field) = field_of(types, msg.type_no, NEXT) else {
        return Ok(None);
    };
    if is_list(field.card) || !links_to(field.kind, msg.type_no) {
        return Ok(None);
    }
    let child = create(mem, types, msg.type_no)?;
    link_sub(mem, types, msg, NEXT, child);
    Ok(Some(child))
}

fn next<M: Memory>(mem: &M, types: &Layouts, msg: MsgRef) -> Option<MsgRef>
    requires { IsMessageIn types.now (M.places mem.now) (M.buffers mem.now) msg }
{
    record_is_there(mem, types, msg);
    let field = field_of(types, msg.type_no, NEXT)?;
    if is_list(field.card) || !is_nested(field.kind) {
        return None;
    }
    sub(mem, types, msg, NEXT)
}

// Appends the record of a field that no type here has: number 99, the varint 5.
fn append_piece<M: Memory>(mem: &mut M, types: &Layouts, msg: MsgRef) -> Result<(), MemFault>
    requires { IsMessageIn types.now (M.places mem.old) (M.buffers mem.old) msg }
    ensures { IfOk result (λ _. IsMessageIn types.now (M.places mem.new) (M.buffers mem.new) msg) }
{
    if unknown_count(mem, types, msg) >= 1 << 26 {
        return Ok(());
    }
    append_unknown(mem, types, msg, &[0x98, 0x06, 0x05])
}

// The piece at this index; none where a message has fewer.
fn piece_at<'a, M: Memory>(mem: &'a M, types: &Layouts, msg: MsgRef, index: u32) -> Option<&'a [u8]>
    requires { IsMessageIn types.now (M.places mem.now) (M.buffers mem.now) msg }
{
    if unknown_count(mem, types, msg) <= index {
        return None;
    }
    Some(unknown_element(mem, types, msg, index))
}

fn try_lists<M: Memory>(rt: &impl Abort, mem: &mut M, types: &Layouts) -> Result<(), MemFault>
    requires { 2 < length types.now.types }
{
    let msg = create(mem, types, OTHERS)?;
    check_texts(rt, mem, types, msg, 0);
    append_texts(rt, mem, types, msg, 0, 5)?;
    let child = append_child(mem, types, msg)?;
    append_piece(mem, types, msg)?;
    let linked = link_next(mem, types, msg)?;
    check_texts(rt, mem, types, msg, 5);
    assert_eq!(rt; last_child(mem, types, msg), child);
    assert_eq!(rt; next(mem, types, msg), linked);
    assert!(rt; child.is_some() && linked.is_some() && child != linked);
    assert_eq!(rt; piece_at(mem, types, msg, 0), Some(&[0x98, 0x06, 0x05][..]));
    assert!(rt; piece_at(mem, types, msg, 1).is_none());
    Ok(())
}

#[test]
fn lists_and_links_are_read_back(rt: HostRuntime) -> Result<(), Fail> {
    let types = layouts(rt.alloc(), made_by_hand(rt.alloc())?)?;
    let mut plain = PlainMemory::new(rt.alloc());
    try_lists(&rt, &mut plain, &types)?;
    let mut arena = SerialArena::new(rt.alloc(), Policy::profile(), 3, 5, 7);
    try_lists(&rt, &mut arena, &types)?;
    // Two of the texts are long, and each of them is a kept buffer.
    assert_eq!(rt; arena.registered(), 2);
    Ok(())
}
