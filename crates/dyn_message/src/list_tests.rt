// Lists of messages over two memories: what was appended is read back, in its order.
ghost use Rattle.std.specs.Prelude.{◌≡◌, ◌<◌, ◌^◌, IfOk, length};
ghost use Rattle.arena_block.specs.Policy.{IsValid};
ghost use Rattle.pb_schema.specs.Builtin.{builtin as builtin_schema};
ghost use Rattle.dyn_message.specs.Fields.{IsMessageIn};

use crate::{MsgRef, append_scalar, count, create, element_scalar};
use arena_block::Policy;
use arena_mem::{MemFault, Memory, PlainMemory};
use msg_layout::layouts;
use msg_layout::tables::Layouts;
use pb_schema::builtin;
use serial_arena::SerialArena;
use std::process::Abort;
use std::test::Fail;

fn new_node<M: Memory>(mem: &mut M, types: &Layouts) -> Result<MsgRef, MemFault>
    requires schema { types.now ≡ builtin_schema }
    ensures message { IfOk result (λ msg. IsMessageIn types.now (M.places mem.new) (M.buffers mem.new) msg) }
    ensures node { IfOk result (λ msg. msg.type_no ≡ 1) }
{
    create(mem, types, 1)
}

// Appends a mark to a node, unless it has as many as it may have.
fn append_mark<M: Memory>(
    mem: &mut M,
    types: &Layouts,
    msg: MsgRef,
    bits: u64,
) -> Result<(), MemFault>
    requires message { IsMessageIn types.now (M.places mem.old) (M.buffers mem.old) msg }
    requires schema { types.now ≡ builtin_schema }
    requires node { msg.type_no ≡ 1 }
    requires pattern { bits < 2 ^ 32 }
    ensures { IfOk result (λ _. IsMessageIn types.now (M.places mem.new) (M.buffers mem.new) msg) }
{
    let marks = count(mem, types, msg, 4);
    if marks >= 1 << 26 {
        return Ok(());
    }
    append_scalar(mem, types, msg, 4, bits)
}

// The mark at this index; none where a node has fewer.
fn mark<M: Memory>(mem: &M, types: &Layouts, msg: MsgRef, index: u32) -> Option<u64>
    requires message { IsMessageIn types.now (M.places mem.now) (M.buffers mem.now) msg }
    requires schema { types.now ≡ builtin_schema }
    requires node { msg.type_no ≡ 1 }
{
    let marks = count(mem, types, msg, 4);
    if index >= marks {
        return None;
    }
    Some(element_scalar(mem, types, msg, 4, index))
}

// The greatest number, the smallest, -1, and then any.
fn mark_at(index: u32) -> u64
    ensures { result < 2 ^ 32 }
{
    match index {
        0 => 0x7fff_ffff,
        1 => 0x8000_0000,
        2 => 0xffff_ffff,
        _ => u64::from(index),
    }
}

// Appends so many marks, the first of them that of this index.
fn append_marks<M: Memory>(
    mem: &mut M,
    types: &Layouts,
    msg: MsgRef,
    index: u32,
    more: u32,
) -> Result<(), MemFault>
    requires message { IsMessageIn types.now (M.places mem.old) (M.buffers mem.old) msg }
    requires schema { types.now ≡ builtin_schema }
    requires node { msg.type_no ≡ 1 }
    ensures { IfOk result (λ _. IsMessageIn types.now (M.places mem.new) (M.buffers mem.new) msg) }
{
    if more == 0 {
        return Ok(());
    }
    append_mark(mem, types, msg, mark_at(index))?;
    append_marks(mem, types, msg, index.saturating_add(1), more - 1)
}

// A node has so many marks.
fn check_marks<M: Memory>(rt: &impl Abort, mem: &M, types: &Layouts, msg: MsgRef, marks: u32)
    requires message { IsMessageIn types.now (M.places mem.now) (M.buffers mem.now) msg }
    requires schema { types.now ≡ builtin_schema }
    requires node { msg.type_no ≡ 1 }
{
    for index in 0..marks {
        assert_eq!(rt;
            mark(mem, types, msg, index),
            Some(mark_at(index)),
            "at {index}"
        );
    }
    assert_eq!(rt; mark(mem, types, msg, marks), None);
}

fn try_marks<M: Memory>(rt: &impl Abort, mem: &mut M, types: &Layouts) -> Result<(), MemFault>
    requires { types.now ≡ builtin_schema }
{
    let msg = new_node(mem, types)?;
    append_marks(mem, types, msg, 0, 5)?;
    check_marks(rt, mem, types, msg, 5);
    append_marks(mem, types, msg, 5, 4)?;
    check_marks(rt, mem, types, msg, 9);
    append_marks(mem, types, msg, 9, 91)?;
    check_marks(rt, mem, types, msg, 100);
    Ok(())
}

#[test]
fn marks_are_listed(rt: HostRuntime) -> Result<(), Fail> {
    let types = layouts(rt.alloc(), builtin(rt.alloc())?)?;
    let mut plain = PlainMemory::new(rt.alloc());
    try_marks(&rt, &mut plain, &types)?;
    let mut arena = SerialArena::new(rt.alloc(), Policy::profile(), 3, 5, 7);
    let msg = new_node(&mut arena, &types)?;
    append_marks(&mut arena, &types, msg, 0, 5)?;
    // The record, and room for four marks of four bytes and then for eight.
    assert_eq!(rt; arena.space_used(), 192 + 16 + 32);
    try_marks(&rt, &mut arena, &types)?;
    Ok(())
}
