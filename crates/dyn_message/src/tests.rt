// A message of `pb.Node` over two memories: what is set is told, and what is unset is not.
ghost use Rattle.std.specs.Prelude.{◌≡◌, ◌<◌, ◌^◌, IfOk, length};
ghost use Rattle.arena_block.specs.Policy.{IsValid};
ghost use Rattle.pb_schema.specs.Builtin.{builtin as builtin_schema};
ghost use Rattle.dyn_message.specs.Fields.{IsMessageIn};

use crate::{
    MsgRef, case_of, clear, create, get_bytes, get_scalar, make_sub, set_bytes, set_scalar, sub,
    unlink_sub,
};
use arena_block::Policy;
use arena_mem::{MemFault, Memory, PlainMemory};
use msg_layout::layouts;
use msg_layout::tables::Layouts;
use pb_schema::builtin;
use serial_arena::SerialArena;
use std::process::Abort;
use std::test::Fail;

const NODE: u32 = 1;

fn put_count<M: Memory>(mem: &mut M, types: &Layouts, msg: MsgRef, bits: u64)
    requires message { IsMessageIn types.now (M.places mem.old) (M.buffers mem.old) msg }
    requires schema { types.now ≡ builtin_schema }
    requires node { msg.type_no ≡ 1 }
    ensures { IsMessageIn types.now (M.places mem.new) (M.buffers mem.new) msg }
{
    set_scalar(mem, types, msg, 2, bits);
}

fn count<M: Memory>(mem: &M, types: &Layouts, msg: MsgRef) -> Option<u64>
    requires message { IsMessageIn types.now (M.places mem.now) (M.buffers mem.now) msg }
    requires schema { types.now ≡ builtin_schema }
    requires node { msg.type_no ≡ 1 }
{
    get_scalar(mem, types, msg, 2)
}

fn put_blob<M: Memory>(
    mem: &mut M,
    types: &Layouts,
    msg: MsgRef,
    bytes: &[u8],
) -> Result<(), MemFault>
    requires message { IsMessageIn types.now (M.places mem.old) (M.buffers mem.old) msg }
    requires schema { types.now ≡ builtin_schema }
    requires node { msg.type_no ≡ 1 }
    requires short { length bytes.now < 2 ^ 31 }
    ensures { IfOk result (λ _. IsMessageIn types.now (M.places mem.new) (M.buffers mem.new) msg) }
{
    set_bytes(mem, types, msg, 5, bytes)
}

fn blob<'a, M: Memory>(mem: &'a M, types: &Layouts, msg: MsgRef) -> Option<&'a [u8]>
    requires message { IsMessageIn types.now (M.places mem.now) (M.buffers mem.now) msg }
    requires schema { types.now ≡ builtin_schema }
    requires node { msg.type_no ≡ 1 }
{
    get_bytes(mem, types, msg, 5)
}

// Sets the member `word`.
fn put_word<M: Memory>(
    mem: &mut M,
    types: &Layouts,
    msg: MsgRef,
    text: &str,
) -> Result<(), MemFault>
    requires message { IsMessageIn types.now (M.places mem.old) (M.buffers mem.old) msg }
    requires schema { types.now ≡ builtin_schema }
    requires node { msg.type_no ≡ 1 }
    requires short { length text.now < 2 ^ 31 }
    ensures { IfOk result (λ _. IsMessageIn types.now (M.places mem.new) (M.buffers mem.new) msg) }
{
    set_bytes(mem, types, msg, 7, text.as_bytes())
}

// Makes the other member, `node`.
fn make_node<M: Memory>(mem: &mut M, types: &Layouts, msg: MsgRef) -> Result<MsgRef, MemFault>
    requires message { IsMessageIn types.now (M.places mem.old) (M.buffers mem.old) msg }
    requires schema { types.now ≡ builtin_schema }
    requires node { msg.type_no ≡ 1 }
    ensures { IfOk result (λ _. IsMessageIn types.now (M.places mem.new) (M.buffers mem.new) msg) }
{
    make_sub(mem, types, msg, 8)
}

fn node<M: Memory>(mem: &M, types: &Layouts, msg: MsgRef) -> Option<MsgRef>
    requires message { IsMessageIn types.now (M.places mem.now) (M.buffers mem.now) msg }
    requires schema { types.now ≡ builtin_schema }
    requires node { msg.type_no ≡ 1 }
{
    sub(mem, types, msg, 8)
}

fn take_node<M: Memory>(mem: &mut M, types: &Layouts, msg: MsgRef) -> Option<MsgRef>
    requires message { IsMessageIn types.now (M.places mem.old) (M.buffers mem.old) msg }
    requires schema { types.now ≡ builtin_schema }
    requires node { msg.type_no ≡ 1 }
    ensures { IsMessageIn types.now (M.places mem.new) (M.buffers mem.new) msg }
{
    unlink_sub(mem, types, msg, 8)
}

fn new_node<M: Memory>(mem: &mut M, types: &Layouts) -> Result<MsgRef, MemFault>
    requires schema { types.now ≡ builtin_schema }
    ensures message { IfOk result (λ msg. IsMessageIn types.now (M.places mem.new) (M.buffers mem.new) msg) }
    ensures node { IfOk result (λ msg. msg.type_no ≡ 1) }
{
    create(mem, types, NODE)
}

fn empty<M: Memory>(mem: &mut M, types: &Layouts, msg: MsgRef)
    requires message { IsMessageIn types.now (M.places mem.old) (M.buffers mem.old) msg }
    ensures { IsMessageIn types.now (M.places mem.new) (M.buffers mem.new) msg }
{
    clear(mem, types, msg);
}

fn try_node<M: Memory>(rt: &impl Abort, mem: &mut M, types: &Layouts) -> Result<(), MemFault>
    requires { types.now ≡ builtin_schema }
{
    let msg = new_node(mem, types)?;
    assert_eq!(rt; count(mem, types, msg), None);
    put_count(mem, types, msg, 18_446_744_073_709_551_615);
    assert_eq!(rt; count(mem, types, msg), Some(18_446_744_073_709_551_615));
    put_blob(mem, types, msg, b"a blob that is kept")?;
    assert_eq!(rt; blob(mem, types, msg), Some(&b"a blob that is kept"[..]));
    put_blob(mem, types, msg, b"placed")?;
    assert_eq!(rt; blob(mem, types, msg), Some(&b"placed"[..]));
    put_blob(mem, types, msg, b"")?;
    assert!(rt; blob(mem, types, msg).is_none());
    assert_eq!(rt; case_of(mem, types, msg, 0), 0);
    put_word(mem, types, msg, "")?;
    assert_eq!(rt; case_of(mem, types, msg, 0), 7);
    assert_eq!(rt; node(mem, types, msg), None);
    let child = make_node(mem, types, msg)?;
    assert_eq!(rt; case_of(mem, types, msg, 0), 8);
    assert_eq!(rt; node(mem, types, msg), Some(child));
    assert_eq!(rt; make_node(mem, types, msg)?, child);
    assert_eq!(rt; take_node(mem, types, msg), Some(child));
    assert_eq!(rt; take_node(mem, types, msg), None);
    assert_eq!(rt; case_of(mem, types, msg, 0), 0);
    assert_eq!(rt; count(mem, types, msg), Some(18_446_744_073_709_551_615));
    empty(mem, types, msg);
    assert_eq!(rt; count(mem, types, msg), None);
    Ok(())
}

#[test]
fn a_node_tells_what_was_set(rt: HostRuntime) -> Result<(), Fail> {
    let types = layouts(rt.alloc(), builtin(rt.alloc())?)?;
    let mut plain = PlainMemory::new(rt.alloc());
    try_node(&rt, &mut plain, &types)?;
    let mut arena = SerialArena::new(rt.alloc(), Policy::profile(), 3, 5, 7);
    try_node(&rt, &mut arena, &types)?;
    // Two records, a short blob; the long one is kept.
    assert_eq!(rt; arena.space_used(), 192 + 192 + 8);
    Ok(())
}
