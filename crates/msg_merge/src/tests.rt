// The units and the depth of a message of `pb.Node`.
ghost use Rattle.std.specs.Prelude.{◌≡◌, ◌<◌, ◌^◌, IfOk, length};
ghost use Rattle.pb_schema.specs.Builtin.{builtin as builtin_schema};
ghost use Rattle.msg_merge.specs.Extents.{IsBounded, IsCountable};

use crate::{copy, depth, units};
use arena_mem::{MemFault, Memory, PlainMemory};
use dyn_message::{
    MsgRef, append_scalar, append_unknown, count, create, link_sub, make_sub, set_bytes,
    set_scalar, unknown_count,
};
use msg_layout::layouts;
use msg_layout::tables::Layouts;
use pb_schema::builtin;
use std::test::Fail;

// A node with a number, a packed list, bytes, a message, a member and an unknown field.
fn sample<M: Memory>(mem: &mut M, types: &Layouts, blob: &[u8]) -> Result<MsgRef, MemFault>
    requires schema { types.now ≡ builtin_schema }
    requires short { length blob.now < 2 ^ 31 }
    ensures countable { IfOk result (λ msg. IsCountable types.now (M.places mem.new) (M.buffers mem.new) msg) }
    ensures bounded { IfOk result (λ msg. IsBounded types.now (M.places mem.new) (M.buffers mem.new) msg) }
{
    let msg = create(mem, types, 1)?;
    if unknown_count(mem, types, msg) != 0 {
        return Ok(msg);
    }
    append_unknown(mem, types, msg, b"\xf8\x07\x01")?;
    if count(mem, types, msg, 4) != 0 {
        return Ok(msg);
    }
    append_scalar(mem, types, msg, 4, 4_294_967_295)?;
    set_scalar(mem, types, msg, 2, 18_446_744_073_709_551_611);
    set_bytes(mem, types, msg, 5, blob)?;
    set_bytes(mem, types, msg, 7, b"")?;
    make_sub(mem, types, msg, 6)?;
    Ok(msg)
}

// The message and its `next` count one each, the unknown bytes three, the count and the mark one each, the member one for
// its default, and the blob one more than its bytes.
#[test]
fn units_and_depth_are_counted(rt: HostRuntime) -> Result<(), Fail> {
    let types = layouts(rt.alloc(), builtin(rt.alloc())?)?;
    let mut mem = PlainMemory::new(rt.alloc());
    let short = sample(&mut mem, &types, b"")?;
    assert_eq!(rt; units(&mem, &types, short), 8);
    let placed = sample(&mut mem, &types, b"blob")?;
    assert_eq!(rt; units(&mem, &types, placed), 13);
    let kept = sample(&mut mem, &types, b"as many bytes as are kept")?;
    assert_eq!(rt; units(&mem, &types, kept), 34);
    assert_eq!(rt; depth(&mem, &types, kept), 1);
    Ok(())
}

// Nodes, each linked in the next one, so that messages nest so many levels deep.
fn chain<M: Memory>(mem: &mut M, types: &Layouts, levels: u32) -> Result<MsgRef, MemFault>
    requires schema { types.now ≡ builtin_schema }
    ensures { IfOk result (λ msg. IsBounded types.now (M.places mem.new) (M.buffers mem.new) msg) }
{
    let mut top = create(mem, types, 1)?;
    let mut i = 0;
    'levels: while i < levels {
        let parent = create(mem, types, 1)?;
        link_sub(mem, types, parent, 6, top);
        top = parent;
        i += 1;
    }
    Ok(top)
}

#[test]
fn levels_are_counted(rt: HostRuntime) -> Result<(), Fail> {
    let types = layouts(rt.alloc(), builtin(rt.alloc())?)?;
    let mut mem = PlainMemory::new(rt.alloc());
    for levels in [0, 1, 99] {
        let top = chain(&mut mem, &types, levels)?;
        assert_eq!(rt; depth(&mem, &types, top), levels);
    }
    Ok(())
}

// A copy in another memory.
fn copied<M: Memory, N: Memory>(
    mem: &mut M,
    types: &Layouts,
    other: &N,
    msg: MsgRef,
) -> Result<MsgRef, MemFault>
    requires { IsBounded types.now (N.places other.now) (N.buffers other.now) msg }
    ensures { IfOk result (λ copy. IsBounded types.now (M.places mem.new) (M.buffers mem.new) copy) }
{
    match copy(mem, types, other, msg) {
        Ok(copy) => Ok(copy),
        Err(fault) => Err(fault),
    }
}

#[test]
fn levels_are_copied(rt: HostRuntime) -> Result<(), Fail> {
    let types = layouts(rt.alloc(), builtin(rt.alloc())?)?;
    let mut other = PlainMemory::new(rt.alloc());
    let top = chain(&mut other, &types, 99)?;
    let mut mem = PlainMemory::new(rt.alloc());
    let copy = copied(&mut mem, &types, &other, top)?;
    assert_eq!(rt; depth(&mem, &types, copy), 99);
    Ok(())
}
