// Nodes that move within one memory, between two, and into an arena.
ghost use Rattle.std.specs.Prelude.{◌≡◌, ◌<◌, ◌≤◌, ◌^◌, [], IfOk, length};
ghost use Rattle.pb_schema.specs.Builtin.{builtin as builtin_schema};
ghost use Rattle.serial_arena.specs.Serial.{places_of, buffers_of};
ghost use Rattle.ts_arena.specs.Arena.{first_adopted};
ghost use Rattle.ts_arena.specs.Sole.{Owns, arena_places, arena_buffers};
ghost use Rattle.dyn_message.specs.Fields.{IsMessageIn};
ghost use Rattle.msg_move.specs.Pairs.{ArePair};

use crate::{give_across, give_adopted, give_same, release, swap_across, swap_same, take_sub};
use arena_block::Policy;
use arena_mem::{MemFault, Memory, PlainMemory};
use cleanup_list::ListWatch;
use dyn_message::{MsgRef, create, get_bytes, get_scalar, set_bytes, set_scalar, sub};
use msg_layout::layouts;
use msg_layout::tables::Layouts;
use pb_schema::builtin;
use serial_arena::SerialArena;
use std::process::Abort;
use std::test::Fail;
use ts_arena::{Arena, sole_use_keeps_all_else};

const NODE: u32 = 1;

// A node whose count is 7, and an empty one.
fn pair<M: Memory>(mem: &mut M, types: &Layouts) -> Result<(MsgRef, MsgRef), MemFault>
    requires schema { types.now ≡ builtin_schema }
    ensures { IfOk result (λ p. ArePair types.now (M.places mem.new) (M.buffers mem.new) p.0 p.1 1) }
{
    let one = create(mem, types, NODE)?;
    set_scalar(mem, types, one, 2, 7);
    let two = create(mem, types, NODE)?;
    Ok((one, two))
}

// The counts of two nodes that changed places.
fn swap_counts<M: Memory>(
    mem: &mut M,
    types: &Layouts,
    one: MsgRef,
    two: MsgRef,
) -> (Option<u64>, Option<u64>)
    requires schema { types.now ≡ builtin_schema }
    requires pair { ArePair types.now (M.places mem.old) (M.buffers mem.old) one two 1 }
    ensures { ArePair types.now (M.places mem.new) (M.buffers mem.new) one two 1 }
{
    swap_same(mem, types, two, one);
    let first = get_scalar(mem, types, one, 2);
    let second = get_scalar(mem, types, two, 2);
    (first, second)
}

// Gives the second node to the first one's `next`, and takes it back: what the field held in between, what was taken,
// and what the field holds then.
fn give_and_take<M: Memory>(
    mem: &mut M,
    types: &Layouts,
    one: MsgRef,
    two: MsgRef,
) -> (Option<MsgRef>, MsgRef, Option<MsgRef>)
    requires schema { types.now ≡ builtin_schema }
    requires pair { ArePair types.now (M.places mem.old) (M.buffers mem.old) one two 1 }
{
    give_same(mem, types, one, 6, two);
    let given = sub(mem, types, one, 6);
    let taken = take_sub(mem, types, one, 6);
    let left = sub(mem, types, one, 6);
    (given, taken, left)
}

// Gives the second node to the first one's `next`, and releases it from there into a region: its count there, and what
// the field holds then.
fn give_and_release<M: Memory>(
    mem: &mut M,
    types: &Layouts,
    one: MsgRef,
    two: MsgRef,
    region: SerialArena,
) -> Result<(SerialArena, Option<MsgRef>), MemFault>
    requires schema { types.now ≡ builtin_schema }
    requires pair { ArePair types.now (M.places mem.old) (M.buffers mem.old) one two 1 }
{
    give_same(mem, types, one, 6, two);
    match release(mem, types, one, 6, region) {
        Ok((_, region)) => Ok((region, sub(mem, types, one, 6))),
        Err((fault, _)) => Err(fault),
    }
}

// The counts of two nodes that changed places across memories.
fn swap_counts_across<M: Memory, N: Memory>(
    a: &mut M,
    types: &Layouts,
    one: MsgRef,
    b: &mut N,
    two: MsgRef,
) -> Result<(Option<u64>, Option<u64>), MemFault>
    requires schema { types.now ≡ builtin_schema }
    requires one { IsMessageIn types.now (M.places a.old) (M.buffers a.old) one }
    requires two { IsMessageIn types.now (N.places b.old) (N.buffers b.old) two }
    requires nodes { (one.type_no ≡ 1) × (two.type_no ≡ 1) }
{
    swap_across(a, types, one, b, two)?;
    let first = get_scalar(a, types, one, 2);
    let second = get_scalar(b, types, two, 2);
    Ok((first, second))
}

// Gives a copy of a node to another node's `next`: what the field holds then.
fn give_copy<M: Memory, N: Memory>(
    to_mem: &mut M,
    types: &Layouts,
    msg: MsgRef,
    from_mem: &N,
    child: MsgRef,
) -> Result<Option<MsgRef>, MemFault>
    requires schema { types.now ≡ builtin_schema }
    requires msg { IsMessageIn types.now (M.places to_mem.old) (M.buffers to_mem.old) msg }
    requires child { IsMessageIn types.now (N.places from_mem.now) (N.buffers from_mem.now) child }
    requires nodes { (msg.type_no ≡ 1) × (child.type_no ≡ 1) }
{
    give_across(to_mem, types, msg, 6, from_mem, child)?;
    Ok(sub(to_mem, types, msg, 6))
}

// What moves in any memory moves there as in another one.
fn move_nodes<M: Memory>(rt: &impl Abort, mem: &mut M, types: &Layouts) -> Result<(), Fail>
    requires schema { types.now ≡ builtin_schema }
{
    let (one, two) = pair(mem, types)?;
    assert_eq!(rt; swap_counts(mem, types, one, two), (None, Some(7)));
    let (given, taken, left) = give_and_take(mem, types, one, two);
    assert_eq!(rt; given, Some(two));
    assert_eq!(rt; taken, two);
    assert_eq!(rt; left, None);
    Ok(())
}

#[test]
fn nodes_move_within_a_memory(rt: HostRuntime) -> Result<(), Fail> {
    let types = layouts(rt.alloc(), builtin(rt.alloc())?)?;
    let mut plain = PlainMemory::new(rt.alloc());
    move_nodes(&rt, &mut plain, &types)?;
    let mut arena = SerialArena::new(rt.alloc(), Policy::profile(), 3, 5, 7);
    move_nodes(&rt, &mut arena, &types)?;
    assert_eq!(rt; arena.space_used(), 192 + 192);
    Ok(())
}

// A fresh copy of a node without lists and texts is its record alone.
#[test]
fn nodes_move_between_memories(rt: HostRuntime) -> Result<(), Fail> {
    let types = layouts(rt.alloc(), builtin(rt.alloc())?)?;
    let mut plain = PlainMemory::new(rt.alloc());
    let mut arena = SerialArena::new(rt.alloc(), Policy::profile(), 3, 5, 7);
    let (one, _) = pair(&mut plain, &types)?;
    let (_, two) = pair(&mut arena, &types)?;
    let counts = swap_counts_across(&mut plain, &types, one, &mut arena, two)?;
    assert_eq!(rt; counts, (None, Some(7)));
    assert_eq!(rt; arena.space_used(), 192 + 192 + 192);
    Ok(())
}

#[test]
fn a_copy_is_given(rt: HostRuntime) -> Result<(), Fail> {
    let types = layouts(rt.alloc(), builtin(rt.alloc())?)?;
    let mut plain = PlainMemory::new(rt.alloc());
    let mut arena = SerialArena::new(rt.alloc(), Policy::profile(), 3, 5, 7);
    let (full, _) = pair(&mut plain, &types)?;
    let (_, empty) = pair(&mut arena, &types)?;
    let given = give_copy(&mut arena, &types, empty, &plain, full)?;
    assert!(rt; given.is_some());
    assert_eq!(rt; arena.space_used(), 192 + 192 + 192);
    Ok(())
}

#[test]
fn a_message_is_released(rt: HostRuntime) -> Result<(), Fail> {
    let types = layouts(rt.alloc(), builtin(rt.alloc())?)?;
    let mut plain = PlainMemory::new(rt.alloc());
    let region = SerialArena::new(rt.alloc(), Policy::profile(), 0, 0, 65536);
    let (one, two) = pair(&mut plain, &types)?;
    let (region, left) = give_and_release(&mut plain, &types, one, two, region)?;
    assert_eq!(rt; left, None);
    assert_eq!(rt; region.space_used(), 192);
    Ok(())
}

// A node with this blob.
fn node_with<M: Memory>(mem: &mut M, types: &Layouts, blob: &[u8]) -> Result<MsgRef, MemFault>
    requires schema { types.now ≡ builtin_schema }
    requires short { length blob.now < 2 ^ 31 }
    ensures message { IfOk result (λ m. IsMessageIn types.now (M.places mem.new) (M.buffers mem.new) m) }
    ensures node { IfOk result (λ m. m.type_no ≡ 1) }
    ensures key { M.key mem.new ≡ M.key mem.old }
{
    let node = create(mem, types, NODE)?;
    set_bytes(mem, types, node, 5, blob)?;
    Ok(node)
}

// The same of a caller that enters an arena alone, and owns a serial arena there then.
fn node_alone(
    arena: &mut Arena,
    types: &Layouts,
    blob: &[u8],
    caller: u32,
) -> Result<MsgRef, MemFault>
    requires schema { types.now ≡ builtin_schema }
    requires short { length blob.now < 2 ^ 31 }
    requires none { arena.old.adopted ≡ [] }
    ensures message { IfOk result (λ m. IsMessageIn types.now (arena_places arena.new) (arena_buffers arena.new) m) }
    ensures node { IfOk result (λ m. m.type_no ≡ 1) }
    ensures none { IfOk result (λ _. arena.new.adopted ≡ []) }
    ensures owner { IfOk result (λ _. Owns arena.new.owners caller) }
{
    sole_use_keeps_all_else();
    match arena.enter_sole(caller) {
        Ok(mut sole) => node_with(&mut sole, types, blob),
        Err(_) => Err(MemFault::NoMemory),
    }
}

// Whether a node's `next` has this blob.
fn next_has<M: Memory>(mem: &M, types: &Layouts, msg: MsgRef, blob: &[u8]) -> bool
    requires schema { types.now ≡ builtin_schema }
    requires message { IsMessageIn types.now (M.places mem.now) (M.buffers mem.now) msg }
    requires node { msg.type_no ≡ 1 }
{
    match sub(mem, types, msg, 6) {
        Some(next) => get_bytes(mem, types, next, 5) == Some(blob),
        None => false,
    }
}

// The same of a caller that enters an arena alone.
fn next_has_alone(arena: &mut Arena, types: &Layouts, msg: MsgRef, caller: u32, blob: &[u8]) -> bool
    requires schema { types.now ≡ builtin_schema }
    requires message { IsMessageIn types.now (arena_places arena.old) (arena_buffers arena.old) msg }
    requires node { msg.type_no ≡ 1 }
{
    match arena.enter_sole(caller) {
        Ok(sole) => next_has(&sole, types, msg, blob),
        Err(_) => false,
    }
}

// Gives a node of a region to the `next` of a node of an arena: whether the arena has it there then, with this blob.
fn is_given(
    arena: &mut Arena,
    types: &Layouts,
    msg: MsgRef,
    child: MsgRef,
    region: SerialArena,
    caller: u32,
    blob: &[u8],
) -> bool
    requires schema { types.now ≡ builtin_schema }
    requires none { arena.old.adopted ≡ [] }
    requires owner { Owns arena.old.owners caller }
    requires msg { IsMessageIn types.now (arena_places arena.old) (arena_buffers arena.old) msg }
    requires life { region.life ≡ 0 }
    requires high { first_adopted ≤ region.region }
    requires child { IsMessageIn types.now (places_of region) (buffers_of region) child }
    requires nodes { (msg.type_no ≡ 1) × (child.type_no ≡ 1) }
{
    match give_adopted(arena, types, msg, 6, child, region, caller) {
        Ok(()) => next_has_alone(arena, types, msg, caller, blob),
        Err(_) => false,
    }
}

// A region's cleanups are told behind those of the arena that adopted it.
#[test]
fn a_region_is_adopted_with_its_message(rt: HostRuntime) -> Result<(), Fail> {
    let types = layouts(rt.alloc(), builtin(rt.alloc())?)?;
    let mut watch = ListWatch::with_room(rt.alloc(), 4)?;
    let mut arena = Arena::new(rt.alloc(), Policy::profile(), 5);
    let mut region = SerialArena::new(rt.alloc(), Policy::profile(), 0, 0, 65536);
    let msg = node_alone(&mut arena, &types, b"kept by the arena's caller", 4)?;
    let child = node_with(&mut region, &types, b"kept by the adopted region")?;
    assert_eq!(rt; (arena.space_used(), arena.registered()), (192, 1));
    assert_eq!(rt; (region.space_used(), region.registered()), (192, 1));
    let blob = b"kept by the adopted region";
    assert!(rt; is_given(&mut arena, &types, msg, child, region, 4, blob));
    assert_eq!(rt; (arena.space_used(), arena.registered()), (384, 2));
    let record = arena.end(&mut watch);
    assert_eq!(rt; (record.adopted, record.cleaned, record.used), (1, 2, 384));
    assert_eq!(rt; watch.told(), [(5, 0, 0), (0, 65536, 0)].as_slice());
    Ok(())
}
