// Each kind of number, alone and in a list: the least, the greatest and 1 are read back.
ghost use Rattle.std.specs.Prelude.{◌≡◌, ◌<◌, ◌≤◌, ◌+◌, IfOk, length};
ghost use Rattle.arena_block.specs.Policy.{IsValid};
ghost use Rattle.dyn_message.specs.Fields.{IsMessageIn};

use crate::fields::record_is_there;
use crate::hand_made::{
    ALONE, LISTED, far_number, field_of, is_list, is_number, is_pattern, made_by_hand, wide,
};
use crate::{MsgRef, append_scalar, count, create, element_scalar, get_scalar, set_scalar};
use arena_block::Policy;
use arena_mem::{MemFault, Memory, PlainMemory};
use msg_layout::layouts;
use msg_layout::tables::Layouts;
use serial_arena::SerialArena;
use std::process::Abort;
use std::test::Fail;

// The greatest bit pattern of the field with this number.
fn greatest(field: u32) -> u64 {
    match field {
        1 | 3 | 4 | 6 | 12 | 14 => 18_446_744_073_709_551_615,
        8 => 1,
        _ => 4_294_967_295,
    }
}

// Sets the number, where the field takes it.
fn put<M: Memory>(mem: &mut M, types: &Layouts, msg: MsgRef, number: u32, bits: u64) -> bool
    requires { IsMessageIn types.now (M.places mem.old) (M.buffers mem.old) msg }
    ensures { IsMessageIn types.now (M.places mem.new) (M.buffers mem.new) msg }
{
    record_is_there(mem, types, msg);
    let Some(field) = field_of(types, msg.type_no, number) else {
        return false;
    };
    if is_list(field.card) || !is_pattern(field.kind, bits) {
        return false;
    }
    set_scalar(mem, types, msg, number, bits);
    true
}

fn number<M: Memory>(mem: &M, types: &Layouts, msg: MsgRef, number: u32) -> Option<u64>
    requires { IsMessageIn types.now (M.places mem.now) (M.buffers mem.now) msg }
{
    record_is_there(mem, types, msg);
    let field = field_of(types, msg.type_no, number)?;
    if is_list(field.card) || !is_number(field.kind) {
        return None;
    }
    get_scalar(mem, types, msg, number)
}

// Appends the number, where the list takes it.
fn append<M: Memory>(
    mem: &mut M,
    types: &Layouts,
    msg: MsgRef,
    number: u32,
    bits: u64,
) -> Result<bool, MemFault>
    requires { IsMessageIn types.now (M.places mem.old) (M.buffers mem.old) msg }
    ensures { IfOk result (λ _. IsMessageIn types.now (M.places mem.new) (M.buffers mem.new) msg) }
{
    record_is_there(mem, types, msg);
    let Some(field) = field_of(types, msg.type_no, number) else {
        return Ok(false);
    };
    if !is_list(field.card) || !is_pattern(field.kind, bits) {
        return Ok(false);
    }
    if count(mem, types, msg, number) >= 1 << 26 {
        return Ok(false);
    }
    append_scalar(mem, types, msg, number, bits)?;
    Ok(true)
}

// The last number of a list.
fn last<M: Memory>(mem: &M, types: &Layouts, msg: MsgRef, number: u32) -> Option<u64>
    requires { IsMessageIn types.now (M.places mem.now) (M.buffers mem.now) msg }
{
    record_is_there(mem, types, msg);
    let field = field_of(types, msg.type_no, number)?;
    if !is_list(field.card) || !is_number(field.kind) {
        return None;
    }
    let elements = count(mem, types, msg, number);
    if elements == 0 {
        return None;
    }
    Some(element_scalar(mem, types, msg, number, elements - 1))
}

fn try_alone<M: Memory>(
    rt: &impl Abort,
    mem: &mut M,
    types: &Layouts,
    field: u32,
    bits: u64,
) -> Result<(), MemFault>
    requires { 0 < length types.now.types }
{
    let msg = create(mem, types, ALONE)?;
    assert!(rt; number(mem, types, msg, field).is_none(), "field {field}");
    assert!(rt; put(mem, types, msg, field, bits), "field {field}");
    assert_eq!(rt; number(mem, types, msg, field), Some(bits), "field {field}");
    Ok(())
}

fn try_listed<M: Memory>(
    rt: &impl Abort,
    mem: &mut M,
    types: &Layouts,
    field: u32,
    bits: u64,
) -> Result<(), MemFault>
    requires { 1 < length types.now.types }
{
    let msg = create(mem, types, LISTED)?;
    assert!(rt; append(mem, types, msg, field, bits)?, "field {field}");
    assert_eq!(rt; last(mem, types, msg, field), Some(bits), "field {field}");
    Ok(())
}

fn try_numbers<M: Memory>(rt: &impl Abort, mem: &mut M, types: &Layouts) -> Result<(), MemFault>
    requires { 1 < length types.now.types }
{
    for field in 1..15 {
        for bits in [0, 1, greatest(field)] {
            try_alone(rt, mem, types, field, bits)?;
            try_listed(rt, mem, types, field, bits)?;
        }
    }
    Ok(())
}

// Sets so many fields of the wide type, the first of them that at this place.
fn put_far<M: Memory>(
    rt: &impl Abort,
    mem: &mut M,
    types: &Layouts,
    msg: MsgRef,
    place: u32,
    more: u32,
)
    requires message { IsMessageIn types.now (M.places mem.old) (M.buffers mem.old) msg }
    requires few { place + more ≤ 512 }
    ensures { IsMessageIn types.now (M.places mem.new) (M.buffers mem.new) msg }
{
    if more > 0 {
        assert!(rt; put(mem, types, msg, far_number(place), u64::from(place) + 1));
        put_far(rt, mem, types, msg, place + 1, more - 1);
    }
}

fn try_far<M: Memory>(rt: &impl Abort, mem: &mut M, types: &Layouts) -> Result<(), MemFault>
    requires { 0 < length types.now.types }
{
    let msg = create(mem, types, 0)?;
    put_far(rt, mem, types, msg, 0, 512);
    for place in 0..512u32 {
        assert_eq!(rt;
            number(mem, types, msg, far_number(place)),
            Some(u64::from(place) + 1),
            "at {place}"
        );
    }
    Ok(())
}

#[test]
fn the_widest_message_keeps_each_number(rt: HostRuntime) -> Result<(), Fail> {
    let types = layouts(rt.alloc(), wide(rt.alloc())?)?;
    let mut arena = SerialArena::new(rt.alloc(), Policy::profile(), 3, 5, 7);
    try_far(&rt, &mut arena, &types)?;
    Ok(())
}

#[test]
fn numbers_of_each_kind_are_read_back(rt: HostRuntime) -> Result<(), Fail> {
    let types = layouts(rt.alloc(), made_by_hand(rt.alloc())?)?;
    let mut plain = PlainMemory::new(rt.alloc());
    try_numbers(&rt, &mut plain, &types)?;
    let mut arena = SerialArena::new(rt.alloc(), Policy::profile(), 3, 5, 7);
    try_numbers(&rt, &mut arena, &types)?;
    Ok(())
}
