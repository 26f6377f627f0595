// Records of each kind in each cardinality: what a message holds once they are parsed.
ghost use Rattle.std.specs.Prelude.{◌≡◌, ◌<◌, IfOk, IfSome, length};
ghost use Rattle.arena_block.specs.Policy.{IsValid};
ghost use Rattle.dyn_message.specs.Fields.{IsMessageIn};

use super::*;
use crate::hand_made::{
    APART, EXPLICIT, IMPLICIT, MEMBER, OTHERS, PACKED, field_of, is_list, is_message, is_number,
    is_string, made_by_hand,
};
use arena_block::Policy;
use arena_mem::{Memory, PlainMemory};
use dyn_message::{
    MsgRef, case_of, count, create, element_bytes, element_scalar, element_sub, get_bytes,
    get_scalar, sub, unknown_count, unknown_element,
};
use msg_layout::layouts;
use msg_layout::tables::Layouts;
use serial_arena::SerialArena;
use std::alloc::Global;
use std::process::Abort;
use std::test::Fail;

// A number's field, its record by itself, the same in a packed record, and its bit pattern.
type NumberRow = (u32, &'static [u8], &'static [u8], u64);

const NUMBERS: [NumberRow; 36] = [
    // 1.5, the negative zero, which is no default, and 0.
    (
        1,
        b"\x09\x00\x00\x00\x00\x00\x00\xf8\x3f",
        b"\x0a\x08\x00\x00\x00\x00\x00\x00\xf8\x3f",
        0x3ff8_0000_0000_0000,
    ),
    (
        1,
        b"\x09\x00\x00\x00\x00\x00\x00\x00\x80",
        b"\x0a\x08\x00\x00\x00\x00\x00\x00\x00\x80",
        0x8000_0000_0000_0000,
    ),
    (
        1,
        b"\x09\x00\x00\x00\x00\x00\x00\x00\x00",
        b"\x0a\x08\x00\x00\x00\x00\x00\x00\x00\x00",
        0,
    ),
    (
        2,
        b"\x15\x00\x00\xc0\x3f",
        b"\x12\x04\x00\x00\xc0\x3f",
        0x3fc0_0000,
    ),
    (2, b"\x15\x00\x00\x00\x00", b"\x12\x04\x00\x00\x00\x00", 0),
    // -1, and the least number.
    (
        3,
        b"\x18\xff\xff\xff\xff\xff\xff\xff\xff\xff\x01",
        b"\x1a\x0a\xff\xff\xff\xff\xff\xff\xff\xff\xff\x01",
        0xffff_ffff_ffff_ffff,
    ),
    (
        3,
        b"\x18\x80\x80\x80\x80\x80\x80\x80\x80\x80\x01",
        b"\x1a\x0a\x80\x80\x80\x80\x80\x80\x80\x80\x80\x01",
        0x8000_0000_0000_0000,
    ),
    (3, b"\x18\x00", b"\x1a\x01\x00", 0),
    // 300, the same in a longer spelling, and one whose tenth byte has more bits than count.
    (4, b"\x20\xac\x02", b"\x22\x02\xac\x02", 300),
    (4, b"\x20\xac\x82\x00", b"\x22\x03\xac\x82\x00", 300),
    (
        4,
        b"\x20\xff\xff\xff\xff\xff\xff\xff\xff\xff\x7f",
        b"\x22\x0a\xff\xff\xff\xff\xff\xff\xff\xff\xff\x7f",
        0xffff_ffff_ffff_ffff,
    ),
    // -1 in ten bytes and in five, the least number in ten, and one of more than 32 bits.
    (
        5,
        b"\x28\xff\xff\xff\xff\xff\xff\xff\xff\xff\x01",
        b"\x2a\x0a\xff\xff\xff\xff\xff\xff\xff\xff\xff\x01",
        0xffff_ffff,
    ),
    (
        5,
        b"\x28\xff\xff\xff\xff\x0f",
        b"\x2a\x05\xff\xff\xff\xff\x0f",
        0xffff_ffff,
    ),
    (
        5,
        b"\x28\x80\x80\x80\x80\xf8\xff\xff\xff\xff\x01",
        b"\x2a\x0a\x80\x80\x80\x80\xf8\xff\xff\xff\xff\x01",
        0x8000_0000,
    ),
    (
        5,
        b"\x28\x87\x80\x80\x80\x10",
        b"\x2a\x05\x87\x80\x80\x80\x10",
        7,
    ),
    (5, b"\x28\x00", b"\x2a\x01\x00", 0),
    (
        6,
        b"\x31\x01\x02\x03\x04\x05\x06\x07\x08",
        b"\x32\x08\x01\x02\x03\x04\x05\x06\x07\x08",
        0x0807_0605_0403_0201,
    ),
    (
        7,
        b"\x3d\x01\x02\x03\x04",
        b"\x3a\x04\x01\x02\x03\x04",
        0x0403_0201,
    ),
    // Any number but 0 is true, and 2^64 is 0.
    (8, b"\x40\x01", b"\x42\x01\x01", 1),
    (8, b"\x40\xac\x02", b"\x42\x02\xac\x02", 1),
    (8, b"\x40\x00", b"\x42\x01\x00", 0),
    (
        8,
        b"\x40\x80\x80\x80\x80\x80\x80\x80\x80\x80\x02",
        b"\x42\x0a\x80\x80\x80\x80\x80\x80\x80\x80\x80\x02",
        0,
    ),
    (
        9,
        b"\x48\xff\xff\xff\xff\x0f",
        b"\x4a\x05\xff\xff\xff\xff\x0f",
        0xffff_ffff,
    ),
    (
        9,
        b"\x48\x85\x80\x80\x80\x10",
        b"\x4a\x05\x85\x80\x80\x80\x10",
        5,
    ),
    // -2 in ten bytes and in five.
    (
        10,
        b"\x50\xfe\xff\xff\xff\xff\xff\xff\xff\xff\x01",
        b"\x52\x0a\xfe\xff\xff\xff\xff\xff\xff\xff\xff\x01",
        0xffff_fffe,
    ),
    (
        10,
        b"\x50\xfe\xff\xff\xff\x0f",
        b"\x52\x05\xfe\xff\xff\xff\x0f",
        0xffff_fffe,
    ),
    (10, b"\x50\x00", b"\x52\x01\x00", 0),
    (
        11,
        b"\x5d\xff\xff\xff\xff",
        b"\x5a\x04\xff\xff\xff\xff",
        0xffff_ffff,
    ),
    (
        12,
        b"\x61\xfe\xff\xff\xff\xff\xff\xff\xff",
        b"\x62\x08\xfe\xff\xff\xff\xff\xff\xff\xff",
        0xffff_ffff_ffff_fffe,
    ),
    // -1, the greatest and the least number, and one of more than 32 bits.
    (13, b"\x68\x01", b"\x6a\x01\x01", 0xffff_ffff),
    (
        13,
        b"\x68\xfe\xff\xff\xff\x0f",
        b"\x6a\x05\xfe\xff\xff\xff\x0f",
        0x7fff_ffff,
    ),
    (
        13,
        b"\x68\xff\xff\xff\xff\x0f",
        b"\x6a\x05\xff\xff\xff\xff\x0f",
        0x8000_0000,
    ),
    (
        13,
        b"\x68\x82\x80\x80\x80\x10",
        b"\x6a\x05\x82\x80\x80\x80\x10",
        1,
    ),
    // -2, the least number and 0.
    (14, b"\x70\x03", b"\x72\x01\x03", 0xffff_ffff_ffff_fffe),
    (
        14,
        b"\x70\xff\xff\xff\xff\xff\xff\xff\xff\xff\x01",
        b"\x72\x0a\xff\xff\xff\xff\xff\xff\xff\xff\xff\x01",
        0x8000_0000_0000_0000,
    ),
    (14, b"\x70\x00", b"\x72\x01\x00", 0),
];

// A payload, and the numbers that it leaves in the list of the 32-bit numbers with sign.
type ListRow = (&'static [u8], &'static [u64]);

const LISTS: [ListRow; 6] = [
    (b"", &[]),
    // An empty packed record.
    (b"\x2a\x00", &[]),
    // Packed and by themselves, with an empty record between them.
    (
        b"\x2a\x02\x01\x02\x28\x03\x2a\x00\x2a\x01\x04",
        &[1, 2, 3, 4],
    ),
    // More than an array has room for at first.
    (
        b"\x28\x01\x2a\x04\x02\x00\x04\x05\x28\x06",
        &[1, 2, 0, 4, 5, 6],
    ),
    // -1 in five bytes and in ten.
    (
        b"\x2a\x0f\xff\xff\xff\xff\x0f\xff\xff\xff\xff\xff\xff\xff\xff\xff\x01",
        &[0xffff_ffff, 0xffff_ffff],
    ),
    // Four bytes are no record of the field.
    (b"\x2d\x01\x00\x00\x00\x28\x07", &[7]),
];

// A payload, a field of texts or bytes, and what the field holds last.
type StringRow = (&'static [u8], u32, Option<&'static [u8]>);

const STRINGS: [StringRow; 19] = [
    // No byte: nothing only where it isn't told from none.
    (b"\x0a\x00", 1, None),
    (b"\x12\x00", 2, Some(b"")),
    (b"\x1a\x00", 3, Some(b"")),
    (b"\x22\x00", 4, Some(b"")),
    (b"\x2a\x00", 5, None),
    (b"\x32\x00", 6, Some(b"")),
    (b"\x3a\x00", 7, Some(b"")),
    (b"\x42\x00", 8, Some(b"")),
    // A letter of two bytes, and bytes that are no text.
    (b"\x0a\x02\xc3\xa9", 1, Some(b"\xc3\xa9")),
    (b"\x12\x02\xc3\xa9", 2, Some(b"\xc3\xa9")),
    (b"\x1a\x02\xc3\xa9", 3, Some(b"\xc3\xa9")),
    (b"\x22\x01a\x22\x02\xc3\xa9", 4, Some(b"\xc3\xa9")),
    (b"\x2a\x02\xff\xfe", 5, Some(b"\xff\xfe")),
    (b"\x32\x02\xff\xfe", 6, Some(b"\xff\xfe")),
    (b"\x3a\x02\xff\xfe", 7, Some(b"\xff\xfe")),
    (b"\x42\x01a\x42\x02\xff\xfe", 8, Some(b"\xff\xfe")),
    // The last one counts, also where it is the default.
    (b"\x0a\x10sixteen bytes...\x0a\x00", 1, None),
    (
        b"\x12\x00\x12\x10sixteen bytes...",
        2,
        Some(b"sixteen bytes..."),
    ),
    // A member of the oneof takes the place of another one.
    (b"\x1a\x01a\x3a\x01b", 3, None),
];

// A payload, a field of messages, and what the last of these holds at its field of 64-bit numbers with sign.
type MessageRow = (&'static [u8], u32, Option<u64>);

const MESSAGES: [MessageRow; 9] = [
    (b"", 16, None),
    (b"\x82\x01\x02\x18\x05", 16, Some(5)),
    (b"\x8a\x01\x02\x18\x05", 17, Some(5)),
    (b"\x92\x01\x02\x18\x04\x92\x01\x02\x18\x05", 18, Some(5)),
    // A second record is read into the message that is there, but not in a list.
    (b"\x82\x01\x02\x18\x05\x82\x01\x02\x20\x07", 16, Some(5)),
    (b"\x8a\x01\x02\x18\x05\x8a\x01\x02\x20\x07", 17, Some(5)),
    (b"\x92\x01\x02\x18\x05\x92\x01\x02\x20\x07", 18, None),
    // Another member between the two parts them, and one behind them takes their place.
    (
        b"\x8a\x01\x02\x18\x05\x1a\x01a\x8a\x01\x02\x20\x07",
        17,
        None,
    ),
    (b"\x8a\x01\x02\x18\x05\x3a\x00", 17, None),
];

// A payload of a type that there is.
fn parse<M: Memory>(
    alloc: Global,
    mem: &mut M,
    types: &Layouts,
    type_no: u32,
    bytes: &[u8],
) -> Result<MsgRef, ParseFault>
    requires { type_no < length types.now.types }
    ensures message { IfOk result (λ msg. IsMessageIn types.now (M.places mem.new) (M.buffers mem.new) msg) }
    ensures known { IfOk result (λ msg. msg.type_no < length types.now.types) }
{
    if bytes.len() >= 1 << 25 {
        return Err(ParseFault::NoMemory);
    }
    let Ok(msg) = create(mem, types, type_no) else {
        return Err(ParseFault::NoMemory);
    };
    match parse_into(alloc, mem, types, msg, bytes) {
        Ok(()) => Ok(msg),
        Err(fault) => Err(fault),
    }
}

// The number of a field that has one.
fn number<M: Memory>(mem: &M, types: &Layouts, msg: MsgRef, number: u32) -> Option<u64>
    requires message { IsMessageIn types.now (M.places mem.now) (M.buffers mem.now) msg }
    requires known { msg.type_no < length types.now.types }
{
    let field = field_of(types, msg.type_no, number)?;
    if is_list(field.card) || !is_number(field.kind) {
        return None;
    }
    get_scalar(mem, types, msg, number)
}

// The number at this index of a list; none where it has fewer.
fn listed<M: Memory>(mem: &M, types: &Layouts, msg: MsgRef, number: u32, index: u32) -> Option<u64>
    requires message { IsMessageIn types.now (M.places mem.now) (M.buffers mem.now) msg }
    requires known { msg.type_no < length types.now.types }
{
    let field = field_of(types, msg.type_no, number)?;
    if !is_list(field.card) || !is_number(field.kind) {
        return None;
    }
    if count(mem, types, msg, number) <= index {
        return None;
    }
    Some(element_scalar(mem, types, msg, number, index))
}

// The text or the bytes of a field; of a list the last one.
fn string<'a, M: Memory>(mem: &'a M, types: &Layouts, msg: MsgRef, number: u32) -> Option<&'a [u8]>
    requires message { IsMessageIn types.now (M.places mem.now) (M.buffers mem.now) msg }
    requires known { msg.type_no < length types.now.types }
{
    let field = field_of(types, msg.type_no, number)?;
    if !is_string(field.kind) {
        return None;
    }
    if !is_list(field.card) {
        return get_bytes(mem, types, msg, number);
    }
    let elements = count(mem, types, msg, number);
    if elements == 0 {
        return None;
    }
    Some(element_bytes(mem, types, msg, number, elements - 1))
}

// The message of a field; of a list the last one.
fn message<M: Memory>(mem: &M, types: &Layouts, msg: MsgRef, number: u32) -> Option<MsgRef>
    requires message { IsMessageIn types.now (M.places mem.now) (M.buffers mem.now) msg }
    requires known { msg.type_no < length types.now.types }
    ensures { IfSome result (IsMessageIn types.now (M.places mem.now) (M.buffers mem.now)) }
{
    let field = field_of(types, msg.type_no, number)?;
    if !is_message(field.kind) {
        return None;
    }
    if !is_list(field.card) {
        return sub(mem, types, msg, number);
    }
    let elements = count(mem, types, msg, number);
    if elements == 0 {
        return None;
    }
    Some(element_sub(mem, types, msg, number, elements - 1))
}

// What the message of a field holds at its field of 64-bit numbers with sign.
fn inner<M: Memory>(mem: &M, types: &Layouts, msg: MsgRef, field: u32) -> Option<u64>
    requires message { IsMessageIn types.now (M.places mem.now) (M.buffers mem.now) msg }
    requires known { msg.type_no < length types.now.types }
{
    let child = message(mem, types, msg, field)?;
    if child.type_no != IMPLICIT {
        return None;
    }
    number(mem, types, child, 3)
}

// The one piece of unknown bytes; none where there is none.
fn piece<'a, M: Memory>(mem: &'a M, types: &Layouts, msg: MsgRef) -> Option<&'a [u8]>
    requires { IsMessageIn types.now (M.places mem.now) (M.buffers mem.now) msg }
{
    if unknown_count(mem, types, msg) != 1 {
        return None;
    }
    Some(unknown_element(mem, types, msg, 0))
}

// The list of this field has these numbers.
fn check_list<M: Memory>(
    rt: &impl Abort,
    mem: &M,
    types: &Layouts,
    msg: MsgRef,
    field: u32,
    numbers: &[u64],
)
    requires message { IsMessageIn types.now (M.places mem.now) (M.buffers mem.now) msg }
    requires known { msg.type_no < length types.now.types }
{
    let mut index = 0u32;
    for bits in numbers {
        assert_eq!(rt;
            listed(mem, types, msg, field, index),
            Some(*bits),
            "{field} at {index}"
        );
        index = index.saturating_add(1);
    }
    assert!(rt; listed(mem, types, msg, field, index).is_none(), "{field}");
}

// A number by itself: nothing only where it is the default and isn't told from none. In a packed record it is unknown.
fn check_alone<M: Memory>(
    rt: &impl Abort,
    alloc: Global,
    mem: &mut M,
    types: &Layouts,
    row: &NumberRow,
) -> Result<(), ParseFault>
    requires { length types.now.types ≡ 6 }
{
    let (field, alone, packed, bits) = *row;
    let held = if bits == 0 { None } else { Some(bits) };
    let msg = parse(alloc, mem, types, IMPLICIT, alone)?;
    assert_eq!(rt; number(mem, types, msg, field), held, "{alone:?}");
    let msg = parse(alloc, mem, types, EXPLICIT, alone)?;
    assert_eq!(rt; number(mem, types, msg, field), Some(bits), "{alone:?}");
    let msg = parse(alloc, mem, types, MEMBER, alone)?;
    assert_eq!(rt; number(mem, types, msg, field), Some(bits), "{alone:?}");
    assert_eq!(rt; case_of(mem, types, msg, 0), field, "{alone:?}");
    let msg = parse(alloc, mem, types, EXPLICIT, packed)?;
    assert_eq!(rt; number(mem, types, msg, field), None, "{packed:?}");
    assert_eq!(rt; piece(mem, types, msg), Some(packed), "{packed:?}");
    Ok(())
}

// A list takes a payload of its numbers packed and by themselves, however it is written itself.
fn check_listed<M: Memory>(
    rt: &impl Abort,
    alloc: Global,
    mem: &mut M,
    types: &Layouts,
    field: u32,
    bytes: &[u8],
    numbers: &[u64],
) -> Result<(), ParseFault>
    requires { length types.now.types ≡ 6 }
{
    let msg = parse(alloc, mem, types, APART, bytes)?;
    check_list(rt, mem, types, msg, field, numbers);
    let msg = parse(alloc, mem, types, PACKED, bytes)?;
    check_list(rt, mem, types, msg, field, numbers);
    Ok(())
}

fn check_numbers<M: Memory>(
    rt: &impl Abort,
    alloc: Global,
    mem: &mut M,
    types: &Layouts,
    rows: &[NumberRow],
) -> Result<(), ParseFault>
    requires { length types.now.types ≡ 6 }
{
    for row in rows {
        check_alone(rt, alloc, mem, types, row)?;
        check_listed(rt, alloc, mem, types, row.0, row.1, &[row.3])?;
        check_listed(rt, alloc, mem, types, row.0, row.2, &[row.3])?;
    }
    Ok(())
}

fn check_lists<M: Memory>(
    rt: &impl Abort,
    alloc: Global,
    mem: &mut M,
    types: &Layouts,
    rows: &[ListRow],
) -> Result<(), ParseFault>
    requires { length types.now.types ≡ 6 }
{
    for (bytes, numbers) in rows {
        check_listed(rt, alloc, mem, types, 5, bytes, numbers)?;
    }
    Ok(())
}

fn check_strings<M: Memory>(
    rt: &impl Abort,
    alloc: Global,
    mem: &mut M,
    types: &Layouts,
    rows: &[StringRow],
) -> Result<(), ParseFault>
    requires { length types.now.types ≡ 6 }
{
    for (bytes, field, held) in rows {
        let msg = parse(alloc, mem, types, OTHERS, bytes)?;
        assert_eq!(rt; string(mem, types, msg, *field), *held, "{bytes:?}");
    }
    Ok(())
}

fn check_messages<M: Memory>(
    rt: &impl Abort,
    alloc: Global,
    mem: &mut M,
    types: &Layouts,
    rows: &[MessageRow],
) -> Result<(), ParseFault>
    requires { length types.now.types ≡ 6 }
{
    for (bytes, field, held) in rows {
        let msg = parse(alloc, mem, types, OTHERS, bytes)?;
        assert_eq!(rt; inner(mem, types, msg, *field), *held, "{bytes:?}");
    }
    Ok(())
}

#[test]
fn numbers_of_each_kind_are_read(rt: HostRuntime) -> Result<(), Fail> {
    let types = layouts(rt.alloc(), made_by_hand(rt.alloc())?)?;
    let mut plain = PlainMemory::new(rt.alloc());
    check_numbers(&rt, rt.alloc(), &mut plain, &types, &NUMBERS)?;
    let mut arena = SerialArena::new(rt.alloc(), Policy::profile(), 3, 5, 7);
    check_numbers(&rt, rt.alloc(), &mut arena, &types, &NUMBERS)?;
    Ok(())
}

#[test]
fn lists_take_numbers_packed_and_alone(rt: HostRuntime) -> Result<(), Fail> {
    let types = layouts(rt.alloc(), made_by_hand(rt.alloc())?)?;
    let mut mem = PlainMemory::new(rt.alloc());
    check_lists(&rt, rt.alloc(), &mut mem, &types, &LISTS)?;
    Ok(())
}

#[test]
fn strings_and_messages_are_read(rt: HostRuntime) -> Result<(), Fail> {
    let types = layouts(rt.alloc(), made_by_hand(rt.alloc())?)?;
    let mut mem = PlainMemory::new(rt.alloc());
    check_strings(&rt, rt.alloc(), &mut mem, &types, &STRINGS)?;
    check_messages(&rt, rt.alloc(), &mut mem, &types, &MESSAGES)?;
    Ok(())
}
