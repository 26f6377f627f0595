// Records of fields that hold one number, a varint: most records are such ones, and are put without more ado.
ghost use Rattle.std.specs.Prelude.{◌≡◌, ◌^◌, ◌<◌, ◌≤◌, ◌∷◌, [], ℕ, List, length, drop, IfSome};
ghost use Rattle.pb_schema.specs.Fits.{fields_of};
ghost use Rattle.pb_schema.specs.Tree.{Shape};
ghost use Rattle.dyn_message.specs.Feet.{Foot, InPlace};
ghost use Rattle.dyn_message.specs.Stands.{Stands};
ghost use Rattle.dyn_message.specs.Changes.{Changes};
ghost use Rattle.dyn_message.specs.Fields.{IsMessageIn};
ghost use Rattle.pb_parse.specs.Parsing.{Came};
ghost use Rattle.pb_parse.specs.Reading.{walked};
ghost use Rattle.pb_parse.specs.Short.{IsShort};

use crate::contents::{VARINT, is_list, takes_wire};
use crate::number::{keeps_small, next_number};
use arena_mem::Memory;
use dyn_message::{MsgRef, set_scalar_by};
use msg_layout::Entry;
use msg_layout::tables::Layouts;
use pb_wire::read_tag;

/// The record of such a field: the field's number and entry, where the record's payload starts and ends, and the number's
/// pattern.
#[derive(Clone, Copy, Debug)]
pub struct ShortNumber {
    pub number: u32,
    pub entry: Entry,
    pub payload: u32,
    pub end: u32,
    pub bits: u64,
}

/// The record at a place, where it is such a one. All of it is inlined, so that nothing of it goes through memory.
#[inline(always)]
pub fn short_number(types: &Layouts, type_no: u32, bytes: &[u8], at: u32) -> Option<ShortNumber>
    requires known { type_no < length types.now.types }
    requires at { at < length bytes.now }
    requires short { length bytes.now < 2 ^ 25 }
    ensures { IfSome result (λ r. IsShort types.now type_no bytes.now at r.number r.entry r.payload r.end r.bits) }
{
    let _schema = types.schema();
    let Ok((number, wire, payload)) = read_tag(bytes, at) else {
        return None;
    };
    if wire != VARINT {
        return None;
    }
    let Some(entry) = types.entry(type_no, number) else {
        return None;
    };
    if is_list(entry.field.card) {
        return None;
    }
    if !takes_wire(entry.field, VARINT) {
        return None;
    }
    let kind = entry.field.kind;
    let Some((bits, end)) = next_number(bytes, payload, kind, keeps_small(kind)) else {
        return None;
    };
    Some(ShortNumber {
        number,
        entry,
        payload,
        end,
        bits,
    })
}

/// Puts such a record into the message. It takes no memory.
#[inline(always)]
pub fn set_short<M: Memory>(
    mem: &mut M,
    types: &Layouts,
    msg: MsgRef,
    bytes: &[u8],
    at: u32,
    short: ShortNumber,
)
    requires message { IsMessageIn types.now (M.places mem.old) (M.buffers mem.old) msg }
    requires found { IsShort types.now msg.type_no bytes.now at short.number short.entry short.payload short.end short.bits }
    ensures walk { (left : ℕ) → walked types.now left (fields_of types.now msg.type_no) at (drop at bytes.now) ≡ walked types.now left (fields_of types.now msg.type_no) short.end (drop short.end bytes.now) }
    ensures came { (left : ℕ) (unknown : List ℕ) (t : Shape) (feet : List Foot) → Stands types.now (M.places mem.old) (M.buffers mem.old) msg t feet
        → Came types.now left (M.places mem.old) (M.buffers mem.old) (M.places mem.new) (M.buffers mem.new) msg bytes.now at short.end unknown unknown t feet }
    ensures changes { Changes M.key M.places M.buffers M.blocks 0 0 (InPlace msg.place ∷ []) mem.old mem.new }
{
    let _schema = types.schema();
    set_scalar_by(mem, types, msg, short.number, short.entry, short.bits);
}

/// Puts the records at the front of a payload, as long as they are such ones, and answers the place behind them. Many
/// messages hold nothing else, and for these this loop is all. It takes no memory.
#[inline]
pub fn put_front<M: Memory>(mem: &mut M, types: &Layouts, msg: MsgRef, bytes: &[u8]) -> u32
    requires message { IsMessageIn types.now (M.places mem.old) (M.buffers mem.old) msg }
    requires short { length bytes.now < 2 ^ 25 }
    ensures bound { result ≤ length bytes.now }
    ensures message { IsMessageIn types.now (M.places mem.new) (M.buffers mem.new) msg }
    ensures walk { (left : ℕ) → walked types.now left (fields_of types.now msg.type_no) 0 bytes.now ≡ walked types.now left (fields_of types.now msg.type_no) result (drop result bytes.now) }
    ensures came { (left : ℕ) (t : Shape) (feet : List Foot) → Stands types.now (M.places mem.old) (M.buffers mem.old) msg t feet
        → Came types.now left (M.places mem.old) (M.buffers mem.old) (M.places mem.new) (M.buffers mem.new) msg bytes.now 0 result [] [] t feet }
    ensures changes { (t : Shape) (feet : List Foot) → Stands types.now (M.places mem.old) (M.buffers mem.old) msg t feet
        → Changes M.key M.places M.buffers M.blocks 0 0 feet mem.old mem.new }
{
    let mut at = 0;
    'records: while (at as usize) < bytes.len() {
        let Some(short) = short_number(types, msg.type_no, bytes, at) else {
            return at;
        };
        set_short(mem, types, msg, bytes, at, short);
        at = short.end;
    }
    at
}
