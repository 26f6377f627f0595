// How many bytes a field and all fields of a type have in a record.
ghost use Rattle.std.specs.Prelude.{◌≡◌, ◌≤◌, ◌^◌, nat_lt, length};
ghost use Rattle.pb_schema.specs.Kinds.{slot_of, value_type_of};
ghost use Rattle.pb_schema.specs.Meter.{round8};
ghost use Rattle.msg_layout.specs.Slots.{bit_bytes, bit_count, bytes_where, front_bytes, has_bit, slot_bytes};
ghost use Rattle.msg_layout.specs.Layout.{WordFits, mark_with, slots_start};

use crate::entry::Mark;
use pb_schema::{Card, FieldType, Kind, MessageType};

// The bytes of an array's slot, which the unknown bytes have too.
pub(crate) const ARRAY_SLOT: u32 = 24;

/// The bytes of a field's slot.
pub fn slot_bytes(field: &FieldType) -> u32
    ensures value { result ≡ slot_bytes field.now }
    ensures few { result ≤ 24 }
{
    match field.card {
        Card::Repeated { .. } => ARRAY_SLOT,
        _ => single_bytes(field.kind),
    }
}

/// The bytes of the slot of one value.
pub fn single_bytes(kind: Kind) -> u32
    ensures { result ≡ slot_of (value_type_of kind) }
{
    match kind {
        Kind::Text | Kind::Bytes => 24,
        Kind::Message(_) => 16,
        Kind::Double | Kind::Int64 | Kind::UInt64 | Kind::Fixed64 | Kind::SFixed64 | Kind::SInt64 =>
            8,
        Kind::Float
        | Kind::Int32
        | Kind::Fixed32
        | Kind::UInt32
        | Kind::Enumeration
        | Kind::SFixed32
        | Kind::SInt32 => 4,
        Kind::Bool => 1,
    }
}

// Whether a presence bit tells that the field is set.
pub(crate) fn has_bit(field: &FieldType) -> bool
    ensures { result ≡ has_bit field.now }
{
    match (field.card, field.kind) {
        (Card::Explicit, Kind::Message(_)) => false,
        (Card::Explicit, _) => true,
        _ => false,
    }
}

// What tells that a field is set, where there are so many bytes with bits, and so many bits of the fields before it.
pub(crate) fn mark_with(bytes: u32, bits: u32, field: &FieldType) -> Mark
    requires { WordFits bytes field.now.card }
    ensures { result ≡ mark_with bytes bits field.now }
{
    if has_bit(field) {
        return Mark::Bit(bits);
    }
    match field.card {
        Card::Member(oneof) => Mark::Word(bytes + 4 * oneof),
        _ => Mark::Unmarked,
    }
}

// How many presence bits the fields have.
fn bit_count(fields: &[FieldType]) -> u32
    requires { length fields.now ≤ 512 }
    ensures value { result ≡ bit_count fields.now }
    ensures few { result ≤ 512 }
{
    let mut bits = 0;
    for field in fields {
        if has_bit(field) {
            bits += 1;
        }
    }
    bits
}

// The bytes of all slots of more than so many bytes.
fn bytes_above(fields: &[FieldType], bytes: u32) -> u32
    requires { length fields.now ≤ 512 }
    ensures value { result ≡ bytes_where (λ other. nat_lt bytes other) fields.now }
    ensures few { result ≤ 12288 }
{
    let mut sum = 0;
    for field in fields {
        let own = slot_bytes(field);
        if own > bytes {
            sum += own;
        }
    }
    sum
}

// Up to a multiple of 8.
pub(crate) fn round8(bytes: u32) -> u32
    requires { bytes ≤ 2 ^ 31 }
    ensures { result ≡ round8 bytes }
{
    (bytes + 7) / 8 * 8
}

// The bytes of the words with the presence bits of a type.
pub(crate) fn bit_bytes(ty: &MessageType) -> u32
    requires { length ty.now.fields ≤ 512 }
    ensures value { result ≡ bit_bytes ty.now }
    ensures small { result ≤ 64 }
{
    bit_count(ty.fields.items()).div_ceil(32) * 4
}

// The bytes in front of all slots.
pub(crate) fn front_bytes(ty: &MessageType) -> u32
    requires fields { length ty.now.fields ≤ 512 }
    requires oneofs { ty.now.oneofs ≤ 2 ^ 22 }
    ensures value { result ≡ front_bytes ty.now }
    ensures small { result ≤ 2 ^ 25 }
{
    round8(bit_bytes(ty) + 4 * ty.oneofs)
}

// Where the slots of so many bytes begin, behind what stands in front.
pub(crate) fn slots_start(ty: &MessageType, front: u32, bytes: u32) -> u32
    requires fields { length ty.now.fields ≤ 512 }
    requires value { front ≡ front_bytes ty.now }
    requires small { front ≤ 2 ^ 25 }
    ensures value { result ≡ slots_start ty.now bytes }
    ensures small { result ≤ 2 ^ 26 }
{
    front + ARRAY_SLOT + bytes_above(ty.fields.items(), bytes)
}
