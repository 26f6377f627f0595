// A schema made by hand, and what its tests ask of a field.
ghost use Rattle.std.specs.Prelude.{◌≡◌, ◌<◌, ◌+◌, ◌-◌, ◌*◌, ◌^◌, true, false, IfOk, IfSome, Some, length};
ghost use Rattle.pb_schema.specs.HeldAt.{field_at};
ghost use Rattle.pb_schema.specs.Kinds.{ValueType, Characters, Nested, value_type_of};
ghost use Rattle.pb_schema.specs.Fitted.{IsPatternOf};
ghost use Rattle.pb_schema.specs.Lawful.{Lawful, CardAllowed, FieldsAllowed, NumbersAscend};
ghost use Rattle.dyn_message.specs.Fields.{IsMessageType, IsNumberType};
ghost use Rattle.dyn_message.specs.Stands.{IsSingle, IsList};

use msg_layout::tables::Layouts;
use pb_schema::{Card, FieldList, FieldType, Kind, MessageType, Name, NoMemory, Schema, TypeList};
use std::alloc::Global;

// A type with each kind of number, told from none, one with lists of them, and one with lists of all else.
pub const ALONE: u32 = 0;

pub const LISTED: u32 = 1;

pub const OTHERS: u32 = 2;

// The fields of the third type.
pub const TEXTS: u32 = 1;

pub const BLOBS: u32 = 2;

pub const CHILDREN: u32 = 3;

pub const NEXT: u32 = 4;

fn field(number: u32, kind: Kind, card: Card) -> FieldType
    ensures { result ≡ record { number = number; kind = kind; card = card } }
{
    FieldType { number, kind, card }
}

// A field of each kind of number.
fn numbers(alloc: Global, card: Card) -> Result<FieldList, NoMemory>
    requires { (type : ValueType) → IsNumberType type → CardAllowed 0 type card }
    ensures numbers { IfOk result (λ fields. NumbersAscend 1 fields) }
    ensures allowed { IfOk result (λ fields. FieldsAllowed 3 0 fields) }
    ensures count { IfOk result (λ fields. length fields ≡ 14) }
{
    Ok(FieldList::of(vec![in alloc;
        field(1, Kind::Double, card),
        field(2, Kind::Float, card),
        field(3, Kind::Int64, card),
        field(4, Kind::UInt64, card),
        field(5, Kind::Int32, card),
        field(6, Kind::Fixed64, card),
        field(7, Kind::Fixed32, card),
        field(8, Kind::Bool, card),
        field(9, Kind::UInt32, card),
        field(10, Kind::Enumeration, card),
        field(11, Kind::SFixed32, card),
        field(12, Kind::SFixed64, card),
        field(13, Kind::SInt32, card),
        field(14, Kind::SInt64, card),
    ]?))
}

// Lists of texts, of byte strings and of messages, and one message.
fn other_fields(alloc: Global) -> Result<FieldList, NoMemory>
    ensures numbers { IfOk result (λ fields. NumbersAscend 1 fields) }
    ensures allowed { IfOk result (λ fields. FieldsAllowed 3 0 fields) }
    ensures count { IfOk result (λ fields. length fields ≡ 4) }
{
    let list = Card::Repeated { packed: false };
    Ok(FieldList::of(vec![in alloc;
        field(TEXTS, Kind::Text, list),
        field(BLOBS, Kind::Bytes, list),
        field(CHILDREN, Kind::Message(OTHERS), list),
        field(NEXT, Kind::Message(OTHERS), Card::Explicit),
    ]?))
}

pub fn made_by_hand(alloc: Global) -> Result<Schema, NoMemory>
    ensures lawful { IfOk result Lawful }
    ensures types { IfOk result (λ schema. length schema.types ≡ 3) }
{
    let alone = MessageType {
        name: Name::of(alloc, "Alone")?,
        fields: numbers(alloc, Card::Explicit)?,
        oneofs: 0,
    };
    let listed = MessageType {
        name: Name::of(alloc, "Listed")?,
        fields: numbers(alloc, Card::Repeated { packed: true })?,
        oneofs: 0,
    };
    let others = MessageType {
        name: Name::of(alloc, "Others")?,
        fields: other_fields(alloc)?,
        oneofs: 0,
    };
    Ok(Schema {
        types: TypeList::of(vec![in alloc; alone, listed, others]?),
    })
}

// The numbers of fields that lie as far apart as may be, up to the greatest number.
pub fn far_number(place: u32) -> u32
    requires { place < 512 }
    ensures { result ≡ place * 2 ^ 20 + (2 ^ 20 - 1) }
{
    place * (1 << 20) + ((1 << 20) - 1)
}

fn far_fields(alloc: Global) -> Result<Vec<FieldType>, NoMemory>
    ensures numbers { IfOk result (λ fields. NumbersAscend 1 fields.items) }
    ensures allowed { IfOk result (λ fields. FieldsAllowed 1 0 fields.items) }
    ensures count { IfOk result (λ fields. length fields.items ≡ 512) }
{
    let mut fields = Vec::new(alloc);
    for place in 0..512u32 {
        fields.push(FieldType {
            number: far_number(place),
            kind: Kind::UInt32,
            card: Card::Implicit,
        })?;
    }
    Ok(fields)
}

// One type, with as many fields as a type may have.
pub fn wide(alloc: Global) -> Result<Schema, NoMemory>
    ensures lawful { IfOk result Lawful }
    ensures types { IfOk result (λ schema. length schema.types ≡ 1) }
{
    let wide = MessageType {
        name: Name::of(alloc, "Wide")?,
        fields: FieldList::of(far_fields(alloc)?),
        oneofs: 0,
    };
    Ok(Schema {
        types: TypeList::of(vec![in alloc; wide]?),
    })
}

// The field with this number of a type that there is.
pub fn field_of(types: &Layouts, type_no: u32, number: u32) -> Option<FieldType>
    requires { type_no < length types.now.types }
    ensures { IfSome result (λ field. field_at types.now type_no number ≡ Some field) }
{
    let _schema = types.schema();
    match types.entry(type_no, number) {
        Some(entry) => Some(entry.field),
        None => None,
    }
}

pub fn is_list(card: Card) -> bool
    ensures single { result ≡ false → IsSingle card }
    ensures list { result ≡ true → IsList card }
{
    matches!(card, Card::Repeated { .. })
}

pub fn is_pattern(kind: Kind, bits: u64) -> bool
    ensures { result ≡ true → IsPatternOf (value_type_of kind) bits }
{
    match kind {
        Kind::Text | Kind::Bytes | Kind::Message(_) => false,
        Kind::Bool => bits < 2,
        Kind::Float
        | Kind::Int32
        | Kind::Fixed32
        | Kind::UInt32
        | Kind::Enumeration
        | Kind::SFixed32
        | Kind::SInt32 => bits < 1 << 32,
        _ => true,
    }
}

pub fn is_number(kind: Kind) -> bool
    ensures { result ≡ true → IsNumberType (value_type_of kind) }
{
    !matches!(kind, Kind::Text | Kind::Bytes | Kind::Message(_))
}

pub fn is_text(kind: Kind) -> bool
    ensures { result ≡ true → value_type_of kind ≡ Characters }
{
    matches!(kind, Kind::Text)
}

pub fn is_nested(kind: Kind) -> bool
    ensures { result ≡ true → IsMessageType (value_type_of kind) }
{
    matches!(kind, Kind::Message(_))
}

// The field holds messages of this type.
pub fn links_to(kind: Kind, type_no: u32) -> bool
    ensures { result ≡ true → value_type_of kind ≡ Nested type_no }
{
    match kind {
        Kind::Message(own) => own == type_no,
        _ => false,
    }
}
