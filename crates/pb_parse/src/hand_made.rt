// A schema made by hand, with every kind in every cardinality, and what its tests ask of a field.
ghost use Rattle.std.specs.Prelude.{◌≡◌, ◌<◌, true, false, IfOk, IfSome, Some, length};
ghost use Rattle.pb_schema.specs.HeldAt.{field_at};
ghost use Rattle.pb_schema.specs.Kinds.{ValueType, value_type_of};
ghost use Rattle.pb_schema.specs.Lawful.{Lawful, CardAllowed, FieldsAllowed, NumbersAscend};
ghost use Rattle.dyn_message.specs.Fields.{IsMessageType, IsNumberType, IsBytesType};
ghost use Rattle.dyn_message.specs.Stands.{IsSingle, IsList};

use msg_layout::tables::Layouts;
use pb_schema::{Card, FieldList, FieldType, Kind, MessageType, Name, NoMemory, Schema, TypeList};
use std::alloc::Global;

// The types: each kind of number in one cardinality, and all other kinds in each. Each type has one oneof, also where no
// field is a member of it.
pub const IMPLICIT: u32 = 0;

pub const EXPLICIT: u32 = 1;

pub const MEMBER: u32 = 2;

pub const APART: u32 = 3;

pub const PACKED: u32 = 4;

pub const OTHERS: u32 = 5;

fn field(number: u32, kind: Kind, card: Card) -> FieldType
    ensures { result ≡ record { number = number; kind = kind; card = card } }
{
    FieldType { number, kind, card }
}

// A field of each kind of number.
fn numbers(alloc: Global, card: Card) -> Result<FieldList, NoMemory>
    requires { (type : ValueType) → IsNumberType type → CardAllowed 1 type card }
    ensures numbers { IfOk result (λ fields. NumbersAscend 1 fields) }
    ensures allowed { IfOk result (λ fields. FieldsAllowed 6 1 fields) }
    ensures count { IfOk result (λ fields. length fields ≡ 14) }
{
    Ok(FieldList::of(vec![in alloc;
        field(1, Kind::Double, card),
        field(2, Kind::Float, card),
        field(3, Kind::Int64, card),
        field(4, Kind::UInt64, card),
        field(5, Kind::Int32, card),
        field(6, Kind::Fixed64, card),
        field(7, Kind::Fixed32, card),
        field(8, Kind::Bool, card),
        field(9, Kind::UInt32, card),
        field(10, Kind::Enumeration, card),
        field(11, Kind::SFixed32, card),
        field(12, Kind::SFixed64, card),
        field(13, Kind::SInt32, card),
        field(14, Kind::SInt64, card),
    ]?))
}

// Texts, byte strings and messages. The messages have a tag of two bytes.
fn other_fields(alloc: Global) -> Result<FieldList, NoMemory>
    ensures numbers { IfOk result (λ fields. NumbersAscend 1 fields) }
    ensures allowed { IfOk result (λ fields. FieldsAllowed 6 1 fields) }
    ensures count { IfOk result (λ fields. length fields ≡ 11) }
{
    let list = Card::Repeated { packed: false };
    Ok(FieldList::of(vec![in alloc;
        field(1, Kind::Text, Card::Implicit),
        field(2, Kind::Text, Card::Explicit),
        field(3, Kind::Text, Card::Member(0)),
        field(4, Kind::Text, list),
        field(5, Kind::Bytes, Card::Implicit),
        field(6, Kind::Bytes, Card::Explicit),
        field(7, Kind::Bytes, Card::Member(0)),
        field(8, Kind::Bytes, list),
        field(16, Kind::Message(IMPLICIT), Card::Explicit),
        field(17, Kind::Message(IMPLICIT), Card::Member(0)),
        field(18, Kind::Message(IMPLICIT), list),
    ]?))
}

// A type whose fields are these.
fn with_fields(alloc: Global, name: &str, fields: FieldList) -> Result<MessageType, NoMemory>
    ensures fields { IfOk result (λ type. type.fields ≡ fields) }
    ensures oneofs { IfOk result (λ type. type.oneofs ≡ 1) }
{
    Ok(MessageType {
        name: Name::of(alloc, name)?,
        fields,
        oneofs: 1,
    })
}

pub fn made_by_hand(alloc: Global) -> Result<Schema, NoMemory>
    ensures lawful { IfOk result Lawful }
    ensures types { IfOk result (λ schema. length schema.types ≡ 6) }
{
    let implicit = with_fields(alloc, "Implicit", numbers(alloc, Card::Implicit)?)?;
    let explicit = with_fields(alloc, "Explicit", numbers(alloc, Card::Explicit)?)?;
    let member = with_fields(alloc, "Member", numbers(alloc, Card::Member(0))?)?;
    let apart = with_fields(
        alloc,
        "Apart",
        numbers(alloc, Card::Repeated { packed: false })?,
    )?;
    let packed = with_fields(
        alloc,
        "Packed",
        numbers(alloc, Card::Repeated { packed: true })?,
    )?;
    let others = with_fields(alloc, "Others", other_fields(alloc)?)?;
    Ok(Schema {
        types: TypeList::of(vec![in alloc; implicit, explicit, member, apart, packed, others]?),
    })
}

// The field with this number of a type that there is.
pub fn field_of(types: &Layouts, type_no: u32, number: u32) -> Option<FieldType>
    requires { type_no < length types.now.types }
    ensures { IfSome result (λ field. field_at types.now type_no number ≡ Some field) }
{
    let _schema = types.schema();
    match types.entry(type_no, number) {
        Some(entry) => Some(entry.field),
        None => None,
    }
}

pub fn is_list(card: Card) -> bool
    ensures single { result ≡ false → IsSingle card }
    ensures list { result ≡ true → IsList card }
{
    matches!(card, Card::Repeated { .. })
}

pub fn is_number(kind: Kind) -> bool
    ensures { result ≡ true → IsNumberType (value_type_of kind) }
{
    !matches!(kind, Kind::Text | Kind::Bytes | Kind::Message(_))
}

pub fn is_string(kind: Kind) -> bool
    ensures { result ≡ true → IsBytesType (value_type_of kind) }
{
    matches!(kind, Kind::Text | Kind::Bytes)
}

pub fn is_message(kind: Kind) -> bool
    ensures { result ≡ true → IsMessageType (value_type_of kind) }
{
    matches!(kind, Kind::Message(_))
}
