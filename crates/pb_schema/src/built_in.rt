// The schema that is always there: `pb.Tick` and `pb.Node`.
ghost use Rattle.std.specs.Prelude.{◌≡◌, IfOk};
ghost use Rattle.pb_schema.specs.Builtin.{builtin, node_fields, node_type, tick_type};
ghost use Rattle.pb_schema.specs.Lawful.{Lawful};

use crate::kind::{Card, FieldType, Kind};
use crate::lists::{FieldList, Name};
use crate::schema::{MessageType, Schema, TypeList};
use no_memory::NoMemory;
use std::alloc::Global;

// The number of `pb.Node` in the schema.
const NODE: u32 = 1;

/// The built-in schema, of the types that `specs/Builtin.antt` spells out: type 0 is `pb.Tick`, and type 1 is
/// `pb.Node`. It is lawful.
pub fn builtin(alloc: Global) -> Result<Schema, NoMemory>
    ensures value { IfOk result (λ schema. schema ≡ builtin) }
    ensures lawful { IfOk result Lawful }
{
    let tick = tick_type(alloc)?;
    let node = node_type(alloc)?;
    Ok(Schema {
        types: TypeList::of(vec![in alloc; tick, node]?),
    })
}

// `pb.Tick`, whose one field is a number without presence.
fn tick_type(alloc: Global) -> Result<MessageType, NoMemory>
    ensures { IfOk result (λ tick. tick ≡ tick_type) }
{
    let value = field(1, Kind::UInt64, Card::Implicit);
    Ok(MessageType {
        name: Name::of(alloc, "pb.Tick")?,
        fields: FieldList::of(vec![in alloc; value]?),
        oneofs: 0,
    })
}

// `pb.Node`, whose last two fields are the members of its oneof.
fn node_type(alloc: Global) -> Result<MessageType, NoMemory>
    ensures { IfOk result (λ node. node ≡ node_type) }
{
    Ok(MessageType {
        name: Name::of(alloc, "pb.Node")?,
        fields: node_fields(alloc)?,
        oneofs: 1,
    })
}

fn node_fields(alloc: Global) -> Result<FieldList, NoMemory>
    ensures { IfOk result (λ fields. fields ≡ node_fields) }
{
    let fields = vec![in alloc;
        field(1, Kind::Text, Card::Implicit),
        field(2, Kind::Int64, Card::Implicit),
        field(3, Kind::Message(NODE), Card::Repeated { packed: false }),
        field(4, Kind::Int32, Card::Repeated { packed: true }),
        field(5, Kind::Bytes, Card::Implicit),
        field(6, Kind::Message(NODE), Card::Explicit),
        field(7, Kind::Text, Card::Member(0)),
        field(8, Kind::Message(NODE), Card::Member(0)),
    ]?;
    Ok(FieldList::of(fields))
}

fn field(number: u32, kind: Kind, card: Card) -> FieldType
    ensures { result ≡ record { number = number; kind = kind; card = card } }
{
    FieldType { number, kind, card }
}
