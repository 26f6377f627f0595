// Sets as protoc writes them are read and linked, and each refusal is told; what the proofs leave to be shown.
use super::*;
use pb_schema::{Card, FieldType, Kind, Schema};
use std::alloc::{AllocError, Global};
use std::process::Abort;
use std::test::Fail;

// The set of one file with a message, whose fields are a number, an optional text and a list of messages.
const ONE_FILE: &[u8] =
    b"\x0a\x5a\x0a\x07t.proto\x12\x01p\x22D\x0a\x01M\x12\x0c\x0a\x01a\x18\x01 \x01(\x05R\x01a\x12\x11\x0a\x01b\x18\x02 \x01(\x09H\x00R\x01b\x88\x01\x01\x12\x18\x0a\x04kids\x18\x03 \x03(\x0b2\x04.p.MR\x04kidsB\x04\x0a\x02_bb\x06proto3";

// The set of examples/order.proto and what it imports, as protoc writes it.
const ORDER: &[u8] =
    b"\x0aH\x0a\x0ccommon.proto\x12\x04shop**\x0a\x04Unit\x12\x0d\x0a\x09UNIT_NONE\x10\x00\x12\x09\x0a\x05PIECE\x10\x01\x12\x08\x0a\x04GRAM\x10\x02b\x06proto3\x0a\xe3\x02\x0a\x0border.proto\x12\x04shop\x1a\x0ccommon.proto\x22\xb7\x02\x0a\x05Order\x12\x0e\x0a\x02id\x18\x01 \x01(\x09R\x02id\x12$\x0a\x04line\x18\x02 \x03(\x0b2\x10.shop.Order.LineR\x04line\x12\x1f\x0a\x08discount\x18\x03 \x01(\x11H\x00R\x08discount\x88\x01\x01\x12)\x0a\x04note\x18\x04 \x03(\x0b2\x15.shop.Order.NoteEntryR\x04note\x1af\x0a\x04Line\x12\x10\x0a\x03sku\x18\x01 \x01(\x09R\x03sku\x12\x16\x0a\x06amount\x18\x02 \x01(\x0dR\x06amount\x12\x1e\x0a\x04unit\x18\x03 \x01(\x0e2\x0a.shop.UnitR\x04unit\x12\x14\x0a\x05price\x18\x04 \x01(\x01R\x05price\x1a7\x0a\x09NoteEntry\x12\x10\x0a\x03key\x18\x01 \x01(\x09R\x03key\x12\x14\x0a\x05value\x18\x02 \x01(\x03R\x05value:\x028\x01B\x0b\x0a\x09_discountb\x06proto3";

// A message with a synthetic oneof in front of a real one, another one behind it, and two more real ones.
const ONEOFS: &[u8] =
    b"\x0a\x87\x01\x22}\x0a\x01A\x12\x09\x0a\x01z\x18\x09(\x05H\x04\x12\x0c\x0a\x01a\x18\x02(\x05H\x00\x88\x01\x01\x12\x09\x0a\x01m\x18\x01(\x05H\x01\x12\x10\x0a\x01b\x18\x05(\x0b2\x02.AH\x02\x88\x01\x01\x12\x09\x0a\x01l\x18\x03 \x03(\x05\x12\x0d\x0a\x01u\x18\x04 \x03(\x05B\x02\x10\x00\x12\x0d\x0a\x01t\x18\x07 \x03(\x09B\x02\x10\x01B\x04\x0a\x02_aB\x03\x0a\x01rB\x04\x0a\x02_bB\x03\x0a\x01eB\x03\x0a\x01sb\x06proto3";

// The set of a file with a service, an extension, options, reserved names and numbers, and a name for JSON, as protoc writes it:
//
//     import "google/protobuf/descriptor.proto";
//     option java_package = "j";
//     extend google.protobuf.FieldOptions { string note = 50001; }
//     message A {
//       option deprecated = true;
//       reserved 5 to 6;
//       reserved "q";
//       int32 some_name = 1 [deprecated = true, json_name = "n", (note) = "z"];
//       E kind = 2;
//     }
//     enum E { option allow_alias = true; NONE = 0 [deprecated = true]; ALSO = 0; }
//     service S { rpc Do(A) returns (stream A) { option deprecated = true; } }
const READ_OVER: &[u8] =
    b"\x0a\xfa\x01\x0a\x07x.proto\x12\x01x\x1a google/protobuf/descriptor.proto\x22I\x0a\x01A\x12\x1d\x0a\x09some_name\x18\x01 \x01(\x05B\x07\x18\x01\x8a\xb5\x18\x01zR\x01n\x12\x18\x0a\x04kind\x18\x02 \x01(\x0e2\x04.x.ER\x04kind:\x02\x18\x01J\x04\x08\x05\x10\x07R\x01q*\x1f\x0a\x01E\x12\x0c\x0a\x04NONE\x10\x00\x1a\x02\x08\x01\x12\x08\x0a\x04ALSO\x10\x00\x1a\x02\x10\x012\x1c\x0a\x01S\x12\x17\x0a\x02Do\x12\x04.x.A\x1a\x04.x.A\x22\x03\x88\x02\x010\x01:3\x0a\x04note\x12\x1d.google.protobuf.FieldOptions\x18\xd1\x86\x03 \x01(\x09R\x04noteB\x03\x0a\x01jb\x06proto3";

// The greatest set.
const MOST_BYTES: usize = 1 << 22;

// A set that is refused: the number of the refusal, and what it tells.
struct Row {
    shows: &'static str,
    set: &'static [u8],
    kind: u8,
    name: &'static str,
}

const ROWS: [Row; 17] = [
    Row {
        shows: "a set that is cut",
        set: b"\x0a\x05",
        kind: 1,
        name: "",
    },
    Row {
        shows: "a file of proto2 behind one of proto3",
        set: b"\x0a\x08b\x06proto3\x0a\x0a\x22\x08\x0a\x01A\x12\x03\x0a\x01x",
        kind: 2,
        name: "1",
    },
    Row {
        shows: "of two names that stand twice the first is told",
        set: b"\x0a$\x12\x01p\x22\x03\x0a\x01A\x22\x03\x0a\x01B\x22\x03\x0a\x01B\x22\x08\x0a\x01A\x12\x03\x0a\x01xb\x06proto3",
        kind: 3,
        name: "p.A",
    },
    Row {
        shows: "an enum and a message share a name, before a message's enum",
        set: b"\x0a!\x22\x0d\x0a\x01M\x22\x03\x0a\x01F\x22\x03\x0a\x01F\x22\x03\x0a\x01E*\x03\x0a\x01Eb\x06proto3",
        kind: 3,
        name: "E",
    },
    Row {
        shows: "a number that is absent is 0",
        set: b"\x0a.\x12\x01p\x22!\x0a\x01A\x12\x07\x0a\x01y\x18\x01(\x05\x12\x07\x0a\x01z\x18\x01(\x05\x1a\x0a\x0a\x01B\x12\x05\x0a\x01x(\x05b\x06proto3",
        kind: 4,
        name: "p.A.B.x",
    },
    Row {
        shows: "a number of 2^29",
        set: b"\x0a\x1a\x22\x10\x0a\x01A\x12\x0b\x0a\x01x\x18\x80\x80\x80\x80\x02(\x05b\x06proto3",
        kind: 4,
        name: "A.x",
    },
    Row {
        shows: "the later of two fields with a number",
        set: b"\x0a\x1f\x22\x15\x0a\x01A\x12\x07\x0a\x01x\x18\x01(\x0b\x12\x07\x0a\x01y\x18\x01(\x05b\x06proto3",
        kind: 5,
        name: "A.y",
    },
    Row {
        shows: "a name without a dot, though a message has it",
        set: b"\x0a&\x22\x1c\x0a\x01A\x12\x0b\x0a\x01x\x18\x01(\x0b2\x02.N\x12\x0a\x0a\x01y\x18\x02(\x0e2\x01Ab\x06proto3",
        kind: 6,
        name: "A.y",
    },
    Row {
        shows: "an enum where a message is named",
        set: b"\x0a6\x22'\x0a\x01A\x12\x0b\x0a\x01w\x18\x03(\x0e2\x02.E\x12\x0b\x0a\x01x\x18\x01(\x0b2\x02.E\x12\x08\x0a\x01y\x18\x02\x88\x01\x01*\x03\x0a\x01Eb\x06proto3",
        kind: 7,
        name: "A.x",
    },
    Row {
        shows: "a oneof that isn't declared",
        set: b"\x0a\x1f\x22\x15\x0a\x01A\x12\x09\x0a\x01x\x18\x01(\x05H\x00\x12\x05\x0a\x01y\x18\x02b\x06proto3",
        kind: 8,
        name: "A.x",
    },
    Row {
        shows: "a list in a oneof",
        set: b"\x0a\x1c\x22\x12\x0a\x01A\x12\x0b\x0a\x01x\x18\x01 \x03(\x05H\x00B\x00b\x06proto3",
        kind: 8,
        name: "A.x",
    },
    Row {
        shows: "optional without a oneof",
        set: b"\x0a\x19\x22\x0f\x0a\x01A\x12\x0a\x0a\x01x\x18\x01(\x05\x88\x01\x01b\x06proto3",
        kind: 8,
        name: "A.x",
    },
    Row {
        shows: "optional and not alone",
        set: b"\x0a(\x22\x1e\x0a\x01A\x12\x09\x0a\x01x\x18\x01(\x05H\x00\x12\x0c\x0a\x01y\x18\x02(\x05H\x00\x88\x01\x01B\x00b\x06proto3",
        kind: 8,
        name: "A.y",
    },
    Row {
        shows: "a group",
        set: b"\x0a\x16\x22\x0c\x0a\x01A\x12\x07\x0a\x01x\x18\x01(\x0ab\x06proto3",
        kind: 9,
        name: "A.x",
    },
    Row {
        shows: "no type",
        set: b"\x0a\x14\x22\x0a\x0a\x01A\x12\x05\x0a\x01x\x18\x01b\x06proto3",
        kind: 9,
        name: "A.x",
    },
    Row {
        shows: "required",
        set: b"\x0a\x18\x22\x0e\x0a\x01A\x12\x09\x0a\x01x\x18\x01 \x02(\x05b\x06proto3",
        kind: 9,
        name: "A.x",
    },
    Row {
        shows: "a negative label",
        set: b"\x0a!\x22\x17\x0a\x01A\x12\x12\x0a\x01x\x18\x01 \xff\xff\xff\xff\xff\xff\xff\xff\xff\x01(\x05b\x06proto3",
        kind: 9,
        name: "A.x",
    },
];

fn is_told(fault: &SchemaFault, kind: u8, name: &str) -> bool {
    match fault {
        SchemaFault::Malformed { byte } => kind == 1 && *byte == 2,
        SchemaFault::Syntax { file } => kind == 2 && *file == 1,
        SchemaFault::DuplicateName { name: told } => kind == 3 && told.is(name),
        SchemaFault::BadNumber { name: told } => kind == 4 && told.is(name),
        SchemaFault::DuplicateNumber { name: told } => kind == 5 && told.is(name),
        SchemaFault::RelativeName { name: told } => kind == 6 && told.is(name),
        SchemaFault::UnknownType { name: told } => kind == 7 && told.is(name),
        SchemaFault::BadOneof { name: told } => kind == 8 && told.is(name),
        SchemaFault::UnsupportedType { name: told } => kind == 9 && told.is(name),
        SchemaFault::TooMany { name: told } => kind == 10 && told.is(name),
    }
}

fn is_refused(alloc: Global, row: &Row) -> bool {
    if row.set.len() > MOST_BYTES {
        return false;
    }
    match read_set(alloc, row.set) {
        Ok(_schema) => false,
        Err(fault) => match fault {
            ReadSetFault::Bad(fault) => is_told(&fault, row.kind, row.name),
            ReadSetFault::NoMemory => false,
        },
    }
}

fn schema_of(alloc: Global, set: &[u8]) -> Option<Schema> {
    if set.len() > MOST_BYTES {
        return None;
    }
    match read_set(alloc, set) {
        Ok(schema) => Some(schema),
        Err(_fault) => None,
    }
}

#[test]
fn each_refusal_is_told(rt: HostRuntime) -> Result<(), Fail> {
    for row in &ROWS {
        assert!(rt; is_refused(rt.alloc(), row), "{}", row.shows);
    }
    Ok(())
}

#[test]
fn a_set_gives_a_schema(rt: HostRuntime) -> Result<(), Fail> {
    let schema = schema_of(rt.alloc(), ONE_FILE);
    let Some(schema) = schema else {
        assert!(rt; false);
        return Ok(());
    };
    assert_eq!(rt; schema.find("p.M"), Some(0));
    let fields = [
        field(1, Kind::Int32, Card::Implicit),
        field(2, Kind::Text, Card::Explicit),
        field(3, Kind::Message(0), Card::Repeated { packed: false }),
    ];
    assert!(rt; is_first(&schema, 0, fields.as_slice()));
    Ok(())
}

#[test]
fn types_of_all_files_are_numbered_in_order(rt: HostRuntime) -> Result<(), Fail> {
    let schema = schema_of(rt.alloc(), ORDER);
    let Some(schema) = schema else {
        assert!(rt; false);
        return Ok(());
    };
    assert_eq!(rt; schema.find("shop.Order"), Some(0));
    assert_eq!(rt; schema.find("shop.Order.Line"), Some(1));
    assert_eq!(rt; schema.find("shop.Order.NoteEntry"), Some(2));
    let fields = [
        field(1, Kind::Text, Card::Implicit),
        field(2, Kind::Message(1), Card::Repeated { packed: false }),
        field(3, Kind::SInt32, Card::Explicit),
        field(4, Kind::Message(2), Card::Repeated { packed: false }),
    ];
    assert!(rt; is_first(&schema, 0, fields.as_slice()));
    Ok(())
}

#[test]
fn synthetic_oneofs_are_left_out(rt: HostRuntime) -> Result<(), Fail> {
    let schema = schema_of(rt.alloc(), ONEOFS);
    let Some(schema) = schema else {
        assert!(rt; false);
        return Ok(());
    };
    let fields = [
        field(1, Kind::Int32, Card::Member(0)),
        field(2, Kind::Int32, Card::Explicit),
        field(3, Kind::Int32, Card::Repeated { packed: true }),
        field(4, Kind::Int32, Card::Repeated { packed: false }),
        field(5, Kind::Message(0), Card::Explicit),
        field(7, Kind::Text, Card::Repeated { packed: false }),
        field(9, Kind::Int32, Card::Member(2)),
    ];
    assert!(rt; is_first(&schema, 3, fields.as_slice()));
    Ok(())
}

#[test]
fn all_else_is_read_over(rt: HostRuntime) -> Result<(), Fail> {
    let schema = schema_of(rt.alloc(), READ_OVER);
    let Some(schema) = schema else {
        assert!(rt; false);
        return Ok(());
    };
    assert_eq!(rt; schema.find("x.A"), Some(0));
    let fields = [
        field(1, Kind::Int32, Card::Implicit),
        field(2, Kind::Enumeration, Card::Implicit),
    ];
    assert!(rt; is_first(&schema, 0, fields.as_slice()));
    Ok(())
}

// Appends a length-delimited record of fewer than 2^14 bytes.
fn push_record(bytes: &mut Vec<u8>, tag: u8, payload: &[u8]) -> Result<(), AllocError> {
    bytes.push(tag)?;
    bytes.push((payload.len() % 128) as u8 + 128)?;
    bytes.push((payload.len() / 128 % 128) as u8)?;
    bytes.extend_from_slice(payload)
}

// The set of a file of proto3 with these messages. Its length takes three bytes.
fn set_of(alloc: Global, messages: &[u8]) -> Result<Vec<u8>, AllocError> {
    let mut file = messages.to_vec(alloc)?;
    file.extend_from_slice(b"b\x06proto3")?;
    let mut set = Vec::new(alloc);
    set.push(10)?;
    set.push((file.len() % 128) as u8 + 128)?;
    set.push((file.len() / 128 % 128) as u8 + 128)?;
    set.push((file.len() / 16384 % 128) as u8)?;
    set.extend_from_slice(&file)?;
    Ok(set)
}

// The set of a message A with so many numbers.
fn wide_set(alloc: Global, fields: u32) -> Result<Vec<u8>, AllocError> {
    let mut message = Vec::from_slice(alloc, b"\x0a\x01A")?;
    for number in 1..fields.saturating_add(1) {
        let low = (number % 128) as u8 + 128;
        message.extend_from_slice(&[18, 5, 24, low, (number / 128 % 128) as u8, 40, 5])?;
    }
    let mut messages = Vec::new(alloc);
    push_record(&mut messages, 34, &message)?;
    set_of(alloc, &messages)
}

// The set of so many messages, whose names have two letters.
fn long_set(alloc: Global, count: u32) -> Result<Vec<u8>, AllocError> {
    let mut messages = Vec::new(alloc);
    for i in 0..count {
        let name = [(i / 90 % 90) as u8 + 33, (i % 90) as u8 + 33];
        messages.extend_from_slice(&[34, 4, 10, 2, name[0], name[1]])?;
    }
    set_of(alloc, &messages)
}

fn is_too_many(alloc: Global, set: &[u8], name: &'static str) -> bool {
    if set.len() > MOST_BYTES {
        return false;
    }
    match read_set(alloc, set) {
        Ok(_schema) => false,
        Err(fault) => match fault {
            ReadSetFault::Bad(fault) => is_told(&fault, 10, name),
            ReadSetFault::NoMemory => false,
        },
    }
}

#[test]
fn limits_are_told(rt: HostRuntime) -> Result<(), Fail> {
    let alloc = rt.alloc();
    let set = wide_set(alloc, 512)?;
    assert!(rt; schema_of(alloc, &set).is_some());
    let set = wide_set(alloc, 513)?;
    assert!(rt; is_too_many(alloc, &set, "A"));
    let set = long_set(alloc, 4096)?;
    assert!(rt; schema_of(alloc, &set).is_some());
    let set = long_set(alloc, 4097)?;
    assert!(rt; is_too_many(alloc, &set, ""));
    Ok(())
}

#[test]
fn a_label_of_zero_is_absent(rt: HostRuntime) -> Result<(), Fail> {
    assert!(rt;
        schema_of(
            rt.alloc(),
            b"\x0a\x18\x22\x0e\x0a\x01A\x12\x09\x0a\x01x\x18\x01 \x00(\x05b\x06proto3"
        )
        .is_some()
    );
    Ok(())
}

// Whether the first type has so many oneofs and these fields.
fn is_first(schema: &Schema, oneofs: u32, fields: &[FieldType]) -> bool {
    match schema.types.items().first() {
        Some(ty) => ty.oneofs == oneofs && ty.fields.items() == fields,
        None => false,
    }
}

fn field(number: u32, kind: Kind, card: Card) -> FieldType {
    FieldType { number, kind, card }
}
