// Why a descriptor set isn't taken.
use pb_schema::Name;

/// What is wrong with a descriptor set. A message or an enum is told by its full name, and a field by its message's full
/// name, a dot and its own.
#[derive(Debug, Drop)]
pub enum SchemaFault {
    /// The bytes aren't a set, or a text in them isn't UTF-8; the byte in the set.
    Malformed { byte: u32 },
    /// A file isn't of proto3; its place in the set.
    Syntax { file: u32 },
    /// Two messages or enums have this full name.
    DuplicateName { name: Name },
    /// A field's number isn't 1 to 2^29 - 1.
    BadNumber { name: Name },
    /// An earlier field of the message has this one's number.
    DuplicateNumber { name: Name },
    /// A field of a message or an enum doesn't name it from the root, with a dot in front.
    RelativeName { name: Name },
    /// A field names a message or an enum that the set hasn't.
    UnknownType { name: Name },
    /// A field's oneof isn't declared, or it is a list in one; or it is optional without one, or not alone in it.
    BadOneof { name: Name },
    /// A field is a group, has no type or an unknown one, or is required, or has an unknown label.
    UnsupportedType { name: Name },
    /// More than 4,096 messages, with no name, or more than 512 fields in this message.
    TooMany { name: Name },
}

/// Why there is no schema: the set's fault, or want of memory.
#[derive(Debug, Drop)]
pub enum ReadSetFault {
    Bad(SchemaFault),
    NoMemory,
}
