// What a field holds, and how often.

/// A kind of value, one for each type of descriptor.proto that a field may have. `Message` has the number of the
/// message's type in its schema.
#[derive(Clone, Copy, Debug, PartialEq, Eq)]
pub enum Kind {
    Double,
    Float,
    Int64,
    UInt64,
    Int32,
    Fixed64,
    Fixed32,
    Bool,
    Text,
    Message(u32),
    Bytes,
    UInt32,
    Enumeration,
    SFixed32,
    SFixed64,
    SInt32,
    SInt64,
}

/// How many values a field has, and whether a value that is the default is told from none.
#[derive(Clone, Copy, Debug, PartialEq, Eq)]
pub enum Card {
    /// One value, where the default counts as none.
    Implicit,
    /// One value or none.
    Explicit,
    /// One value or none, and none where another member of the oneof of this index has one.
    Member(u32),
    /// A list of values; of a number kind they are written in one record where it is packed.
    Repeated { packed: bool },
}

/// A field of a message type: its number from 1 to 2^29 - 1, what it holds, and how often.
#[derive(Clone, Copy, Debug, PartialEq, Eq)]
pub struct FieldType {
    pub number: u32,
    pub kind: Kind,
    pub card: Card,
}
