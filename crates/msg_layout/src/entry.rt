// Where the record of a message has one field.

use pb_schema::FieldType;

/// What tells whether a field is set, where its slot doesn't.
#[derive(Clone, Copy, Debug, PartialEq, Eq)]
pub enum Mark {
    /// The slot tells it: it is zero where the field is unset.
    Unmarked,
    /// The presence bit of this number is set. Bit n is bit n % 8 of the record's byte n / 8, the lowest one being 0.
    Bit(u32),
    /// The word of four bytes at this offset is the number of the member that is set, in a field's own oneof, or 0.
    Word(u32),
}

/// A field, the offset of its slot in the record, and its mark.
#[derive(Clone, Copy, Debug, PartialEq, Eq)]
pub struct Entry {
    pub field: FieldType,
    pub slot: u32,
    pub mark: Mark,
}
