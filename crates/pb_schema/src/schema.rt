// Message types, and the schema that they stand in.
ghost use Rattle.std.specs.Prelude.{◌≡◌};

use crate::lists::{FieldList, Name};
use std::marker::Model;

/// A message type: its full name, its fields by ascending number, and how many oneofs they are members of.
#[derive(Debug, Drop)]
pub struct MessageType {
    pub name: Name,
    pub fields: FieldList,
    pub oneofs: u32,
}

/// Message types; a type's number is its place among them.
#[derive(Debug, Drop)]
pub struct TypeList {
    types: Vec<MessageType>,
}

impl Model for TypeList {
    ghost use Rattle.std.specs.Prelude.{List};
    ghost use Rattle.pb_schema.specs.declared.schema.MessageType.{MessageType};

    ghost Value = { List MessageType };

    ghost view = { λ t. t.types.items };
}

impl TypeList {
    /// The types of a vector, which is kept as it is.
    pub fn of(types: Vec<MessageType>) -> TypeList
        ensures { result ≡ types.items }
    {
        TypeList { types }
    }

    /// The types, where they lie.
    pub fn items(&self) -> &[MessageType]
        ensures { result.now ≡ self.now }
    {
        self.types.as_slice()
    }
}

/// All message types that messages may have.
#[derive(Debug, Drop)]
pub struct Schema {
    pub types: TypeList,
}
