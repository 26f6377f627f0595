// What a descriptor set declares.
use crate::lists::{Items, Text};

/// A field as it is declared. Numbers are kept as 32 bits, so a negative one is 2^31 or more; what is absent is 0 or
/// empty.
#[derive(Debug, Drop)]
pub(crate) struct FieldDecl {
    pub name: Text,
    pub number: u32,
    pub label: u32,
    pub type_code: u32,
    pub type_name: Option<Text>,
    pub oneof_index: Option<u32>,
    pub optional: bool,
    /// Whether the options leave it that a list of numbers is packed.
    pub packed: bool,
}

/// A message by its full name, without those nested in it: the full names of its enums, its fields in their order, and
/// how many oneofs it declares.
#[derive(Debug, Drop)]
pub(crate) struct MessageDecl {
    pub name: Text,
    pub enums: Items<Text>,
    pub fields: Items<FieldDecl>,
    pub oneofs: usize,
}

/// A file: whether its syntax is proto3, the full names of its own enums, and its messages, each before those nested in
/// it.
#[derive(Debug, Drop)]
pub(crate) struct FileDecl {
    pub is_proto3: bool,
    pub enums: Items<Text>,
    pub messages: Items<MessageDecl>,
}
