// Vectors that contracts see as lists.
ghost use Rattle.std.specs.Prelude.{◌≡◌, ◌↔◌, IfOk, IsTrue};

use crate::kind::FieldType;
use no_memory::NoMemory;
use std::alloc::Global;
use std::marker::Model;

/// A full name.
#[derive(Debug, Drop)]
pub struct Name {
    text: String,
}

impl Model for Name {
    ghost use Rattle.std.specs.Prelude.{ℕ, List};
    ghost use Rattle.std.specs.String.{string_bytes};

    ghost Value = { List ℕ };

    ghost view = { λ n. string_bytes n.text };
}

impl Name {
    /// A name with this text.
    pub fn of(alloc: Global, text: &str) -> Result<Name, NoMemory>
        ensures { IfOk result (λ name. name ≡ text.now) }
    {
        Ok(Name {
            text: String::from_str(alloc, text)?,
        })
    }

    /// Whether this is the name's text.
    pub fn is(&self, text: &str) -> bool
        ensures { IsTrue result ↔ (self.now ≡ text.now) }
    {
        self.text.as_str() == text
    }

    /// The name's text, where it lies.
    pub fn as_str(&self) -> &str
        ensures { result.now ≡ self.now }
    {
        self.text.as_str()
    }
}

/// Bytes.
#[derive(Debug, Drop)]
pub struct ByteList {
    bytes: Vec<u8>,
}

impl Model for ByteList {
    ghost use Rattle.std.specs.Prelude.{ℕ, List};

    ghost Value = { List ℕ };

    ghost view = { λ b. b.bytes.items };
}

impl ByteList {
    /// The bytes of a vector, which is kept as it is.
    pub fn of(bytes: Vec<u8>) -> ByteList
        ensures { result ≡ bytes.items }
    {
        ByteList { bytes }
    }

    /// The bytes, where they lie.
    pub fn items(&self) -> &[u8]
        ensures { result.now ≡ self.now }
    {
        self.bytes.as_slice()
    }
}

/// The fields of a message type, by ascending number.
#[derive(Debug, Drop)]
pub struct FieldList {
    fields: Vec<FieldType>,
}

impl Model for FieldList {
    ghost use Rattle.std.specs.Prelude.{List};
    ghost use Rattle.pb_schema.specs.declared.kind.FieldType.{FieldType};

    ghost Value = { List FieldType };

    ghost view = { λ f. f.fields.items };
}

impl FieldList {
    /// The fields of a vector, which is kept as it is.
    pub fn of(fields: Vec<FieldType>) -> FieldList
        ensures { result ≡ fields.items }
    {
        FieldList { fields }
    }

    /// The fields, where they lie.
    pub fn items(&self) -> &[FieldType]
        ensures { result.now ≡ self.now }
    {
        self.fields.as_slice()
    }
}
