//! The layouts of all types of a schema.
ghost use Rattle.std.specs.Prelude.{◌≡◌, ◌<◌, length, map, MatchOption};
ghost use Rattle.pb_schema.specs.Lawful.{Lawful};
ghost use Rattle.msg_layout.specs.Layout.{entry_among, entry_of, layout_of, layout_of_type};
ghost use Rattle.msg_layout.specs.Find.{AreAscending, Tells};
ghost use Rattle.msg_layout.specs.Words.{HasNoMember, HasWords, IsWordOf};

use crate::entry::Entry;
use crate::find::entry_by_number;
use pb_schema::Schema;
use std::marker::Model;

/// The layout of one type's record: its fields' entries by ascending number, the offset of the slot of the unknown bytes,
/// and the size of the whole, in bytes.
#[derive(Debug, Drop)]
pub struct TypeLayout {
    entries: Vec<Entry>,
    // The places of the entries with small numbers, counted from 1; 0 where no field has the number.
    near: Vec<u16>,
    unknown: u32,
    size: u32,
    // Where the words of the oneofs begin, and how many there are.
    words: u32,
    oneofs: u32,
}

impl Model for TypeLayout {
    ghost use Rattle.msg_layout.specs.Layout.{Layout};
    ghost use Rattle.msg_layout.specs.Find.{AreAscending, Tells};
    ghost use Rattle.msg_layout.specs.Words.{HasWords};

    ghost Value = { Layout };

    ghost view = { λ t. record { entries = t.entries.items; unknown = t.unknown; size = t.size } };

    ghost invariant = { λ t. AreAscending t.entries.items × Tells t.entries.items t.near.items t.entries.items
        × HasWords t.words t.oneofs t.unknown t.entries.items };
}

impl TypeLayout {
    pub(crate) fn of(
        entries: Vec<Entry>,
        near: Vec<u16>,
        unknown: u32,
        size: u32,
        words: u32,
        oneofs: u32,
    ) -> TypeLayout
        requires ascending { AreAscending entries.items }
        requires near { Tells entries.items near.items entries.items }
        requires words { HasWords words oneofs unknown entries.items }
        ensures { result ≡ record { entries = entries.items; unknown = unknown; size = size } }
    {
        TypeLayout {
            entries,
            near,
            unknown,
            size,
            words,
            oneofs,
        }
    }

    /// The entries of the fields, by ascending number.
    pub fn entries(&self) -> &[Entry]
        ensures { result.now ≡ self.now.entries }
    {
        self.entries.as_slice()
    }

    /// The entry of the field with this number, where the type has such a field. One load tells the entry of a number
    /// below 128; others are searched for by halving.
    pub fn find(&self, number: u32) -> Option<Entry>
        ensures { result ≡ entry_among self.now.entries number }
    {
        entry_by_number(self.entries.as_slice(), self.near.as_slice(), number)
    }

    /// The offset of the word of four bytes that tells which member of this oneof is set; none where the type has no
    /// such oneof, and so no member of it.
    pub fn word_of(&self, oneof: u32) -> Option<u32>
        ensures { MatchOption result (HasNoMember self.now oneof) (IsWordOf self.now oneof) }
    {
        if oneof < self.oneofs {
            Some(self.words + 4 * oneof)
        } else {
            None
        }
    }

    /// The offset of the slot of the unknown bytes.
    pub fn unknown(&self) -> u32
        ensures { result ≡ self.now.unknown }
    {
        self.unknown
    }

    /// The bytes of the record.
    pub fn size(&self) -> u32
        ensures { result ≡ self.now.size }
    {
        self.size
    }
}

/// A lawful schema with the layouts of its types. Clauses see it as the schema, of which the layouts follow.
#[derive(Debug, Drop)]
pub struct Layouts {
    schema: Schema,
    types: Vec<TypeLayout>,
}

impl Model for Layouts {
    ghost use Rattle.std.specs.Prelude.{◌≡◌, map};
    ghost use Rattle.pb_schema.specs.declared.schema.Schema.{Schema};
    ghost use Rattle.pb_schema.specs.Lawful.{Lawful};
    ghost use Rattle.msg_layout.specs.Layout.{layout_of_type};

    ghost Value = { Schema };

    ghost view = { λ l. l.schema };

    ghost invariant = { λ l. Lawful l.schema × (l.types.items ≡ map layout_of_type l.schema.types) };
}

impl Layouts {
    pub(crate) fn of(schema: Schema, types: Vec<TypeLayout>) -> Layouts
        requires lawful { Lawful schema }
        requires shown { types.items ≡ map layout_of_type schema.types }
        ensures { result ≡ schema }
    {
        Layouts { schema, types }
    }

    /// The schema, where it lies. It is lawful.
    pub fn schema(&self) -> &Schema
        ensures value { result.now ≡ self.now }
        ensures lawful { Lawful self.now }
    {
        &self.schema
    }

    /// The layout of the type with this number, which there is, where it lies.
    pub fn of_type(&self, type_no: u32) -> &TypeLayout
        requires { type_no < length self.now.types }
        ensures { result.now ≡ layout_of self.now type_no }
    {
        &self.types[type_no as usize]
    }

    /// The bytes of a record of the type with this number, which there is.
    pub fn record_size(&self, type_no: u32) -> u32
        requires { type_no < length self.now.types }
        ensures { result ≡ (layout_of self.now type_no).size }
    {
        self.of_type(type_no).size()
    }

    /// The entry of the field with this number of the type with that one, which there is; as `TypeLayout::find`.
    pub fn entry(&self, type_no: u32, number: u32) -> Option<Entry>
        requires { type_no < length self.now.types }
        ensures { result ≡ entry_of self.now type_no number }
    {
        self.of_type(type_no).find(number)
    }
}
