// What a descriptor message holds at its fields.
ghost use Rattle.std.specs.Prelude.{◌≡◌, ◌+◌, ◌-◌, ◌^◌, ◌<◌, ◌≤◌, ◌⊎◌, All, IfOk, filter, length, map};
ghost use Rattle.pb_schema.specs.declared.kind.Kind.TheVariants as kinds;
ghost use Rattle.pb_schema.specs.Fits.{Utf8, Message};
ghost use Rattle.pb_schema.specs.TreeOf.{records_in};
ghost use Rattle.desc_pool.specs.Descriptors.{type_of};
ghost use Rattle.desc_pool.specs.Trees.{or_empty, or_false, or_zero, text_in, number_in, flag_in};
ghost use Rattle.desc_pool.specs.Payloads.{record_at, has_tag, IsSound, AreRead, IsField, Has, IsSub, tree_read};

use crate::descriptor::{DELIMITED, Descriptor, VARINT};
use crate::lists::Text;
use crate::numbers::spelled;
use crate::records::{all_tagged, last_payload, read_records};
use no_memory::NoMemory;
use pb_wire::WireRecord;
use std::alloc::Global;

/// The records of a descriptor message without a fault, and how many levels below the set it stands.
#[derive(Debug, Drop)]
pub(crate) struct Fields {
    pub records: Vec<WireRecord>,
    pub descriptor: Descriptor,
    pub depth: u32,
}

/// The fields of the message that these bytes are.
pub(crate) fn read_fields(
    alloc: Global,
    bytes: &[u8],
    descriptor: Descriptor,
    depth: u32,
) -> Result<Fields, NoMemory>
    requires short { length bytes.now < 2 ^ 31 }
    requires depth { depth ≤ 100 }
    requires sound { IsSound descriptor depth bytes.now }
    ensures descriptor { IfOk result (λ fields. fields.descriptor ≡ descriptor) }
    ensures depth { IfOk result (λ fields. fields.depth ≡ depth) }
    ensures read { IfOk result (λ fields. AreRead fields bytes.now) }
{
    let records = read_records(alloc, bytes, descriptor, depth)?;
    Ok(Fields {
        records,
        descriptor,
        depth,
    })
}

impl Fields {
    /// The text of a field, where it is there.
    pub(crate) fn text(
        &self,
        alloc: Global,
        bytes: &[u8],
        number: u32,
    ) -> Result<Option<Text>, NoMemory>
        requires read { AreRead self.now bytes.now }
        requires field { IsField self.now.descriptor number kinds.Text }
        requires contents { Has self.now.descriptor number Utf8 }
        ensures { IfOk result (λ text. text ≡ text_in self.now.descriptor number (tree_read self.now bytes.now)) }
    {
        let Some(payload) = last_payload(bytes, &self.records, number, DELIMITED) else {
            return Ok(None);
        };
        let Ok(text) = str::from_utf8(payload) else {
            unreachable!()
        };
        Ok(Some(Text::joined(alloc, text, "")?))
    }

    /// The text of a field, and no text where it isn't there.
    pub(crate) fn text_or_empty(
        &self,
        alloc: Global,
        bytes: &[u8],
        number: u32,
    ) -> Result<Text, NoMemory>
        requires read { AreRead self.now bytes.now }
        requires field { IsField self.now.descriptor number kinds.Text }
        requires contents { Has self.now.descriptor number Utf8 }
        ensures { IfOk result (λ text. text ≡ or_empty (text_in self.now.descriptor number (tree_read self.now bytes.now))) }
    {
        match self.text(alloc, bytes, number)? {
            Some(text) => Ok(text),
            None => Text::joined(alloc, "", ""),
        }
    }

    /// The 32 bits of a number or an enum, where it is there.
    pub(crate) fn number(&self, bytes: &[u8], number: u32) -> Option<u32>
        requires read { AreRead self.now bytes.now }
        requires field { (IsField self.now.descriptor number kinds.Int32) ⊎ (IsField self.now.descriptor number kinds.Enumeration) }
        ensures { result ≡ number_in self.now.descriptor number (tree_read self.now bytes.now) }
    {
        match last_payload(bytes, &self.records, number, VARINT) {
            Some(payload) => Some((spelled(payload) % (1 << 32)) as u32),
            None => None,
        }
    }

    /// The 32 bits of a number or an enum, and 0 where it isn't there.
    pub(crate) fn number_or_zero(&self, bytes: &[u8], number: u32) -> u32
        requires read { AreRead self.now bytes.now }
        requires field { (IsField self.now.descriptor number kinds.Int32) ⊎ (IsField self.now.descriptor number kinds.Enumeration) }
        ensures { result ≡ or_zero (number_in self.now.descriptor number (tree_read self.now bytes.now)) }
    {
        match self.number(bytes, number) {
            Some(value) => value,
            None => 0,
        }
    }

    /// The value of a bool, where it is there.
    pub(crate) fn flag(&self, bytes: &[u8], number: u32) -> Option<bool>
        requires read { AreRead self.now bytes.now }
        requires field { IsField self.now.descriptor number kinds.Bool }
        ensures { result ≡ flag_in self.now.descriptor number (tree_read self.now bytes.now) }
    {
        match last_payload(bytes, &self.records, number, VARINT) {
            Some(payload) => Some(spelled(payload) != 0),
            None => None,
        }
    }

    /// The value of a bool, and false where it isn't there.
    pub(crate) fn flag_or_false(&self, bytes: &[u8], number: u32) -> bool
        requires read { AreRead self.now bytes.now }
        requires field { IsField self.now.descriptor number kinds.Bool }
        ensures { result ≡ or_false (flag_in self.now.descriptor number (tree_read self.now bytes.now)) }
    {
        match self.flag(bytes, number) {
            Some(value) => value,
            None => false,
        }
    }

    /// The records of a field that holds messages, in their order.
    pub(crate) fn messages(
        &self,
        alloc: Global,
        bytes: &[u8],
        number: u32,
        inner: Descriptor,
    ) -> Result<Vec<WireRecord>, NoMemory>
        requires read { AreRead self.now bytes.now }
        requires contents { Has self.now.descriptor number (Message (type_of inner)) }
        ensures records { IfOk result (λ found. map (record_at bytes.now) found.items ≡ filter (has_tag number 2) (records_in (100 - self.now.depth) bytes.now)) }
        ensures subs { IfOk result (λ found. All (IsSub inner self.now.depth bytes.now) found.items) }
    {
        let found = all_tagged(alloc, &self.records, number, DELIMITED)?;
        Ok(found)
    }
}
