// Fields, enums and messages as they are declared.
ghost use Rattle.std.specs.Prelude.{◌≡◌, ◌+◌, ◌-◌, ◌^◌, ◌<◌, ◌≤◌, ◌++◌, ◌∷◌, [], All, IfOk, OnOk, filter, flat_map, length, map};
ghost use Rattle.desc_pool.specs.declared.descriptor.Descriptor.TheVariants as descriptors;
ghost use Rattle.desc_pool.specs.Files.{field_of, enum_name, message_name, message_of, messages_of, name_prefix, packed_by};
ghost use Rattle.desc_pool.specs.Trees.{flag_in, message_in, or_true};
ghost use Rattle.pb_schema.specs.TreeOf.{records_in};
ghost use Rattle.desc_pool.specs.Payloads.{AreRead, IsSound, IsSub, flag_or, has_tag, options_flag, record_at, sub_tree, tree_at, tree_read};

use crate::descriptor::Descriptor;
use crate::fields::{Fields, read_fields};
use crate::file::{FieldDecl, MessageDecl};
use crate::lists::{Items, Text};
use crate::payload::payload_of;
use no_memory::NoMemory;
use pb_wire::WireRecord;
use std::alloc::Global;

// A field, by its numbers in FieldDescriptorProto.
fn read_field(alloc: Global, bytes: &[u8], depth: u32) -> Result<FieldDecl, NoMemory>
    requires short { length bytes.now < 2 ^ 31 }
    requires depth { depth ≤ 100 }
    requires sound { IsSound descriptors.Field depth bytes.now }
    ensures { IfOk result (λ field. field ≡ field_of (tree_at descriptors.Field depth bytes.now)) }
{
    let fields = read_fields(alloc, bytes, Descriptor::Field, depth)?;
    field_in(alloc, &fields, bytes)
}

fn field_in(alloc: Global, fields: &Fields, bytes: &[u8]) -> Result<FieldDecl, NoMemory>
    requires read { AreRead fields.now bytes.now }
    requires descriptor { fields.now.descriptor ≡ descriptors.Field }
    ensures { IfOk result (λ field. field ≡ field_of (tree_read fields.now bytes.now)) }
{
    let name = fields.text_or_empty(alloc, bytes, 1)?;
    let type_name = fields.text(alloc, bytes, 6)?;
    let packed = is_packed(alloc, fields, bytes)?;
    Ok(FieldDecl {
        name,
        number: fields.number_or_zero(bytes, 3),
        label: fields.number_or_zero(bytes, 4),
        type_code: fields.number_or_zero(bytes, 5),
        type_name,
        oneof_index: fields.number(bytes, 9),
        optional: fields.flag_or_false(bytes, 17),
        packed,
    })
}

// Whether the options of a field leave it that a list of numbers is packed: the last option counts.
fn is_packed(alloc: Global, fields: &Fields, bytes: &[u8]) -> Result<bool, NoMemory>
    requires read { AreRead fields.now bytes.now }
    requires descriptor { fields.now.descriptor ≡ descriptors.Field }
    ensures { IfOk result (λ packed. packed ≡ packed_by (message_in descriptors.Field 8 (tree_read fields.now bytes.now))) }
{
    let subs = fields.messages(alloc, bytes, 8, Descriptor::FieldOptions)?;
    let packed = last_packed(alloc, bytes, &subs, fields.depth)?;
    Ok(or_true(packed))
}

fn or_true(flag: Option<bool>) -> bool
    ensures { result ≡ or_true flag }
{
    match flag {
        Some(flag) => flag,
        None => true,
    }
}

// The later of two flags that are there.
fn later(flag: Option<bool>, earlier: Option<bool>) -> Option<bool>
    ensures { result ≡ flag_or flag earlier }
{
    match flag {
        Some(flag) => Some(flag),
        None => earlier,
    }
}

// What the records of options say of it together: the last that says anything counts.
fn last_packed(
    alloc: Global,
    bytes: &[u8],
    subs: &[WireRecord],
    depth: u32,
) -> Result<Option<bool>, NoMemory>
    requires short { length bytes.now < 2 ^ 31 }
    requires subs { All (IsSub descriptors.FieldOptions depth bytes.now) subs.now }
    ensures { IfOk result (λ packed. packed ≡ options_flag depth bytes.now subs.now) }
{
    let mut packed = None;
    for sub in subs {
        let own = packed_in(alloc, payload_of(bytes, sub), depth + 1)?;
        packed = later(own, packed);
    }
    Ok(packed)
}

// What one record of options says of it.
fn packed_in(alloc: Global, bytes: &[u8], depth: u32) -> Result<Option<bool>, NoMemory>
    requires short { length bytes.now < 2 ^ 31 }
    requires depth { depth ≤ 100 }
    requires sound { IsSound descriptors.FieldOptions depth bytes.now }
    ensures { IfOk result (λ packed. packed ≡ flag_in descriptors.FieldOptions 2 (tree_at descriptors.FieldOptions depth bytes.now)) }
{
    let options = read_fields(alloc, bytes, Descriptor::FieldOptions, depth)?;
    Ok(options.flag(bytes, 2))
}

// The fields in these records of a message.
fn field_list(
    alloc: Global,
    bytes: &[u8],
    subs: &[WireRecord],
    depth: u32,
) -> Result<Items<FieldDecl>, NoMemory>
    requires short { length bytes.now < 2 ^ 31 }
    requires subs { All (IsSub descriptors.Field depth bytes.now) subs.now }
    ensures { IfOk result (λ list. list ≡ map (λ sub. field_of (sub_tree descriptors.Field depth bytes.now sub)) subs.now) }
{
    let mut list = Items::new(alloc);
    for sub in subs {
        list.push(read_field(alloc, payload_of(bytes, sub), depth + 1)?)?;
    }
    Ok(list)
}

// The full name of an enum behind this prefix.
fn read_enum(alloc: Global, bytes: &[u8], prefix: &str, depth: u32) -> Result<Text, NoMemory>
    requires short { length bytes.now < 2 ^ 31 }
    requires depth { depth ≤ 100 }
    requires sound { IsSound descriptors.Enumeration depth bytes.now }
    ensures { IfOk result (λ name. name ≡ enum_name prefix.now (tree_at descriptors.Enumeration depth bytes.now)) }
{
    let fields = read_fields(alloc, bytes, Descriptor::Enumeration, depth)?;
    let name = fields.text_or_empty(alloc, bytes, 1)?;
    Text::joined(alloc, prefix, name.as_str())
}

/// The full names of the enums in these records of a message or a file.
pub(crate) fn enum_list(
    alloc: Global,
    bytes: &[u8],
    subs: &[WireRecord],
    prefix: &str,
    depth: u32,
) -> Result<Items<Text>, NoMemory>
    requires short { length bytes.now < 2 ^ 31 }
    requires subs { All (IsSub descriptors.Enumeration depth bytes.now) subs.now }
    ensures { IfOk result (λ list. list ≡ map (λ sub. enum_name prefix.now (sub_tree descriptors.Enumeration depth bytes.now sub)) subs.now) }
{
    let mut list = Items::new(alloc);
    for sub in subs {
        list.push(read_enum(alloc, payload_of(bytes, sub), prefix, depth + 1)?)?;
    }
    Ok(list)
}

// A message by itself, with this full name, behind which stands a dot in the names of its enums.
fn read_one(
    alloc: Global,
    fields: &Fields,
    bytes: &[u8],
    name: Text,
    prefix: &str,
) -> Result<MessageDecl, NoMemory>
    requires read { AreRead fields.now bytes.now }
    requires descriptor { fields.now.descriptor ≡ descriptors.Message }
    requires prefix { prefix.now ≡ name_prefix name }
    ensures { IfOk result (λ decl. decl ≡ message_of name (tree_read fields.now bytes.now)) }
{
    let depth = fields.depth;
    let enums = fields.messages(alloc, bytes, 4, Descriptor::Enumeration)?;
    let list = fields.messages(alloc, bytes, 2, Descriptor::Field)?;
    let oneofs = fields.messages(alloc, bytes, 8, Descriptor::Oneof)?;
    Ok(MessageDecl {
        name,
        enums: enum_list(alloc, bytes, &enums, prefix, depth)?,
        fields: field_list(alloc, bytes, &list, depth)?,
        oneofs: oneofs.len(),
    })
}

// The full name of a message behind this prefix.
fn full_name(alloc: Global, fields: &Fields, bytes: &[u8], prefix: &str) -> Result<Text, NoMemory>
    requires read { AreRead fields.now bytes.now }
    requires descriptor { fields.now.descriptor ≡ descriptors.Message }
    ensures { IfOk result (λ name. name ≡ message_name prefix.now (tree_read fields.now bytes.now)) }
{
    let name = fields.text_or_empty(alloc, bytes, 1)?;
    Text::joined(alloc, prefix, name.as_str())
}

// What stands in front of the names in a message, and the records of those nested in it.
#[derive(Debug, Drop)]
struct Opened {
    prefix: Text,
    nested: Vec<WireRecord>,
}

// Adds a message by itself to a list.
fn open_message(
    alloc: Global,
    bytes: &[u8],
    prefix: &str,
    depth: u32,
    list: &mut Items<MessageDecl>,
) -> Result<Opened, NoMemory>
    requires short { length bytes.now < 2 ^ 31 }
    requires depth { depth ≤ 100 }
    requires sound { IsSound descriptors.Message depth bytes.now }
    ensures list { OnOk result (list.new ≡ list.old ++ message_of (message_name prefix.now (tree_at descriptors.Message depth bytes.now)) (tree_at descriptors.Message depth bytes.now) ∷ []) }
    ensures prefix { IfOk result (λ opened. opened.prefix ≡ name_prefix (message_name prefix.now (tree_at descriptors.Message depth bytes.now))) }
    ensures records { IfOk result (λ opened. map (record_at bytes.now) opened.nested.items ≡ filter (has_tag 3 2) (records_in (100 - depth) bytes.now)) }
    ensures subs { IfOk result (λ opened. All (IsSub descriptors.Message depth bytes.now) opened.nested.items) }
{
    let fields = read_fields(alloc, bytes, Descriptor::Message, depth)?;
    let name = full_name(alloc, &fields, bytes, prefix)?;
    let inner = Text::joined(alloc, name.as_str(), ".")?;
    let own = read_one(alloc, &fields, bytes, name, inner.as_str())?;
    list.push(own)?;
    let nested = fields.messages(alloc, bytes, 3, Descriptor::Message)?;
    Ok(Opened {
        prefix: inner,
        nested,
    })
}

/// Adds the messages in these records of a message or a file to a list, each before those nested in it. Their names
/// stand behind this prefix.
pub(crate) fn read_messages(
    alloc: Global,
    bytes: &[u8],
    subs: &[WireRecord],
    prefix: &str,
    depth: u32,
    list: &mut Items<MessageDecl>,
) -> Result<(), NoMemory>
    requires short { length bytes.now < 2 ^ 31 }
    requires subs { All (IsSub descriptors.Message depth bytes.now) subs.now }
    ensures { OnOk result (list.new ≡ list.old ++ flat_map (λ sub. messages_of prefix.now (sub_tree descriptors.Message depth bytes.now sub)) subs.now) }
{
    for sub in subs {
        let payload = payload_of(bytes, sub);
        let opened = open_message(alloc, payload, prefix, depth + 1, list)?;
        read_messages(
            alloc,
            payload,
            &opened.nested,
            opened.prefix.as_str(),
            depth + 1,
            list,
        )?;
    }
    Ok(())
}
