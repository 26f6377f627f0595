// The schema of files that aren't refused.
ghost use Rattle.std.specs.Prelude.{◌≡◌, ◌+◌, ◌<◌, ◌≤◌, ◌^◌, ◌==◌, ◌++◌, IfOk, OnOk, if◌then◌else◌, length, map, All};
ghost use Rattle.pb_schema.specs.declared.schema.MessageType.{MessageType};
ghost use Rattle.pb_schema.specs.Lawful.{most_oneofs};
ghost use Rattle.desc_pool.specs.declared.file.MessageDecl.{MessageDecl};
ghost use Rattle.desc_pool.specs.Names.{names_of, place_of};
ghost use Rattle.desc_pool.specs.NameTables.{AreNames};
ghost use Rattle.desc_pool.specs.Linked.{by_number, card_of, field_type, is_message, kind_of, message_type, or_first, real_below, schema_of, single_card};
ghost use Rattle.desc_pool.specs.LinkTables.{CountsReal};

use crate::file::{FieldDecl, FileDecl, MessageDecl};
use crate::kinds::{is_number, kind_by};
use crate::names::Names;
use crate::rules::{count_members, is_repeated, target};
use no_memory::NoMemory;
use pb_schema::{Card, FieldList, FieldType, Kind, MessageType, Name, Schema, TypeList};
use std::alloc::Global;
use std::collections::BTreeMap;

/// No set within the limit declares more oneofs in a message.
const MOST_ONEOFS: usize = 1 << 22;

// A oneof counts as real where no optional field has it for itself.
fn real_one(optional: usize) -> u32
    ensures { result ≡ (if optional == 0 then 1 else 0) }
{
    if optional == 0 { 1 } else { 0 }
}

// How many real oneofs stand in front of each oneof of a message, and at the end how many there are.
fn real_before(alloc: Global, message: &MessageDecl) -> Result<Vec<u32>, NoMemory>
    ensures counts { IfOk result (λ before. CountsReal message.now before.items) }
    ensures few { IfOk result (λ before. message.now.oneofs ≤ 2 ^ 22) }
{
    if message.oneofs > MOST_ONEOFS {
        return Err(NoMemory);
    }
    let optional = count_members(alloc, message, true)?;
    let marks = optional.as_slice();
    let mut before = vec![in alloc; 0u32]?;
    let mut count = 0u32;
    for i in 0..message.oneofs {
        count += real_one(marks[i]);
        before.push(count)?;
    }
    Ok(before)
}

fn real_at(before: &[u32], oneof: usize) -> u32
    requires { 0 < length before.now }
    ensures { (message : MessageDecl) → CountsReal message before.now → result ≡ real_below message oneof }
{
    if oneof < before.len() {
        return before[oneof];
    }
    before[before.len() - 1]
}

fn place_or_first(names: &Names, name: &str) -> u32
    requires names { AreNames names.now }
    requires few { length names.now.list < 2 ^ 32 }
    ensures { result ≡ or_first (place_of names.now.list name.now) }
{
    match names.place(name) {
        Some(place) => place as u32,
        None => 0,
    }
}

fn kind_of(names: &Names, field: &FieldDecl) -> Kind
    requires names { AreNames names.now }
    requires few { length names.now.list < 2 ^ 32 }
    ensures { result ≡ kind_of names.now.list field.now }
{
    let place = place_or_first(names, target(field));
    match kind_by(field.type_code, place) {
        Some(kind) => kind,
        None => Kind::Double,
    }
}

fn is_message(kind: Kind) -> bool
    ensures { result ≡ is_message kind }
{
    match kind {
        Kind::Message(_) => true,
        _ => false,
    }
}

fn single_card(before: &[u32], kind: Kind, field: &FieldDecl) -> Card
    requires { 0 < length before.now }
    ensures { (message : MessageDecl) → CountsReal message before.now → result ≡ single_card message kind field.now }
{
    if field.optional {
        return Card::Explicit;
    }
    match field.oneof_index {
        Some(oneof) => Card::Member(real_at(before, oneof as usize)),
        None => {
            if is_message(kind) {
                Card::Explicit
            } else {
                Card::Implicit
            }
        }
    }
}

fn card_of(before: &[u32], kind: Kind, field: &FieldDecl) -> Card
    requires { 0 < length before.now }
    ensures { (message : MessageDecl) → CountsReal message before.now → result ≡ card_of message kind field.now }
{
    if is_repeated(field) {
        return Card::Repeated {
            packed: field.packed && is_number(kind),
        };
    }
    single_card(before, kind, field)
}

fn field_type(names: &Names, before: &[u32], field: &FieldDecl) -> FieldType
    requires names { AreNames names.now }
    requires few { length names.now.list < 2 ^ 32 }
    requires before { 0 < length before.now }
    ensures { (message : MessageDecl) → CountsReal message before.now → result ≡ field_type names.now.list message field.now }
{
    let kind = kind_of(names, field);
    FieldType {
        number: field.number,
        kind,
        card: card_of(before, kind, field),
    }
}

// The fields of a message by ascending number.
fn fields_of(
    alloc: Global,
    names: &Names,
    before: &[u32],
    message: &MessageDecl,
) -> Result<FieldList, NoMemory>
    requires names { AreNames names.now }
    requires few { length names.now.list < 2 ^ 32 }
    requires before { CountsReal message.now before.now }
    ensures { IfOk result (λ fields. fields ≡ map (λ entry. entry.1) (by_number (map (field_type names.now.list message.now) message.now.fields))) }
{
    let mut sorted = BTreeMap::new(alloc);
    for field in message.fields.as_slice() {
        let ty = field_type(names, before, field);
        sorted.insert(field.number, ty)?;
    }
    let list: Vec<FieldType> = sorted.into_values().collect(alloc)?;
    Ok(FieldList::of(list))
}

fn message_type(
    alloc: Global,
    names: &Names,
    message: &MessageDecl,
) -> Result<MessageType, NoMemory>
    requires names { AreNames names.now }
    requires few { length names.now.list < 2 ^ 32 }
    ensures value { IfOk result (λ ty. ty ≡ message_type names.now.list message.now) }
    ensures few { IfOk result (λ ty. ty.oneofs ≤ most_oneofs) }
{
    let before = real_before(alloc, message)?;
    let name = Name::of(alloc, message.name.as_str())?;
    let fields = fields_of(alloc, names, &before, message)?;
    let oneofs = before[message.oneofs];
    Ok(MessageType {
        name,
        fields,
        oneofs,
    })
}

// Adds the types of messages to a list.
fn push_types(
    alloc: Global,
    names: &Names,
    messages: &[MessageDecl],
    types: &mut Vec<MessageType>,
) -> Result<(), NoMemory>
    requires names { AreNames names.now }
    requires few { length names.now.list < 2 ^ 32 }
    requires few_oneofs { All (λ (type : MessageType). type.oneofs ≤ most_oneofs) types.old.items }
    ensures types { OnOk result (types.new.items ≡ types.old.items ++ map (message_type names.now.list) messages.now) }
    ensures few_oneofs { OnOk result (All (λ (type : MessageType). type.oneofs ≤ most_oneofs) types.new.items) }
{
    for message in messages {
        let ty = message_type(alloc, names, message)?;
        types.push(ty)?;
    }
    Ok(())
}

/// The schema of these files.
pub(crate) fn schema_of(
    alloc: Global,
    names: &Names,
    files: &[FileDecl],
) -> Result<Schema, NoMemory>
    requires names { AreNames names.now }
    requires list { names.now.list ≡ names_of files.now }
    requires few { length names.now.list < 2 ^ 32 }
    ensures value { IfOk result (λ schema. schema ≡ schema_of files.now) }
    ensures few_oneofs { IfOk result (λ schema. All (λ (type : MessageType). type.oneofs ≤ most_oneofs) schema.types) }
{
    let mut types = Vec::new(alloc);
    for file in files {
        push_types(alloc, names, file.messages.as_slice(), &mut types)?;
    }
    Ok(Schema {
        types: TypeList::of(types),
    })
}
