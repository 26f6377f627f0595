// What a field may not be.
ghost use Rattle.std.specs.Prelude.{◌≡◌, ◌+◌, ◌<◌, ◌^◌, ◌==◌, ℕ, [], None, Some, false, IfOk, if◌then◌else◌, length, slice_index};
ghost use Rattle.desc_pool.specs.declared.file.MessageDecl.{MessageDecl};
ghost use Rattle.std.specs.Option.{option_map};
ghost use Rattle.desc_pool.specs.NameTables.{AreNames};
ghost use Rattle.desc_pool.specs.Rules.{CountsInside, CountsMembers, breaks, found_by, is_inside};
ghost use Rattle.desc_pool.specs.Refusals.{behind_dot, field_name, first_repeated, first_that, is_bad_member, is_badly_placed, is_relative, is_repeated, is_unknown, is_unsupported, target};

use crate::file::{FieldDecl, MessageDecl};
use crate::kinds::kind_by;
use crate::lists::Text;
use crate::names::Names;
use no_memory::NoMemory;
use std::alloc::Global;
use std::collections::BTreeMap;

/// The greatest number of a field.
const MOST_NUMBER: u32 = (1 << 29) - 1;

/// Types of descriptor.proto.
const MESSAGE: u32 = 11;

const ENUM: u32 = 14;

/// Labels of descriptor.proto.
const REQUIRED: u32 = 2;

const REPEATED: u32 = 3;

/// What a field by itself may not be.
#[derive(Clone, Copy, Debug, PartialEq, Eq)]
pub(crate) enum Rule {
    BadNumber,
    RelativeName,
    UnknownType,
    UnsupportedType,
}

/// What is looked for in the fields of each message.
#[derive(Clone, Copy, Debug, PartialEq, Eq)]
pub(crate) enum Search {
    Breaking(Rule),
    Repeated,
    BadlyPlaced,
}

/// The name of the field of a message that is found first.
pub(crate) fn search_message(
    alloc: Global,
    search: Search,
    names: &Names,
    message: &MessageDecl,
) -> Result<Option<Text>, NoMemory>
    requires { AreNames names.now }
    ensures { IfOk result (λ told. told ≡ option_map (field_name message.now) (found_by search names.now.list message.now)) }
{
    match search {
        Search::Breaking(rule) => first_breaking(alloc, rule, names, message),
        Search::Repeated => first_repeated(alloc, message),
        Search::BadlyPlaced => first_badly_placed(alloc, message),
    }
}

/// Whether a field is what it may not be.
fn breaks(rule: Rule, names: &Names, field: &FieldDecl) -> bool
    requires { AreNames names.now }
    ensures { result ≡ breaks rule names.now.list field.now }
{
    match rule {
        Rule::BadNumber => field.number == 0 || field.number > MOST_NUMBER,
        Rule::RelativeName => is_relative(field),
        Rule::UnknownType => is_unknown(names, field),
        Rule::UnsupportedType => is_unsupported(field),
    }
}

fn is_relative(field: &FieldDecl) -> bool
    ensures { result ≡ is_relative field.now }
{
    if field.type_code != MESSAGE && field.type_code != ENUM {
        return false;
    }
    match &field.type_name {
        Some(name) => !name.as_str().as_bytes().starts_with(b"."),
        None => true,
    }
}

/// The full name that a field names, without the dot in front.
pub(crate) fn target(field: &FieldDecl) -> &str
    ensures { result.now ≡ target field.now }
{
    match &field.type_name {
        Some(name) => behind_dot(name.as_str()),
        None => "",
    }
}

// What stands behind a dot in front.
fn behind_dot(name: &str) -> &str
    ensures { result.now ≡ behind_dot name.now }
{
    match name.strip_prefix(".") {
        Some(rest) => rest,
        None => "",
    }
}

fn is_unknown(names: &Names, field: &FieldDecl) -> bool
    requires { AreNames names.now }
    ensures { result ≡ is_unknown names.now.list field.now }
{
    (field.type_code == MESSAGE && names.place(target(field)).is_none())
        || (field.type_code == ENUM && !names.has_enum(target(field)))
}

fn is_unsupported(field: &FieldDecl) -> bool
    ensures { result ≡ is_unsupported field.now }
{
    kind_by(field.type_code, 0).is_none() || field.label == REQUIRED || field.label > REPEATED
}

/// Whether a field is a list.
pub(crate) fn is_repeated(field: &FieldDecl) -> bool
    ensures { result ≡ is_repeated field.now }
{
    field.label == REPEATED
}

fn field_name(alloc: Global, message: &MessageDecl, field: &FieldDecl) -> Result<Text, NoMemory>
    ensures { IfOk result (λ name. name ≡ field_name message.now field.now) }
{
    let front = Text::joined(alloc, message.name.as_str(), ".")?;
    Text::joined(alloc, front.as_str(), field.name.as_str())
}

// The name of the first field of a message that is what it may not be.
fn first_breaking(
    alloc: Global,
    rule: Rule,
    names: &Names,
    message: &MessageDecl,
) -> Result<Option<Text>, NoMemory>
    requires { AreNames names.now }
    ensures { IfOk result (λ told. told ≡ option_map (field_name message.now) (first_that (breaks rule names.now.list) message.now.fields)) }
{
    for field in message.fields.as_slice() {
        if breaks(rule, names, field) {
            let told = field_name(alloc, message, field)?;
            return Ok(Some(told));
        }
    }
    Ok(None)
}

// The name of the first field of a message that has the number of an earlier one.
fn first_repeated(alloc: Global, message: &MessageDecl) -> Result<Option<Text>, NoMemory>
    ensures { IfOk result (λ told. told ≡ option_map (field_name message.now) (first_repeated [] message.now.fields)) }
{
    let mut numbers = BTreeMap::new(alloc);
    for field in message.fields.as_slice() {
        let earlier = numbers.insert(field.number, true)?;
        if earlier.is_some() {
            let told = field_name(alloc, message, field)?;
            return Ok(Some(told));
        }
    }
    Ok(None)
}

// One more at a place, where there is one.
fn bump(counts: &mut [usize], place: usize)
    requires { (j : ℕ) → j < length counts.old → slice_index counts.old j < 2 ^ 63 }
    ensures size { length counts.new ≡ length counts.old }
    ensures counts { (j : ℕ) → j < length counts.old → slice_index counts.new j ≡ slice_index counts.old j + (if place == j then 1 else 0) }
{
    if place < counts.len() {
        counts[place] += 1;
    }
}

// The oneof of a field, where fields count, or optional ones alone.
fn oneof_of(field: &FieldDecl, optional_alone: bool) -> Option<u32>
    ensures { (oneof : ℕ) → is_inside optional_alone oneof field.now ≡ (elim result [ Some index ↦ index == oneof | None ↦ false ]) }
{
    if optional_alone && !field.optional {
        return None;
    }
    field.oneof_index
}

/// How many fields of a message, or optional ones alone, are in each of its oneofs.
pub(crate) fn count_members(
    alloc: Global,
    message: &MessageDecl,
    optional_alone: bool,
) -> Result<Vec<usize>, NoMemory>
    ensures { IfOk result (λ counts. CountsInside optional_alone message.now counts.items) }
{
    let mut counts = vec![in alloc; 0usize; message.oneofs]?;
    for field in message.fields.as_slice() {
        let Some(oneof) = oneof_of(field, optional_alone) else {
            continue;
        };
        bump(&mut counts, oneof as usize);
    }
    Ok(counts)
}

fn is_badly_placed(counts: &[usize], field: &FieldDecl) -> bool
    ensures { (message : MessageDecl) → CountsMembers message counts.now → result ≡ is_badly_placed message field.now }
{
    match field.oneof_index {
        Some(oneof) => is_bad_member(counts, oneof as usize, field),
        None => field.optional,
    }
}

// Whether a field that names this oneof is wrong there.
fn is_bad_member(counts: &[usize], oneof: usize, field: &FieldDecl) -> bool
    ensures { (message : MessageDecl) → CountsMembers message counts.now → result ≡ is_bad_member message field.now oneof }
{
    if oneof >= counts.len() {
        return true;
    }
    if is_repeated(field) {
        return true;
    }
    field.optional && counts[oneof] > 1
}

// The name of the first field of a message that is wrong in its oneof.
fn first_badly_placed(alloc: Global, message: &MessageDecl) -> Result<Option<Text>, NoMemory>
    ensures { IfOk result (λ told. told ≡ option_map (field_name message.now) (first_that (is_badly_placed message.now) message.now.fields)) }
{
    let counts = count_members(alloc, message, false)?;
    for field in message.fields.as_slice() {
        if is_badly_placed(&counts, field) {
            let told = field_name(alloc, message, field)?;
            return Ok(Some(told));
        }
    }
    Ok(None)
}
