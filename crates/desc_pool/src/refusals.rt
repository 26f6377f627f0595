// The first refusal of the files of a set.
ghost use Rattle.std.specs.Prelude.{◌≡◌, ◌<◌, ◌^◌, IfOk, IfSome, length, nat_lt};
ghost use Rattle.std.specs.Option.{option_map};
ghost use Rattle.desc_pool.specs.Refusals.{all_messages, field_name, first_field, first_some, first_that, refusal, syntax, too_many};
ghost use Rattle.pb_schema.specs.Lawful.{most_fields, most_types};
ghost use Rattle.desc_pool.specs.Names.{names_of};
ghost use Rattle.desc_pool.specs.NameTables.{AreNames};
ghost use Rattle.desc_pool.specs.Rules.{found_by};

use crate::fault::SchemaFault;
use crate::file::{FileDecl, MessageDecl};
use crate::lists::Text;
use crate::names::Names;
use crate::rules::{Rule, Search, search_message};
use no_memory::NoMemory;
use pb_schema::Name;
use std::alloc::Global;

/// A schema has at most so many messages, and a message so many fields.
const MOST_MESSAGES: usize = 4096;

const MOST_FIELDS: usize = 512;

fn search_messages(
    alloc: Global,
    search: Search,
    names: &Names,
    messages: &[MessageDecl],
) -> Result<Option<Text>, NoMemory>
    requires { AreNames names.now }
    ensures { IfOk result (λ told. told ≡ first_some (λ message. option_map (field_name message) (found_by search names.now.list message)) messages.now) }
{
    for message in messages {
        if let Some(told) = search_message(alloc, search, names, message)? {
            return Ok(Some(told));
        }
    }
    Ok(None)
}

// The name of the first field that is found.
fn search_files(
    alloc: Global,
    search: Search,
    names: &Names,
    files: &[FileDecl],
) -> Result<Option<Name>, NoMemory>
    requires { AreNames names.now }
    ensures { IfOk result (λ told. told ≡ first_field (found_by search names.now.list) files.now) }
{
    for file in files {
        if let Some(told) = search_messages(alloc, search, names, file.messages.as_slice())? {
            let name = Name::of(alloc, told.as_str())?;
            return Ok(Some(name));
        }
    }
    Ok(None)
}

// The place of the first file that isn't of proto3.
fn bad_syntax(files: &[FileDecl]) -> Option<usize>
    ensures place { result ≡ syntax files.now }
    ensures within { IfSome result (λ place. place < length files.now) }
{
    for i in 0..files.len() {
        if !files[i].is_proto3 {
            return Some(i);
        }
    }
    None
}

// Whether there are more messages than a schema may have.
fn has_too_many(files: &[FileDecl]) -> bool
    ensures { result ≡ nat_lt most_types (length (all_messages files.now)) }
{
    let mut room = MOST_MESSAGES;
    for file in files {
        let count = file.messages.as_slice().len();
        if count > room {
            return true;
        }
        room -= count;
    }
    false
}

// The name of the first message that has more fields than one may have.
fn first_wide(alloc: Global, messages: &[MessageDecl]) -> Result<Option<Name>, NoMemory>
    ensures { IfOk result (λ told. told ≡ option_map (λ message. message.name) (first_that (λ message. nat_lt most_fields (length message.fields)) messages.now)) }
{
    for message in messages {
        if message.fields.as_slice().len() > MOST_FIELDS {
            let name = Name::of(alloc, message.name.as_str())?;
            return Ok(Some(name));
        }
    }
    Ok(None)
}

// What there is too much of: the empty name for messages, else the first message with too many fields.
fn too_many(alloc: Global, files: &[FileDecl]) -> Result<Option<Name>, NoMemory>
    ensures { IfOk result (λ told. told ≡ too_many files.now) }
{
    if has_too_many(files) {
        let name = Name::of(alloc, "")?;
        return Ok(Some(name));
    }
    wide_in(alloc, files)
}

fn wide_in(alloc: Global, files: &[FileDecl]) -> Result<Option<Name>, NoMemory>
    ensures { IfOk result (λ told. told ≡ first_some (λ file. option_map (λ message. message.name) (first_that (λ message. nat_lt most_fields (length message.fields)) file.messages)) files.now) }
{
    for file in files {
        if let Some(name) = first_wide(alloc, file.messages.as_slice())? {
            return Ok(Some(name));
        }
    }
    Ok(None)
}

/// The first refusal, each of its kind for all files before the next.
pub(crate) fn refusal(
    alloc: Global,
    files: &[FileDecl],
    names: &Names,
) -> Result<Option<SchemaFault>, NoMemory>
    requires few { length files.now < 2 ^ 32 }
    requires list { names.now.list ≡ names_of files.now }
    requires tables { AreNames names.now }
    ensures { IfOk result (λ told. told ≡ refusal files.now) }
{
    if let Some(file) = bad_syntax(files) {
        return Ok(Some(SchemaFault::Syntax { file: file as u32 }));
    }
    if let Some(told) = names.duplicate(alloc)? {
        let name = Name::of(alloc, told.as_str())?;
        return Ok(Some(SchemaFault::DuplicateName { name }));
    }
    if let Some(name) = search_files(alloc, Search::Breaking(Rule::BadNumber), names, files)? {
        return Ok(Some(SchemaFault::BadNumber { name }));
    }
    if let Some(name) = search_files(alloc, Search::Repeated, names, files)? {
        return Ok(Some(SchemaFault::DuplicateNumber { name }));
    }
    if let Some(name) = search_files(alloc, Search::Breaking(Rule::RelativeName), names, files)? {
        return Ok(Some(SchemaFault::RelativeName { name }));
    }
    if let Some(name) = search_files(alloc, Search::Breaking(Rule::UnknownType), names, files)? {
        return Ok(Some(SchemaFault::UnknownType { name }));
    }
    if let Some(name) = search_files(alloc, Search::BadlyPlaced, names, files)? {
        return Ok(Some(SchemaFault::BadOneof { name }));
    }
    if let Some(name) = search_files(
        alloc,
        Search::Breaking(Rule::UnsupportedType),
        names,
        files,
    )? {
        return Ok(Some(SchemaFault::UnsupportedType { name }));
    }
    let wide = too_many(alloc, files)?;
    match wide {
        Some(name) => Ok(Some(SchemaFault::TooMany { name })),
        None => Ok(None),
    }
}
