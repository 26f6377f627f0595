// The full names that a set declares, and what they name.
ghost use Rattle.std.specs.Prelude.{◌≡◌, ◌++◌, ◌∷◌, [], ℕ, List, ◌<◌, None, Some, IfOk, IfSome, OnOk, flat_map, length, map, nat_lt, if◌then◌else◌};
ghost use Rattle.std.specs.Option.{is_some, option_map, unwrap_or};
ghost use Rattle.std.specs.Str.{bytes_eq};
ghost use Rattle.std.specs.BTreeMap.{get_by_text};
ghost use Rattle.desc_pool.specs.Names.{enum_decl, message_decl, file_decl, names_of, times, is_enum, place_of};
ghost use Rattle.desc_pool.specs.NameTables.{AreNames};
ghost use Rattle.desc_pool.specs.Refusals.{first_that};

use crate::file::{FileDecl, MessageDecl};
use crate::lists::{Items, Text};
use no_memory::NoMemory;
use std::alloc::Global;
use std::collections::BTreeMap;

/// The full name of a message or an enum.
#[derive(Debug, Drop)]
pub(crate) struct NameDecl {
    pub name: Text,
    pub is_message: bool,
}

fn push_name(
    alloc: Global,
    list: &mut Items<NameDecl>,
    name: &str,
    is_message: bool,
) -> Result<(), NoMemory>
    ensures { OnOk result (list.new ≡ list.old ++ record { name = name.now; is_message = is_message } ∷ []) }
{
    let name = Text::joined(alloc, name, "")?;
    list.push(NameDecl { name, is_message })
}

fn push_enums(alloc: Global, list: &mut Items<NameDecl>, names: &[Text]) -> Result<(), NoMemory>
    ensures { OnOk result (list.new ≡ list.old ++ map enum_decl names.now) }
{
    for name in names {
        push_name(alloc, list, name.as_str(), false)?;
    }
    Ok(())
}

fn push_messages(
    alloc: Global,
    list: &mut Items<NameDecl>,
    messages: &[MessageDecl],
) -> Result<(), NoMemory>
    ensures { OnOk result (list.new ≡ list.old ++ flat_map message_decl messages.now) }
{
    for message in messages {
        push_name(alloc, list, message.name.as_str(), true)?;
        push_enums(alloc, list, message.enums.as_slice())?;
    }
    Ok(())
}

// The full names of all messages and enums, in the order in which they are looked at.
fn names_of(alloc: Global, files: &[FileDecl]) -> Result<Items<NameDecl>, NoMemory>
    ensures { IfOk result (λ names. names ≡ names_of files.now) }
{
    let mut list = Items::new(alloc);
    for file in files {
        push_enums(alloc, &mut list, file.enums.as_slice())?;
        push_messages(alloc, &mut list, file.messages.as_slice())?;
    }
    Ok(list)
}

// A number for each name.
fn put(
    alloc: Global,
    table: &mut BTreeMap<String, u64>,
    name: &str,
    value: u64,
) -> Result<(), NoMemory>
    ensures { OnOk result ((q : List ℕ) → get_by_text table.new q ≡ (if bytes_eq name.now q then Some value else get_by_text table.old q)) }
{
    let key = String::from_str(alloc, name)?;
    table.insert(key, value)?;
    Ok(())
}

fn find(table: &BTreeMap<String, u64>, name: &str) -> Option<u64>
    ensures { result ≡ get_by_text table.now name.now }
{
    table.get(name).copied()
}

fn count_of(table: &BTreeMap<String, u64>, name: &str) -> u64
    ensures { result ≡ unwrap_or (get_by_text table.now name.now) 0 }
{
    find(table, name).unwrap_or(0)
}

// How often each name stands.
fn count_names(alloc: Global, names: &[NameDecl]) -> Result<BTreeMap<String, u64>, NoMemory>
    ensures { IfOk result (λ counts. (q : List ℕ) → unwrap_or (get_by_text counts q) 0 ≡ times q names.now) }
{
    let mut counts = BTreeMap::new(alloc);
    for decl in names {
        let count = count_of(&counts, decl.name.as_str());
        put(alloc, &mut counts, decl.name.as_str(), count + 1)?;
    }
    Ok(counts)
}

// The places of messages among all messages, by their full names.
fn places_of(alloc: Global, names: &[NameDecl]) -> Result<BTreeMap<String, u64>, NoMemory>
    ensures { IfOk result (λ places. (q : List ℕ) → get_by_text places q ≡ place_of names.now q) }
{
    let mut places = BTreeMap::new(alloc);
    let mut place = 0;
    for decl in names {
        if !decl.is_message {
            continue;
        }
        put(alloc, &mut places, decl.name.as_str(), place)?;
        place += 1;
    }
    Ok(places)
}

// A number for each enum, by its full name.
fn enums_of(alloc: Global, names: &[NameDecl]) -> Result<BTreeMap<String, u64>, NoMemory>
    ensures { IfOk result (λ enums. (q : List ℕ) → is_some (get_by_text enums q) ≡ is_enum names.now q) }
{
    let mut enums = BTreeMap::new(alloc);
    for decl in names {
        if decl.is_message {
            continue;
        }
        put(alloc, &mut enums, decl.name.as_str(), 1)?;
    }
    Ok(enums)
}

/// The full names that a set declares, in the order in which they are looked at, with tables of messages, by their places
/// among all messages, and of enums.
#[derive(Debug, Drop)]
pub(crate) struct Names {
    pub list: Items<NameDecl>,
    pub places: BTreeMap<String, u64>,
    pub enums: BTreeMap<String, u64>,
}

impl Names {
    pub(crate) fn of(alloc: Global, files: &[FileDecl]) -> Result<Names, NoMemory>
        ensures list { IfOk result (λ names. names.list ≡ names_of files.now) }
        ensures tables { IfOk result AreNames }
    {
        let list = names_of(alloc, files)?;
        let places = places_of(alloc, list.as_slice())?;
        let enums = enums_of(alloc, list.as_slice())?;
        Ok(Names {
            list,
            places,
            enums,
        })
    }

    /// The place of the message with this full name among all messages.
    pub(crate) fn place(&self, name: &str) -> Option<u64>
        requires { AreNames self.now }
        ensures place { result ≡ place_of self.now.list name.now }
        ensures within { IfSome result (λ place. place < length self.now.list) }
    {
        find(&self.places, name)
    }

    /// Whether there is an enum with this full name.
    pub(crate) fn has_enum(&self, name: &str) -> bool
        requires { AreNames self.now }
        ensures { result ≡ is_enum self.now.list name.now }
    {
        find(&self.enums, name).is_some()
    }

    /// The first name that stands more than once.
    pub(crate) fn duplicate(&self, alloc: Global) -> Result<Option<Text>, NoMemory>
        ensures { IfOk result (λ told. told ≡ option_map (λ decl. decl.name) (first_that (λ decl. nat_lt 1 (times decl.name self.now.list)) self.now.list)) }
    {
        duplicate_of(alloc, self.list.as_slice())
    }
}

fn duplicate_of(alloc: Global, names: &[NameDecl]) -> Result<Option<Text>, NoMemory>
    ensures { IfOk result (λ told. told ≡ option_map (λ decl. decl.name) (first_that (λ decl. nat_lt 1 (times decl.name names.now)) names.now)) }
{
    let counts = count_names(alloc, names)?;
    for decl in names {
        if count_of(&counts, decl.name.as_str()) > 1 {
            let told = Text::joined(alloc, decl.name.as_str(), "")?;
            return Ok(Some(told));
        }
    }
    Ok(None)
}
