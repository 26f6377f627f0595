// The files of a set.
ghost use Rattle.std.specs.Prelude.{◌≡◌, ◌^◌, ◌+◌, ◌<◌, ◌≤◌, All, IfOk, IfErr, None, Some, codes, length, map};
ghost use Rattle.std.specs.Str.{bytes_eq};
ghost use Rattle.desc_pool.specs.declared.descriptor.Descriptor.TheVariants as descriptors;
ghost use Rattle.std.specs.Option.{option_map};
ghost use Rattle.pb_schema.specs.Fault.{fault_of};
ghost use Rattle.pb_schema.specs.TreeOf.{tree_of};
ghost use Rattle.desc_pool.specs.Descriptors.{descriptor_schema};
ghost use Rattle.desc_pool.specs.FilesFaults.{IsFaultOf};
ghost use Rattle.desc_pool.specs.Files.{file_of, files_of, package_prefix};
ghost use Rattle.desc_pool.specs.Payloads.{AreRead, IsSound, IsSub, sub_tree, tree_at, tree_read};

use crate::check::set_fault;
use crate::descriptor::Descriptor;
use crate::fields::{Fields, read_fields};
use crate::file::FileDecl;
use crate::lists::{Items, Text};
use crate::message::{enum_list, read_messages};
use crate::payload::payload_of;
use no_memory::NoMemory;
use pb_wire::{WireFault, WireRecord};
use std::alloc::Global;

// A file, by its numbers in FileDescriptorProto.
fn read_file(alloc: Global, bytes: &[u8], depth: u32) -> Result<FileDecl, NoMemory>
    requires short { length bytes.now < 2 ^ 31 }
    requires depth { depth ≤ 100 }
    requires sound { IsSound descriptors.File depth bytes.now }
    ensures { IfOk result (λ file. file ≡ file_of (tree_at descriptors.File depth bytes.now)) }
{
    let fields = read_fields(alloc, bytes, Descriptor::File, depth)?;
    file_in(alloc, &fields, bytes)
}

fn file_in(alloc: Global, fields: &Fields, bytes: &[u8]) -> Result<FileDecl, NoMemory>
    requires read { AreRead fields.now bytes.now }
    requires descriptor { fields.now.descriptor ≡ descriptors.File }
    ensures { IfOk result (λ file. file ≡ file_of (tree_read fields.now bytes.now)) }
{
    let depth = fields.depth;
    let package = fields.text_or_empty(alloc, bytes, 2)?;
    let prefix = package_prefix(alloc, package.as_str())?;
    let enums = fields.messages(alloc, bytes, 5, Descriptor::Enumeration)?;
    let subs = fields.messages(alloc, bytes, 4, Descriptor::Message)?;
    let syntax = fields.text_or_empty(alloc, bytes, 12)?;
    let mut messages = Items::new(alloc);
    read_messages(alloc, bytes, &subs, prefix.as_str(), depth, &mut messages)?;
    let enum_names = enum_list(alloc, bytes, &enums, prefix.as_str(), depth)?;
    Ok(FileDecl {
        is_proto3: is_proto3(syntax.as_str()),
        enums: enum_names,
        messages,
    })
}

fn is_proto3(syntax: &str) -> bool
    ensures { result ≡ bytes_eq syntax.now (codes "proto3") }
{
    syntax == "proto3"
}

// The files in these records of a set.
fn file_list(
    alloc: Global,
    bytes: &[u8],
    subs: &[WireRecord],
    depth: u32,
) -> Result<Items<FileDecl>, NoMemory>
    requires short { length bytes.now < 2 ^ 31 }
    requires subs { All (IsSub descriptors.File depth bytes.now) subs.now }
    ensures { IfOk result (λ list. list ≡ map (λ sub. file_of (sub_tree descriptors.File depth bytes.now sub)) subs.now) }
{
    let mut list = Items::new(alloc);
    for sub in subs {
        list.push(read_file(alloc, payload_of(bytes, sub), depth + 1)?)?;
    }
    Ok(list)
}

// What stands in front of the names in a package: its name and a dot, and nothing where it has no name.
fn package_prefix(alloc: Global, name: &str) -> Result<Text, NoMemory>
    ensures { IfOk result (λ prefix. prefix ≡ package_prefix name.now) }
{
    if name.is_empty() {
        return Text::joined(alloc, "", "");
    }
    Text::joined(alloc, name, ".")
}

fn files_in(alloc: Global, fields: &Fields, bytes: &[u8]) -> Result<Items<FileDecl>, NoMemory>
    requires read { AreRead fields.now bytes.now }
    requires descriptor { fields.now.descriptor ≡ descriptors.Set }
    ensures { IfOk result (λ files. files ≡ files_of (tree_read fields.now bytes.now)) }
{
    let subs = fields.messages(alloc, bytes, 1, Descriptor::File)?;
    let files = file_list(alloc, bytes, &subs, fields.depth)?;
    Ok(files)
}

/// Why a set has no files: its first fault, or want of memory.
#[derive(Debug, Drop)]
pub(crate) enum FilesFault {
    Bad(WireFault),
    NoMemory,
}

/// The files of a set, in their order, or its first fault. Each text has to be UTF-8, also one that a later record
/// overrides.
pub(crate) fn read_files(alloc: Global, bytes: &[u8]) -> Result<Items<FileDecl>, FilesFault>
    requires { length bytes.now < 2 ^ 31 }
    ensures files { IfOk result (λ files. option_map files_of (tree_of descriptor_schema 0 bytes.now) ≡ Some files) }
    ensures fault { IfErr result (IsFaultOf bytes.now) }
{
    if let Some(fault) = set_fault(bytes) {
        return Err(FilesFault::Bad(fault));
    }
    match sound_files(alloc, bytes) {
        Ok(files) => Ok(files),
        Err(NoMemory) => Err(FilesFault::NoMemory),
    }
}

// The files of a set without a fault.
fn sound_files(alloc: Global, bytes: &[u8]) -> Result<Items<FileDecl>, NoMemory>
    requires short { length bytes.now < 2 ^ 31 }
    requires sound { fault_of descriptor_schema 0 0 bytes.now ≡ None }
    ensures { IfOk result (λ files. option_map files_of (tree_of descriptor_schema 0 bytes.now) ≡ Some files) }
{
    let fields = read_fields(alloc, bytes, Descriptor::Set, 0)?;
    let files = files_in(alloc, &fields, bytes)?;
    Ok(files)
}
