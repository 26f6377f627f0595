// The schema of a descriptor set.
ghost use Rattle.std.specs.Prelude.{◌≡◌, ◌≤◌, ◌^◌, IfOk, length};
ghost use Rattle.pb_schema.specs.Lawful.{Lawful};
ghost use Rattle.desc_pool.specs.Linked.{Answers, linked, linked_set};

use crate::fault::{ReadSetFault, SchemaFault};
use crate::file::FileDecl;
use crate::link::schema_of;
use crate::names::Names;
use crate::read::{FilesFault, read_files};
use crate::refusals::refusal;
use no_memory::NoMemory;
use pb_schema::Schema;
use std::alloc::Global;

/// There are fewer files, and fewer names, in any set within the limit.
const NAMES_END: usize = 1 << 32;

/// The schema that a descriptor set gives, as `protoc --include_imports --descriptor_set_out=FILE` writes it, or the
/// first refusal: all files are looked through for one kind of refusal before the next, in the order of
/// [`SchemaFault`]'s variants. The schema is lawful.
pub fn read_set(alloc: Global, bytes: &[u8]) -> Result<Schema, ReadSetFault>
    requires { length bytes.now ≤ 2 ^ 22 }
    ensures answer { Answers result (linked_set bytes.now) }
    ensures lawful { IfOk result Lawful }
{
    match read_files(alloc, bytes) {
        Ok(files) => link_files(alloc, files.as_slice()),
        Err(FilesFault::Bad(fault)) => {
            Err(ReadSetFault::Bad(SchemaFault::Malformed { byte: fault.byte }))
        }
        Err(FilesFault::NoMemory) => Err(ReadSetFault::NoMemory),
    }
}

fn link_files(alloc: Global, files: &[FileDecl]) -> Result<Schema, ReadSetFault>
    ensures answer { Answers result (linked files.now) }
    ensures lawful { IfOk result Lawful }
{
    match link(alloc, files) {
        Ok(Ok(schema)) => Ok(schema),
        Ok(Err(refused)) => Err(ReadSetFault::Bad(refused)),
        Err(NoMemory) => Err(ReadSetFault::NoMemory),
    }
}

fn link(alloc: Global, files: &[FileDecl]) -> Result<Result<Schema, SchemaFault>, NoMemory>
    ensures answer { IfOk result (λ answer. answer ≡ linked files.now) }
    ensures lawful { IfOk result (λ answer. IfOk answer Lawful) }
{
    let names = Names::of(alloc, files)?;
    if files.len() >= NAMES_END || names.list.as_slice().len() >= NAMES_END {
        return Err(NoMemory);
    }
    let refused = refusal(alloc, files, &names)?;
    match refused {
        Some(refused) => Ok(Err(refused)),
        None => {
            let schema = schema_of(alloc, &names, files)?;
            Ok(Ok(schema))
        }
    }
}
