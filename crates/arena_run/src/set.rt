// The types of a run: those that are built in, or those of a descriptor set in a file.
ghost use Rattle.std.specs.Prelude.{◌≡◌, ◌⊎◌, ◌^◌, ◌≤◌, false, length, IfOk, IfErr, IfSome};
ghost use Rattle.arena_mem.specs.Outside.{content_of};
ghost use Rattle.pb_schema.specs.Builtin.{builtin};
ghost use Rattle.pb_schema.specs.Lawful.{Lawful};
ghost use Rattle.arena_run.specs.Causes.{ReadsFile, ReadsSet};
ghost use Rattle.arena_run.specs.Ends.{IsLimited, Gives, IsOfSet, result_fault};
ghost use Rattle.arena_run.specs.Sets.{is_built_in, set_answer, set_given};

use crate::fault::{Fault, InputKind};
use crate::input::read_input;
use arena_mem::Files;
use desc_pool::{ReadSetFault, read_set};
use msg_layout::layouts;
use msg_layout::tables::Layouts;
use pb_schema::{Schema, builtin};
use std::alloc::Global;

/// How many bytes a descriptor set may have.
const SET_BYTES_LIMIT: u32 = 4194304;

/// The layouts of the types of a set: `builtin`, or the name of a file.
pub fn read_types<F: Files>(alloc: Global, set: &str, files: &mut F) -> Result<Layouts, Fault>
    ensures reads { ReadsSet F.contents F.faults F.blamed set.now files.old files.new (result_fault result) }
    ensures gives { IfSome (set_given (F.contents files.old) set.now) (λ answer. Gives answer result) }
    ensures kind { IfErr result IsOfSet }
    ensures limits { IfErr result IsLimited }
    ensures lawful { IfOk result Lawful }
{
    let schema = read_schema(alloc, set, files)?;
    match layouts(alloc, schema) {
        Ok(types) => Ok(types),
        Err(_) => Err(Fault::NoMemory),
    }
}

// The schema of a set.
fn read_schema<F: Files>(alloc: Global, set: &str, files: &mut F) -> Result<Schema, Fault>
    ensures reads { ReadsSet F.contents F.faults F.blamed set.now files.old files.new (result_fault result) }
    ensures gives { IfSome (set_given (F.contents files.old) set.now) (λ answer. Gives answer result) }
    ensures kind { IfErr result IsOfSet }
    ensures limits { IfErr result IsLimited }
    ensures lawful { IfOk result Lawful }
{
    if set == "builtin" {
        match builtin(alloc) {
            Ok(schema) => Ok(schema),
            Err(_) => Err(Fault::NoMemory),
        }
    } else {
        read_set_file(alloc, set, files)
    }
}

// The schema of the descriptor set in the file of that name.
fn read_set_file<F: Files>(alloc: Global, name: &str, files: &mut F) -> Result<Schema, Fault>
    ensures reads { ReadsFile F.contents F.faults F.blamed name.now files.old files.new (result_fault result) }
    ensures gives { IfSome (content_of (F.contents files.old) name.now) (λ content. Gives (set_answer content) result) }
    ensures kind { IfErr result IsOfSet }
    ensures limits { IfErr result IsLimited }
    ensures lawful { IfOk result Lawful }
{
    let Ok(name) = String::from_str(alloc, name) else {
        return Err(Fault::NoMemory);
    };
    let bytes = read_input(alloc, files, name, InputKind::SetBytes, SET_BYTES_LIMIT)?;
    link_set(alloc, &bytes)
}

// The schema of a descriptor set.
fn link_set(alloc: Global, bytes: &[u8]) -> Result<Schema, Fault>
    requires { length bytes.now ≤ 2 ^ 22 }
    ensures gives { Gives (set_answer bytes.now) result }
    ensures kind { IfErr result IsOfSet }
    ensures limits { IfErr result IsLimited }
    ensures past { IfErr result (λ fault. fault ≡ Fault.ReadFault → ⊥) }
    ensures lawful { IfOk result Lawful }
{
    match read_set(alloc, bytes) {
        Ok(schema) => Ok(schema),
        Err(ReadSetFault::Bad(refused)) => Err(Fault::Schema(refused)),
        Err(ReadSetFault::NoMemory) => Err(Fault::NoMemory),
    }
}
