// What the words of a command give: the types, the number of the type, the frames, and how many workers there are to be.
ghost use Rattle.std.specs.Prelude.{◌≡◌, ◌⊎◌, IfOk, IfErr, map, Some};
ghost use Rattle.std.specs.String.{string_bytes};
ghost use Rattle.arena_run.specs.Causes.{EndsByWords, EndsByFile};
ghost use Rattle.arena_run.specs.Ends.{IsLimited, IsUnplaced, IsUnparsed};
ghost use Rattle.arena_run.specs.Inputs.{HasRead};
ghost use Rattle.arena_run.specs.Words.{HasNoType, IsTypeOf};

use crate::fault::Fault;
use crate::input::read_frames_file;
use crate::set::read_types;
use crate::words::cat_words;
use arena_mem::Files;
use msg_layout::tables::Layouts;
use pb_schema::Name;
use pb_wire::Frames;
use std::alloc::Global;

/// What a run parses: the frames, each as a message of the type with the number `root`, by so many workers.
#[derive(Drop)]
pub struct Input {
    pub types: Layouts,
    pub root: u32,
    pub frames: Frames,
    pub workers: u8,
}

/// Reads what the words name: the set, and then, at a type that the set has, the frames file.
pub fn gather<F: Files>(alloc: Global, words: &[String], files: &mut F) -> Result<Input, Fault>
    ensures read { IfOk result (λ input. HasRead F.contents F.faults F.blamed (map string_bytes words.now) files.old files.new input.types input.root input.frames input.workers) }
    ensures by_words { IfErr result (λ fault. EndsByWords (map string_bytes words.now) (Some fault)) }
    ensures by_file { IfErr result (λ fault. EndsByFile F.contents F.faults F.blamed (map string_bytes words.now) files.old files.new (Some fault)) }
    ensures limits { IfErr result IsLimited }
    ensures unparsed { IfErr result (λ fault. IsUnparsed (Some fault)) }
{
    let named = cat_words(words)?;
    let types = read_types(alloc, named.set, files)?;
    let root = find_type(alloc, &types, named.type_name)?;
    let Ok(name) = String::from_str(alloc, named.frames) else {
        return Err(Fault::NoMemory);
    };
    match read_frames_file(alloc, files, name) {
        Ok(frames) => Ok(Input {
            types,
            root,
            frames,
            workers: named.workers,
        }),
        Err(fault) => Err(fault),
    }
}

// The number of the type of that name.
fn find_type(alloc: Global, types: &Layouts, type_name: &str) -> Result<u32, Fault>
    ensures found { IfOk result (IsTypeOf types.now type_name.now) }
    ensures none { IfErr result (λ fault. (fault ≡ Fault.NoMemory) ⊎ ((fault ≡ Fault.NoType type_name.now) × HasNoType types.now type_name.now)) }
    ensures limits { IfErr result IsLimited }
{
    if let Some(type_no) = types.schema().find(type_name) {
        return Ok(type_no);
    }
    match Name::of(alloc, type_name) {
        Ok(name) => Err(Fault::NoType { name }),
        Err(_) => Err(Fault::NoMemory),
    }
}
