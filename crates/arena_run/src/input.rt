// Reading a whole file through `Files`, and cutting a file into frames.
ghost use Rattle.std.specs.Prelude.{◌≡◌, ◌⊎◌, [], ◌+◌, ◌^◌, ◌<◌, ◌≤◌, ℕ, List, Some, Ok, length, sum_by, IsTrue, IfOk, IfErr, IfSome, IsErrOf};
ghost use Rattle.std.specs.String.{string_bytes};
ghost use Rattle.arena_mem.specs.Outside.{Rose, content_of};
ghost use Rattle.pb_schema.specs.declared.schema.Schema.{Schema};
ghost use Rattle.pb_schema.specs.Frames.{frames_of};
ghost use Rattle.arena_run.specs.Causes.{ReadsFile};
ghost use Rattle.arena_run.specs.Ends.{EndsBy, IsLimited, IsOfFile, IsOfInput, result_fault};
ghost use Rattle.arena_run.specs.Faults.{frames_fault, first_fault};

use crate::fault::{Fault, InputKind};
use arena_mem::Files;
use pb_wire::{FrameFault, Frames, read_frames};
use std::alloc::Global;

/// How many bytes a frames file may have.
const FRAME_BYTES_LIMIT: u32 = 16777216;

/// How many frames a file may have.
const FRAME_COUNT_LIMIT: u32 = 1048576;

/// How many bytes are asked for in one call.
const READ_BYTES: usize = 65536;

/// Why a file wasn't read to its end.
#[derive(Clone, Copy, Debug, PartialEq, Eq)]
enum ReadEnd {
    NoMemory,
    Failed,
    TooLong,
}

/// Reads the frames of the file of that name.
pub fn read_frames_file<F: Files>(
    alloc: Global,
    files: &mut F,
    name: String,
) -> Result<Frames, Fault>
    ensures reads { ReadsFile F.contents F.faults F.blamed (string_bytes name) files.old files.new (result_fault result) }
    ensures kind { IfErr result IsOfFile }
    ensures limits { IfErr result IsLimited }
    ensures few { IfOk result (λ payloads. length payloads ≤ 2 ^ 20) }
    ensures fits { IfOk result (λ payloads. sum_by length payloads + length payloads ≤ 2 ^ 24) }
    ensures whole { IfOk result (λ payloads. IfSome (content_of (F.contents files.old) (string_bytes name)) (λ content. (length content ≤ 2 ^ 24) × (frames_of content ≡ Ok payloads))) }
    ensures first { IfErr result (λ fault. IfSome (content_of (F.contents files.old) (string_bytes name)) (λ content. (schema : Schema) (type_no : ℕ) → EndsBy (first_fault schema type_no content) (Some fault))) }
{
    let bytes = read_input(alloc, files, name, InputKind::FrameBytes, FRAME_BYTES_LIMIT)?;
    cut_into_frames(alloc, bytes)
}

// The frames of a file's bytes.
fn cut_into_frames(alloc: Global, bytes: Vec<u8>) -> Result<Frames, Fault>
    ensures kind { IfErr result (λ fault. IsOfFile fault × (fault ≡ Fault.ReadFault → ⊥)) }
    ensures limits { IfErr result IsLimited }
    ensures few { IfOk result (λ payloads. length payloads ≤ 2 ^ 20) }
    ensures fits { IfOk result (λ payloads. sum_by length payloads + length payloads ≤ length bytes.items) }
    ensures whole { IfOk result (λ payloads. frames_of bytes.items ≡ Ok payloads) }
    ensures fault { IfErr result (λ fault. (schema : Schema) (type_no : ℕ) → (fault ≡ Fault.NoMemory) ⊎ (frames_fault schema type_no (frames_of bytes.items) ≡ Some fault)) }
{
    match read_frames(alloc, bytes) {
        Ok(frames) => Ok(frames),
        Err(FrameFault::FrameCut { index }) => Err(Fault::FrameCut { index }),
        Err(FrameFault::TooManyFrames) => Err(Fault::TooLong {
            which: InputKind::FrameCount,
            limit: FRAME_COUNT_LIMIT,
        }),
        Err(FrameFault::NoMemory) => Err(Fault::NoMemory),
    }
}

/// Reads all of the file of that name, an input that may have so many bytes.
pub fn read_input<F: Files>(
    alloc: Global,
    files: &mut F,
    name: String,
    which: InputKind,
    limit: u32,
) -> Result<Vec<u8>, Fault>
    ensures reads { ReadsFile F.contents F.faults F.blamed (string_bytes name) files.old files.new (result_fault result) }
    ensures kind { IfErr result (IsOfInput which limit) }
    ensures limit { IfOk result (λ bytes. length bytes.items ≤ limit) }
    ensures content { IfOk result (λ bytes. IfSome (content_of (F.contents files.old) (string_bytes name)) (λ content. bytes.items ≡ content)) }
    ensures long { IfErr result (λ fault. fault ≡ Fault.TooLong which limit → IfSome (content_of (F.contents files.old) (string_bytes name)) (λ content. limit < length content)) }
{
    if files.pick(name).is_err() {
        return Err(Fault::ReadFault);
    }
    match read_picked(alloc, files, limit as usize) {
        Ok(bytes) => Ok(bytes),
        Err(ReadEnd::NoMemory) => Err(Fault::NoMemory),
        Err(ReadEnd::Failed) => Err(Fault::ReadFault),
        Err(ReadEnd::TooLong) => Err(Fault::TooLong { which, limit }),
    }
}

// Reads all that is left of the picked file, up to so many bytes.
fn read_picked<F: Files>(alloc: Global, files: &mut F, limit: usize) -> Result<Vec<u8>, ReadEnd>
    requires open { IsTrue (F.is_open files.old) }
    requires limit { limit < 2 ^ 32 }
    ensures contents { F.contents files.new ≡ F.contents files.old }
    ensures counts { F.faults files.old ≤ F.faults files.new }
    ensures unblamed { (IsErrOf result ReadEnd.Failed → ⊥) → F.blamed files.new ≡ F.blamed files.old }
    ensures content { IfOk result (λ bytes. IfSome (F.left files.old) (λ content. bytes.items ≡ content)) }
    ensures limit { IfOk result (λ bytes. length bytes.items ≤ limit) }
    ensures too_long { IsErrOf result ReadEnd.TooLong → IfSome (F.left files.old) (λ content. limit < length content) }
    ensures failed { IsErrOf result ReadEnd.Failed → Rose (F.faults files.old) (F.faults files.new) }
    ensures blamed { IsErrOf result ReadEnd.Failed → F.blamed files.new ≡ F.picked files.old }
{
    let mut bytes = with_room(alloc, limit);
    let mut room = [0u8; READ_BYTES];
    while bytes.len() <= limit {
        let asked = READ_BYTES.min(limit + 1 - bytes.len());
        let Ok(count) = files.read(&mut room[..asked]) else {
            return Err(ReadEnd::Failed);
        };
        if count == 0 {
            return Ok(bytes);
        }
        if bytes.extend_from_slice(&room[..count]).is_err() {
            return Err(ReadEnd::NoMemory);
        }
    }
    Err(ReadEnd::TooLong)
}

// An empty vector, with room for one byte above the limit where it can be had. Room that isn't written is address space
// alone.
fn with_room(alloc: Global, limit: usize) -> Vec<u8>
    requires { limit < 2 ^ 32 }
    ensures { result.items ≡ [] }
{
    match Vec::with_capacity(alloc, limit + 1) {
        Ok(bytes) => bytes,
        Err(_) => Vec::new(alloc),
    }
}
