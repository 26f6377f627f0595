// The top call.
ghost use Rattle.std.specs.Prelude.{◌≡◌, ◌≢◌, ◌⊎◌, ◌^◌, ◌<◌, ◌≤◌, ℕ, List, [], None, Some, Ok, length, vec_capacity, map, IfOk, IfErr, IfSome, IfNone};
ghost use Rattle.std.specs.String.{string_bytes};
ghost use Rattle.std.specs.Io.KnownBytes.{Appends};
ghost use Rattle.arena_mem.specs.declared.place.Place.{Place};
ghost use Rattle.arena_mem.specs.Places.{Apart};
ghost use Rattle.arena_mem.specs.Outside.{Rose, TookPart, content_of};
ghost use Rattle.ts_arena.specs.Arena.{IsArena};
ghost use Rattle.ts_arena.specs.Places.{IsPlaceOf};
ghost use Rattle.ts_arena.specs.Sole.{Owns, arena_places, arena_buffers};
ghost use Rattle.parse_pool.specs.Arenas.{IfSole};
ghost use Rattle.pb_script.specs.Registers.{cat_registers};
ghost use Rattle.pb_schema.specs.declared.schema.Schema.{Schema};
ghost use Rattle.pb_schema.specs.Payloads.{framed_texts};
ghost use Rattle.arena_run.specs.Causes.{EndsByWords, EndsByFile, LeavesArena};
ghost use Rattle.arena_run.specs.Contents.{OfTrees};
ghost use Rattle.arena_run.specs.Ends.{IsLimited, status_of, IsParsed, IsUnparsed, IsPastFrames, EndsBy, EndsWell};
ghost use Rattle.arena_run.specs.declared.fault.Fault.{Fault as TheFault};
ghost use Rattle.arena_run.specs.FaultTexts.{IsTold};
ghost use Rattle.arena_run.specs.Faults.{first_fault, payloads_fault};
ghost use Rattle.arena_run.specs.Inputs.{IsSmall, LeavesSide};
ghost use Rattle.arena_run.specs.Lines.{TookLines};
ghost use Rattle.arena_run.specs.Lives.{CanEnd, HeapsFit};
ghost use Rattle.arena_run.specs.Registers.{AreEarlyIn, CanRun, HasWritten, RegistersStand, RegistersWritten};
ghost use Rattle.arena_run.specs.Sets.{set_given};
ghost use Rattle.arena_run.specs.Stands.{StandDecoded};
ghost use Rattle.arena_run.specs.Words.{AsksFor, IsCat, IsTypeOf};

use crate::fault::Fault;
use crate::gather::{Input, gather};
use crate::outcome::Outcome;
use crate::parse::parse_input;
use crate::registers::{fill_registers, room_for_registers};
use crate::tell::tell_end;
use crate::write::{Written, write_arena};
use arena_mem::{Files, Sink};
use cleanup_list::CleanupWatch;
use dyn_message::MsgRef;
use life_ids::IdSource;
use parse_pool::Gate;
use pb_script::Register;
use std::alloc::Global;
use std::thread::Threads;
use ts_arena::{Arena, Side, arenas_are_lawful, placements_lie_apart};

/// The two arenas that a run is handed.
#[derive(Drop)]
pub struct Pair {
    pub a: Arena,
    pub b: Arena,
}

/// Runs the program with these words over the files, the sinks and the arenas that are handed in.
///
/// The words have one of three forms: `cat SET TYPE FRAMES WORKERS`, `run SET TYPE FRAMES SCRIPT WORKERS` and
/// `gen SEED COUNT WORKERS`; all others are a `Usage`. So far one command is built: `cat` parses each frame of the file into
/// arena a as a message of the type, by 1 to 64 workers, and writes each message behind its prefix, in order, as the encoding
/// guide has it: its fields by ascending number, and then the bytes of all records that fit no field. The other commands are
/// refused as `NotBuilt`. SET is the word `builtin`, which never names a file, or the name of a file with a descriptor set;
/// one that can't be read is a `ReadFault`, one of more than 2^22 bytes a `TooLong`, and one that isn't taken a `Schema`. A type
/// that the schema doesn't have is a `NoType`. FRAMES may be any name; a file that can't be read is a `ReadFault`, one of more
/// than 2^24 bytes or 2^20 frames a `TooLong`, one whose frames are cut a `FrameCut`, and one in which a payload has a fault a
/// `BadFrame`. What is said of a file's content or of the bytes that were taken holds where the files and the sink tell them.
/// The text of a fault goes to the second sink, `err`.
///
/// It asks for two arenas of the profile's policy that have no owners and adopted nothing, of different lives, and for 65,536
/// ids that are all greater than both. A worker passes the gate before it parses a frame; no clause depends on what it does.
pub fn run<R: Threads + Sync, F: Files, O: Sink, E: Sink, G: Gate + Sync, W: CleanupWatch>(
    rt: &R,
    alloc: Global,
    words: &[String],
    files: &mut F,
    out: &mut O,
    err: &mut E,
    gate: &G,
    ids: &mut IdSource,
    pair: Pair,
    watch: &mut W,
) -> Outcome
    requires { CanRun ids.old pair.a pair.b }

    // The status is that of the fault. Each fault but want of memory comes exactly where it is the first, by the words, by
    // the set, by the type or by the frames file, in the order of the stages of a run.
    ensures status { result.status ≡ status_of result.fault }
    ensures by_words { EndsByWords (map string_bytes words.now) result.fault }
    ensures by_file { EndsByFile F.contents F.faults F.blamed (map string_bytes words.now) files.old files.new result.fault }
    ensures limits { IfSome result.fault IsLimited }

    // Where all goes well, the sink took the framed texts of the decoded payloads, in order, and nothing else; where it
    // fails, a front of them and not all; on every other fault it was never called. It fails only where its count rose.
    ensures bytes { IfNone result.fault (OfTrees (map string_bytes words.now) (F.contents files.old) (λ schema type_no trees. Appends (O.taken out.old) (O.taken out.new) (framed_texts schema type_no trees))) }
    ensures prefix { result.fault ≡ Some Fault.WriteFault → OfTrees (map string_bytes words.now) (F.contents files.old) (λ schema type_no trees. TookPart (O.taken out.old) (O.taken out.new) (framed_texts schema type_no trees)) }
    ensures nothing_written { IsUnparsed result.fault → out.new ≡ out.old }
    ensures write_fault { result.fault ≡ Some Fault.WriteFault → Rose (O.faults out.old) (O.faults out.new) }
    ensures sink_counts { O.faults out.old ≤ O.faults out.new }

    // In both of these each register stands for the tree of its frame in arena a, on feet of its own, each foot once; the
    // first ones, one for each worker, stand in the parts of the callers of their numbers. On every other fault there are
    // no registers.
    ensures registers { IsParsed result.fault → OfTrees (map string_bytes words.now) (F.contents files.old) (λ schema type_no trees. IfSole result.a (λ a. RegistersStand schema a type_no result.registers.items trees)) }
    ensures early { IsParsed result.fault → (workers : ℕ) → AsksFor (map string_bytes words.now) workers → IfSole result.a (λ a. AreEarlyIn workers a result.registers.items) }
    ensures no_registers { IsUnparsed result.fault → result.registers.items ≡ [] }

    // Whatever the files tell, the registers stand for one list of trees, and what the sink took is the text of these.
    ensures stand { IsParsed result.fault → IfSole result.a (λ a. RegistersWritten (map string_bytes words.now) (F.contents files.old) a result.registers.items result.fault result.lines (O.taken out.old) (O.taken out.new)) }

    // A file without a fault that is there, of a type that the set has, ends well, or in want of memory, where nothing failed.
    ensures complete { (set type_name frames content : List ℕ) (schema : Schema) (type_no : ℕ) → IsCat (map string_bytes words.now) set type_name frames
        → set_given (F.contents files.old) set ≡ Some (Ok schema) → IsTypeOf schema type_name type_no
        → content_of (F.contents files.old) frames ≡ Some content → first_fault schema type_no content ≡ None
        → (Rose (F.faults files.old) (F.faults files.new) → ⊥) → (Rose (O.faults out.old) (O.faults out.new) → ⊥) → EndsWell result.fault }

    // The second sink is told the text of the fault, once: all of it where its count doesn't rise, and else a front. It is
    // never called where there is no fault. What it does has no part in any other clause.
    ensures untold { result.fault ≡ None → err.new ≡ err.old }
    ensures told { (fault : TheFault) → result.fault ≡ Some fault → IsTold fault (E.taken err.old) (E.taken err.new) (E.faults err.old) (E.faults err.new) }

    // Arena a keeps its life, its policy and its adopted regions, and is settled on every answer but want of memory. It is as
    // it was handed in where no payload was parsed. Its owners are some of the callers below the number of workers, and it has
    // at most 4 places for each byte of a payload and each frame, and as many kept buffers. Arena b is as it was handed in.
    // Both are lawful, and no two places of arena a share a byte.
    ensures arena { LeavesArena (map string_bytes words.now) (F.contents files.old) result.fault pair.a result.a }
    ensures other { result.b ≡ Side.Sole pair.b }
    ensures lawful { IfSole result.a IsArena × IsArena pair.b }
    ensures apart { IfSole result.a (λ a. (p q : Place) → IsPlaceOf a p → IsPlaceOf a q → (p ≡ q → ⊥) → Apart p q) }

    // The outcome can be ended.
    ensures ends { CanEnd result.registers.items result.a result.b }

    // No life ended: no id was drawn, and no cleanup was run. A line for each register was accepted where all was written,
    // and none where nothing was; where the sink failed, one for each text that lies whole in what it took.
    ensures ended { result.ended.items ≡ [] }
    ensures ids { ids.new ≡ ids.old }
    ensures watch { watch.new ≡ watch.old }
    ensures lines { IfNone result.fault (result.lines ≡ length result.registers.items) }
    ensures cut_lines { result.fault ≡ Some Fault.WriteFault → OfTrees (map string_bytes words.now) (F.contents files.old) (λ schema type_no trees. TookLines schema type_no trees (O.taken out.old) (O.taken out.new) result.lines) }
    ensures no_lines { IsUnparsed result.fault → result.lines ≡ 0 }
{
    let Pair { a, b } = pair;
    let _lives = (b.life(), ids.left());
    let end = cat(rt, alloc, words, files, out, gate, a);
    let _ = watch;
    tell_end(&end.fault, err);
    sides_are_lawful(&end.a);
    arenas_are_lawful(&b);
    Outcome {
        status: status_of_fault(&end.fault),
        fault: end.fault,
        registers: end.registers,
        a: end.a,
        b: Side::Sole(b),
        ended: Vec::new(alloc),
        lines: end.lines,
    }
}

// What is so of every side: its arena is lawful, where it is settled, and no two places of it share a byte.
fn sides_are_lawful(side: &Side)
    ensures lawful { IfSole side.now IsArena }
    ensures apart { IfSole side.now (λ a. (p q : Place) → IsPlaceOf a p → IsPlaceOf a q → (p ≡ q → ⊥) → Apart p q) }
{
    if let Side::Sole(arena) = side {
        arenas_are_lawful(arena);
        placements_lie_apart(arena);
    }
}

// The status of a run, by its fault.
fn status_of_fault(fault: &Option<Fault>) -> u8
    ensures { result ≡ status_of fault.now }
{
    match fault {
        None => 0,
        Some(fault) => fault.status(),
    }
}

// What the command leaves.
#[derive(Drop)]
struct CatEnd {
    fault: Option<Fault>,
    registers: Vec<Register>,
    a: Side,
    lines: u32,
}

// Runs the command.
fn cat<R: Threads + Sync, F: Files, O: Sink, G: Gate + Sync>(
    rt: &R,
    alloc: Global,
    words: &[String],
    files: &mut F,
    out: &mut O,
    gate: &G,
    arena: Arena,
) -> CatEnd
    requires { arena.owners ≡ [] }
    ensures by_words { EndsByWords (map string_bytes words.now) result.fault }
    ensures by_file { EndsByFile F.contents F.faults F.blamed (map string_bytes words.now) files.old files.new result.fault }
    ensures limits { IfSome result.fault IsLimited }
    ensures arena { LeavesArena (map string_bytes words.now) (F.contents files.old) result.fault arena result.a }
    ensures registers { IsParsed result.fault → OfTrees (map string_bytes words.now) (F.contents files.old) (λ schema type_no trees. IfSole result.a (λ a. RegistersStand schema a type_no result.registers.items trees)) }
    ensures early { IsParsed result.fault → (workers : ℕ) → AsksFor (map string_bytes words.now) workers → IfSole result.a (λ a. AreEarlyIn workers a result.registers.items) }
    ensures bytes { IfNone result.fault (OfTrees (map string_bytes words.now) (F.contents files.old) (λ schema type_no trees. Appends (O.taken out.old) (O.taken out.new) (framed_texts schema type_no trees))) }
    ensures prefix { result.fault ≡ Some Fault.WriteFault → OfTrees (map string_bytes words.now) (F.contents files.old) (λ schema type_no trees. TookPart (O.taken out.old) (O.taken out.new) (framed_texts schema type_no trees)) }
    ensures stand { IsParsed result.fault → IfSole result.a (λ a. RegistersWritten (map string_bytes words.now) (F.contents files.old) a result.registers.items result.fault result.lines (O.taken out.old) (O.taken out.new)) }
    ensures no_registers { IsUnparsed result.fault → result.registers.items ≡ [] }
    ensures heaps { HeapsFit result.registers.items }
    ensures nothing_written { IsUnparsed result.fault → out.new ≡ out.old }
    ensures write_fault { result.fault ≡ Some Fault.WriteFault → Rose (O.faults out.old) (O.faults out.new) }
    ensures sink_counts { O.faults out.old ≤ O.faults out.new }
    ensures lines { IfNone result.fault (result.lines ≡ length result.registers.items) }
    ensures cut_lines { result.fault ≡ Some Fault.WriteFault → OfTrees (map string_bytes words.now) (F.contents files.old) (λ schema type_no trees. TookLines schema type_no trees (O.taken out.old) (O.taken out.new) result.lines) }
    ensures no_lines { IsUnparsed result.fault → result.lines ≡ 0 }
{
    match gather(alloc, words, files) {
        Ok(input) => cat_input(rt, alloc, &input, out, gate, arena),
        Err(fault) => without_registers(alloc, fault, Side::Sole(arena)),
    }
}

// Parses the frames and writes the messages.
fn cat_input<R: Threads + Sync, O: Sink, G: Gate + Sync>(
    rt: &R,
    alloc: Global,
    input: &Input,
    out: &mut O,
    gate: &G,
    arena: Arena,
) -> CatEnd
    requires small { IsSmall input.now.types input.now.root input.now.frames input.now.workers }
    requires owners { arena.owners ≡ [] }
    ensures stage { IsPastFrames result.fault }
    ensures first { EndsBy (payloads_fault input.now.types input.now.root input.now.frames) result.fault }
    ensures limits { IfSome result.fault IsLimited }
    ensures left { LeavesSide input.now.workers input.now.frames result.fault arena result.a }
    ensures written { IsParsed result.fault → IfSole result.a (λ a. HasWritten input.now.types input.now.root input.now.frames a result.registers.items result.fault result.lines (O.taken out.old) (O.taken out.new)) }
    ensures early { IsParsed result.fault → IfSole result.a (λ a. AreEarlyIn input.now.workers a result.registers.items) }
    ensures no_registers { IsUnparsed result.fault → result.registers.items ≡ [] }
    ensures heaps { HeapsFit result.registers.items }
    ensures nothing_written { IsUnparsed result.fault → out.new ≡ out.old }
    ensures write_fault { result.fault ≡ Some Fault.WriteFault → Rose (O.faults out.old) (O.faults out.new) }
    ensures sink_counts { O.faults out.old ≤ O.faults out.new }
    ensures lines { IfNone result.fault (result.lines ≡ length result.registers.items) }
    ensures no_lines { IsUnparsed result.fault → result.lines ≡ 0 }
{
    let Ok(registers) = room_for_registers(alloc, input.frames.count()) else {
        return without_registers(alloc, Fault::NoMemory, Side::Sole(arena));
    };
    match parse_input(rt, alloc, input, gate, arena) {
        Ok((arena, messages)) => write_out(input, messages, registers, out, arena),
        Err((fault, side)) => without_registers(alloc, fault, side),
    }
}

// Writes the messages, and makes the registers of them.
fn write_out<O: Sink>(
    input: &Input,
    messages: Vec<MsgRef>,
    mut registers: Vec<Register>,
    out: &mut O,
    mut arena: Arena,
) -> CatEnd
    requires room { (registers.items ≡ []) × (length messages.items ≤ vec_capacity registers) }
    requires few { length messages.items ≤ 2 ^ 20 }
    requires owner { 0 < length messages.items → Owns arena.owners 0 }
    requires stand { StandDecoded input.now.types (arena_places arena) (arena_buffers arena) input.now.root input.now.frames messages.items }
    ensures parsed { IsParsed result.fault }
    ensures limits { IfSome result.fault IsLimited }
    ensures side { result.a ≡ Side.Sole arena }
    ensures registers { result.registers.items ≡ cat_registers messages.items }
    ensures heaps { HeapsFit result.registers.items }
    ensures written { HasWritten input.now.types input.now.root input.now.frames arena result.registers.items result.fault result.lines (O.taken out.old) (O.taken out.new) }
    ensures write_fault { result.fault ≡ Some Fault.WriteFault → Rose (O.faults out.old) (O.faults out.new) }
    ensures sink_counts { O.faults out.old ≤ O.faults out.new }
    ensures lines { IfNone result.fault (result.lines ≡ length messages.items) }
{
    let Written { ended, lines } = write_arena(&mut arena, &input.types, &messages, out);
    fill_registers(&messages, &mut registers);
    let fault = match ended {
        Ok(()) => None,
        Err(_) => Some(Fault::WriteFault),
    };
    CatEnd {
        fault,
        registers,
        a: Side::Sole(arena),
        lines,
    }
}

// The end of a command that wrote nothing.
fn without_registers(alloc: Global, fault: Fault, side: Side) -> CatEnd
    ensures fault { result.fault ≡ Some fault }
    ensures registers { result.registers.items ≡ [] }
    ensures side { result.a ≡ side }
    ensures lines { result.lines ≡ 0 }
{
    CatEnd {
        fault: Some(fault),
        registers: Vec::new(alloc),
        a: side,
        lines: 0,
    }
}
