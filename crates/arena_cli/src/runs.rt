// Runs over files and sinks in memory.
ghost use Rattle.std.specs.Prelude.{◌≤◌, IfOk};
ghost use Rattle.arena_run.specs.Lives.{CanEnd};
ghost use Rattle.arena_run.specs.Registers.{CanRun};

use crate::two_arenas;
use arena_mem::{MemoryFiles, MemorySink, NamedBytes};
use arena_run::{Fault, Gate, OpenGate, Outcome, Pair, run};
use cleanup_list::SilentWatch;
use life_ids::IdSource;
use std::alloc::{AllocError, Global};
use std::thread::Threads;
use ts_arena::Side;

// How a run ended, what it left, and what it told.
#[derive(Drop)]
pub struct End {
    pub status: u8,
    pub fault: Option<Fault>,
    pub written: Vec<u8>,
    pub told: Vec<u8>,
    pub registers: usize,
    pub lines: u32,
    pub owners: u32,
    pub space_used: u128,
    pub kept: u128,
}

// What fails in a run: the calls of the files and of the two sinks with these numbers.
#[derive(Drop)]
pub struct Failing<'a> {
    pub reads: &'a [u64],
    pub writes: &'a [u64],
    pub tells: &'a [u64],
}

/// Nothing fails.
pub const NO_FAILURE: Failing<'static> = Failing {
    reads: &[],
    writes: &[],
    tells: &[],
};

// An outcome, and the two sinks of the run.
#[derive(Drop)]
pub struct Ran {
    pub outcome: Outcome,
    pub out: MemorySink,
    pub err: MemorySink,
}

// Ids and two arenas, as the program makes them.
pub fn fresh_arenas(alloc: Global) -> Result<(IdSource, Pair), AllocError>
    ensures { IfOk result (λ r. CanRun r.0 r.1.a r.1.b) }
{
    match two_arenas(alloc) {
        Some(made) => Ok(made),
        None => Err(AllocError),
    }
}

// Runs these words over the files of these names and contents, with workers that pass this gate. The sinks take so many bytes
// in a call.
pub fn run_over<R: Threads + Sync, G: Gate + Sync>(
    rt: &R,
    alloc: Global,
    words: &[&str],
    files: &[(&str, &[u8])],
    failing: &Failing<'_>,
    per_call: u32,
    gate: &G,
) -> Result<Ran, AllocError>
    requires { 1 ≤ per_call }
    ensures { IfOk result (λ r. CanEnd r.outcome.registers.items r.outcome.a r.outcome.b) }
{
    let mut strings = Vec::new(alloc);
    for word in words {
        strings.push(String::from_str(alloc, word)?)?;
    }
    let mut named = Vec::new(alloc);
    for (name, content) in files {
        named.push(NamedBytes {
            name: name.as_bytes().to_vec(alloc)?,
            content: content.to_vec(alloc)?,
        })?;
    }
    let (mut ids, pair) = fresh_arenas(alloc)?;
    let mut files = MemoryFiles::new(named, failing.reads.to_vec(alloc)?);
    let mut out = MemorySink::new(alloc, per_call, failing.writes.to_vec(alloc)?);
    let mut err = MemorySink::new(alloc, per_call, failing.tells.to_vec(alloc)?);
    let mut watch = SilentWatch;
    let outcome = run(
        rt, alloc, &strings, &mut files, &mut out, &mut err, gate, &mut ids, pair, &mut watch,
    );
    Ok(Ran { outcome, out, err })
}

// The same with an open gate: how it ended.
pub fn end_over<R: Threads + Sync>(
    rt: &R,
    alloc: Global,
    words: &[&str],
    files: &[(&str, &[u8])],
    failing: &Failing<'_>,
    per_call: u32,
) -> Result<End, AllocError>
    requires { 1 ≤ per_call }
{
    let ran = run_over(rt, alloc, words, files, failing, per_call, &OpenGate)?;
    let Ran { outcome, out, err } = ran;
    let (owners, space_used, kept) = match &outcome.a {
        Side::Sole(arena) => (arena.owners(), arena.space_used(), arena.registered()),
        Side::Unsettled(_, _) => (0, 0, 0),
    };
    Ok(End {
        status: outcome.status,
        fault: outcome.fault,
        written: out.taken().to_vec(alloc)?,
        told: err.taken().to_vec(alloc)?,
        registers: outcome.registers.len(),
        lines: outcome.lines,
        owners,
        space_used,
        kept,
    })
}

// Runs these words over one file, "f". The calls of the file and of the sink that are listed fail.
pub fn end_of_run<R: Threads + Sync>(
    rt: &R,
    alloc: Global,
    words: &[&str],
    content: &[u8],
    failing_reads: &[u64],
    per_call: u32,
    failing_writes: &[u64],
) -> Result<End, AllocError>
    requires { 1 ≤ per_call }
{
    let failing = Failing {
        reads: failing_reads,
        writes: failing_writes,
        tells: &[],
    };
    end_over(rt, alloc, words, &[("f", content)], &failing, per_call)
}
