//! Phases over a fresh arena, by the public calls alone.
ghost use Rattle.std.specs.Prelude.{◌≡◌, ◌+◌, ◌<◌, true, IfOk, IfSome, length};
ghost use Rattle.pb_schema.specs.Builtin.{builtin as builtin_schema};
ghost use Rattle.ts_arena.specs.Passes.{AreAllOf, IsPassOf};
ghost use Rattle.parse_pool.specs.Phases.{AreShort};
ghost use Rattle.parse_pool.specs.Ends.{AreReady, AreNumbered};
ghost use Rattle.parse_pool.specs.Starting.{AreEmpty};

use crate::{Gate, PoolEnd, Worker, parse_all, parse_phase};
use arena_block::Policy;
use dyn_message::MsgRef;
use life_ids::ThreadCache;
use msg_layout::tables::Layouts;
use pb_wire::{Frames, read_frames};
use std::alloc::Global;
use std::thread::Threads;
use thiserror::Error;
use ts_arena::{Arena, Pass, Shared, Side};

/// Why a trial was given up.
#[derive(Debug, Drop, Error)]
pub(crate) enum GaveUp {
    #[error("no memory")]
    NoMemory,
    #[error("no frames")]
    NoFrames,
    #[error("a payload is too long")]
    TooLong,
    #[error("a pass of another caller")]
    OtherCaller,
}

/// The number of `pb.Tick` in the built-in schema.
const TICK: u32 = 0;

/// Whether each payload has fewer than 2^25 bytes.
fn are_short(frames: &Frames) -> bool
    ensures { result ≡ true → AreShort frames.now 0 (length frames.now) }
{
    for frame in 0..frames.count() {
        if frames.payload(frame).len() >= 1 << 25 {
            return false;
        }
    }
    true
}

/// Takes the first pass out of the list.
fn take_pass(shared: &Shared, passes: &mut Vec<Pass>) -> Option<Pass>
    requires { AreAllOf shared.now passes.old.items }
    ensures all { AreAllOf shared.now passes.new.items }
    ensures pass { IfSome result (λ p. IsPassOf shared.now p) }
    ensures fewer { IfSome result (λ _. length passes.new.items + 1 ≡ length passes.old.items) }
{
    let _ = shared;
    match passes.pop() {
        Some(pass) => Some(pass),
        None => None,
    }
}

/// Adds a worker with this pass and an empty cache, where the pass is that of the next number.
fn seat(alloc: Global, shared: &Shared, pass: Pass, workers: &mut Vec<Worker>) -> Result<(), GaveUp>
    requires made { IsPassOf shared.now pass }
    requires ready { AreReady shared.now workers.old.items }
    requires numbered { AreNumbered workers.old.items }
    ensures ready { IfOk result (λ _. AreReady shared.now workers.new.items) }
    ensures numbered { IfOk result (λ _. AreNumbered workers.new.items) }
{
    let _ = shared.life();
    let number = pass.caller();
    let cache = ThreadCache::empty();
    if number as usize != workers.len() {
        return Err(GaveUp::OtherCaller);
    }
    if !pass.fits(&cache) {
        return Err(GaveUp::OtherCaller);
    }
    let worker = Worker::new(alloc, number, pass, cache);
    let Ok(()) = workers.push(worker) else {
        return Err(GaveUp::NoMemory);
    };
    Ok(())
}

/// A worker for each pass, the last one first, with an empty cache.
fn hire(alloc: Global, shared: &Shared, mut passes: Vec<Pass>) -> Result<Vec<Worker>, GaveUp>
    requires { AreAllOf shared.now passes.items }
    ensures ready { IfOk result (λ r. AreReady shared.now r.items) }
    ensures numbered { IfOk result (λ r. AreNumbered r.items) }
{
    let mut workers = Vec::new(alloc);
    while let Some(pass) = take_pass(shared, &mut passes) {
        seat(alloc, shared, pass, &mut workers)?;
    }
    Ok(workers)
}

/// An arena, shared among so many callers, of which the last has the number 0.
fn share(alloc: Global, workers: usize) -> Result<(Shared, Vec<Pass>), GaveUp>
    requires { (0 < workers) × (workers < 65) }
    ensures all { IfOk result (λ r. AreAllOf r.0 r.1.items) }
{
    let mut callers = [0u32; 64];
    for at in 0..workers {
        callers[at] = (workers - 1 - at) as u32;
    }
    match Arena::new(alloc, Policy::profile(), 1).share(&callers[..workers]) {
        Ok(made) => Ok(made),
        Err(_) => Err(GaveUp::NoMemory),
    }
}

/// Parses the frames of a file as ticks by so many workers: how it ended, and the frames that were parsed, those of the
/// last worker first.
pub(crate) fn try_phase<R: Threads + Sync, G: Gate + Sync>(
    rt: &R,
    alloc: Global,
    types: &Layouts,
    bytes: &[u8],
    workers: usize,
    gate: &G,
) -> Result<(PoolEnd, Vec<u32>), GaveUp>
    requires { types.now ≡ builtin_schema }
{
    if workers == 0 || workers > 64 {
        return Err(GaveUp::OtherCaller);
    }
    let frames = frames_of(alloc, bytes)?;
    let (shared, passes) = share(alloc, workers)?;
    let mut hired = hire(alloc, &shared, passes)?;
    if hired.is_empty() {
        return Err(GaveUp::OtherCaller);
    }
    let count = frames.count();
    let end = parse_all(
        rt,
        alloc,
        &shared,
        hired.as_mut_slice(),
        &frames,
        0,
        count,
        types,
        TICK,
        gate,
    );
    let parsed = list_frames(alloc, hired)?;
    Ok((end, parsed))
}

/// The frames that workers parsed, those of the last worker first.
fn list_frames(alloc: Global, mut workers: Vec<Worker>) -> Result<Vec<u32>, GaveUp> {
    let mut list = Vec::new(alloc);
    while let Some(worker) = workers.pop() {
        let (_, _, results) = worker.parts();
        for result in results {
            if list.push(result.frame).is_err() {
                return Err(GaveUp::NoMemory);
            }
        }
    }
    Ok(list)
}

/// A whole arena behind a phase.
#[derive(Debug, Drop, PartialEq, Eq)]
pub(crate) struct Settled {
    pub(crate) owners: u32,
    pub(crate) used: u128,
    /// The region of each message, in the order of the frames.
    pub(crate) regions: Vec<u32>,
}

/// Parses the frames of a file as ticks into an arena of its own, by so many workers.
pub(crate) fn try_arena<R: Threads + Sync, G: Gate + Sync>(
    rt: &R,
    alloc: Global,
    types: &Layouts,
    bytes: &[u8],
    workers: usize,
    gate: &G,
) -> Result<Result<Settled, PoolEnd>, GaveUp>
    requires { types.now ≡ builtin_schema }
{
    if workers == 0 || workers > 64 {
        return Err(GaveUp::OtherCaller);
    }
    let frames = frames_of(alloc, bytes)?;
    let mut caches = empty_caches(alloc, workers)?;
    let arena = Arena::new(alloc, Policy::profile(), 1);
    let count = frames.count();
    let (side, parsed) = parse_phase(
        rt,
        alloc,
        arena,
        caches.as_mut_slice(),
        &frames,
        0,
        count,
        types,
        TICK,
        gate,
    );
    let Side::Sole(arena) = side else {
        return Err(GaveUp::NoMemory);
    };
    match parsed {
        Ok(messages) => Ok(Ok(Settled {
            owners: arena.owners(),
            used: arena.space_used(),
            regions: regions_of(alloc, messages)?,
        })),
        Err(end) => Ok(Err(end)),
    }
}

/// So many caches of no arena.
fn empty_caches(alloc: Global, workers: usize) -> Result<Vec<ThreadCache>, GaveUp>
    ensures count { IfOk result (λ caches. length caches.items ≡ workers) }
    ensures empty { IfOk result (λ caches. AreEmpty caches.items) }
{
    let mut caches = Vec::new(alloc);
    while caches.len() < workers {
        let Ok(()) = caches.push(ThreadCache::empty()) else {
            return Err(GaveUp::NoMemory);
        };
    }
    Ok(caches)
}

/// The frames of a file, all of them short.
fn frames_of(alloc: Global, bytes: &[u8]) -> Result<Frames, GaveUp>
    ensures { IfOk result (λ frames. AreShort frames 0 (length frames)) }
{
    let Ok(bytes) = bytes.to_vec(alloc) else {
        return Err(GaveUp::NoMemory);
    };
    let Ok(frames) = read_frames(alloc, bytes) else {
        return Err(GaveUp::NoFrames);
    };
    if !are_short(&frames) {
        return Err(GaveUp::TooLong);
    }
    Ok(frames)
}

/// The region of each message.
fn regions_of(alloc: Global, messages: Vec<MsgRef>) -> Result<Vec<u32>, GaveUp> {
    let mut regions = Vec::new(alloc);
    for msg in messages {
        if regions.push(msg.place.region).is_err() {
            return Err(GaveUp::NoMemory);
        }
    }
    Ok(regions)
}
