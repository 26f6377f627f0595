// The frames of one worker.
ghost use Rattle.std.specs.Prelude.{◌≡◌, ◌<◌, ◌∷◌, ◌++◌, ℕ, [], true, false};
ghost use Rattle.ts_arena.specs.Passes.{IsPassOf, FitsPass};
ghost use Rattle.parse_pool.specs.Parsed.{HasTurned};
ghost use Rattle.parse_pool.specs.Ends.{IsReady, HasWorked, StopsAs, EndsAs, refused_by};

use crate::frame::parse_frame;
use crate::gate::Gate;
use crate::phase::Phase;
use crate::pool_end::{FrameResult, PoolEnd};
use crate::worker::Worker;
use dyn_message::MsgRef;
use life_ids::ThreadCache;
use pb_parse::ParseFault;
use std::alloc::Global;
use std::mem::replace;
use ts_arena::Pass;

/// How many turns a worker has, whose first frame is this one.
fn count_turns(start: usize, end: usize, workers: usize) -> usize
    requires { 0 < workers }
{
    if start < end {
        (end - start - 1) / workers + 1
    } else {
        0
    }
}

/// How a worker ends whose parsing of a frame was refused.
fn end_by(index: u32, fault: ParseFault) -> PoolEnd
    ensures { result ≡ refused_by index fault }
{
    match fault {
        ParseFault::Bad(fault) => PoolEnd::BadFrame { index, fault },
        ParseFault::NoMemory => PoolEnd::NoMemory,
        ParseFault::BlocksSpent { region } => PoolEnd::BlocksSpent { region },
    }
}

/// Adds the result of a frame: whether there was room.
#[inline]
fn put(results: &mut Vec<FrameResult>, frame: u32, msg: MsgRef) -> bool
    ensures added { result ≡ true → results.new.items ≡ results.old.items ++ record { frame = frame; msg = msg } ∷ [] }
    ensures kept { result ≡ false → results.new.items ≡ results.old.items }
{
    match results.push(FrameResult { frame, msg }) {
        Ok(()) => true,
        Err(_) => false,
    }
}

/// Parses a worker's frames in their order, until one is refused. The room for all results is made before the first.
fn parse_turns<G: Gate>(
    alloc: Global,
    phase: &Phase<'_, G>,
    worker: u32,
    mut pass: Pass,
    mut cache: ThreadCache,
    results: &mut Vec<FrameResult>,
) -> (Pass, ThreadCache, PoolEnd)
    requires made { IsPassOf phase.now.shared pass }
    requires fits { FitsPass cache pass }
    requires none { results.old.items ≡ [] }
    ensures turned { (turns : ℕ) × HasTurned phase.now worker turns pass cache result.0 result.1 results.new.items }
    ensures stops { StopsAs phase.now worker result.0 results.new.items result.2 }
{
    let end = (phase.first + phase.count) as usize;
    let mut frame = phase.first as usize + worker as usize;
    let turns = count_turns(frame, end, phase.workers);
    if results.reserve(turns).is_err() {
        return (pass, cache, PoolEnd::NoMemory);
    }
    while frame < end {
        let (next, given, parsed) = parse_frame(alloc, phase, worker, frame as u32, pass, cache);
        pass = next;
        cache = given;
        match parsed {
            Ok(msg) => {
                let is_put = put(results, frame as u32, msg);
                if is_put {
                    frame += phase.workers;
                } else {
                    return (pass, cache, PoolEnd::NoMemory);
                }
            }
            Err(fault) => return (pass, cache, end_by(frame as u32, fault)),
        }
    }
    (pass, cache, PoolEnd::Done)
}

/// A worker's part of a phase.
pub(crate) fn work<G: Gate>(alloc: Global, phase: &Phase<'_, G>, worker: &mut Worker) -> PoolEnd
    requires { IsReady phase.now.shared worker.old }
    ensures worked { HasWorked phase.now worker.old worker.new }
    ensures ends { EndsAs phase.now (worker.new ∷ []) result }
{
    let Some(pass) = replace(&mut worker.pass, None) else {
        unreachable!()
    };
    let mut results = replace(&mut worker.results, Vec::new(alloc));
    let (pass, cache, end) = parse_turns(
        alloc,
        phase,
        worker.number,
        pass,
        worker.cache,
        &mut results,
    );
    worker.pass = Some(pass);
    worker.cache = cache;
    worker.results = results;
    end
}
