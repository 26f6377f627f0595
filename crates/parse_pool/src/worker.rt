// A worker, between phases.
ghost use Rattle.std.specs.Prelude.{◌≡◌, ◌<◌, Some, [], length};
ghost use mathlib.Core.Option.{some};
ghost use lib.ListN.{get_elem?};
ghost use Rattle.ts_arena.specs.Passes.{caller_of, FitsPass};
ghost use Rattle.parse_pool.specs.declared.pool_end.FrameResult.{FrameResult};

use crate::pool_end::FrameResult;
use dyn_message::MsgRef;
use life_ids::ThreadCache;
use std::alloc::Global;
use std::marker::Model;
use ts_arena::Pass;

/// A worker: the pass of the caller with its number, the cache that it enters with, and what it parsed.
///
/// Contracts see it as a `WorkerState`.
#[derive(Drop)]
pub struct Worker {
    pub(crate) number: u32,
    // Away within a phase alone.
    pub(crate) pass: Option<Pass>,
    pub(crate) cache: ThreadCache,
    pub(crate) results: Vec<FrameResult>,
}

impl Model for Worker {
    ghost use Rattle.parse_pool.specs.Workers.{WorkerState, IsWorker};

    ghost Value = { WorkerState };

    ghost view = { λ w. record { number = w.number; pass = w.pass; cache = w.cache; results = w.results.items } };

    ghost invariant = { λ w. IsWorker (record { number = w.number; pass = w.pass; cache = w.cache; results = w.results.items }) };
}

impl Worker {
    /// A worker that parsed nothing. It takes no memory.
    pub fn new(alloc: Global, number: u32, pass: Pass, cache: ThreadCache) -> Worker
        requires fits { FitsPass cache pass }
        requires caller { caller_of pass ≡ number }
        ensures number { result.number ≡ number }
        ensures pass { result.pass ≡ Some pass }
        ensures cache { result.cache ≡ cache }
        ensures results { result.results ≡ [] }
    {
        Worker {
            number,
            pass: Some(pass),
            cache,
            results: Vec::new(alloc),
        }
    }

    /// The pass, the cache with which it enters next, and what was parsed, in the order of the frames. It takes no
    /// memory.
    pub fn parts(self) -> (Pass, ThreadCache, Vec<FrameResult>)
        ensures pass { self.pass ≡ Some result.0 }
        ensures cache { result.1 ≡ self.cache }
        ensures results { result.2.items ≡ self.results }
        ensures caller { caller_of result.0 ≡ self.number }
        ensures fits { FitsPass result.1 result.0 }
    {
        let Worker {
            number: _,
            pass,
            cache,
            results,
        } = self;
        match pass {
            Some(pass) => (pass, cache, results),
            None => unreachable!(),
        }
    }

    /// The message that was parsed at this turn, counted from 0.
    pub(crate) fn message(&self, turn: usize) -> MsgRef
        requires { turn < length self.now.results }
        ensures { (r : FrameResult) × (get_elem? self.now.results turn ≡ some r) × (r.msg ≡ result) }
    {
        self.results[turn].msg
    }
}
