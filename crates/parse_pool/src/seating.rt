// Workers take their seats before a phase, and leave them behind it.
ghost use Rattle.std.specs.Prelude.{◌≡◌, ◌≤◌, ◌<◌, ◌^◌, [], length, vec_capacity};
ghost use Rattle.parse_pool.specs.Seating.{AreSeated, HaveLeft};
ghost use Rattle.parse_pool.specs.Starting.{AreInOrder, FitPasses};

use crate::worker::Worker;
use life_ids::ThreadCache;
use std::alloc::Global;
use ts_arena::Pass;

/// Makes a worker of each pass and the cache at its place. The room of the passes stays.
pub(crate) fn seat_workers(
    alloc: Global,
    passes: &mut Vec<Pass>,
    caches: &[ThreadCache],
    workers: &mut Vec<Worker>,
)
    requires room { (workers.old.items ≡ []) × (length passes.old.items ≤ vec_capacity workers.old) }
    requires few { length passes.old.items < 2 ^ 32 }
    requires each { length caches.now ≡ length passes.old.items }
    requires order { AreInOrder passes.old.items }
    requires fit { FitPasses caches.now passes.old.items }
    ensures seated { AreSeated passes.old.items caches.now workers.new.items }
    ensures passes { (passes.new.items ≡ []) × (vec_capacity passes.old ≤ vec_capacity passes.new) }
{
    while let Some(pass) = passes.pop() {
        let number = passes.len();
        let worker = Worker::new(alloc, number as u32, pass, caches[number]);
        if workers.push(worker).is_err() {
            unreachable!();
        }
    }
    workers.reverse();
}

/// Takes the workers apart: each pass and each cache goes to the place of its worker.
pub(crate) fn leave_seats(
    workers: &mut Vec<Worker>,
    caches: &mut [ThreadCache],
    passes: &mut Vec<Pass>,
)
    requires room { (passes.old.items ≡ []) × (length workers.old.items ≤ vec_capacity passes.old) }
    requires each { length caches.old ≡ length workers.old.items }
    ensures left { HaveLeft workers.old.items passes.new.items caches.new }
    ensures caches { length caches.new ≡ length caches.old }
{
    while let Some(worker) = workers.pop() {
        let number = workers.len();
        let (pass, cache, _) = worker.parts();
        caches[number] = cache;
        if passes.push(pass).is_err() {
            unreachable!();
        }
    }
    passes.reverse();
}
