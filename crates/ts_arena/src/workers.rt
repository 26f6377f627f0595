//! Callers on threads of their own.
ghost use Rattle.std.specs.Prelude.{◌≡◌, ◌<◌, IfOk, length};
ghost use Rattle.std.specs.Thread.{IsSync};
ghost use Rattle.ts_arena.specs.Passes.{IsPassOf, AreAllOf, FitsPass};
ghost use Rattle.ts_arena.specs.Ready.{IsReady, AreReady};

use crate::callers::{GaveUp, place_in, put_pass, take_pass, visit};
use crate::{Lease, Pass, Shared};
use life_ids::ThreadCache;
use std::alloc::Global;
use std::mem::replace;
use std::thread::{Threads, join_mut};

/// How often each caller enters.
pub(crate) const ROUNDS: u32 = 1000;

/// The cache with which the caller comes next: an even one keeps what leaving gave, an odd one has none each time.
fn next_cache(shared: &Shared, pass: &Pass, given: ThreadCache) -> ThreadCache
    requires made { IsPassOf shared.now pass.now }
    requires fits { FitsPass given pass.now }
    ensures { FitsPass result pass.now }
{
    let _ = shared.life();
    if pass.caller() % 2 == 0 {
        given
    } else {
        ThreadCache::empty()
    }
}

/// Enters, places 32 bytes and leaves, so many times.
fn enter_often(shared: &Shared, mut pass: Pass, mut cache: ThreadCache) -> (Pass, ThreadCache)
    requires made { IsPassOf shared.now pass }
    requires fits { FitsPass cache pass }
    ensures made { IsPassOf shared.now result.0 }
    ensures fits { FitsPass result.1 result.0 }
{
    for _ in 0..ROUNDS {
        let (next, given, _, _) = visit(shared, pass, cache, 32);
        cache = next_cache(shared, &next, given);
        pass = next;
    }
    (pass, cache)
}

/// The same of a pass that lies in a list.
fn work_with(shared: &Shared, seat: Option<(Pass, ThreadCache)>) -> Option<(Pass, ThreadCache)>
    requires { IsReady shared.now seat }
    ensures { IsReady shared.now result }
{
    match seat {
        Some((pass, cache)) => Some(enter_often(shared, pass, cache)),
        None => None,
    }
}

/// The same of the pass at this place.
fn work(shared: &Shared, seats: &mut [Option<(Pass, ThreadCache)>], at: usize)
    requires within { at < length seats.old }
    requires ready { AreReady shared.now (length seats.old) seats.old }
    ensures { AreReady shared.now (length seats.old) seats.new }
{
    let seat = replace(&mut seats[at], None);
    seats[at] = work_with(shared, seat);
}

/// Each caller works in a thread of its own.
#[cycle(halves)]
pub(crate) fn work_all<R: Threads + Sync>(
    rt: &R,
    shared: &Shared,
    seats: &mut [Option<(Pass, ThreadCache)>],
)
    requires { AreReady shared.now (length seats.old) seats.old }
    ensures { AreReady shared.now (length seats.old) seats.new }
{
    if seats.len() < 2 {
        if seats.len() == 1 {
            work(shared, seats, 0);
        }
        return;
    }
    let (left, right) = seats.split_at_mut(seats.len() / 2);
    work_both(rt, shared, left, right);
}

/// Those of both slices.
#[cycle(halves)]
fn work_both<R: Threads + Sync>(
    rt: &R,
    shared: &Shared,
    left: &mut [Option<(Pass, ThreadCache)>],
    right: &mut [Option<(Pass, ThreadCache)>],
)
    requires some { (0 < length left.old) × (0 < length right.old) }
    requires left { AreReady shared.now (length left.old) left.old }
    requires right { AreReady shared.now (length right.old) right.old }
    ensures left { AreReady shared.now (length left.old) left.new }
    ensures right { AreReady shared.now (length right.old) right.new }
{
    join_mut(
        rt,
        &mut ||
            requires { IsSync R.row × AreReady shared.now (length left.now) left.now }
            ensures { AreReady shared.entry.now (length left.entry.now) left.exit.now }
        { work_all(rt, shared, left) },
        &mut ||
            requires { IsSync R.row × AreReady shared.now (length right.now) right.now }
            ensures { AreReady shared.entry.now (length right.entry.now) right.exit.now }
        { work_all(rt, shared, right) },
    );
}

/// Places 32 bytes in a lease on another thread.
fn place_elsewhere<R: Threads>(rt: &R, lease: &mut Lease<'_>)
    ensures { lease.new.shared ≡ lease.old.shared }
{
    join_mut(
        rt,
        &mut ||
            ensures { lease.exit.now.shared ≡ lease.entry.now.shared }
        {
            let _ = place_in(lease, 32);
        },
        &mut || {},
    );
}

/// Enters, has another thread place, and leaves.
pub(crate) fn visit_with_help<R: Threads>(
    rt: &R,
    shared: &Shared,
    pass: Pass,
    cache: ThreadCache,
) -> (Pass, ThreadCache)
    requires made { IsPassOf shared.now pass }
    requires fits { FitsPass cache pass }
    ensures made { IsPassOf shared.now result.0 }
    ensures fits { FitsPass result.1 result.0 }
{
    let mut lease = shared.enter(pass, cache);
    place_elsewhere(rt, &mut lease);
    lease.leave()
}

/// The passes with an empty cache each, in the other order.
pub(crate) fn seated(
    alloc: Global,
    shared: &Shared,
    mut passes: Vec<Pass>,
) -> Result<Vec<Option<(Pass, ThreadCache)>>, GaveUp>
    requires { AreAllOf shared.now passes.items }
    ensures { IfOk result (λ r. AreReady shared.now (length r.items) r.items) }
{
    let _ = shared.life();
    let mut seats = Vec::new(alloc);
    while let Some(pass) = take_pass(shared, &mut passes) {
        let Ok(()) = seats.push(Some((pass, ThreadCache::empty()))) else {
            return Err(GaveUp::NoPass);
        };
    }
    Ok(seats)
}

/// The passes alone.
pub(crate) fn stood_up(
    alloc: Global,
    shared: &Shared,
    mut seats: Vec<Option<(Pass, ThreadCache)>>,
) -> Result<Vec<Pass>, GaveUp>
    requires { AreReady shared.now (length seats.items) seats.items }
    ensures { IfOk result (λ r. AreAllOf shared.now r.items) }
{
    let mut passes = Vec::new(alloc);
    while let Some(seat) = seats.pop() {
        if let Some((pass, _)) = seat {
            put_pass(shared, &mut passes, pass)?;
        }
    }
    Ok(passes)
}
