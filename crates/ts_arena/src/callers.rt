//! Callers of the arena, over the clauses of its public calls alone.
ghost use Rattle.std.specs.Prelude.{◌≡◌, ◌≢◌, true, ◌+◌, ◌^◌, ◌<◌, ◌≤◌, [], IfOk, IfErr, IfSome, length};
ghost use Rattle.std.specs.FinMap as map;
ghost use Rattle.arena_mem.specs.declared.place.Place.{Place};
ghost use Rattle.arena_mem.specs.Places.{IsPlaceable, IsLive, KeepsRest};
ghost use Rattle.serial_arena.specs.Serial.{places_of};
ghost use Rattle.life_ids.specs.Seats.{greatest_drawn};
ghost use Rattle.ts_arena.specs.Arena.{first_adopted};
ghost use Rattle.ts_arena.specs.Sole.{arena_places};
ghost use Rattle.ts_arena.specs.Passes.{caller_of, steps_of, made_by, IsPassOf, AreAllOf, FitsPass};

use crate::{Arena, Pass, SettleFault, ShareFault, Shared, SoleFault, lookups_go_to_the_region};
use arena_mem::{MemFault, Memory, Place};
use cleanup_list::CleanupWatch;
use life_ids::{IdSource, IdsSpent, ThreadCache};
use serial_arena::SerialArena;
use std::alloc::Global;
use thiserror::Error;

/// Why a caller gave up.
#[derive(Debug, Drop, Error)]
pub(crate) enum GaveUp {
    #[error("not shared: {0}")]
    Share(ShareFault),
    #[error("not settled: {0}")]
    Settle(SettleFault),
    #[error("not entered: {0}")]
    Sole(SoleFault),
    #[error("not placed: {0}")]
    Memory(MemFault),
    #[error("no id is left")]
    Ids(IdsSpent),
    #[error("no pass")]
    NoPass,
}

/// Enters with a cache of another life: the list is walked.
pub(crate) fn enter_anew(shared: &Shared, pass: Pass, cache: ThreadCache) -> (Pass, ThreadCache)
    requires made { IsPassOf shared.now pass }
    requires other { cache.life ≢ shared.now.life }
    ensures made { IsPassOf shared.now result.0 }
    ensures caller { caller_of result.0 ≡ caller_of pass }
    ensures life { result.1.life ≡ shared.now.life }
    ensures fits { FitsPass result.1 result.0 }
    ensures steps { (steps_of pass + 1 ≤ steps_of result.0) × (steps_of result.0 ≤ steps_of pass + 193) }
{
    let lease = shared.enter(pass, cache);
    let cached = lease.cached();
    prove!(!cached);
    lease.leave()
}

/// Enters with the cache that leaving gave: no list step is made.
pub(crate) fn enter_again(shared: &Shared, pass: Pass, cache: ThreadCache) -> (Pass, ThreadCache)
    requires made { IsPassOf shared.now pass }
    requires life { cache.life ≡ shared.now.life }
    requires fits { FitsPass cache pass }
    ensures made { IsPassOf shared.now result.0 }
    ensures caller { caller_of result.0 ≡ caller_of pass }
    ensures life { result.1.life ≡ shared.now.life }
    ensures fits { FitsPass result.1 result.0 }
    ensures steps { steps_of result.0 ≡ steps_of pass }
{
    let lease = shared.enter(pass, cache);
    let cached = lease.cached();
    prove!(cached);
    lease.leave()
}

/// Shares the arena with caller 4 alone.
pub(crate) fn share_with_one(arena: Arena) -> Result<(Shared, Pass), GaveUp>
    ensures made { IfOk result (λ r. IsPassOf r.0 r.1) }
    ensures life { IfOk result (λ r. r.0.life ≡ arena.life) }
    ensures alone { IfOk result (λ r. made_by r.0 ≡ 1) }
    ensures no_step { IfOk result (λ r. steps_of r.1 ≡ 0) }
{
    match arena.share(&[4]) {
        Ok((shared, mut passes)) => match passes.pop() {
            Some(pass) => Ok((shared, pass)),
            None => Err(GaveUp::NoPass),
        },
        Err((fault, _)) => Err(GaveUp::Share(fault)),
    }
}

/// Settles with the one pass.
pub(crate) fn settle_one(shared: Shared, pass: Pass, alloc: Global) -> Result<Arena, GaveUp>
    requires made { IsPassOf shared pass }
    ensures life { IfOk result (λ a. a.life ≡ shared.life) }
{
    let Ok(mut passes) = Vec::with_capacity(alloc, 1) else {
        return Err(GaveUp::NoPass);
    };
    if passes.push(pass).is_err() {
        return Err(GaveUp::NoPass);
    }
    match shared.settle(passes) {
        Ok(arena) => Ok(arena),
        Err((fault, _, _)) => Err(GaveUp::Settle(fault)),
    }
}

/// One caller enters an arena twice, and once in the arena's next life with the cache of the life before. The cache
/// serves within its life alone: the list is walked by the first entering and by the last.
pub(crate) fn enter_over_two_lives<W: CleanupWatch>(
    alloc: Global,
    arena: Arena,
    ids: &mut IdSource,
    watch: &mut W,
) -> Result<(Shared, Pass, ThreadCache), GaveUp>
    requires older { arena.life ≤ greatest_drawn ids.old }
    ensures made { IfOk result (λ r. IsPassOf r.0 r.1) }
    ensures life { IfOk result (λ r. (r.0.life ≡ greatest_drawn ids.new) × (arena.life < r.0.life)) }
    ensures steps { IfOk result (λ r. (1 ≤ steps_of r.1) × (steps_of r.1 ≤ 193)) }
    ensures cache { IfOk result (λ r. r.2.life ≡ r.0.life) }
{
    let (shared, pass) = share_with_one(arena)?;
    let _ = shared.life();
    let (pass, cache) = enter_anew(&shared, pass, ThreadCache::empty());
    let (pass, cache) = enter_again(&shared, pass, cache);
    let mut arena = settle_one(shared, pass, alloc)?;
    if let Err(spent) = arena.reset(ids, watch) {
        return Err(GaveUp::Ids(spent));
    }
    let (shared, pass) = share_with_one(arena)?;
    let (pass, cache) = enter_anew(&shared, pass, cache);
    Ok((shared, pass, cache))
}

/// Shares the arena among callers.
pub(crate) fn share_among(arena: Arena, callers: &[u32]) -> Result<(Shared, Vec<Pass>), GaveUp>
    requires { (0 < length callers.now) × (length callers.now < 2 ^ 32) }
    ensures all { IfOk result (λ r. AreAllOf r.0 r.1.items) }
    ensures made { IfOk result (λ r. made_by r.0 ≡ length r.1.items) }
    ensures life { IfOk result (λ r. r.0.life ≡ arena.life) }
{
    match arena.share(callers) {
        Ok(made) => Ok(made),
        Err((fault, _)) => Err(GaveUp::Share(fault)),
    }
}

/// Takes the last pass out of the list.
pub(crate) fn take_pass(shared: &Shared, passes: &mut Vec<Pass>) -> Option<Pass>
    requires { AreAllOf shared.now passes.old.items }
    ensures all { AreAllOf shared.now passes.new.items }
    ensures pass { IfSome result (λ p. IsPassOf shared.now p) }
    ensures fewer { IfSome result (λ _. length passes.new.items + 1 ≡ length passes.old.items) }
{
    let _ = shared;
    match passes.pop() {
        Some(pass) => Some(pass),
        None => None,
    }
}

/// Enters, places so many bytes, and leaves: whether there was memory, and whether the cached slot was used.
pub(crate) fn visit(
    shared: &Shared,
    pass: Pass,
    cache: ThreadCache,
    bytes: u32,
) -> (Pass, ThreadCache, bool, bool)
    requires made { IsPassOf shared.now pass }
    requires fits { FitsPass cache pass }
    requires bytes { IsPlaceable bytes }
    ensures made { IsPassOf shared.now result.0 }
    ensures fits { FitsPass result.1 result.0 }
    ensures caller { caller_of result.0 ≡ caller_of pass }
    ensures life { result.1.life ≡ shared.now.life }
{
    let mut lease = shared.enter(pass, cache);
    let is_placed = place_in(&mut lease, bytes).is_ok();
    let cached = lease.cached();
    let (pass, cache) = lease.leave();
    (pass, cache, is_placed, cached)
}

/// Places and writes in any memory.
pub(crate) fn place_in<M: Memory>(mem: &mut M, bytes: u32) -> Result<(), MemFault>
    requires { IsPlaceable bytes }
    ensures key { M.key mem.new ≡ M.key mem.old }
{
    let place = mem.place(bytes)?;
    mem.write(place, 0, &[7]);
    Ok(())
}

/// Adds a pass to the list, with ample memory.
pub(crate) fn put_pass(shared: &Shared, passes: &mut Vec<Pass>, pass: Pass) -> Result<(), GaveUp>
    requires all { AreAllOf shared.now passes.old.items }
    requires made { IsPassOf shared.now pass }
    ensures all { AreAllOf shared.now passes.new.items }
{
    let _ = shared;
    let Ok(()) = passes.push(pass) else {
        return Err(GaveUp::NoPass);
    };
    Ok(())
}

/// Settles with these passes: the arena, or the fault with what was handed back.
pub(crate) fn settle_with(
    shared: Shared,
    passes: Vec<Pass>,
) -> Result<Arena, (SettleFault, Shared, Vec<Pass>)>
    requires { AreAllOf shared passes.items }
    ensures life { IfOk result (λ a. a.life ≡ shared.life) }
    ensures back { IfErr result (λ e. AreAllOf e.1 e.2.items) }
    ensures kept { IfErr result (λ e. (p : _) → IsPassOf shared p → IsPassOf e.1 p) }
{
    match shared.settle(passes) {
        Ok(arena) => Ok(arena),
        Err((fault, shared, passes)) => Err((fault, shared, passes)),
    }
}

/// What settling says to these passes and a pass of another life.
pub(crate) fn settle_with_foreign(
    shared: Shared,
    mut passes: Vec<Pass>,
    foreign: Pass,
) -> Result<SettleFault, GaveUp>
    requires all { AreAllOf shared passes.items }
    requires foreign { foreign.life ≢ shared.life }
{
    let Ok(()) = passes.push(foreign) else {
        return Err(GaveUp::NoPass);
    };
    match shared.settle(passes) {
        Ok(_) => Err(GaveUp::NoPass),
        Err((fault, _, _)) => Ok(fault),
    }
}

/// Adopts the first region of an arena: whether there was memory. The places of the region are the arena's then.
pub(crate) fn adopt_first(arena: &mut Arena, region: SerialArena) -> bool
    requires none { arena.old.adopted ≡ [] }
    requires life { region.life ≡ 0 }
    requires high { first_adopted ≤ region.region }
    ensures live { result ≡ true → (p : Place) → IsLive (places_of region) p → IsLive (arena_places arena.new) p }
{
    let is_adopted = arena.adopt(region).is_ok();
    lookups_go_to_the_region(arena);
    is_adopted
}

/// What the caller of a pass finds used, with the pass taken out of the list and put back.
pub(crate) fn used_by_last(shared: &Shared, passes: &mut Vec<Pass>) -> Result<u128, GaveUp>
    requires all { AreAllOf shared.now passes.old.items }
    ensures all { AreAllOf shared.now passes.new.items }
{
    let Some(mut pass) = take_pass(shared, passes) else {
        return Err(GaveUp::NoPass);
    };
    let used = shared.space_used(&mut pass);
    put_pass(shared, passes, pass)?;
    Ok(used)
}

/// Fills blocks by the policy in a lease: whether there was memory.
pub(crate) fn fill_blocks(shared: &Shared, pass: Pass) -> (Pass, bool)
    requires made { IsPassOf shared.now pass }
    ensures made { IsPassOf shared.now result.0 }
{
    let _ = shared.life();
    let mut lease = shared.enter(pass, ThreadCache::empty());
    let is_filled = place_five(&mut lease).is_ok();
    let (pass, _) = lease.leave();
    (pass, is_filled)
}

/// Places 240, 8, 600, 40,000 and 8 bytes in any memory.
fn place_five<M: Memory>(mem: &mut M) -> Result<(), MemFault>
    ensures key { M.key mem.new ≡ M.key mem.old }
{
    mem.place(240)?;
    mem.place(8)?;
    mem.place(600)?;
    mem.place(40_000)?;
    mem.place(8)?;
    Ok(())
}

/// Enters alone, places 16 bytes there, and copies the front of a place of any part of the arena to them, which it
/// reads then. The arena has one place more afterwards, and what was live before has its bytes.
pub(crate) fn copy_alone(arena: &mut Arena, caller: u32, from: Place) -> Result<(Place, u8), GaveUp>
    requires live { IsLive (arena_places arena.old) from }
    requires long { 8 ≤ from.len }
    ensures count { IfOk result (λ _. map.len (arena_places arena.new) ≡ map.len (arena_places arena.old) + 1) }
    ensures rest { KeepsRest (arena_places arena.old) (arena_places arena.new) }
    ensures live { IfOk result (λ r. IsLive (arena_places arena.new) r.0) }
    ensures len { IfOk result (λ r. r.0.len ≡ 16) }
{
    match arena.enter_sole(caller) {
        Ok(mut sole) => copy_in(&mut sole, from),
        Err(fault) => Err(GaveUp::Sole(fault)),
    }
}

/// The same in any memory.
fn copy_in<M: Memory>(mem: &mut M, from: Place) -> Result<(Place, u8), GaveUp>
    requires live { IsLive (M.places mem.old) from }
    requires long { 8 ≤ from.len }
    ensures key { M.key mem.new ≡ M.key mem.old }
    ensures count { IfOk result (λ _. map.len (M.places mem.new) ≡ map.len (M.places mem.old) + 1) }
    ensures rest { KeepsRest (M.places mem.old) (M.places mem.new) }
    ensures live { IfOk result (λ r. IsLive (M.places mem.new) r.0) }
    ensures len { IfOk result (λ r. r.0.len ≡ 16) }
{
    match mem.place(16) {
        Ok(to) => {
            mem.copy_front(from, to, 8);
            Ok((to, mem.read(to)[0]))
        }
        Err(fault) => Err(GaveUp::Memory(fault)),
    }
}

/// Enters alone and places.
pub(crate) fn place_alone(arena: &mut Arena, caller: u32, bytes: u32) -> Result<(), GaveUp>
    requires bytes { IsPlaceable bytes }
{
    match arena.enter_sole(caller) {
        Ok(mut sole) => match place_in(&mut sole, bytes) {
            Ok(()) => Ok(()),
            Err(fault) => Err(GaveUp::Memory(fault)),
        },
        Err(fault) => Err(GaveUp::Sole(fault)),
    }
}

/// Keeps a byte string and a copy of it in any memory: whether both are read back as they were.
fn keep_in<M: Memory>(mem: &mut M, text: &[u8], alloc: Global) -> Result<bool, GaveUp>
    ensures key { M.key mem.new ≡ M.key mem.old }
{
    let Ok(bytes) = text.to_vec(alloc) else {
        return Err(GaveUp::Memory(MemFault::NoMemory));
    };
    let Ok(kept) = mem.keep(bytes) else {
        return Err(GaveUp::Memory(MemFault::NoMemory));
    };
    let Ok(copy) = mem.keep_copy(text) else {
        return Err(GaveUp::Memory(MemFault::NoMemory));
    };
    Ok(mem.kept(kept) == text && mem.kept(copy) == text)
}

/// Enters, keeps a byte string and a copy of it, and leaves: whether both are read back.
pub(crate) fn keep_leased(shared: &Shared, pass: Pass, text: &[u8], alloc: Global) -> (Pass, bool)
    requires made { IsPassOf shared.now pass }
    ensures made { IsPassOf shared.now result.0 }
{
    let _ = shared.life();
    let mut lease = shared.enter(pass, ThreadCache::empty());
    let are_kept = matches!(keep_in(&mut lease, text, alloc), Ok(true));
    let (pass, _) = lease.leave();
    (pass, are_kept)
}

/// The same of a caller that enters alone.
pub(crate) fn keep_alone(
    arena: &mut Arena,
    caller: u32,
    text: &[u8],
    alloc: Global,
) -> Result<bool, GaveUp> {
    match arena.enter_sole(caller) {
        Ok(mut sole) => keep_in(&mut sole, text, alloc),
        Err(fault) => Err(GaveUp::Sole(fault)),
    }
}
