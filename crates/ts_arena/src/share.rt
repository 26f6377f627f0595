//! An arena is shared among callers.
ghost use Rattle.std.specs.Prelude.{◌≡◌, ◌≤◌, ◌<◌, ◌+◌, ◌^◌, IfOk, IfErr, OnOk, OnErr, IfSome, IfNone, true, false, length, map, vec_capacity, [], ◌++◌};
ghost use mathlib.Core.Option.{some};
ghost use lib.ListN.{get_elem?};
ghost use Rattle.arena_block.specs.Policy.{IsValid};
ghost use Rattle.arena_list.specs.Words.Core.{slot_count};
ghost use Rattle.arena_list.specs.Rule.Founded.{caller, has, Differ};
ghost use Rattle.ts_arena.specs.Arena.{AreHeld, AreOwners};
ghost use Rattle.ts_arena.specs.Sharing.{asked_of, slots_with, IsLeastFree, IsRepeat, AddsSpare, AreSpares, CanShare, RefusesShare};
ghost use Rattle.ts_arena.specs.Passes.{pass_of, IsSharedFrom, AreFirstPasses};

use crate::arena::{Arena, sums_in};
use crate::boxed::BoxedArena;
use crate::faults::ShareFault;
use crate::pass::Pass;
use crate::shared::Shared;
use arena_block::Policy;
use arena_list::{ArenaList, Entry, ListSeat};
use arena_mem::NoMemory;
use std::alloc::Global;

/// How many slots there are.
pub(crate) const SLOTS: u32 = 64;

/// Whether the caller owns one of these.
pub(crate) fn is_owner(owners: &[Entry<BoxedArena>], who: u32) -> bool
    ensures { result ≡ has (map caller owners.now) who }
{
    for entry in owners {
        if entry.caller == who {
            return true;
        }
    }
    false
}

/// Whether one of these has the slot.
fn has_slot(entries: &[Entry<BoxedArena>], slot: u32) -> bool
    ensures { result ≡ has (map (λ e. e.slot) entries.now) slot }
{
    for entry in entries {
        if entry.slot == slot {
            return true;
        }
    }
    false
}

/// Where the caller stands in the list, if it does.
fn place_of(callers: &[u32], who: u32) -> Option<u32>
    requires { length callers.now < 2 ^ 32 }
    ensures there { IfSome result (λ at. get_elem? callers.now at ≡ some who) }
    ensures none { IfNone result ((k : _) → get_elem? callers.now k ≡ some who → ⊥) }
{
    for (at, caller) in callers.iter().enumerate() {
        if *caller == who {
            return Some(at as u32);
        }
    }
    None
}

/// The least place whose caller stood before, behind the place where it stood.
fn first_repeat(callers: &[u32]) -> Option<(u32, u32)>
    requires { length callers.now < 2 ^ 32 }
    ensures repeat { IfSome result (λ r. IsRepeat callers.now r.0 r.1) }
    ensures none { IfNone result (Differ callers.now) }
{
    for second in 0..callers.len() {
        if let Some(first) = place_of(&callers[..second], callers[second]) {
            return Some((first, second as u32));
        }
    }
    None
}

/// How many of the callers own nothing yet.
fn count_asked(owners: &[Entry<BoxedArena>], callers: &[u32]) -> u32
    requires { length callers.now < 2 ^ 32 }
    ensures { result ≡ asked_of owners.now callers.now }
{
    let mut asked = 0;
    for who in callers {
        if !is_owner(owners, *who) {
            asked += 1;
        }
    }
    asked
}

/// The least slot that neither an owner nor a spare has.
fn least_free(owners: &[Entry<BoxedArena>], spares: &[Entry<BoxedArena>]) -> u32
    requires { length owners.now + length spares.now < slot_count }
    ensures free { IsLeastFree (slots_with owners.now spares.now) result }
    ensures small { result < slot_count }
{
    for slot in 0..SLOTS {
        if !has_slot(owners, slot) && !has_slot(spares, slot) {
            return slot;
        }
    }
    unreachable!()
}

/// Adds an entry with an empty serial arena for a caller that owns nothing yet.
pub(crate) fn add_spare(
    alloc: Global,
    policy: Policy,
    life: u64,
    owners: &[Entry<BoxedArena>],
    who: u32,
    spares: &mut Vec<Entry<BoxedArena>>,
) -> Result<(), NoMemory>
    requires policy { IsValid policy }
    requires room { has (map caller owners.now) who ≡ false → (length owners.now + length spares.old.items < slot_count) × (length spares.old.items < vec_capacity spares.old) }
    ensures owner { OnOk result (has (map caller owners.now) who ≡ true → spares.new.items ≡ spares.old.items) }
    ensures added { OnOk result (has (map caller owners.now) who ≡ false → AddsSpare policy life owners.now who spares.old.items spares.new.items) }
    ensures unchanged { OnErr result (spares.new.items ≡ spares.old.items) }
    ensures capacity { vec_capacity spares.old ≤ vec_capacity spares.new }
{
    if is_owner(owners, who) {
        return Ok(());
    }
    let slot = least_free(owners, spares);
    let part = BoxedArena::empty(alloc, policy, who, life, slot)?;
    let spare = Entry {
        slot,
        caller: who,
        part,
    };
    if spares.push(spare).is_err() {
        unreachable!();
    }
    Ok(())
}

/// An entry with an empty serial arena for each caller that owns nothing yet.
fn make_spares(
    alloc: Global,
    policy: Policy,
    life: u64,
    owners: &[Entry<BoxedArena>],
    callers: &[u32],
) -> Result<Vec<Entry<BoxedArena>>, NoMemory>
    requires policy { IsValid policy }
    requires owners { AreOwners life policy owners.now }
    requires can { CanShare owners.now callers.now }
    ensures spares { IfOk result (λ r. AreSpares policy life owners.now callers.now r.items) }
    ensures held { IfOk result (λ r. AreHeld life policy (owners.now ++ r.items)) }
{
    let mut spares = Vec::with_capacity(alloc, SLOTS as usize)?;
    for who in callers {
        add_spare(alloc, policy, life, owners, *who, &mut spares)?;
    }
    Ok(spares)
}

/// Makes a pass of each seat.
pub(crate) fn make_passes(mut seats: Vec<ListSeat>, life: u64, passes: &mut Vec<Pass>)
    requires room { (passes.old.items ≡ []) × (length seats.items ≤ vec_capacity passes.old) }
    ensures made { passes.new.items ≡ map (pass_of life) seats.items }
{
    while let Some(seat) = seats.pop() {
        if passes.push(Pass { seat, life }).is_err() {
            unreachable!();
        }
    }
    passes.reverse();
}

impl Arena {
    /// Shares the arena among these callers, with a pass for each, in their order. A caller that owns a serial arena
    /// keeps its slot; each other one gets the least free slot, with an empty serial arena. A refusal hands the arena
    /// back.
    ///
    /// # Errors
    ///
    /// `SameCaller` exactly where two callers are equal; then `TooManyCallers` exactly where the owners and the callers
    /// that own nothing yet are more than 64 together; `NoMemory`.
    pub fn share(self, callers: &[u32]) -> Result<(Shared, Vec<Pass>), (ShareFault, Arena)>
        requires callers { (0 < length callers.now) × (length callers.now < 2 ^ 32) }
        ensures refused { IfErr result (λ e. (e.1 ≡ self) × RefusesShare self.owners callers.now e.0) }
        ensures can { IfOk result (λ r. CanShare self.owners callers.now) }
        ensures shared { IfOk result (λ r. IsSharedFrom self callers.now r.0) }
        ensures passes { IfOk result (λ r. AreFirstPasses self callers.now r.0 r.1.items) }
    {
        if let Some((first, second)) = first_repeat(callers) {
            return Err((ShareFault::SameCaller { first, second }, self));
        }
        let owners = self.owners();
        let asked = count_asked(&self.owners, callers);
        if owners as u64 + asked as u64 > SLOTS as u64 {
            return Err((ShareFault::TooManyCallers { owners, asked }, self));
        }
        self.share_among(callers)
    }

    fn share_among(self, callers: &[u32]) -> Result<(Shared, Vec<Pass>), (ShareFault, Arena)>
        requires callers { (0 < length callers.now) × (length callers.now < 2 ^ 32) }
        requires can { CanShare self.owners callers.now }
        ensures refused { IfErr result (λ e. (e.1 ≡ self) × RefusesShare self.owners callers.now e.0) }
        ensures shared { IfOk result (λ r. IsSharedFrom self callers.now r.0) }
        ensures passes { IfOk result (λ r. AreFirstPasses self callers.now r.0 r.1.items) }
    {
        let alloc = *self.owners.allocator();
        let Ok(mut passes) = Vec::with_capacity(alloc, callers.len()) else {
            return Err((ShareFault::NoMemory, self));
        };
        let spares = make_spares(alloc, self.policy, self.life, &self.owners, callers);
        let Ok(spares) = spares else {
            return Err((ShareFault::NoMemory, self));
        };
        let Arena {
            life,
            policy,
            owners,
            adopted,
        } = self;
        let adopted_used = sums_in(adopted.list()).used;
        match ArenaList::make(alloc, life, owners, spares, callers) {
            Ok((list, seats)) => {
                make_passes(seats, life, &mut passes);
                let made = callers.len() as u32;
                let shared = Shared {
                    life,
                    policy,
                    list,
                    adopted,
                    made,
                    adopted_used,
                };
                Ok((shared, passes))
            }
            Err((_, owners, _)) => {
                let arena = Arena {
                    life,
                    policy,
                    owners,
                    adopted,
                };
                Err((ShareFault::NoMemory, arena))
            }
        }
    }
}
