//! A caller's part of a shared arena, while the caller has it.
ghost use Rattle.std.specs.Prelude.{◌≡◌, ◌↔◌, ◌+◌, ◌*◌, ◌≤◌, ◌<◌, true, false, Some, IfSome};
ghost use Rattle.serial_arena.specs.Serial.{SerialState, used_of};
ghost use Rattle.arena_list.specs.Words.Core.{slot_count};
ghost use Rattle.arena_list.specs.declared.for_clauses.view.Hold.TheVariants.{Away};
ghost use Rattle.arena_list.specs.Rule.Views.{hand, who, mine, out, shown};
ghost use Rattle.arena_list.specs.Calls.Seats.{view, IsSeatOf};
ghost use Rattle.ts_arena.specs.Arena.{IsOwned};
ghost use Rattle.ts_arena.specs.Passes.{SeatHas, caller_of, slot_of, steps_of, shown_to, HasPart, IsPassOf, FitsPass};
ghost use Rattle.ts_arena.specs.Leases.{caller_in, steps_in, shown_in};

use crate::boxed::{BoxedArena, boxed_arena_is_laid};
use crate::pass::Pass;
use crate::shared::Shared;
use arena_list::ListSeat;
use life_ids::ThreadCache;
use std::marker::Model;

/// A caller's serial arena, out of its slot: a memory that nobody else has. It must be spent by `leave`.
///
/// Contracts see it as a `LeaseState`.
pub struct Lease<'s> {
    pub(crate) shared: &'s Shared,
    pub(crate) seat: ListSeat,
    pub(crate) slot: u32,
    pub(crate) cached: bool,
    pub(crate) part: BoxedArena,
}

impl<'s> Model for Lease<'s> {
    ghost use Rattle.ts_arena.specs.Leases.{LeaseState, IsLease};

    ghost Value = { LeaseState };

    ghost view = { λ l. record { shared = l.shared.now; seat = l.seat; slot = l.slot; cached = l.cached; part = l.part } };

    ghost invariant = { λ l. IsLease (record { shared = l.shared.now; seat = l.seat; slot = l.slot; cached = l.cached; part = l.part }) };
}

impl Shared {
    /// The caller's slot in the list, which it joins where it isn't in it yet.
    fn find_or_join(&self, seat: &mut ListSeat) -> u32
        requires list { IsSeatOf self.now.list seat.old }
        ensures list { IsSeatOf self.now.list seat.new }
        ensures who { who (view seat.new) ≡ who (view seat.old) }
        ensures slot { (hand (view seat.new)).slot ≡ (hand (view seat.old)).slot }
        ensures own { mine (view seat.new) ≡ Some result }
        ensures hold { out (view seat.new) ≡ out (view seat.old) }
        ensures shown { shown (view seat.old) ≤ shown (view seat.new) }
        ensures some_step { (view seat.old).list_steps < (view seat.new).list_steps }
        ensures few_steps { (view seat.new).list_steps ≤ (view seat.old).list_steps + (3 * slot_count + 1) }
    {
        match self.list.find(seat) {
            Some(slot) => slot,
            None => self.list.join(seat),
        }
    }

    /// The slot that the caller enters by, and whether it was cached.
    fn slot_for(&self, seat: &mut ListSeat, cache: ThreadCache) -> (u32, bool)
        requires list { IsSeatOf self.now.list seat.old }
        requires fits { cache.life ≡ self.now.life → mine (view seat.old) ≡ Some cache.slot }
        ensures list { IsSeatOf self.now.list seat.new }
        ensures who { who (view seat.new) ≡ who (view seat.old) }
        ensures slot { (hand (view seat.new)).slot ≡ (hand (view seat.old)).slot }
        ensures own { mine (view seat.new) ≡ Some result.0 }
        ensures hold { out (view seat.new) ≡ out (view seat.old) }
        ensures shown { shown (view seat.old) ≤ shown (view seat.new) }
        ensures cached { (result.1 ≡ true) ↔ (cache.life ≡ self.now.life) }
        ensures no_step { result.1 ≡ true → (view seat.new).list_steps ≡ (view seat.old).list_steps }
        ensures steps { result.1 ≡ false → ((view seat.old).list_steps + 1 ≤ (view seat.new).list_steps) × ((view seat.new).list_steps ≤ (view seat.old).list_steps + 193) }
    {
        if cache.life() == self.life {
            (cache.slot(), true)
        } else {
            (self.find_or_join(seat), false)
        }
    }

    /// Takes the caller's serial arena out of its slot.
    fn take(&self, seat: &mut ListSeat, slot: u32) -> BoxedArena
        requires list { IsSeatOf self.now.list seat.old }
        requires own { mine (view seat.old) ≡ Some slot }
        requires part { (s : SerialState) × SeatHas seat.old s × IsOwned self.now.life self.now.policy slot (who (view seat.old)) s }
        ensures list { IsSeatOf self.now.list seat.new }
        ensures who { who (view seat.new) ≡ who (view seat.old) }
        ensures own { mine (view seat.new) ≡ Some slot }
        ensures part { (s : SerialState) → SeatHas seat.old s → result ≡ s }
        ensures owned { IsOwned self.now.life self.now.policy slot (who (view seat.new)) result }
        ensures out { out (view seat.new) ≡ Away (used_of result) }
        ensures shown { shown (view seat.new) ≡ shown (view seat.old) }
        ensures no_step { (view seat.new).list_steps ≡ (view seat.old).list_steps }
    {
        self.list.take_slot(seat, slot)
    }

    /// Takes the caller's serial arena out of its slot, for the caller alone. Where the cache is of this life its slot
    /// is used, and no list step is made; else the list is searched, and the caller joins it where it isn't in it: at
    /// least 1 list step, and at most 193. It takes no memory.
    pub fn enter<'s>(&'s self, pass: Pass, cache: ThreadCache) -> Lease<'s>
        requires made { IsPassOf self.now pass }
        requires fits { FitsPass cache pass }
        ensures shared { result.shared ≡ self.now }
        ensures caller { caller_in result ≡ caller_of pass }
        ensures slot { IfSome (slot_of pass) (λ slot. result.slot ≡ slot) }
        // what this pass left last, or the arena had at `share`
        ensures part { (s : SerialState) → HasPart pass s → result.part ≡ s }
        ensures cached { (result.cached ≡ true) ↔ (cache.life ≡ self.now.life) }
        ensures no_step { result.cached ≡ true → steps_in result ≡ steps_of pass }
        ensures steps { result.cached ≡ false → (steps_of pass + 1 ≤ steps_in result) × (steps_in result ≤ steps_of pass + 193) }
        ensures shown { shown_to pass ≤ shown_in result }
    {
        let mut seat = pass.seat;
        let (slot, cached) = self.slot_for(&mut seat, cache);
        let part = self.take(&mut seat, slot);
        Lease {
            shared: self,
            seat,
            slot,
            cached,
            part,
        }
    }
}

impl<'s> Lease<'s> {
    /// Whether the cached slot was used.
    pub fn cached(&self) -> bool
        ensures { result ≡ self.now.cached }
    {
        self.cached
    }

    /// Gives the serial arena back to its slot, and answers the pass, with a cache of this life and the caller's slot.
    /// It makes no list step and takes no memory.
    pub fn leave(self) -> (Pass, ThreadCache)
        ensures pass { IsPassOf self.entry.shared result.0 }
        ensures caller { caller_of result.0 ≡ caller_in self.entry }
        ensures slot { slot_of result.0 ≡ Some self.entry.slot }
        ensures part { HasPart result.0 self.entry.part }
        ensures no_step { steps_of result.0 ≡ steps_in self.entry }
        ensures shown { shown_in self.entry ≤ shown_to result.0 }
        ensures life { result.1.life ≡ self.entry.shared.life }
        ensures cache { result.1.slot ≡ self.entry.slot }
        ensures fits { FitsPass result.1 result.0 }
    {
        let Lease {
            shared,
            mut seat,
            slot,
            cached: _,
            part,
        } = self;
        boxed_arena_is_laid(&part);
        shared.list.give_slot(&mut seat, slot, part);
        let life = shared.life;
        (Pass { seat, life }, ThreadCache::of(life, slot))
    }
}
