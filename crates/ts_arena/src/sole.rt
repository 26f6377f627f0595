//! One caller enters an arena alone.
ghost use Rattle.std.specs.Prelude.{◌≡◌, ◌<◌, ◌≤◌, ℕ, [], length, map, IfOk, IfErr, IfSome, IfNone, OnOk, OnErr};
ghost use Rattle.std.specs.Borrow.{sem, RestsIfErr};
ghost use mathlib.Core.Option.{some};
ghost use lib.ListN.{get_elem?};
ghost use Rattle.arena_list.specs.Words.Core.{slot_count};
ghost use Rattle.ts_arena.specs.contracts.arena.Arena.{the_row};
ghost use Rattle.serial_arena.specs.Serial.{SerialState};
ghost use Rattle.arena_list.specs.declared.entry.Entry.{Entry};
ghost use Rattle.arena_list.specs.Rule.Founded.{Differ, slot};
ghost use Rattle.ts_arena.specs.Parts.{IsSlotTable, owner_at};
ghost use Rattle.ts_arena.specs.Sole.{OwnsNothing, IsEntered, CanEnter, RefusesSole, arena_places, arena_buffers, arena_blocks};

use crate::arena::Arena;
use crate::boxed::BoxedArena;
use crate::faults::SoleFault;
use crate::share::{SLOTS, add_spare};
use crate::sole_memory::SoleMemory;
use arena_list::Entry;

/// Where the caller stands among the owners.
fn owner_place(owners: &[Entry<BoxedArena>], who: u32) -> Option<usize>
    ensures there { IfSome result (λ at. (at < length owners.now) × ((owner_at owners.now at).caller ≡ who)) }
    ensures none { IfNone result (OwnsNothing owners.now who) }
{
    for (at, entry) in owners.iter().enumerate() {
        if entry.caller == who {
            return Some(at);
        }
    }
    None
}

/// Each owner's place by its slot.
fn slot_table(owners: &[Entry<BoxedArena>]) -> [u8; 64]
    requires slots { Differ (map slot owners.now) }
    requires small { (i : ℕ) (e : Entry SerialState) → get_elem? owners.now i ≡ some e → e.slot < slot_count }
    ensures { IsSlotTable result owners.now }
{
    let mut table = [0; 64];
    for (at, entry) in owners.iter().enumerate() {
        table[entry.slot as usize] = at as u8;
    }
    table
}

impl Arena {
    /// Each owner's place by its slot.
    fn slot_table(&self) -> [u8; 64]
        ensures { IsSlotTable result self.now.owners }
    {
        slot_table(&self.owners)
    }

    /// The caller's place among the owners, to which it is added where it owns nothing.
    fn own_place(&mut self, caller: u32) -> Result<usize, SoleFault>
        ensures refused { IfErr result (RefusesSole self.old.owners caller) }
        ensures unchanged { OnErr result (self.new ≡ self.old) }
        ensures can { OnOk result (CanEnter self.old.owners caller) }
        ensures entered { IfOk result (IsEntered self.old caller self.new) }
    {
        match owner_place(&self.owners, caller) {
            Some(at) => Ok(at),
            None => self.add_owner(caller),
        }
    }

    /// Adds an owner with nothing in its serial arena, behind the others.
    fn add_owner(&mut self, caller: u32) -> Result<usize, SoleFault>
        requires { OwnsNothing self.old.owners caller }
        ensures refused { IfErr result (RefusesSole self.old.owners caller) }
        ensures unchanged { OnErr result (self.new ≡ self.old) }
        ensures can { OnOk result (CanEnter self.old.owners caller) }
        ensures entered { IfOk result (IsEntered self.old caller self.new) }
    {
        let owners = self.owners();
        if owners >= SLOTS {
            return Err(SoleFault::TooManyCallers { owners, asked: 1 });
        }
        if self.owners.reserve(1).is_err() {
            return Err(SoleFault::NoMemory);
        }
        let alloc = *self.owners.allocator();
        let added = add_spare(alloc, self.policy, self.life, &[], caller, &mut self.owners);
        let Ok(()) = added else {
            return Err(SoleFault::NoMemory);
        };
        Ok(owners as usize)
    }

    /// Enters the arena alone: a memory over all of it, which places and keeps in the caller's serial arena. A caller
    /// that owns nothing gets the least free slot, with an empty serial arena behind the others. An owner is always
    /// entered, without taking memory. A refusal leaves the arena as it was.
    ///
    /// # Errors
    ///
    /// `TooManyCallers` exactly where the caller owns nothing and there are 64 owners; `NoMemory`, only where the caller
    /// owns nothing.
    pub fn enter_sole<'a>(&'a mut self, caller: u32) -> Result<SoleMemory<'a>, SoleFault>
        ensures* unchanged { sem 𝓛 (RestsIfErr the_row self.entry (λ m. m.arena.ghost_name) result (λ last. last ≡ self.old)) }
        ensures same_arena { IfOk result (λ m. m.arena.ghost_name ≡ self.entry.ghost_name) }
        ensures life { IfOk result (λ m. m.arena.now.life ≡ self.old.life) }
        ensures policy { IfOk result (λ m. m.arena.now.policy ≡ self.old.policy) }
        ensures refused { IfErr result (RefusesSole self.old.owners caller) }
        ensures can { OnOk result (CanEnter self.old.owners caller) }
        ensures entered { IfOk result (λ m. IsEntered self.old caller m.arena.now m.at) }
        ensures places { IfOk result (λ m. arena_places m.arena.now ≡ arena_places self.old) }
        ensures buffers { IfOk result (λ m. arena_buffers m.arena.now ≡ arena_buffers self.old) }
        ensures blocks { IfOk result (λ m. (region : ℕ) → arena_blocks m.arena.now region ≡ arena_blocks self.old region) }
    {
        let at = self.own_place(caller)?;
        let slots = self.slot_table();
        Ok(SoleMemory {
            arena: self,
            at,
            slots,
        })
    }
}
