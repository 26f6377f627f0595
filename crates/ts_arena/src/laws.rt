//! What holds of every arena.
ghost use Rattle.std.specs.Prelude.{◌≡◌, ◌≢◌, ℕ};
ghost use Rattle.std.specs.FinMap as map;
ghost use Rattle.serial_arena.specs.Serial.{SerialState, places_of, buffers_of, blocks_of};
ghost use Rattle.ts_arena.specs.Arena.{ArenaState, IsArena, arena_used, arena_registered};
ghost use Rattle.arena_mem.specs.declared.place.Place.{Place};
ghost use Rattle.arena_mem.specs.declared.place.Buffer.{Buffer};
ghost use Rattle.arena_mem.specs.Places.{Apart, IsLive, IsKept, used};
ghost use Rattle.ts_arena.specs.declared.pass.Pass.{Pass};
ghost use Rattle.ts_arena.specs.Passes.{caller_of, own_slot, IsPassOf};
ghost use Rattle.ts_arena.specs.Leases.{caller_in};
ghost use Rattle.ts_arena.specs.Places.{IsPartOf, IsPlaceOf};
ghost use Rattle.ts_arena.specs.Sole.{arena_places, arena_buffers, arena_blocks, frame_of, KeepsAllElse};

use crate::arena::Arena;
use crate::lease::Lease;
use crate::shared::Shared;

/// A law: the owners of an arena have callers and slots that differ, each slot below 64 and each serial arena laid by the
/// policy, in the region of its slot; its adopted regions have numbers that differ, above all slots.
pub fn arenas_are_lawful(arena: &Arena)
    ensures { IsArena arena.now }
{
    let _life = arena.life;
}

/// A law: no two places of an arena share a byte, those of its owners and of its adopted regions alike.
pub fn placements_lie_apart(arena: &Arena)
    ensures { (p q : Place) → IsPlaceOf arena.now p → IsPlaceOf arena.now q → (p ≡ q → ⊥) → Apart p q }
{
    let _life = arena.life;
}

/// A law: in an arena as one memory each lookup goes to the part whose region the place or the buffer names, and there
/// is such a part for all that is live or kept.
pub fn lookups_go_to_the_region(arena: &Arena)
    ensures places { (s : SerialState) (p : Place) → IsPartOf arena.now s → p.region ≡ s.region → map.get (arena_places arena.now) p ≡ map.get (places_of s) p }
    ensures buffers { (s : SerialState) (b : Buffer) → IsPartOf arena.now s → b.region ≡ s.region → map.get (arena_buffers arena.now) b ≡ map.get (buffers_of s) b }
    ensures blocks { (s : SerialState) → IsPartOf arena.now s → arena_blocks arena.now s.region ≡ blocks_of s s.region }
    ensures live { (p : Place) → IsLive (arena_places arena.now) p → (s : SerialState) × IsPartOf arena.now s × (s.region ≡ p.region) }
    ensures kept { (b : Buffer) → IsKept (arena_buffers arena.now) b → (s : SerialState) × IsPartOf arena.now s × (s.region ≡ b.region) }
{
    let _life = arena.life;
}

/// A law: the sums of an arena are those of its map. What it uses is the sum of the lengths of its live places, in
/// bytes, and what it has registered is the number of its kept byte strings.
pub fn sums_are_those_of_the_map(arena: &Arena)
    ensures used { used (arena_places arena.now) ≡ arena_used arena.now }
    ensures registered { map.len (arena_buffers arena.now) ≡ arena_registered arena.now }
{
    let _life = arena.life;
}

/// A law: two arenas with one frame, as the key of a sole use has it, differ in the bytes of placements and in what the
/// caller's own serial arena has, and in nothing else.
pub fn sole_use_keeps_all_else()
    ensures { (at : ℕ) (before after : ArenaState) → frame_of at after ≡ frame_of at before → KeepsAllElse at before after }
{}

/// A law: two passes of one shared arena with different callers have different slots, in the list or beside it.
pub fn passes_have_slots_of_their_own(shared: &Shared)
    ensures { (p q : Pass) → IsPassOf shared.now p → IsPassOf shared.now q → caller_of p ≢ caller_of q → own_slot p ≢ own_slot q }
{
    let _life = shared.life;
}

/// A law: while a lease is out no pass of another caller has its slot, and no lease of another caller has it.
pub fn a_leased_slot_is_its_callers<'s, 't>(shared: &Shared, lease: &Lease<'s>, other: &Lease<'t>)
    requires lease { lease.now.shared ≡ shared.now }
    requires other { other.now.shared ≡ shared.now }
    ensures passes { (p : Pass) → IsPassOf shared.now p → caller_of p ≢ caller_in lease.now → own_slot p ≢ lease.now.slot }
    ensures leases { caller_in other.now ≢ caller_in lease.now → other.now.slot ≢ lease.now.slot }
{
    let _lives = (shared.life, lease.slot, other.slot);
}
