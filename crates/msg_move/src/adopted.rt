// A message of a region that stands apart is given to a message of an arena, which adopts the region.
ghost use Rattle.std.specs.Prelude.{◌≡◌, ◌≢◌, ◌+◌, ◌≤◌, ◌∷◌, [], ℕ, List, IfErr, OnOk, OnErr};
ghost use mathlib.Core.Option.{some};
ghost use lib.ListN.{get_elem?};
ghost use Rattle.arena_mem.specs.declared.place.Place.{Place};
ghost use Rattle.arena_mem.specs.Places.{IsLive};
ghost use Rattle.serial_arena.specs.Serial.{places_of, buffers_of, used_of};
ghost use Rattle.ts_arena.specs.Arena.{arena_registered, arena_used, first_adopted, registered_of};
ghost use Rattle.ts_arena.specs.Sole.{Owns, arena_places, arena_buffers};
ghost use Rattle.pb_schema.specs.Tree.{Shape, One, Sub};
ghost use Rattle.pb_schema.specs.HeldAt.{with_held};
ghost use Rattle.dyn_message.specs.Feet.{Foot, InPlace, KeepsOthers, Separate};
ghost use Rattle.dyn_message.specs.Stands.{Stands};
ghost use Rattle.dyn_message.specs.Links.{IsLinked, LinksTo};
ghost use Rattle.msg_move.specs.Adopted.{AreJoined, IsUsedBy, with_region};

use arena_mem::NoMemory;
use dyn_message::{MsgRef, link_sub};
use msg_layout::tables::Layouts;
use serial_arena::{SerialArena, arena_is_laid};
use ts_arena::{
    Arena, lookups_go_to_the_region, sole_use_keeps_all_else, sums_are_those_of_the_map,
};

/// Gives a message that stands in a region of its own to a field of its type of a message in an arena. The arena adopts
/// the region, as the last one, and the field's message is the child itself then, with no byte of it moved. A refusal
/// hands the region back and changes nothing.
///
/// The region's life is 0, and its number is at least 65,536, above all slots; no region that was adopted before has it.
/// The caller owns a serial arena of the arena.
///
/// # Errors
///
/// `NoMemory` where the arena's list of regions can't grow.
pub fn give_adopted(
    arena: &mut Arena,
    types: &Layouts,
    msg: MsgRef,
    field: u32,
    child: MsgRef,
    region: SerialArena,
    caller: u32,
) -> Result<(), (NoMemory, SerialArena)>
    requires life { region.life ≡ 0 }
    requires high { first_adopted ≤ region.region }
    requires new { (k : ℕ) (s : _) → get_elem? arena.old.adopted k ≡ some s → s.region ≢ region.region }
    requires owner { Owns arena.old.owners caller }
    requires stand { (t : Shape) × (feet : List Foot) × (u : Shape) × (own : List Foot)
        × Stands types.now (arena_places arena.old) (arena_buffers arena.old) msg t feet
        × Stands types.now (places_of region) (buffers_of region) child u own }
    requires field { LinksTo types.now msg.type_no field child.type_no }
    ensures given { OnOk result ((t : Shape) (feet : List Foot) (u : Shape) (own : List Foot)
        → Stands types.now (arena_places arena.old) (arena_buffers arena.old) msg t feet
        → Stands types.now (places_of region) (buffers_of region) child u own
        → IsLinked types.now (arena_places arena.new) (arena_buffers arena.new) msg (with_held types.now msg.type_no field (One (Sub u)) t) feet own field child) }
    ensures adopted { OnOk result (IsUsedBy caller (with_region arena.old region) arena.new) }
    ensures kept { OnOk result (KeepsOthers (arena_places arena.old) (arena_buffers arena.old) (arena_places arena.new) (arena_buffers arena.new) (InPlace msg.place ∷ [])) }
    ensures region_kept { OnOk result (KeepsOthers (places_of region) (buffers_of region) (arena_places arena.new) (arena_buffers arena.new) []) }
    ensures space { OnOk result (arena_used arena.new ≡ arena_used arena.old + used_of region) }
    ensures registered { OnOk result (arena_registered arena.new ≡ arena_registered arena.old + registered_of region) }
    ensures unchanged { OnErr result (arena.new ≡ arena.old) }
    ensures handed_back { IfErr result (λ e. e.1 ≡ region) }
{
    match join(arena, region) {
        Ok(()) => {
            link_alone(arena, types, msg, field, child, caller);
            Ok(())
        }
        Err(refused) => Err(refused),
    }
}

// Adopts a region that has some place.
fn join(arena: &mut Arena, region: SerialArena) -> Result<(), (NoMemory, SerialArena)>
    requires life { region.life ≡ 0 }
    requires high { first_adopted ≤ region.region }
    requires new { (k : ℕ) (s : _) → get_elem? arena.old.adopted k ≡ some s → s.region ≢ region.region }
    requires some { (p : Place) × IsLive (places_of region) p }
    ensures adopted { OnOk result (arena.new ≡ with_region arena.old region) }
    ensures joined { OnOk result (AreJoined arena.old region arena.new) }
    ensures unchanged { OnErr result (arena.new ≡ arena.old) }
    ensures handed_back { IfErr result (λ e. e.1 ≡ region) }
{
    arena_is_laid(&region);
    lookups_go_to_the_region(arena);
    let adopted = arena.adopt(region);
    lookups_go_to_the_region(arena);
    adopted
}

// Links a message in a field where both stand in an arena, as a caller that owns a serial arena in it.
fn link_alone(
    arena: &mut Arena,
    types: &Layouts,
    msg: MsgRef,
    field: u32,
    child: MsgRef,
    caller: u32,
)
    requires owner { Owns arena.old.owners caller }
    requires stand { (t : Shape) × (feet : List Foot) × (u : Shape) × (own : List Foot)
        × Stands types.now (arena_places arena.old) (arena_buffers arena.old) msg t feet
        × Stands types.now (arena_places arena.old) (arena_buffers arena.old) child u own × Separate own feet }
    requires field { LinksTo types.now msg.type_no field child.type_no }
    ensures linked { (t : Shape) (feet : List Foot) (u : Shape) (own : List Foot)
        → Stands types.now (arena_places arena.old) (arena_buffers arena.old) msg t feet
        → Stands types.now (arena_places arena.old) (arena_buffers arena.old) child u own → Separate own feet
        → IsLinked types.now (arena_places arena.new) (arena_buffers arena.new) msg (with_held types.now msg.type_no field (One (Sub u)) t) feet own field child }
    ensures used_by { IsUsedBy caller arena.old arena.new }
    ensures kept { KeepsOthers (arena_places arena.old) (arena_buffers arena.old) (arena_places arena.new) (arena_buffers arena.new) (InPlace msg.place ∷ []) }
    ensures space { arena_used arena.new ≡ arena_used arena.old }
    ensures registered { arena_registered arena.new ≡ arena_registered arena.old }
{
    sole_use_keeps_all_else();
    sums_are_those_of_the_map(arena);
    match arena.enter_sole(caller) {
        Ok(mut sole) => link_sub(&mut sole, types, msg, field, child),
        Err(_) => unreachable!(),
    }
    sums_are_those_of_the_map(arena);
}
