// What holds of every arena.
ghost use Rattle.std.specs.Prelude.{◌≡◌, ◌≤◌, ◌<◌, ℕ, List, length};
ghost use Rattle.std.specs.FinMap as fin;
ghost use Rattle.arena_mem.specs.declared.place.Place.{Place};
ghost use Rattle.arena_mem.specs.Places.{IsLive, Apart};
ghost use Rattle.arena_block.specs.declared.policy.Policy.{Policy};
ghost use Rattle.serial_arena.specs.declared.span.Span.{Span};
ghost use Rattle.serial_arena.specs.Laid.{Laid, span_at, place_of};
ghost use Rattle.serial_arena.specs.Serial.{places_of, blocks_of, IsSerial};

use crate::arena::SerialArena;

/// A law: where placements are laid by a policy, any two of them lie apart.
pub fn laid_spans_lie_apart()
    ensures { (policy : Policy) (sizes : List ℕ) (spans : List Span) → Laid policy sizes spans → (region j k : ℕ) → j < k → k < length spans → Apart (place_of region (span_at spans j)) (place_of region (span_at spans k)) }
{}

/// A law: an arena's placements are laid in its blocks by its policy, and it uses fewer than 2^63 bytes.
pub fn arena_is_laid(arena: &SerialArena)
    ensures { IsSerial arena.now }
{
    arena.space_used();
}

/// A law: no two places of an arena share a byte.
pub fn places_lie_apart(arena: &SerialArena)
    ensures { (p q : Place) → IsLive (places_of arena.now) p → IsLive (places_of arena.now) q → (p ≡ q → ⊥) → Apart p q }
{
    arena_is_laid(arena);
}

/// A law: an arena has no more blocks than places.
pub fn blocks_hold_places(arena: &SerialArena)
    ensures { (region : ℕ) → blocks_of arena.now region ≤ fin.len (places_of arena.now) }
{
    arena_is_laid(arena);
}
