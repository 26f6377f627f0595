//! An arena adopts a region that was made apart from it.
ghost use Rattle.std.specs.Prelude.{◌≡◌, ◌≢◌, ◌≤◌, ◌++◌, ◌∷◌, [], ℕ, IfErr, OnOk, OnErr};
ghost use mathlib.Core.Option.{some};
ghost use lib.ListN.{get_elem?};
ghost use Rattle.ts_arena.specs.Arena.{first_adopted};

use crate::arena::Arena;
use arena_mem::NoMemory;
use serial_arena::{SerialArena, arena_is_laid};

impl Arena {
    /// Makes the region a part of the arena, with its places, its buffers and its cleanups. A refusal hands it back.
    ///
    /// Its life is 0, and its number is at least 65,536, above all slots; no region that was adopted before has it.
    pub fn adopt(&mut self, region: SerialArena) -> Result<(), (NoMemory, SerialArena)>
        requires life { region.life ≡ 0 }
        requires high { first_adopted ≤ region.region }
        requires new { (k : ℕ) (s : _) → get_elem? self.old.adopted k ≡ some s → s.region ≢ region.region }
        ensures adopted { OnOk result (self.new ≡ record self.old { adopted = self.old.adopted ++ region ∷ [] }) }
        ensures unchanged { OnErr result (self.new ≡ self.old) }
        ensures handed_back { IfErr result (λ e. e.1 ≡ region) }
    {
        arena_is_laid(&region);
        let _ = region.region();
        self.adopted.push(region)
    }
}
