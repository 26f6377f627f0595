// What holds of the growth of every memory.
ghost use Rattle.std.specs.Prelude.{◌+◌, ◌≤◌, ℕ};
ghost use Rattle.arena_mem.specs.Grows.{Grows};

use crate::memory::Memory;

/// A law: where nothing changed, a memory grew by nothing.
pub fn nothing_grows<M: Memory>(mem: &M)
    ensures { Grows M.key M.places M.buffers M.blocks 0 0 mem.now mem.now }
{}

/// A law: two growths, one after the other, are one growth by the sums.
pub fn growths_join<M: Memory>(mem: &M)
    ensures { (old mid : M) (p q a b : ℕ) → Grows M.key M.places M.buffers M.blocks p a old mid
        → Grows M.key M.places M.buffers M.blocks q b mid mem.now
        → Grows M.key M.places M.buffers M.blocks (p + q) (a + b) old mem.now }
{}
