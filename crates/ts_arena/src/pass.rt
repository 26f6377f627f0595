//! A caller's right to enter a shared arena.
ghost use Rattle.std.specs.Prelude.{◌≡◌, ◌↔◌, true};
ghost use Rattle.ts_arena.specs.Passes.{caller_of, FitsPass};

use arena_list::ListSeat;
use life_ids::ThreadCache;

/// One caller's right to enter a shared arena. It may move to the caller's thread. A pass that is dropped keeps its
/// arena from ever being settled.
#[derive(Drop)]
pub struct Pass {
    pub(crate) seat: ListSeat,
    pub(crate) life: u64,
}

impl Pass {
    /// Whose pass it is.
    pub fn caller(&self) -> u32
        ensures { result ≡ caller_of self.now }
    {
        self.seat.caller()
    }

    /// The life of the arena that it is for.
    pub fn life(&self) -> u64
        ensures { result ≡ self.now.life }
    {
        self.life
    }

    /// Whether the cache may be used with this pass: it isn't of the pass's life, or it has the caller's joined slot.
    pub fn fits(&self, cache: &ThreadCache) -> bool
        ensures { (result ≡ true) ↔ FitsPass cache.now self.now }
    {
        cache.life() != self.life || self.seat.slot() == Some(cache.slot())
    }
}
