// Where a caller found its serial arena last.
ghost use Rattle.std.specs.Prelude.{◌≡◌};

use std::marker::Model;

/// What a thread keeps of the arena that it used last: the arena's life and its own slot there.
///
/// Lives are ids of one counter. A life that the same seat draws later is greater (`draw`: `ascends`), so a cache of an
/// ended life isn't of the one that follows it.
#[derive(Clone, Copy, Debug, PartialEq, Eq)]
pub struct ThreadCache {
    life: u64,
    slot: u32,
}

impl Model for ThreadCache {
    ghost use Rattle.life_ids.specs.Cache.{CacheState};

    ghost Value = { CacheState };

    ghost view = { λ c. record { life = c.life; slot = c.slot } };

    ghost inverse = { λ c. record { life = c.life; slot = c.slot } };
}

impl ThreadCache {
    /// A cache of no arena: its life is 0, which is no id.
    pub fn empty() -> ThreadCache
        ensures life { result.life ≡ 0 }
        ensures slot { result.slot ≡ 0 }
    {
        ThreadCache { life: 0, slot: 0 }
    }

    /// A cache of the arena with this life, whose caller has this slot there.
    pub fn of(life: u64, slot: u32) -> ThreadCache
        ensures life { result.life ≡ life }
        ensures slot { result.slot ≡ slot }
    {
        ThreadCache { life, slot }
    }

    /// The life of its arena, or 0.
    pub fn life(&self) -> u64
        ensures { result ≡ self.now.life }
    {
        self.life
    }

    /// The caller's slot in that arena.
    pub fn slot(&self) -> u32
        ensures { result ≡ self.now.slot }
    {
        self.slot
    }
}
