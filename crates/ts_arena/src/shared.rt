//! The arena while many callers share it.
ghost use Rattle.std.specs.Prelude.{◌≡◌, ◌≤◌};

use crate::adopted::Regions;
use crate::boxed::BoxedArena;
use arena_block::Policy;
use arena_list::ArenaList;
use std::marker::Model;

/// An arena that many callers share. It may be lent to threads; each caller enters it with a pass.
///
/// Contracts see it as a `SharedState`.
#[derive(Drop)]
pub struct Shared {
    pub(crate) life: u64,
    pub(crate) policy: Policy,
    pub(crate) list: ArenaList<BoxedArena>,
    pub(crate) adopted: Regions,
    // How many passes were made, and what the adopted regions use.
    pub(crate) made: u32,
    pub(crate) adopted_used: u128,
}

impl Model for Shared {
    ghost use Rattle.ts_arena.specs.Passes.{SharedState, IsShared};

    ghost Value = { SharedState };

    ghost view = { λ s. record { life = s.life; policy = s.policy; list = s.list; adopted = s.adopted } };

    ghost invariant = { λ s. IsShared (record { life = s.life; policy = s.policy; list = s.list; adopted = s.adopted }) s.made s.adopted_used };
}

impl Shared {
    /// The life of the arena.
    pub fn life(&self) -> u64
        ensures life { result ≡ self.now.life }
        ensures born { 1 ≤ self.now.life }
    {
        self.life
    }
}
