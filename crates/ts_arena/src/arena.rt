//! The arena in the hand of one owner.
ghost use Rattle.std.specs.Prelude.{◌≡◌, ◌+◌, ◌≤◌, ◌<◌, ◌^◌, [], length, sum_by};
ghost use Rattle.arena_block.specs.Policy.{IsValid};
ghost use Rattle.serial_arena.specs.Serial.{used_of, allocated_of};
ghost use Rattle.ts_arena.specs.Sums.{AreSmall};
ghost use Rattle.ts_arena.specs.Arena.{arena_used, arena_allocated, arena_registered, used_at, allocated_at, registered_at, registered_of};

use crate::adopted::Regions;
use crate::boxed::BoxedArena;
use arena_block::Policy;
use arena_list::Entry;
use arena_mem::Part;
use serial_arena::SerialArena;
use std::alloc::Global;
use std::marker::Model;

/// An arena: the serial arenas of its owners, each in the region of its slot, and the regions that it adopted.
///
/// Contracts see it as an `ArenaState`.
#[derive(Drop)]
pub struct Arena {
    pub(crate) life: u64,
    pub(crate) policy: Policy,
    // In the order in which the owners joined.
    pub(crate) owners: Vec<Entry<BoxedArena>>,
    pub(crate) adopted: Regions,
}

impl Model for Arena {
    ghost use Rattle.ts_arena.specs.Arena.{ArenaState, IsArena};

    ghost Value = { ArenaState };

    ghost view = { λ a. record { life = a.life; policy = a.policy; owners = a.owners.items; adopted = a.adopted } };

    ghost invariant = { λ a. IsArena (record { life = a.life; policy = a.policy; owners = a.owners.items; adopted = a.adopted }) };
}

/// What serial arenas have together.
#[derive(Clone, Copy)]
pub(crate) struct Sums {
    pub(crate) used: u128,
    pub(crate) allocated: u128,
    pub(crate) registered: u128,
}

/// The sums with one serial arena more.
fn with_part(sums: Sums, part: &SerialArena) -> Sums
    requires small { (sums.used < 2 ^ 127) × (sums.allocated < 2 ^ 127) × (sums.registered < 2 ^ 127) }
    ensures used { result.used ≡ sums.used + used_of part.now }
    ensures allocated { result.allocated ≡ sums.allocated + allocated_of part.now }
    ensures registered { result.registered ≡ sums.registered + registered_of part.now }
    ensures more { (result.used < sums.used + 2 ^ 64) × (result.allocated < sums.allocated + 2 ^ 64) × (result.registered < sums.registered + 2 ^ 64) }
{
    Sums {
        used: sums.used + part.space_used() as u128,
        allocated: sums.allocated + part.space_allocated(),
        registered: sums.registered + part.registered() as u128,
    }
}

/// What the serial arenas of these owners have together.
pub(crate) fn sums_by(owners: &[Entry<BoxedArena>]) -> Sums
    ensures used { result.used ≡ sum_by used_at owners.now }
    ensures allocated { result.allocated ≡ sum_by allocated_at owners.now }
    ensures registered { result.registered ≡ sum_by registered_at owners.now }
    ensures small { AreSmall result (length owners.now) }
{
    let mut sums = Sums {
        used: 0,
        allocated: 0,
        registered: 0,
    };
    for entry in owners {
        sums = with_part(sums, &entry.part.arena);
    }
    sums
}

/// What these regions have together.
pub(crate) fn sums_in(regions: &[SerialArena]) -> Sums
    ensures used { result.used ≡ sum_by used_of regions.now }
    ensures allocated { result.allocated ≡ sum_by allocated_of regions.now }
    ensures registered { result.registered ≡ sum_by registered_of regions.now }
    ensures small { AreSmall result (length regions.now) }
{
    let mut sums = Sums {
        used: 0,
        allocated: 0,
        registered: 0,
    };
    for region in regions {
        sums = with_part(sums, region);
    }
    sums
}

impl Arena {
    /// An arena with no owners and no adopted regions. It takes no memory.
    pub fn new(alloc: Global, policy: Policy, life: u64) -> Arena
        requires policy { IsValid policy }
        requires born { 1 ≤ life }
        ensures { result ≡ record { life = life; policy = policy; owners = []; adopted = [] } }
    {
        Arena {
            life,
            policy,
            owners: Vec::new(alloc),
            adopted: Regions::new(alloc),
        }
    }

    /// The id of its life.
    pub fn life(&self) -> u64
        ensures life { result ≡ self.now.life }
        ensures born { 1 ≤ self.now.life }
    {
        self.life
    }

    /// How many callers own a serial arena.
    pub fn owners(&self) -> u32
        ensures { result ≡ length self.now.owners }
    {
        self.owners.len() as u32
    }

    /// The used bytes of all serial arenas and adopted regions together.
    pub fn space_used(&self) -> u128
        ensures { result ≡ arena_used self.now }
    {
        sums_by(&self.owners).used + sums_in(self.adopted.list()).used
    }

    /// The sizes of all their blocks together, in bytes.
    pub fn space_allocated(&self) -> u128
        ensures { result ≡ arena_allocated self.now }
    {
        sums_by(&self.owners).allocated + sums_in(self.adopted.list()).allocated
    }

    /// How many cleanups are registered in them.
    pub fn registered(&self) -> u128
        ensures { result ≡ arena_registered self.now }
    {
        sums_by(&self.owners).registered + sums_in(self.adopted.list()).registered
    }
}
