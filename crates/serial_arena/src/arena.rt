// The arena, and what a contract sees of it.
ghost use Rattle.std.specs.Prelude.{◌≡◌, ◌^◌, ◌<◌, [], length, IsSome};
ghost use Rattle.arena_block.specs.Policy.{IsValid};
ghost use Rattle.cleanup_list.specs.Told.{block, Gains, HasRoom};
ghost use Rattle.arena_mem.specs.Places.{used};
ghost use Rattle.serial_arena.specs.Serial.{places_of, used_of, allocated_of, IsSerial};

use crate::span::Span;
use crate::strings::KeptStrings;
use arena_block::{Block, Policy};
use arena_mem::Part;
use cleanup_list::CleanupWatch;
use ghost_list::GhostList;
use std::alloc::Global;
use std::marker::Model;

/// What no call changes: who owns the arena, in which life of it, the region that its places name, and its policy.
#[derive(Clone, Copy, Debug, PartialEq, Eq)]
pub struct SerialKey {
    pub owner: u32,
    pub life: u64,
    pub region: u32,
    pub policy: Policy,
}

/// What an arena tells at its end: how many cleanups were registered and how many were run, and its used bytes.
#[derive(Clone, Copy, Debug, PartialEq, Eq)]
pub struct SerialRecord {
    pub registered: u64,
    pub cleaned: u64,
    pub used: u64,
}

/// An arena of one owner: blocks by a policy, each filled from its header on, and byte strings that it keeps with a
/// cleanup each. Nothing of it is given up before it ends or is dropped; a drop runs no cleanup.
///
/// The list of placements is read by clauses alone and has no bytes. It is there because what the arena means is a
/// function of what it holds.
#[derive(Drop)]
pub struct SerialArena {
    pub(crate) owner: u32,
    pub(crate) life: u64,
    pub(crate) region: u32,
    pub(crate) policy: Policy,
    pub(crate) blocks: Vec<Block>,
    pub(crate) spans: GhostList<Span>,
    // The lengths of the placements together, and the sizes of the blocks.
    pub(crate) used: u64,
    pub(crate) allocated: u64,
    pub(crate) kept: KeptStrings,
}

impl Model for SerialArena {
    ghost use Rattle.serial_arena.specs.Serial.{SerialState};

    ghost Value = { SerialState };

    ghost use Rattle.serial_arena.specs.Fields.{state_of, HoldsBlocks};

    ghost view = { state_of };

    ghost invariant = { HoldsBlocks };
}

impl SerialArena {
    /// An arena with no blocks. It takes no memory.
    pub fn new(alloc: Global, policy: Policy, owner: u32, life: u64, region: u32) -> SerialArena
        requires { IsValid policy }
        ensures { result ≡ record { owner = owner; life = life; region = region; policy = policy; sizes = []; placements = []; kept = [] } }
    {
        SerialArena {
            owner,
            life,
            region,
            policy,
            blocks: Vec::new(alloc),
            spans: GhostList::new(),
            used: 0,
            allocated: 0,
            kept: KeptStrings::new(alloc),
        }
    }

    /// The region that its places and buffers name.
    pub fn region(&self) -> u32
        ensures { result ≡ self.now.region }
    {
        self.region
    }

    /// The lengths of the placements together, in bytes, each rounded up to a multiple of 8.
    pub fn space_used(&self) -> u64
        ensures used { result ≡ used_of self.now }
        ensures places { result ≡ used (places_of self.now) }
        ensures serial { IsSerial self.now }
    {
        self.used
    }

    /// The sizes of the blocks together, in bytes, their headers included.
    pub fn space_allocated(&self) -> u128
        ensures sizes { result ≡ allocated_of self.now }
        ensures small { result < 2 ^ 64 }
    {
        self.allocated as u128
    }

    /// How many cleanups are registered, which is how many byte strings are kept.
    pub fn registered(&self) -> u64
        ensures { result ≡ length self.now.kept }
    {
        self.kept.count()
    }

    /// Runs each cleanup once, the last one first, and tells the watch of each; then gives up the blocks. It takes no
    /// memory.
    pub fn end<W: CleanupWatch>(self, watch: &mut W) -> SerialRecord
        ensures record_ { result ≡ record { registered = length self.kept; cleaned = length self.kept; used = used_of self } }
        ensures told { Gains (W.told watch.old) (W.told watch.new) (block self.life self.region (length self.kept)) }
        ensures tells { HasRoom (W.told watch.old) (W.room watch.old) (length self.kept) → IsSome (W.told watch.new) }
        ensures room { W.room watch.new ≡ W.room watch.old }
    {
        let registered = self.kept.count();
        let used = self.used;
        let cleaned = self.kept.run_all(self.life, self.region, watch);
        SerialRecord {
            registered,
            cleaned,
            used,
        }
    }
}

impl Part for SerialArena {
    ghost owner_of = { λ s. s.owner };

    ghost life_of = { λ s. s.life };

    ghost used_of = { used_of };

    fn owner(&self) -> u32 {
        self.owner
    }

    fn life(&self) -> u64 {
        self.life
    }

    fn used(&self) -> u64 {
        self.used
    }
}
