//! A caller's serial arena, as the list has it.
ghost use Rattle.std.specs.Prelude.{◌≡◌, [], IfOk};
ghost use Rattle.arena_block.specs.Policy.{IsValid};
ghost use Rattle.serial_arena.specs.Serial.{IsSerial, used_of};

use arena_block::Policy;
use arena_mem::{NoMemory, Part};
use serial_arena::{SerialArena, arena_is_laid};
use std::alloc::Global;
use std::marker::Model;

/// A serial arena behind a pointer: a caller takes it out of its slot and puts it back by moving one word, where the
/// arena itself has some 140 bytes.
///
/// Contracts see it as the serial arena.
#[derive(Drop)]
pub(crate) struct BoxedArena {
    pub(crate) arena: Box<SerialArena>,
}

impl Model for BoxedArena {
    ghost use Rattle.serial_arena.specs.Serial.{SerialState};

    ghost Value = { SerialState };

    ghost view = { λ b. b.arena.value };
}

impl BoxedArena {
    /// A serial arena with no blocks.
    pub(crate) fn empty(
        alloc: Global,
        policy: Policy,
        owner: u32,
        life: u64,
        region: u32,
    ) -> Result<BoxedArena, NoMemory>
        requires { IsValid policy }
        ensures { IfOk result (λ b. b ≡ record { owner = owner; life = life; region = region; policy = policy; sizes = []; placements = []; kept = [] }) }
    {
        let arena = Box::new(alloc, SerialArena::new(alloc, policy, owner, life, region))?;
        Ok(BoxedArena { arena })
    }

    pub(crate) fn into_arena(self) -> SerialArena
        ensures { result ≡ self }
    {
        let BoxedArena { arena } = self;
        Box::into_inner(arena)
    }
}

/// A law: as of each serial arena, its placements are laid in its blocks.
pub(crate) fn boxed_arena_is_laid(part: &BoxedArena)
    ensures { IsSerial part.now }
{
    arena_is_laid(&part.arena);
}

impl Part for BoxedArena {
    ghost owner_of = { λ s. s.owner };

    ghost life_of = { λ s. s.life };

    ghost used_of = { used_of };

    fn owner(&self) -> u32 {
        self.arena.owner()
    }

    fn life(&self) -> u64 {
        self.arena.life()
    }

    fn used(&self) -> u64 {
        self.arena.used()
    }
}
