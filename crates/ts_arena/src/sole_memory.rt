//! A whole arena as a memory, for one caller.
ghost use Rattle.std.specs.Prelude.{◌<◌, length};
ghost use Rattle.ts_arena.specs.Parts.{IsSlotTable};
ghost use Rattle.ts_arena.specs.Sole.{frame_of, arena_places, arena_buffers, arena_blocks};

use crate::arena::Arena;
use arena_mem::{Buffer, MemFault, Memory, NoMemory, Place};

/// An arena that one caller uses alone. It reads and writes all serial arenas and adopted regions, and places and keeps
/// in the caller's own serial arena.
#[derive(Drop)]
pub struct SoleMemory<'a> {
    pub(crate) arena: &'a mut Arena,
    // The caller's place among the owners, and each owner's place by its slot.
    pub(crate) at: usize,
    pub(crate) slots: [u8; 64],
    ghost own: { at < length arena.now.owners },
    ghost known: { IsSlotTable slots arena.now.owners },
}

// The key has all of the arena that no call changes, the caller's place, and the borrow: whoever lent the arena knows
// it by its key when it is back.
impl<'a> Memory for SoleMemory<'a> {
    type Key = (Arena, usize, u64);

    ghost key = { λ m. (frame_of m.at m.arena.now, m.at, m.arena.ghost_name) };

    ghost places = { λ m. arena_places m.arena.now };

    ghost buffers = { λ m. arena_buffers m.arena.now };

    ghost blocks = { λ m. arena_blocks m.arena.now };

    fn place(&mut self, bytes: u32) -> Result<Place, MemFault> {
        self.arena.place_for(self.at, bytes)
    }

    fn read(&self, place: Place) -> &[u8] {
        let spot = self.arena.find(&self.slots, place.region);
        self.arena.part_at(spot).read(place)
    }

    fn write(&mut self, place: Place, start: u32, bytes: &[u8]) {
        let spot = self.arena.find(&self.slots, place.region);
        self.arena.write_at(spot, place, start, bytes);
    }

    fn copy_front(&mut self, from: Place, to: Place, bytes: u32) {
        let source = self.arena.find(&self.slots, from.region);
        let target = self.arena.find(&self.slots, to.region);
        if from.region == to.region {
            self.arena.copy_at(target, from, to, bytes);
        } else {
            self.arena.copy_between(source, from, target, to, bytes);
        }
    }

    fn keep(&mut self, bytes: Vec<u8>) -> Result<Buffer, (NoMemory, Vec<u8>)> {
        self.arena.keep_for(self.at, bytes)
    }

    fn keep_copy(&mut self, bytes: &[u8]) -> Result<Buffer, NoMemory> {
        self.arena.keep_copy_for(self.at, bytes)
    }

    fn kept(&self, buffer: Buffer) -> &[u8] {
        let spot = self.arena.find(&self.slots, buffer.region);
        self.arena.part_at(spot).kept(buffer)
    }
}
