//! A lease as a memory.
ghost use Rattle.serial_arena.specs.Key.{key_of};
ghost use Rattle.serial_arena.specs.Serial.{places_of, buffers_of, blocks_of};

use crate::lease::Lease;
use crate::shared::Shared;
use arena_list::ListSeat;
use arena_mem::{Buffer, MemFault, Memory, NoMemory, Place};
use serial_arena::SerialKey;

// The key has the shared arena, the caller's right in it, its slot, and whether that was cached, beside the key of the
// serial arena: so a lease that goes through any function over memories can be spent as the one that it was.
impl<'s> Memory for Lease<'s> {
    type Key = (Shared, ListSeat, u32, bool, SerialKey);

    ghost key = { λ l. (l.shared, l.seat, l.slot, l.cached, key_of l.part) };

    ghost places = { λ l. places_of l.part };

    ghost buffers = { λ l. buffers_of l.part };

    ghost blocks = { λ l. blocks_of l.part };

    #[inline(always)]
    fn place(&mut self, bytes: u32) -> Result<Place, MemFault> {
        self.part.arena.place(bytes)
    }

    fn read(&self, place: Place) -> &[u8] {
        self.part.arena.read(place)
    }

    fn write(&mut self, place: Place, start: u32, bytes: &[u8]) {
        self.part.arena.write(place, start, bytes);
    }

    fn copy_front(&mut self, from: Place, to: Place, bytes: u32) {
        self.part.arena.copy_front(from, to, bytes);
    }

    fn keep(&mut self, bytes: Vec<u8>) -> Result<Buffer, (NoMemory, Vec<u8>)> {
        self.part.arena.keep(bytes)
    }

    fn keep_copy(&mut self, bytes: &[u8]) -> Result<Buffer, NoMemory> {
        self.part.arena.keep_copy(bytes)
    }

    fn kept(&self, buffer: Buffer) -> &[u8] {
        self.part.arena.kept(buffer)
    }
}
