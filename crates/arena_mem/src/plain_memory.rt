// The plain memory: a vector for each place.
ghost use Rattle.std.specs.Prelude.{◌≡◌, ◌^◌, ◌-◌, ◌<◌, ◌++◌, ◌∷◌, [], length, replicate, Err, IfOk, IfErr, OnOk, OnErr};
ghost use Rattle.arena_mem.specs.declared.memory.MemFault.TheVariants.{BlocksSpent};
ghost use Rattle.arena_mem.specs.Places.{round8, IsPlaceable, NamesFullRegion};
ghost use Rattle.arena_mem.specs.Plain.{places_of, buffers_of, blocks_of, whole_block, block_at, IsPlain};

use crate::memory::{MemFault, Memory};
use crate::place::{Buffer, Place};
use crate::plain_bytes::{PlainBytes, copy_block, read_at, write_block};
use no_memory::NoMemory;
use std::alloc::Global;
use std::marker::Model;

/// A memory of region 0 in which each place is a block of its own, and a vector of its own: the plain yardstick that
/// other memories are compared with in tests.
#[derive(Drop)]
pub struct PlainMemory {
    placed: Vec<PlainBytes>,
    kept: Vec<PlainBytes>,
}

impl Model for PlainMemory {
    ghost use Rattle.arena_mem.specs.Plain.{PlainState, IsPlain};

    ghost Value = { PlainState };

    ghost view = { λ m. record { placed = m.placed.items; kept = m.kept.items } };

    ghost invariant = { λ m. IsPlain m.placed.items };
}

impl PlainMemory {
    /// An empty memory. It takes no memory itself.
    pub fn new(alloc: Global) -> PlainMemory
        ensures { result ≡ record { placed = []; kept = [] } }
    {
        PlainMemory {
            placed: Vec::new(alloc),
            kept: Vec::new(alloc),
        }
    }
}

// Adds a block of `bytes` zero bytes, rounded up to a multiple of 8, and answers its place.
fn add_block(placed: &mut Vec<PlainBytes>, bytes: u32) -> Result<Place, MemFault>
    requires placeable { IsPlaceable bytes }
    requires plain { IsPlain placed.old.items }
    ensures added { OnOk result (placed.new.items ≡ placed.old.items ++ replicate (round8 bytes) 0 ∷ []) }
    ensures place { IfOk result (λ p. p ≡ whole_block (length placed.old.items) (replicate (round8 bytes) 0)) }
    ensures plain { IsPlain placed.new.items }
    ensures unchanged { OnErr result (placed.new.items ≡ placed.old.items) }
    ensures spent { IfErr result (NamesFullRegion (λ _. length placed.old.items)) }
    ensures full { length placed.old.items ≡ 2 ^ 32 - 1 → result ≡ Err (BlocksSpent 0) }
{
    if placed.len() == u32::MAX as usize {
        return Err(MemFault::BlocksSpent { region: 0 });
    }
    let block = placed.len() as u32;
    let len = (bytes + 7) / 8 * 8;
    let alloc = *placed.allocator();
    let Ok(zeros) = vec![in alloc; 0; len as usize] else {
        return Err(MemFault::NoMemory);
    };
    if placed.push(PlainBytes { bytes: zeros }).is_err() {
        return Err(MemFault::NoMemory);
    }
    Ok(Place {
        region: 0,
        block,
        offset: 0,
        len,
    })
}

// Adds a byte string, and answers its name.
fn add_kept(kept: &mut Vec<PlainBytes>, bytes: Vec<u8>) -> Result<Buffer, (NoMemory, Vec<u8>)>
    ensures added { OnOk result (kept.new.items ≡ kept.old.items ++ bytes.items ∷ []) }
    ensures name { IfOk result (λ b. b ≡ record { region = 0; number = length kept.old.items }) }
    ensures unchanged { OnErr result (kept.new.items ≡ kept.old.items) }
    ensures handed_back { IfErr result (λ e. e.1 ≡ bytes) }
{
    if kept.reserve(1).is_err() {
        return Err((NoMemory, bytes));
    }
    let number = kept.len() as u64;
    let Ok(()) = kept.push(PlainBytes { bytes }) else {
        unreachable!()
    };
    Ok(Buffer { region: 0, number })
}

impl Memory for PlainMemory {
    type Key = ();

    ghost key = { λ _. tt };

    ghost places = { places_of };

    ghost buffers = { buffers_of };

    ghost blocks = { blocks_of };

    fn place(&mut self, bytes: u32) -> Result<Place, MemFault> {
        let place = add_block(&mut self.placed, bytes)?;
        Ok(place)
    }

    fn read(&self, place: Place) -> &[u8] {
        read_at(&self.placed, place.block as usize)
    }

    fn write(&mut self, place: Place, start: u32, bytes: &[u8]) {
        write_block(&mut self.placed, place.block, start, bytes);
    }

    fn copy_front(&mut self, from: Place, to: Place, bytes: u32) {
        copy_block(&mut self.placed, from.block, to.block, bytes);
    }

    fn keep(&mut self, bytes: Vec<u8>) -> Result<Buffer, (NoMemory, Vec<u8>)> {
        let buffer = add_kept(&mut self.kept, bytes)?;
        Ok(buffer)
    }

    fn keep_copy(&mut self, bytes: &[u8]) -> Result<Buffer, NoMemory> {
        let copy = bytes.to_vec(*self.kept.allocator())?;
        match self.keep(copy) {
            Ok(buffer) => Ok(buffer),
            Err((fault, _)) => Err(fault),
        }
    }

    fn kept(&self, buffer: Buffer) -> &[u8] {
        read_at(&self.kept, buffer.number as usize)
    }
}
