// The arena as a memory.
ghost use Rattle.std.specs.Prelude.{◌≡◌, ◌+◌, ◌≤◌, ℕ, List, None, Some, Err, length, take, replicate, IfOk, IfErr, OnOk, OnErr};
ghost use Rattle.std.specs.Option.{option_map};
ghost use Rattle.std.specs.FinMap as map;
ghost use Rattle.arena_mem.specs.declared.place.Place.{Place};
ghost use Rattle.arena_mem.specs.declared.memory.MemFault.TheVariants.{BlocksSpent};
ghost use Rattle.arena_mem.specs.Places.{round8, splice, written, bytes_at, front_copied, used, IsPlaceable, IsLive, IsKept, KeepsRest, KeepsBuffers, AddsAtMostABlock, NamesFullRegion};
ghost use Rattle.arena_mem.specs.Grows.{Grows};
ghost use Rattle.serial_arena.specs.Key.{key_of};
ghost use Rattle.serial_arena.specs.Serial.{place_in, next_placement, with_place, with_bytes, with_kept, IsSpent, Refuses, places_of, buffers_of, blocks_of};

use crate::arena::{SerialArena, SerialKey};
use crate::blocks::{add_size, copy_part, fill_newest, make_room, read_part, rounded, write_part};
use crate::span::Span;
use arena_mem::{Buffer, MemFault, Memory, NoMemory, Place};

impl Memory for SerialArena {
    type Key = SerialKey;

    ghost key = { key_of };

    ghost places = { places_of };

    ghost buffers = { buffers_of };

    ghost blocks = { blocks_of };

    // It is inlined for speed: most lengths are known where it is called, and zeroing is then a few stores.
    #[inline(always)]
    fn place(&mut self, bytes: u32) -> Result<Place, MemFault>
        requires { IsPlaceable bytes }
        ensures key { key_of self.new ≡ key_of self.old }
        ensures fresh { IfOk result (λ p. map.get (places_of self.old) p ≡ None) }
        ensures len { IfOk result (λ p. p.len ≡ round8 bytes) }
        ensures zeros { IfOk result (λ p. map.get (places_of self.new) p ≡ Some (replicate p.len 0)) }
        ensures map { IfOk result (λ p. places_of self.new ≡ map.insert (places_of self.old) p (replicate p.len 0)) }
        ensures count { IfOk result (λ p. map.len (places_of self.new) ≡ map.len (places_of self.old) + 1) }
        ensures space { IfOk result (λ p. used (places_of self.new) ≡ used (places_of self.old) + p.len) }
        ensures rest { KeepsRest (places_of self.old) (places_of self.new) }
        ensures buffers { buffers_of self.new ≡ buffers_of self.old }
        ensures unchanged { OnErr result (places_of self.new ≡ places_of self.old) }
        ensures still_live { (q : Place) → IsLive (places_of self.old) q → IsLive (places_of self.new) q }
        ensures grows { Grows key_of places_of buffers_of blocks_of 1 0 self.old self.new }
        ensures blocks { AddsAtMostABlock (blocks_of self.old) (blocks_of self.new) }
        ensures blocks_unchanged { OnErr result ((region : ℕ) → blocks_of self.new region ≡ blocks_of self.old region) }
        ensures spent { IfErr result (NamesFullRegion (blocks_of self.new)) }

        // The newest block where the rounded length fits, else the next block; a refusal leaves the whole arena as it was.
        ensures name { IfOk result (λ p. p ≡ place_in self.old.region (next_placement self.old bytes)) }
        ensures placed { OnOk result (self.new ≡ with_place self.old bytes) }
        ensures same { OnErr result (self.new ≡ self.old) }

        // `BlocksSpent` comes exactly where there are 2^32 - 1 blocks and another one is needed.
        ensures refusal { IfErr result (Refuses self.old bytes) }
        ensures full { IsSpent self.old bytes → result ≡ Err (BlocksSpent self.old.region) }
    {
        let len = rounded(bytes);
        let added = make_room(&mut self.blocks, &self.policy, self.region, len)?;
        self.used += len as u64;
        add_size(&mut self.allocated, added);
        let block = (self.blocks.len() - 1) as u32;
        let offset = fill_newest(&mut self.blocks, bytes);
        self.spans = self.spans.with(&Span { block, offset, len });
        Ok(Place {
            region: self.region,
            block,
            offset,
            len,
        })
    }

    fn read(&self, place: Place) -> &[u8] {
        read_part(&self.blocks, place.block, place.offset, place.len)
    }

    fn write(&mut self, place: Place, start: u32, bytes: &[u8])
        requires live { IsLive (places_of self.old) place }
        requires fits { start + length bytes.now ≤ place.len }
        ensures key { key_of self.new ≡ key_of self.old }
        ensures here { map.get (places_of self.new) place ≡ option_map (splice start bytes.now) (map.get (places_of self.old) place) }
        ensures others { (q : Place) → (q ≡ place → ⊥) → map.get (places_of self.new) q ≡ map.get (places_of self.old) q }
        ensures map { places_of self.new ≡ written (places_of self.old) place start bytes.now }
        ensures still_live { (q : Place) → IsLive (places_of self.old) q → IsLive (places_of self.new) q }
        ensures count { map.len (places_of self.new) ≡ map.len (places_of self.old) }
        ensures space { used (places_of self.new) ≡ used (places_of self.old) }
        ensures buffers { buffers_of self.new ≡ buffers_of self.old }
        ensures blocks { (region : ℕ) → blocks_of self.new region ≡ blocks_of self.old region }

        // Nothing changes but the bytes of that placement.
        ensures wrote { self.new ≡ with_bytes self.old place start bytes.now }
    {
        write_part(&mut self.blocks, place.block, place.offset + start, bytes);
    }

    fn copy_front(&mut self, from: Place, to: Place, bytes: u32)
        requires from_live { IsLive (places_of self.old) from }
        requires to_live { IsLive (places_of self.old) to }
        requires from_fits { bytes ≤ from.len }
        requires to_fits { bytes ≤ to.len }
        ensures key { key_of self.new ≡ key_of self.old }
        ensures here { map.get (places_of self.new) to ≡ option_map (splice 0 (take bytes (bytes_at (places_of self.old) from))) (map.get (places_of self.old) to) }
        ensures others { (q : Place) → (q ≡ to → ⊥) → map.get (places_of self.new) q ≡ map.get (places_of self.old) q }
        ensures map { places_of self.new ≡ front_copied (places_of self.old) from to bytes }
        ensures still_live { (q : Place) → IsLive (places_of self.old) q → IsLive (places_of self.new) q }
        ensures count { map.len (places_of self.new) ≡ map.len (places_of self.old) }
        ensures space { used (places_of self.new) ≡ used (places_of self.old) }
        ensures buffers { buffers_of self.new ≡ buffers_of self.old }
        ensures blocks { (region : ℕ) → blocks_of self.new region ≡ blocks_of self.old region }

        // Nothing changes but the front of that placement.
        ensures wrote { self.new ≡ with_bytes self.old to 0 (take bytes (bytes_at (places_of self.old) from)) }
    {
        copy_part(
            &mut self.blocks,
            from.block,
            from.offset,
            to.block,
            to.offset,
            bytes,
        );
    }

    fn keep(&mut self, bytes: Vec<u8>) -> Result<Buffer, (NoMemory, Vec<u8>)>
        ensures key { key_of self.new ≡ key_of self.old }
        ensures fresh { IfOk result (λ b. map.get (buffers_of self.old) b ≡ None) }
        ensures value { IfOk result (λ b. map.get (buffers_of self.new) b ≡ Some bytes.items) }
        ensures map { IfOk result (λ b. buffers_of self.new ≡ map.insert (buffers_of self.old) b bytes.items) }
        ensures count { IfOk result (λ b. map.len (buffers_of self.new) ≡ map.len (buffers_of self.old) + 1) }
        ensures rest { KeepsBuffers (buffers_of self.old) (buffers_of self.new) }
        ensures places { places_of self.new ≡ places_of self.old }
        ensures blocks { (region : ℕ) → blocks_of self.new region ≡ blocks_of self.old region }
        ensures unchanged { OnErr result (buffers_of self.new ≡ buffers_of self.old) }
        ensures grows { Grows key_of places_of buffers_of blocks_of 0 1 self.old self.new }
        ensures handed_back { IfErr result (λ e. e.1 ≡ bytes) }

        // The number is the count of byte strings before; a refusal leaves the whole arena as it was.
        ensures name { IfOk result (λ b. b ≡ record { region = self.old.region; number = length self.old.kept }) }
        ensures kept { OnOk result (self.new ≡ with_kept self.old bytes.items) }
        ensures same { OnErr result (self.new ≡ self.old) }
    {
        let number = self.kept.keep(bytes)?;
        Ok(Buffer {
            region: self.region,
            number,
        })
    }

    fn keep_copy(&mut self, bytes: &[u8]) -> Result<Buffer, NoMemory>
        ensures key { key_of self.new ≡ key_of self.old }
        ensures fresh { IfOk result (λ b. map.get (buffers_of self.old) b ≡ None) }
        ensures value { IfOk result (λ b. map.get (buffers_of self.new) b ≡ Some bytes.now) }
        ensures map { IfOk result (λ b. buffers_of self.new ≡ map.insert (buffers_of self.old) b bytes.now) }
        ensures count { IfOk result (λ b. map.len (buffers_of self.new) ≡ map.len (buffers_of self.old) + 1) }
        ensures rest { KeepsBuffers (buffers_of self.old) (buffers_of self.new) }
        ensures places { places_of self.new ≡ places_of self.old }
        ensures blocks { (region : ℕ) → blocks_of self.new region ≡ blocks_of self.old region }
        ensures unchanged { OnErr result (buffers_of self.new ≡ buffers_of self.old) }
        ensures grows { Grows key_of places_of buffers_of blocks_of 0 1 self.old self.new }

        // As `keep`.
        ensures name { IfOk result (λ b. b ≡ record { region = self.old.region; number = length self.old.kept }) }
        ensures kept { OnOk result (self.new ≡ with_kept self.old bytes.now) }
        ensures same { OnErr result (self.new ≡ self.old) }
    {
        let number = self.kept.keep_copy(bytes)?;
        Ok(Buffer {
            region: self.region,
            number,
        })
    }

    fn kept(&self, buffer: Buffer) -> &[u8] {
        self.kept.bytes(buffer.number)
    }
}
