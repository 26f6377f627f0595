//! Calls on one part of an arena, by where it stands.
ghost use Rattle.std.specs.Prelude.{◌≡◌, ◌≢◌, ◌<◌, ◌+◌, ◌≤◌, ℕ, length, take, IfOk, IfErr, OnOk, OnErr};
ghost use Rattle.arena_mem.specs.Places.{IsPlaceable, IsLive, bytes_at, NamesFullRegion};
ghost use Rattle.serial_arena.specs.Serial.{SerialState, IsSerial, places_of, blocks_of, place_in, next_placement, with_place, with_bytes, with_kept};
ghost use Rattle.ts_arena.specs.declared.spot.Spot.TheVariants.{Owner};
ghost use Rattle.ts_arena.specs.Arena.{IsArena};
ghost use Rattle.ts_arena.specs.Parts.{IsSpot, IsSlotTable, CanStand, part_at, with_part};
ghost use Rattle.ts_arena.specs.Places.{IsPartOf};

use crate::arena::Arena;
use crate::parts::{
    copy_for, exchange_for, keep_copy_for, keep_for, part_of, place_for, write_for,
};
use crate::spot::Spot;
use arena_mem::{Buffer, MemFault, Memory, NoMemory, Part, Place};
use serial_arena::{SerialArena, arena_is_laid};

/// The least number of an adopted region.
const FIRST_ADOPTED: u32 = 65_536;

/// Writes the front of a place of one part to the front of a place of another.
fn write_front(part: &mut SerialArena, to: Place, source: &SerialArena, from: Place, bytes: u32)
    requires from_live { IsLive (places_of source.now) from }
    requires to_live { IsLive (places_of part.old) to }
    requires from_fits { bytes ≤ from.len }
    requires to_fits { bytes ≤ to.len }
    ensures wrote { part.new ≡ with_bytes part.old to 0 (take bytes (bytes_at (places_of source.now) from)) }
    ensures serial { IsSerial part.new }
{
    let front = &source.read(from)[..bytes as usize];
    part.write(to, 0, front);
    arena_is_laid(part);
}

impl Arena {
    /// Where the part of a region stands. The table has each owner's place by its slot.
    pub(crate) fn find(&self, table: &[u8; 64], region: u32) -> Spot
        requires table { IsSlotTable table.now self.now.owners }
        requires part { (s : SerialState) × IsPartOf self.now s × (s.region ≡ region) }
        ensures arena { IsArena self.now }
        ensures spot { IsSpot self.now result }
        ensures region { (part_at self.now result).region ≡ region }
    {
        if region < FIRST_ADOPTED {
            let _life = self.life;
            Spot::Owner(table[region as usize] as usize)
        } else {
            Spot::Adopted(self.adopted.find(region))
        }
    }

    pub(crate) fn part_at(&self, spot: Spot) -> &SerialArena
        requires { IsSpot self.now spot }
        ensures { result.now ≡ part_at self.now spot }
    {
        match spot {
            Spot::Owner(at) => part_of(&self.owners, at),
            Spot::Adopted(at) => self.adopted.part(at),
        }
    }

    pub(crate) fn place_for(&mut self, at: usize, bytes: u32) -> Result<Place, MemFault>
        requires at { at < length self.old.owners }
        requires placeable { IsPlaceable bytes }
        ensures arena { IsArena self.old }
        ensures name { IfOk result (λ p. p ≡ place_in (part_at self.old (Owner at)).region (next_placement (part_at self.old (Owner at)) bytes)) }
        ensures placed { OnOk result (self.new ≡ with_part self.old (Owner at) (with_place (part_at self.old (Owner at)) bytes)) }
        ensures same { OnErr result (self.new ≡ self.old) }
        ensures fault { IfErr result (NamesFullRegion (blocks_of (part_at self.old (Owner at)))) }
    {
        place_for(&mut self.owners, at, bytes)
    }

    pub(crate) fn keep_for(
        &mut self,
        at: usize,
        bytes: Vec<u8>,
    ) -> Result<Buffer, (NoMemory, Vec<u8>)>
        requires at { at < length self.old.owners }
        ensures arena { IsArena self.old }
        ensures name { IfOk result (λ b. b ≡ record { region = (part_at self.old (Owner at)).region; number = length (part_at self.old (Owner at)).kept }) }
        ensures kept { OnOk result (self.new ≡ with_part self.old (Owner at) (with_kept (part_at self.old (Owner at)) bytes.items)) }
        ensures same { OnErr result (self.new ≡ self.old) }
        ensures handed_back { IfErr result (λ e. e.1 ≡ bytes) }
    {
        keep_for(&mut self.owners, at, bytes)
    }

    pub(crate) fn keep_copy_for(&mut self, at: usize, bytes: &[u8]) -> Result<Buffer, NoMemory>
        requires at { at < length self.old.owners }
        ensures arena { IsArena self.old }
        ensures name { IfOk result (λ b. b ≡ record { region = (part_at self.old (Owner at)).region; number = length (part_at self.old (Owner at)).kept }) }
        ensures kept { OnOk result (self.new ≡ with_part self.old (Owner at) (with_kept (part_at self.old (Owner at)) bytes.now)) }
        ensures same { OnErr result (self.new ≡ self.old) }
    {
        keep_copy_for(&mut self.owners, at, bytes)
    }

    pub(crate) fn write_at(&mut self, spot: Spot, place: Place, start: u32, bytes: &[u8])
        requires spot { IsSpot self.old spot }
        requires live { IsLive (places_of (part_at self.old spot)) place }
        requires fits { start + length bytes.now ≤ place.len }
        ensures arena { IsArena self.old }
        ensures wrote { self.new ≡ with_part self.old spot (with_bytes (part_at self.old spot) place start bytes.now) }
    {
        match spot {
            Spot::Owner(at) => write_for(&mut self.owners, at, place, start, bytes),
            Spot::Adopted(at) => self.adopted.write(at, place, start, bytes),
        }
    }

    /// Copies the front of one place to another of the same part.
    pub(crate) fn copy_at(&mut self, spot: Spot, from: Place, to: Place, bytes: u32)
        requires spot { IsSpot self.old spot }
        requires from_live { IsLive (places_of (part_at self.old spot)) from }
        requires to_live { IsLive (places_of (part_at self.old spot)) to }
        requires from_fits { bytes ≤ from.len }
        requires to_fits { bytes ≤ to.len }
        ensures arena { IsArena self.old }
        ensures wrote { self.new ≡ with_part self.old spot (with_bytes (part_at self.old spot) to 0 (take bytes (bytes_at (places_of (part_at self.old spot)) from))) }
    {
        match spot {
            Spot::Owner(at) => copy_for(&mut self.owners, at, from, to, bytes),
            Spot::Adopted(at) => self.adopted.copy(at, from, to, bytes),
        }
    }

    /// A part without anything that can stand in for another.
    fn stand_in(&self, spot: Spot) -> SerialArena
        requires { IsSpot self.now spot }
        ensures { CanStand self.now spot result }
    {
        let alloc = *self.owners.allocator();
        let part = self.part_at(spot);
        let empty = SerialArena::new(alloc, self.policy, part.owner(), part.life(), part.region());
        arena_is_laid(&empty);
        empty
    }

    /// Puts a part in the place of one, and answers that one.
    fn exchange(&mut self, spot: Spot, part: SerialArena) -> SerialArena
        requires spot { IsSpot self.old spot }
        requires stands { CanStand self.old spot part }
        ensures was { result ≡ part_at self.old spot }
        ensures now { self.new ≡ with_part self.old spot part }
    {
        match spot {
            Spot::Owner(at) => exchange_for(&mut self.owners, at, part),
            Spot::Adopted(at) => self.adopted.exchange(at, part),
        }
    }

    /// Copies the front of a place of one part to a place of another one. The part that is written is taken out of the
    /// arena for that, so that both can be borrowed; one without anything stands in for it.
    pub(crate) fn copy_between(
        &mut self,
        source: Spot,
        from: Place,
        target: Spot,
        to: Place,
        bytes: u32,
    )
        requires source { IsSpot self.old source }
        requires target { IsSpot self.old target }
        requires differ { source ≢ target }
        requires from_live { IsLive (places_of (part_at self.old source)) from }
        requires to_live { IsLive (places_of (part_at self.old target)) to }
        requires from_fits { bytes ≤ from.len }
        requires to_fits { bytes ≤ to.len }
        ensures arena { IsArena self.old }
        ensures wrote { self.new ≡ with_part self.old target (with_bytes (part_at self.old target) to 0 (take bytes (bytes_at (places_of (part_at self.old source)) from))) }
    {
        let _life = self.life;
        let stand_in = self.stand_in(target);
        let mut part = self.exchange(target, stand_in);
        write_front(&mut part, to, self.part_at(source), from, bytes);
        let _ = self.exchange(target, part);
    }
}
