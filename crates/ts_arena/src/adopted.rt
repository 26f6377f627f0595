//! The regions that an arena adopted, and where each stands among them.
ghost use Rattle.std.specs.Prelude.{◌≡◌, ◌≢◌, ◌<◌, ◌+◌, ◌≤◌, ◌++◌, ◌∷◌, [], ℕ, length, set, take, IfErr, OnOk, OnErr};
ghost use mathlib.Core.Option.{some};
ghost use lib.ListN.{get_elem?};
ghost use Rattle.arena_mem.specs.Places.{IsLive, bytes_at};
ghost use Rattle.serial_arena.specs.Serial.{IsSerial, places_of, with_bytes};
ghost use Rattle.ts_arena.specs.Parts.{region_at, HasRegion};

use crate::parts::{copy_in, exchange_in, write_in};
use arena_mem::{NoMemory, Place};
use serial_arena::SerialArena;
use std::alloc::Global;
use std::collections::BTreeMap;
use std::marker::Model;

/// The adopted regions in the order of adoption, and an index that finds each by its number without a scan.
///
/// Contracts see the list of regions.
#[derive(Drop)]
pub(crate) struct Regions {
    items: Vec<SerialArena>,
    // Where the region of a number stands among the items.
    index: BTreeMap<u32, usize>,
}

impl Model for Regions {
    ghost use Rattle.std.specs.Prelude.{List};
    ghost use Rattle.serial_arena.specs.Serial.{SerialState};
    ghost use Rattle.ts_arena.specs.Parts.{IsIndexed};

    ghost Value = { List SerialState };

    ghost view = { λ r. r.items.items };

    ghost invariant = { λ r. IsIndexed r.index r.items.items };
}

impl Regions {
    /// No regions. It takes no memory.
    pub(crate) fn new(alloc: Global) -> Regions
        ensures { result ≡ [] }
    {
        Regions {
            items: Vec::new(alloc),
            index: BTreeMap::new(alloc),
        }
    }

    pub(crate) fn allocator(&self) -> Global {
        *self.items.allocator()
    }

    /// All of them, in the order of adoption.
    pub(crate) fn list(&self) -> &[SerialArena]
        ensures { result.now ≡ self.now }
    {
        &self.items
    }

    pub(crate) fn into_list(self) -> Vec<SerialArena>
        ensures { result.items ≡ self }
    {
        self.items
    }

    /// Adds a region whose number none of them has. A refusal hands it back.
    pub(crate) fn push(&mut self, region: SerialArena) -> Result<(), (NoMemory, SerialArena)>
        requires new { (k : ℕ) (s : _) → get_elem? self.old k ≡ some s → s.region ≢ region.region }
        ensures added { OnOk result (self.new ≡ self.old ++ region ∷ []) }
        ensures unchanged { OnErr result (self.new ≡ self.old) }
        ensures handed_back { IfErr result (λ e. e.1 ≡ region) }
    {
        let at = self.items.len();
        if self.items.reserve(1).is_err() {
            return Err((NoMemory, region));
        }
        let Ok(_) = self.index.insert(region.region(), at) else {
            return Err((NoMemory, region));
        };
        let Ok(()) = self.items.push(region) else {
            unreachable!();
        };
        Ok(())
    }

    /// Where the region of a number stands.
    pub(crate) fn find(&self, number: u32) -> usize
        requires { HasRegion self.now number }
        ensures there { result < length self.now }
        ensures number { (region_at self.now result).region ≡ number }
    {
        match self.index.get(&number) {
            Some(at) => *at,
            None => unreachable!(),
        }
    }

    pub(crate) fn part(&self, at: usize) -> &SerialArena
        requires { at < length self.now }
        ensures { result.now ≡ region_at self.now at }
    {
        &self.items[at]
    }

    pub(crate) fn copy(&mut self, at: usize, from: Place, to: Place, bytes: u32)
        requires at { at < length self.old }
        requires from_live { IsLive (places_of (region_at self.old at)) from }
        requires to_live { IsLive (places_of (region_at self.old at)) to }
        requires from_fits { bytes ≤ from.len }
        requires to_fits { bytes ≤ to.len }
        ensures wrote { self.new ≡ set self.old at (with_bytes (region_at self.old at) to 0 (take bytes (bytes_at (places_of (region_at self.old at)) from))) }
        ensures serial { IsSerial (region_at self.new at) }
    {
        copy_in(&mut self.items, at, from, to, bytes);
    }

    pub(crate) fn write(&mut self, at: usize, place: Place, start: u32, bytes: &[u8])
        requires at { at < length self.old }
        requires live { IsLive (places_of (region_at self.old at)) place }
        requires fits { start + length bytes.now ≤ place.len }
        ensures wrote { self.new ≡ set self.old at (with_bytes (region_at self.old at) place start bytes.now) }
        ensures serial { IsSerial (region_at self.new at) }
    {
        write_in(&mut self.items, at, place, start, bytes);
    }

    /// Puts a part with the same number in the place of one, and answers that one.
    pub(crate) fn exchange(&mut self, at: usize, part: SerialArena) -> SerialArena
        requires at { at < length self.old }
        requires region { part.region ≡ (region_at self.old at).region }
        ensures was { result ≡ region_at self.old at }
        ensures now { self.new ≡ set self.old at part }
    {
        exchange_in(&mut self.items, at, part)
    }
}
