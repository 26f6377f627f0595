//! Calls on one of several serial arenas that stand in a list.
ghost use Rattle.std.specs.Prelude.{◌≡◌, ◌<◌, ◌+◌, ◌≤◌, length, set, take, IfOk, IfErr, OnOk, OnErr};
ghost use Rattle.arena_mem.specs.Places.{IsPlaceable, IsLive, bytes_at, NamesFullRegion};
ghost use Rattle.serial_arena.specs.Serial.{IsSerial, places_of, blocks_of, place_in, next_placement, with_place, with_bytes, with_kept};
ghost use Rattle.ts_arena.specs.Parts.{owner_at, region_at, owner_with};

use crate::boxed::BoxedArena;
use arena_list::Entry;
use arena_mem::{Buffer, MemFault, Memory, NoMemory, Place};
use serial_arena::{SerialArena, arena_is_laid};
use std::mem::replace;

pub(crate) fn part_of(owners: &[Entry<BoxedArena>], at: usize) -> &SerialArena
    requires { at < length owners.now }
    ensures { result.now ≡ (owner_at owners.now at).part }
{
    let part = &owners[at].part;
    &part.arena
}

pub(crate) fn place_for(
    owners: &mut Vec<Entry<BoxedArena>>,
    at: usize,
    bytes: u32,
) -> Result<Place, MemFault>
    requires at { at < length owners.old.items }
    requires placeable { IsPlaceable bytes }
    ensures name { IfOk result (λ p. p ≡ place_in (owner_at owners.old.items at).part.region (next_placement (owner_at owners.old.items at).part bytes)) }
    ensures placed { OnOk result (owners.new.items ≡ owner_with owners.old.items at (with_place (owner_at owners.old.items at).part bytes)) }
    ensures same { OnErr result (owners.new.items ≡ owners.old.items) }
    ensures fault { IfErr result (NamesFullRegion (blocks_of (owner_at owners.old.items at).part)) }
    ensures serial { IsSerial (owner_at owners.new.items at).part }
{
    let part = &mut owners[at].part;
    let placed = part.arena.place(bytes);
    arena_is_laid(&part.arena);
    placed
}

pub(crate) fn keep_for(
    owners: &mut Vec<Entry<BoxedArena>>,
    at: usize,
    bytes: Vec<u8>,
) -> Result<Buffer, (NoMemory, Vec<u8>)>
    requires at { at < length owners.old.items }
    ensures name { IfOk result (λ b. b ≡ record { region = (owner_at owners.old.items at).part.region; number = length (owner_at owners.old.items at).part.kept }) }
    ensures kept { OnOk result (owners.new.items ≡ owner_with owners.old.items at (with_kept (owner_at owners.old.items at).part bytes.items)) }
    ensures same { OnErr result (owners.new.items ≡ owners.old.items) }
    ensures handed_back { IfErr result (λ e. e.1 ≡ bytes) }
    ensures serial { IsSerial (owner_at owners.new.items at).part }
{
    let part = &mut owners[at].part;
    let kept = part.arena.keep(bytes);
    arena_is_laid(&part.arena);
    kept
}

pub(crate) fn keep_copy_for(
    owners: &mut Vec<Entry<BoxedArena>>,
    at: usize,
    bytes: &[u8],
) -> Result<Buffer, NoMemory>
    requires at { at < length owners.old.items }
    ensures name { IfOk result (λ b. b ≡ record { region = (owner_at owners.old.items at).part.region; number = length (owner_at owners.old.items at).part.kept }) }
    ensures kept { OnOk result (owners.new.items ≡ owner_with owners.old.items at (with_kept (owner_at owners.old.items at).part bytes.now)) }
    ensures same { OnErr result (owners.new.items ≡ owners.old.items) }
    ensures serial { IsSerial (owner_at owners.new.items at).part }
{
    let part = &mut owners[at].part;
    let kept = part.arena.keep_copy(bytes);
    arena_is_laid(&part.arena);
    kept
}

pub(crate) fn write_for(
    owners: &mut Vec<Entry<BoxedArena>>,
    at: usize,
    place: Place,
    start: u32,
    bytes: &[u8],
)
    requires at { at < length owners.old.items }
    requires live { IsLive (places_of (owner_at owners.old.items at).part) place }
    requires fits { start + length bytes.now ≤ place.len }
    ensures wrote { owners.new.items ≡ owner_with owners.old.items at (with_bytes (owner_at owners.old.items at).part place start bytes.now) }
    ensures serial { IsSerial (owner_at owners.new.items at).part }
{
    let part = &mut owners[at].part;
    part.arena.write(place, start, bytes);
    arena_is_laid(&part.arena);
}

pub(crate) fn copy_for(
    owners: &mut Vec<Entry<BoxedArena>>,
    at: usize,
    from: Place,
    to: Place,
    bytes: u32,
)
    requires at { at < length owners.old.items }
    requires from_live { IsLive (places_of (owner_at owners.old.items at).part) from }
    requires to_live { IsLive (places_of (owner_at owners.old.items at).part) to }
    requires from_fits { bytes ≤ from.len }
    requires to_fits { bytes ≤ to.len }
    ensures wrote { owners.new.items ≡ owner_with owners.old.items at (with_bytes (owner_at owners.old.items at).part to 0 (take bytes (bytes_at (places_of (owner_at owners.old.items at).part) from))) }
    ensures serial { IsSerial (owner_at owners.new.items at).part }
{
    let part = &mut owners[at].part;
    part.arena.copy_front(from, to, bytes);
    arena_is_laid(&part.arena);
}

/// Puts another serial arena in the place of one, and answers that one.
pub(crate) fn exchange_for(
    owners: &mut Vec<Entry<BoxedArena>>,
    at: usize,
    part: SerialArena,
) -> SerialArena
    requires { at < length owners.old.items }
    ensures was { result ≡ (owner_at owners.old.items at).part }
    ensures now { owners.new.items ≡ owner_with owners.old.items at part }
{
    let held = &mut owners[at].part;
    replace(&mut *held.arena, part)
}

pub(crate) fn write_in(
    regions: &mut Vec<SerialArena>,
    at: usize,
    place: Place,
    start: u32,
    bytes: &[u8],
)
    requires at { at < length regions.old.items }
    requires live { IsLive (places_of (region_at regions.old.items at)) place }
    requires fits { start + length bytes.now ≤ place.len }
    ensures wrote { regions.new.items ≡ set regions.old.items at (with_bytes (region_at regions.old.items at) place start bytes.now) }
    ensures serial { IsSerial (region_at regions.new.items at) }
{
    let part = &mut regions[at];
    part.write(place, start, bytes);
    arena_is_laid(part);
}

pub(crate) fn copy_in(regions: &mut Vec<SerialArena>, at: usize, from: Place, to: Place, bytes: u32)
    requires at { at < length regions.old.items }
    requires from_live { IsLive (places_of (region_at regions.old.items at)) from }
    requires to_live { IsLive (places_of (region_at regions.old.items at)) to }
    requires from_fits { bytes ≤ from.len }
    requires to_fits { bytes ≤ to.len }
    ensures wrote { regions.new.items ≡ set regions.old.items at (with_bytes (region_at regions.old.items at) to 0 (take bytes (bytes_at (places_of (region_at regions.old.items at)) from))) }
    ensures serial { IsSerial (region_at regions.new.items at) }
{
    let part = &mut regions[at];
    part.copy_front(from, to, bytes);
    arena_is_laid(part);
}

pub(crate) fn exchange_in(
    regions: &mut Vec<SerialArena>,
    at: usize,
    part: SerialArena,
) -> SerialArena
    requires { at < length regions.old.items }
    ensures was { result ≡ region_at regions.old.items at }
    ensures now { regions.new.items ≡ set regions.old.items at part }
{
    replace(&mut regions[at], part)
}
