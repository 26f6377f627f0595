//! A list is closed: all seats are joined into one, and each value goes from its slot to its entry.
ghost use Rattle.std.specs.Prelude.{◌≡◌, ◌≢◌, ℕ, ◌+◌, ◌<◌, ◌≤◌, ◌++◌, ◌∷◌, [], false, length, map, reverse, slice_index_or, vec_capacity, IfOk, IfErr, None};
ghost use Rattle.std.specs.Slots.{slots_items, slots_filled, slots_len, IsFull};
ghost use mathlib.Core.Option.{some};
ghost use lib.ListN.{get_elem?};
ghost use Rattle.arena_list.specs.Words.Written.{value_at, value_count, word_count};
ghost use Rattle.arena_list.specs.Words.Core.{slot_count};
ghost use Rattle.arena_list.specs.Rule.Founded.{meter};
ghost use Rattle.arena_list.specs.Rule.Views.{shown};
ghost use Rattle.arena_list.specs.Calls.Seats.{view, life_of, founding_of, callers_of, wards_of};
ghost use Rattle.arena_list.specs.Closing.Closed.{HasTold, AreAll, AreApart, AreAtMost, AreLinked, AreSpares, used_sum, hand_of, slots_of};

use crate::collect::{place_others, pull_linked, pull_spares};
use crate::entry::Entry;
use crate::list::{ArenaList, ListSeat, OwnSeat, Words};
use crate::single_steps::{SLOTS, SPACING};
use crate::step_kinds::Gather;
use arena_mem::{NoMemory, Part};
use atomic_table::Closed;
use std::alloc::Global;

/// What closing a list needs room for.
struct Rooms<V: Part> {
    linked: Vec<Entry<V>>,
    spare: Vec<Entry<V>>,
    // The slots and callers of the spare entries, the last first.
    spare_slots: Vec<(u32, u32)>,
    parts: Vec<Option<V>>,
}

fn make_rooms<V: Part>(alloc: Global, seats: usize) -> Result<Rooms<V>, NoMemory>
    ensures empty { IfOk result (λ r. (r.linked.items ≡ []) × (r.spare.items ≡ []) × (r.spare_slots.items ≡ []) × (r.parts.items ≡ [])) }
    ensures room { IfOk result (λ r. (slot_count ≤ vec_capacity r.linked) × (seats ≤ vec_capacity r.spare) × (seats ≤ vec_capacity r.spare_slots) × (slot_count ≤ vec_capacity r.parts)) }
{
    let spare_slots = Vec::with_capacity(alloc, seats)?;
    let linked = Vec::with_capacity(alloc, SLOTS)?;
    let Ok(spare) = Vec::with_capacity(alloc, seats) else {
        linked.destroy_empty();
        return Err(NoMemory);
    };
    let Ok(parts) = Vec::with_capacity(alloc, SLOTS) else {
        linked.destroy_empty();
        spare.destroy_empty();
        return Err(NoMemory);
    };
    Ok(Rooms {
        linked,
        spare,
        spare_slots,
        parts,
    })
}

/// Notes the slot of a seat that never joined the list.
fn note(spare_slots: &mut Vec<(u32, u32)>, seat: &ListSeat)
    requires room { length spare_slots.old.items < vec_capacity spare_slots.old }
    ensures items { spare_slots.new.items ≡ spare_slots.old.items ++ slots_of (seat.now ∷ []) }
    ensures room { vec_capacity spare_slots.old ≤ vec_capacity spare_slots.new }
{
    if !seat.linked {
        if let Err(_) = spare_slots.push((seat.slot, seat.caller)) {
            unreachable!();
        }
    }
}

/// Joins all seats into one, and notes the slots of those that never joined the list, the last first.
fn gather<V: Part>(
    words: &Words<V>,
    mut seats: Vec<ListSeat>,
    spare_slots: &mut Vec<(u32, u32)>,
) -> OwnSeat<V>
    requires words { words.now.table_id.words ≡ word_count }
    requires some { 0 < length seats.items }
    requires list { (k : ℕ) (s : _) → get_elem? seats.items k ≡ some s → s.badge.table_id ≡ words.now.table_id }
    requires room { (spare_slots.old.items ≡ []) × (length seats.items ≤ vec_capacity spare_slots.old) }
    ensures list { result.table_id ≡ words.now.table_id }
    ensures hands { result.me.0.hands ≡ reverse (map hand_of seats.items) }
    ensures free { result.me.1 ≡ [] }
    ensures told { (k : ℕ) (s : _) → get_elem? seats.items k ≡ some s → HasTold result.me.0 (view s).seen }
    ensures sizes { (k : ℕ) (s : _) → get_elem? seats.items k ≡ some s → AreAtMost (view s).sizes result.me.0.sizes }
    ensures slots { spare_slots.new.items ≡ reverse (slots_of seats.items) }
{
    let Some(last) = seats.pop() else {
        unreachable!()
    };
    note(spare_slots, &last);
    let mut all = last.badge.into_seat();
    while let Some(next) = seats.pop() {
        note(spare_slots, &next);
        words.join_seat::<Gather>(&mut all, next.badge.into_seat());
    }
    seats.destroy_empty();
    all
}

/// Takes the values out of all places of a closed table, those of the slots in order. The places between are empty.
fn empty<V: Part>(closed: &mut Closed<Option<V>, Global>, parts: &mut Vec<Option<V>>)
    requires full { IsFull closed.old.slots × (slots_len closed.old.slots ≡ value_count) }
    requires between { (place : ℕ) (x : _) → get_elem? (slots_items closed.old.slots) place ≡ some x → ((slot : ℕ) → place ≢ value_at slot) → x ≡ None }
    requires room { (parts.old.items ≡ []) × (slot_count ≤ vec_capacity parts.old) }
    ensures parts { (k : ℕ) (x : _) → get_elem? parts.new.items k ≡ some x → get_elem? (slots_items closed.old.slots) (value_at k) ≡ some x }
    ensures count { length parts.new.items ≡ slot_count }
    ensures free { (k : ℕ) → k < slots_len closed.new.slots → slice_index_or (slots_filled closed.new.slots) k false ≡ false }
    ensures words { closed.new.words ≡ closed.old.words }
{
    for place in 0..SLOTS * SPACING {
        let value = closed.take(place);
        if place % SPACING == 0 {
            if let Err(_) = parts.push(value) {
                unreachable!();
            }
        } else {
            let None = value else { unreachable!() };
        }
    }
}

/// Frees parts of which none is left.
fn free_parts<V: Part>(mut parts: Vec<Option<V>>)
    requires { (k : ℕ) (x : _) → get_elem? parts.items k ≡ some x → x ≡ None }
{
    while let Some(part) = parts.pop() {
        let None = part else { unreachable!() };
    }
    parts.destroy_empty();
}

impl<V: Part> ArenaList<V> {
    /// The linked entries, oldest first, and the spare ones, in the order of the seats, each with its value. Want of
    /// memory hands everything back.
    ///
    /// All seats that `make` gave come back, in any order, and none has its slot out. There are no more than those, so it
    /// is enough to know that there are as many at least.
    pub fn close(
        self,
        alloc: Global,
        seats: Vec<ListSeat>,
    ) -> Result<(Vec<Entry<V>>, Vec<Entry<V>>), (NoMemory, ArenaList<V>, Vec<ListSeat>)>
        requires all { AreAll self seats.items }
        ensures count { IfOk result (λ _. length seats.items ≡ length (callers_of self)) }
        ensures linked { IfOk result (λ r. AreLinked V.row.coded (meter V.owner_of V.life_of V.used_of) (wards_of self) (founding_of self).linked.items seats.items r.0.items) }
        ensures spares { IfOk result (λ r. AreSpares V.row.coded (meter V.owner_of V.life_of V.used_of) seats.items r.1.items) }
        // each answer that a seat got of `sizes` is at most what the linked entries use now
        ensures used { IfOk result (λ r. (k : ℕ) (s : _) → get_elem? seats.items k ≡ some s → shown (view s) ≤ used_sum (meter V.owner_of V.life_of V.used_of) r.0.items) }
        ensures apart { IfOk result (λ r. AreApart (meter V.owner_of V.life_of V.used_of) (life_of self) (r.0.items ++ r.1.items)) }
        ensures refused { IfErr result (λ e. (e.1 ≡ self) × (e.2.items ≡ seats.items)) }
    {
        let Ok(rooms) = make_rooms(alloc, seats.len()) else {
            return Err((NoMemory, self, seats));
        };
        let Rooms {
            mut linked,
            mut spare,
            mut spare_slots,
            mut parts,
        } = rooms;
        let ArenaList { table, others } = self;
        let all = gather(&table.shared, seats, &mut spare_slots);
        let mut closed = table.close_with(all);
        empty(&mut closed, &mut parts);
        place_others(&mut parts, others);
        pull_linked(&closed, &mut parts, &mut linked);
        pull_spares(spare_slots, &mut parts, &mut spare);
        free_parts(parts);
        closed.free();
        Ok((linked, spare))
    }
}
