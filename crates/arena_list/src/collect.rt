//! The entries of a closed list are put together again, from its words and the values in its slots.
ghost use Rattle.std.specs.Prelude.{◌≡◌, ℕ, ◌<◌, ◌≤◌, ◌++◌, ◌∷◌, [], Some, None, length, map, reverse, set, vec_capacity};
ghost use Rattle.std.specs.Slots.{slots_items, slots_len, IsFull};
ghost use mathlib.Core.Option.{some};
ghost use lib.ListN.{get_elem?};
ghost use Rattle.arena_list.specs.Words.Written.{word_count};
ghost use Rattle.arena_list.specs.Words.Core.{slot_count};
ghost use Rattle.arena_list.specs.Rule.Founded.{slot, Differ};
ghost use Rattle.arena_list.specs.Closing.Closed.{entry};
ghost use Rattle.arena_list.specs.Closing.Collected.{place_of, AreIn, AreStored, Empties, Fills};

use crate::entry::Entry;
use crate::single_steps::{HEAD, NODES, SPAN};
use arena_mem::Part;
use atomic_table::Closed;
use std::alloc::Global;
use std::mem::replace;

/// Puts the values of these entries into their slots.
pub(crate) fn place_others<V: Part>(parts: &mut Vec<Option<V>>, mut others: Vec<Entry<V>>)
    requires apart { Differ (map slot others.items) }
    requires vacant { (k : ℕ) (e : _) → get_elem? others.items k ≡ some e → get_elem? parts.old.items e.slot ≡ some None }
    ensures { Fills parts.old.items parts.new.items others.items }
{
    while let Some(other) = others.pop() {
        let Entry {
            slot,
            caller: _,
            part,
        } = other;
        put(parts, slot, part);
    }
    others.destroy_empty();
}

/// Puts a value into an empty slot.
fn put<V: Part>(parts: &mut Vec<Option<V>>, slot: u32, part: V)
    requires { get_elem? parts.old.items slot ≡ some None }
    ensures { parts.new.items ≡ set parts.old.items slot (Some part) }
{
    match replace(&mut parts[slot as usize], Some(part)) {
        None => {}
        Some(_) => unreachable!(),
    }
}

/// Takes the value out of a slot, for an entry of the caller's.
fn pull<V: Part>(parts: &mut Vec<Option<V>>, slot: u32, caller: u32, entries: &mut Vec<Entry<V>>)
    requires there { (part : _) × (get_elem? parts.old.items slot ≡ some (Some part)) }
    requires room { length entries.old.items < vec_capacity entries.old }
    ensures entry { (part : _) → get_elem? parts.old.items slot ≡ some (Some part) → entries.new.items ≡ entries.old.items ++ entry slot caller part ∷ [] }
    ensures parts { parts.new.items ≡ set parts.old.items slot None }
    ensures room { vec_capacity entries.old ≤ vec_capacity entries.new }
{
    match replace(&mut parts[slot as usize], None) {
        Some(part) => {
            if let Err(_) = entries.push(Entry { slot, caller, part }) {
                unreachable!();
            }
        }
        None => unreachable!(),
    }
}

/// Walks the list from its newest node on, and takes out the value of each. The entries come oldest first.
pub(crate) fn pull_linked<V: Part>(
    closed: &Closed<Option<V>, Global>,
    parts: &mut Vec<Option<V>>,
    linked: &mut Vec<Entry<V>>,
)
    requires words { IsFull closed.now.words × (slots_len closed.now.words ≡ word_count) }
    requires stored { (es : _) × AreStored (slots_items closed.now.words) parts.old.items es }
    requires room { (linked.old.items ≡ []) × (slot_count ≤ vec_capacity linked.old) }
    ensures { (es : _) → AreStored (slots_items closed.now.words) parts.old.items es → (linked.new.items ≡ es) × Empties parts.old.items parts.new.items es }
{
    let head = closed.word(HEAD);
    let mut left = head / SPAN;
    let mut link = head % SPAN;
    while left > 0 {
        let slot = link - 1;
        let node = closed.word(NODES + slot as usize);
        pull(parts, slot as u32, (node / SPAN) as u32, linked);
        link = node % SPAN;
        left -= 1;
    }
    linked.reverse();
}

/// Takes out the values of these slots, of which the last comes first, for entries of these callers.
pub(crate) fn pull_spares<V: Part>(
    mut spare_slots: Vec<(u32, u32)>,
    parts: &mut Vec<Option<V>>,
    spare: &mut Vec<Entry<V>>,
)
    requires values { (es : _) × (spare_slots.items ≡ reverse (map place_of es)) × AreIn parts.old.items es }
    requires room { (spare.old.items ≡ []) × (length spare_slots.items ≤ vec_capacity spare.old) }
    ensures { (es : _) → spare_slots.items ≡ reverse (map place_of es) → AreIn parts.old.items es → (spare.new.items ≡ es) × Empties parts.old.items parts.new.items es }
{
    while let Some((slot, caller)) = spare_slots.pop() {
        pull(parts, slot, caller, spare);
    }
}
