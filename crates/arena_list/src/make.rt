//! A list is made: its words are laid out, each caller gets a seat, and each slot its value.
ghost use Rattle.std.specs.Prelude.{◌≡◌, ◌≢◌, ℕ, true, false, None, ◌+◌, ◌-◌, ◌<◌, ◌≤◌, ◌++◌, ◌∷◌, [], length, map, reverse, drop, slice_index, IfOk, IfErr, IfSome, IfNone, vec_len, vec_capacity};
ghost use mathlib.Core.Option.{some};
ghost use lib.ListN.{get_elem?};
ghost use Rattle.arena_list.specs.Words.Written.{word_count};
ghost use Rattle.arena_list.specs.Rule.Founded.{meter, AreFit, IsLaid, Fits, hand_from, hand_for, first_view, others_of, node_of, entry_of, has, Differ};
ghost use Rattle.arena_list.specs.Marks.OfParts.{marked_founding};
ghost use Rattle.arena_list.specs.Making.Made.{AreSeats, Places, IsMadeOf, AreFirst};
ghost use Rattle.arena_list.specs.Calls.Seats.{view};
ghost use Rattle.arena_list.specs.Words.Nodes.{head_of};

use crate::entry::Entry;
use crate::for_clauses::founding::Founding;
use crate::laying::opening_words;
use crate::list::{ArenaList, ListSeat, OwnSeat, Words};
use crate::single_steps::{HEAD, SLOTS, SPACING};
use crate::step_kinds::Deal;
use crate::take_and_give::put;
use arena_mem::{NoMemory, Part};
use atomic_table::Table;
use ghost_list::GhostList;
use std::alloc::Global;

/// The slot of a caller's linked entry, or else of its spare one, and whether it is linked.
fn slot_for<V: Part>(linked: &[Entry<V>], spare: &[Entry<V>], caller: u32) -> (u32, bool)
    ensures { (result.0 ≡ (hand_from linked.now spare.now caller).slot) × (result.1 ≡ (hand_from linked.now spare.now caller).linked) }
{
    for entry in linked {
        if entry.caller == caller {
            return (entry.slot, true);
        }
    }
    for other in spare {
        if other.caller == caller {
            return (other.slot, false);
        }
    }
    (0, false)
}

/// Where the caller's seat is among these, or how many there are.
fn seat_of(seats: &[ListSeat], caller: u32) -> usize
    ensures within { result ≤ length seats.now }
    ensures found { (s : _) → get_elem? seats.now result ≡ some s → s.caller ≡ caller }
    ensures before { (k : ℕ) (s : _) → k < result → get_elem? seats.now k ≡ some s → s.caller ≢ caller }
{
    for (at, seat) in seats.iter().enumerate() {
        if seat.caller == caller {
            return at;
        }
    }
    seats.len()
}

/// Splits off a seat for each caller, in order. Its slot isn't filled yet.
fn deal<V: Part>(
    words: &Words<V>,
    mut first: OwnSeat<V>,
    linked: &[Entry<V>],
    spare: &[Entry<V>],
    callers: &[u32],
    head: u64,
    seats: &mut Vec<ListSeat>,
)
    requires list { (first.table_id ≡ words.now.table_id) × (words.now.table_id.words ≡ word_count) }
    requires key { (words.now.key.linked.items ≡ linked.now) × (words.now.key.spare.items ≡ spare.now) × (words.now.key.callers.items ≡ callers.now) }
    requires fit { AreFit (meter V.owner_of V.life_of V.used_of) words.now.key.life words.now.key.linked.items words.now.key.spare.items words.now.key.callers.items }
    requires first { first.me ≡ (first_view (marked_founding V.row.coded (meter V.owner_of V.life_of V.used_of) words.now.key), []) }
    requires head { head ≡ head_of (map node_of words.now.key.linked.items) }
    requires room { (seats.old.items ≡ []) × (length callers.now ≤ vec_capacity seats.old) }
    ensures { AreSeats V.row.coded (meter V.owner_of V.life_of V.used_of) words.now.key words.now.table_id words.now.key.callers.items [] seats.new.items }
{
    for caller in callers {
        let seat = words.split_seat::<Deal>(&mut first);
        let (slot, is_linked) = slot_for(linked, spare, *caller);
        let seat = ListSeat {
            badge: seat.into_badge(),
            caller: *caller,
            slot,
            linked: is_linked,
            used: 0,
            head,
        };
        if let Err(_) = seats.push(seat) {
            unreachable!();
        }
    }
}

/// Gives an entry's value to its caller's seat. An entry whose caller has no seat comes back.
fn place<V: Part>(words: &Words<V>, seats: &mut Vec<ListSeat>, entry: Entry<V>) -> Option<Entry<V>>
    requires words { words.now.table_id.words ≡ word_count }
    requires fits { Fits (meter V.owner_of V.life_of V.used_of) words.now.key.life entry.caller entry.part }
    requires once { Differ words.now.key.callers.items }
    requires fit { AreFit (meter V.owner_of V.life_of V.used_of) words.now.key.life words.now.key.linked.items words.now.key.spare.items words.now.key.callers.items }
    requires seats { (done : _) × AreSeats V.row.coded (meter V.owner_of V.life_of V.used_of) words.now.key words.now.table_id words.now.key.callers.items done seats.old.items × (entry_of done entry.caller ≡ None) }
    ensures placed { Places V.row.coded (meter V.owner_of V.life_of V.used_of) words.now.key.callers.items entry seats.old.items seats.new.items }
    ensures none { IfNone result (has words.now.key.callers.items entry.caller ≡ true) }
    ensures back { IfSome result (λ e. (e ≡ entry) × (has words.now.key.callers.items entry.caller ≡ false)) }
{
    let at = seat_of(seats.as_slice(), entry.caller);
    if at == seats.len() {
        return Some(entry);
    }
    let Entry {
        slot: _,
        caller: _,
        part,
    } = entry;
    put(words, &mut seats[at], part);
    None
}

/// Gives the values of these entries to their callers' seats, after those of the earlier ones. The entries of callers
/// without a seat go to the others, the last first.
fn fill<V: Part>(
    words: &Words<V>,
    seats: &mut Vec<ListSeat>,
    mut entries: Vec<Entry<V>>,
    earlier: &GhostList<Entry<V>>,
    others: &mut Vec<Entry<V>>,
)
    requires words { words.now.table_id.words ≡ word_count }
    requires fit { AreFit (meter V.owner_of V.life_of V.used_of) words.now.key.life words.now.key.linked.items words.now.key.spare.items words.now.key.callers.items }
    requires seats { AreSeats V.row.coded (meter V.owner_of V.life_of V.used_of) words.now.key words.now.table_id words.now.key.callers.items earlier.now.items seats.old.items }
    requires piece { (front : _) × (front ++ (entries.items ++ earlier.now.items) ≡ words.now.key.linked.items ++ words.now.key.spare.items) }
    requires room { length others.old.items + length entries.items ≤ vec_capacity others.old }
    ensures seats { AreSeats V.row.coded (meter V.owner_of V.life_of V.used_of) words.now.key words.now.table_id words.now.key.callers.items (entries.items ++ earlier.now.items) seats.new.items }
    ensures others { others.new.items ≡ others.old.items ++ reverse (others_of entries.items words.now.key.callers.items) }
    ensures room { vec_capacity others.old ≤ vec_capacity others.new }
{
    while let Some(entry) = entries.pop() {
        if let Some(other) = place(words, seats, entry) {
            if let Err(_) = others.push(other) {
                unreachable!();
            }
        }
    }
    entries.destroy_empty();
}

/// Room for the others and the seats.
fn rooms<V>(
    alloc: Global,
    others: usize,
    seats: usize,
) -> Result<(Vec<Entry<V>>, Vec<ListSeat>), NoMemory>
    ensures { IfOk result (λ r. (r.0.items ≡ []) × (others ≤ vec_capacity r.0) × (r.1.items ≡ []) × (seats ≤ vec_capacity r.1)) }
{
    let others = Vec::with_capacity(alloc, others)?;
    match Vec::with_capacity(alloc, seats) {
        Ok(seats) => Ok((others, seats)),
        Err(_) => {
            others.destroy_empty();
            Err(NoMemory)
        }
    }
}

impl<V: Part> ArenaList<V> {
    /// A list of the linked entries, oldest first, and a seat for each caller, in their order. A caller that no linked
    /// entry has gets its spare one. Want of memory hands all entries back.
    ///
    /// All slots differ and are below `slot_count`. The callers differ, there is one at least, and no two linked entries have one
    /// caller. The spare entries are those of the callers that no linked entry has, in the order of the callers. Each
    /// part has its entry's caller as owner, this life, and less than 2^63 bytes used.
    pub fn make(
        alloc: Global,
        life: u64,
        linked: Vec<Entry<V>>,
        spare: Vec<Entry<V>>,
        callers: &[u32],
    ) -> Result<(ArenaList<V>, Vec<ListSeat>), (NoMemory, Vec<Entry<V>>, Vec<Entry<V>>)>
        requires fit { AreFit (meter V.owner_of V.life_of V.used_of) life linked.items spare.items callers.now }
        ensures list { IfOk result (λ r. IsMadeOf life linked.items spare.items callers.now r.0) }
        ensures seats { IfOk result (λ r. AreFirst V.row.coded (meter V.owner_of V.life_of V.used_of) r.0 linked.items spare.items callers.now r.1.items) }
        ensures refused { IfErr result (λ e. (e.1.items ≡ linked.items) × (e.2.items ≡ spare.items)) }
    {
        let Ok((mut others, mut seats)) = rooms(alloc, linked.len() + spare.len(), callers.len())
        else {
            return Err((NoMemory, linked, spare));
        };
        let words = opening_words(linked.as_slice(), callers);
        let told = Founding {
            life,
            linked: GhostList::of(linked.as_slice()),
            spare: GhostList::of(spare.as_slice()),
            callers: GhostList::of(callers),
        };
        let Ok((table, first)) = Table::vacant(alloc, &words, SLOTS * SPACING, &told) else {
            others.destroy_empty();
            seats.destroy_empty();
            return Err((NoMemory, linked, spare));
        };
        let shared = &table.shared;
        deal(
            shared,
            first,
            linked.as_slice(),
            spare.as_slice(),
            callers,
            words[HEAD],
            &mut seats,
        );
        let (none, _) = linked.as_slice().split_at(0);
        let none = GhostList::of(none);
        fill(shared, &mut seats, spare, &none, &mut others);
        fill(shared, &mut seats, linked, &told.spare, &mut others);
        others.reverse();
        Ok((ArenaList { table, others }, seats))
    }
}
