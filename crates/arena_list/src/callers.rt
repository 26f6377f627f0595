//! Callers as the arena above is one: over the clauses of the public calls alone, so that each proves with no proof file.
ghost use Rattle.std.specs.Prelude.{◌≡◌, ℕ, ◌+◌, ◌*◌, ◌<◌, ◌≤◌, Some, IfOk, IfErr, IfSome, IfNone, length};
ghost use Rattle.std.specs.Option.{ForSome};
ghost use mathlib.Core.Option.{some};
ghost use lib.ListN.{get_elem?};
ghost use Rattle.arena_list.specs.Words.Core.{slot_count};
ghost use Rattle.arena_list.specs.declared.for_clauses.view.Hold.TheVariants.{Away};
ghost use Rattle.arena_list.specs.Rule.Founded.{meter, AreFit, Fits};
ghost use Rattle.arena_list.specs.Marks.OfParts.{marks};
ghost use Rattle.arena_list.specs.Rule.Views.{who, mine, spare, out, shown};
ghost use Rattle.arena_list.specs.Steps.After.{used_now};
ghost use Rattle.arena_list.specs.Calls.Seats.{view, life_of, callers_of, wards_of, IsSeatOf, SameList, IsAmong, HasValue};
ghost use Rattle.arena_list.specs.Closing.Closed.{Rested, IsJoined, used_sum};

use crate::{ArenaList, Entry, ListSeat};
use arena_mem::{NoMemory, Part};
use std::alloc::Global;

/// Linked entries and spare ones.
type Entries<V> = (Vec<Entry<V>>, Vec<Entry<V>>);

/// A list and its seats, where there was no memory.
type Refused<V> = (NoMemory, ArenaList<V>, Vec<ListSeat>);

/// The caller's slot, which it knows from before, or else finds or joins, and the value that was in it.
pub(crate) fn enter<V: Part>(
    list: &ArenaList<V>,
    seat: &mut ListSeat,
    known: Option<u32>,
) -> (u32, V)
    requires list { IsSeatOf list.now seat.old }
    requires home { Rested seat.old }
    requires known { ForSome known (λ slot. mine (view seat.old) ≡ Some slot) }
    ensures list { SameList seat.old seat.new }
    ensures who { who (view seat.new) ≡ who (view seat.old) }
    ensures own { mine (view seat.new) ≡ Some result.0 }
    ensures value { HasValue V.row.coded (meter V.owner_of V.life_of V.used_of) seat.old result.1 }
    ensures out { out (view seat.new) ≡ Away (V.used_of result.1) }
    ensures shown { shown (view seat.old) ≤ shown (view seat.new) }
    ensures cached { IfSome known (λ _. (view seat.new).list_steps ≡ (view seat.old).list_steps) }
    ensures walked { IfNone known ((view seat.old).list_steps < (view seat.new).list_steps) }
    ensures few_steps { (view seat.new).list_steps ≤ (view seat.old).list_steps + (3 * slot_count + 1) }
{
    let slot = match known {
        Some(slot) => slot,
        None => find_or_join(list, seat),
    };
    let part = list.take_slot(seat, slot);
    (slot, part)
}

/// The caller's slot in the list, which it joins where it isn't in it yet.
fn find_or_join<V: Part>(list: &ArenaList<V>, seat: &mut ListSeat) -> u32
    requires list { IsSeatOf list.now seat.old }
    ensures list { SameList seat.old seat.new }
    ensures who { who (view seat.new) ≡ who (view seat.old) }
    ensures own { mine (view seat.new) ≡ Some result }
    ensures hold { out (view seat.new) ≡ out (view seat.old) }
    ensures shown { shown (view seat.old) ≤ shown (view seat.new) }
    ensures some_step { (view seat.old).list_steps < (view seat.new).list_steps }
    ensures few_steps { (view seat.new).list_steps ≤ (view seat.old).list_steps + (3 * slot_count + 1) }
{
    match list.find(seat) {
        Some(slot) => slot,
        None => list.join(seat),
    }
}

/// Gives the value back.
pub(crate) fn leave<V: Part>(list: &ArenaList<V>, seat: &mut ListSeat, slot: u32, part: V)
    requires list { IsSeatOf list.now seat.old }
    requires own { mine (view seat.old) ≡ Some slot }
    requires out { (used : ℕ) × (out (view seat.old) ≡ Away used) × (used ≤ V.used_of part) }
    requires fits { Fits (meter V.owner_of V.life_of V.used_of) (life_of list.now) (who (view seat.old)) part }
    ensures list { SameList seat.old seat.new }
    ensures who { who (view seat.new) ≡ who (view seat.old) }
    ensures own { mine (view seat.new) ≡ Some slot }
    ensures value { HasValue V.row.coded (meter V.owner_of V.life_of V.used_of) seat.new part }
    ensures home { Rested seat.new }
    ensures shown { shown (view seat.old) ≤ shown (view seat.new) }
    ensures no_step { (view seat.new).list_steps ≡ (view seat.old).list_steps }
{
    list.give_slot(seat, slot, part);
}

/// What the list has used, and the own part and all that the caller was shown before are at most that.
pub(crate) fn space_used<V: Part>(list: &ArenaList<V>, seat: &mut ListSeat) -> u128
    requires list { IsSeatOf list.now seat.old }
    ensures list { SameList seat.old seat.new }
    ensures own { (slot : ℕ) → mine (view seat.new) ≡ Some slot → used_now marks (out (view seat.new)) ≤ result }
    ensures earlier { shown (view seat.old) ≤ result }
    ensures shown { result ≡ shown (view seat.new) }
    ensures same { ((view seat.new).hands ≡ (view seat.old).hands) × ((view seat.new).base ≡ (view seat.old).base) }
    ensures few_steps { (view seat.new).list_steps ≤ (view seat.old).list_steps + (slot_count + 1) }
{
    list.sizes(seat)
}

/// A list of a life, and a seat for each of these callers: it has the caller's entry, and has made no step.
pub(crate) fn share<V: Part>(
    alloc: Global,
    life: u64,
    linked: Vec<Entry<V>>,
    spares: Vec<Entry<V>>,
    callers: &[u32],
) -> Result<(ArenaList<V>, Vec<ListSeat>), (NoMemory, Vec<Entry<V>>, Vec<Entry<V>>)>
    requires { AreFit (meter V.owner_of V.life_of V.used_of) life linked.items spares.items callers.now }
    ensures life { IfOk result (λ r. life_of r.0 ≡ life) }
    ensures count { IfOk result (λ r. length r.1.items ≡ length callers.now) }
    ensures callers { IfOk result (λ r. (i caller : ℕ) (s : ListSeat) → get_elem? callers.now i ≡ some caller → get_elem? r.1.items i ≡ some s → (IsSeatOf r.0 s × (who (view s) ≡ caller)) × ((view s).list_steps ≡ 0)) }
    ensures own { IfOk result (λ r. (i k : ℕ) (s : ListSeat) (e : _) → get_elem? callers.now i ≡ some e.caller → get_elem? r.1.items i ≡ some s → get_elem? linked.items k ≡ some e → mine (view s) ≡ Some e.slot) }
    ensures value { IfOk result (λ r. (i k : ℕ) (s : ListSeat) (e : _) → get_elem? callers.now i ≡ some e.caller → get_elem? r.1.items i ≡ some s → get_elem? linked.items k ≡ some e → HasValue V.row.coded (meter V.owner_of V.life_of V.used_of) s e.part) }
    ensures beside { IfOk result (λ r. (i k : ℕ) (s : ListSeat) (e : _) → get_elem? callers.now i ≡ some e.caller → get_elem? r.1.items i ≡ some s → get_elem? spares.items k ≡ some e → spare (view s) ≡ Some e.slot) }
    ensures fresh { IfOk result (λ r. (i k : ℕ) (s : ListSeat) (e : _) → get_elem? callers.now i ≡ some e.caller → get_elem? r.1.items i ≡ some s → get_elem? spares.items k ≡ some e → HasValue V.row.coded (meter V.owner_of V.life_of V.used_of) s e.part) }
{
    match ArenaList::make(alloc, life, linked, spares, callers) {
        Ok(made) => Ok(made),
        Err(refused) => Err(refused),
    }
}

/// The linked entries of a list that no one shares any more: each caller that joined has its entry, with the value that
/// was last in its slot.
pub(crate) fn settle<V: Part>(
    list: ArenaList<V>,
    alloc: Global,
    seats: Vec<ListSeat>,
) -> Result<Entries<V>, Refused<V>>
    requires enough { length (callers_of list) ≤ length seats.items }
    requires of_list { (k : ℕ) (s : ListSeat) → get_elem? seats.items k ≡ some s → IsSeatOf list s }
    requires home { (k : ℕ) (s : ListSeat) → get_elem? seats.items k ≡ some s → Rested s }
    ensures count { IfOk result (λ _. length seats.items ≡ length (callers_of list)) }
    ensures joined { IfOk result (λ r. (k : ℕ) (s : ListSeat) (slot : ℕ) → get_elem? seats.items k ≡ some s → mine (view s) ≡ Some slot → (e : _) × IsAmong r.0.items e × IsJoined V.row.coded (meter V.owner_of V.life_of V.used_of) s e) }
    ensures wards { IfOk result (λ r. (e : _) → IsAmong (wards_of list) e → IsAmong r.0.items e) }
    ensures used { IfOk result (λ r. (k : ℕ) (s : ListSeat) → get_elem? seats.items k ≡ some s → shown (view s) ≤ used_sum (meter V.owner_of V.life_of V.used_of) r.0.items) }
    ensures back { IfErr result (λ e. (e.1 ≡ list) × (e.2.items ≡ seats.items)) }
{
    list.close(alloc, seats)
}
