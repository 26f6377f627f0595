//! The list as its callers share it, and the seat with which one of them steps.
ghost use Rattle.std.specs.Prelude.{◌≡◌, ◌<◌, ◌∷◌, [], length, map};
ghost use Rattle.arena_list.specs.Words.Written.{value_count, word_count};
ghost use Rattle.arena_list.specs.Words.Core.{slot_count};
ghost use Rattle.arena_list.specs.Rule.Founded.{meter, others_of, slot, Differ};
ghost use Rattle.arena_list.specs.Marks.OfParts.{marks};
ghost use Rattle.arena_list.specs.Steps.Tales.{sole, IsSeated};

use crate::entry::Entry;
use crate::for_clauses::founding::Founding;
use crate::for_clauses::mark::Mark;
use crate::for_clauses::view::View;
use arena_mem::Part;
use atomic_table::{Badge, Seat, Shared, Table, TableRule};
use std::alloc::Global;
use std::mem::replace;

/// What holds of the list's words, values and views between any two steps.
pub struct ListRule;

impl<V: Part> TableRule<Option<V>, View<Mark>, Founding<V>> for ListRule {
    ghost use Rattle.arena_list.specs.Rule.Founded.{meter, first_view};
    ghost use Rattle.arena_list.specs.Marks.OfParts.{marked_founding, HoldsSeen};

    ghost holds = { HoldsSeen V.row.coded (meter V.owner_of V.life_of V.used_of) };

    ghost first = { λ k. first_view (marked_founding V.row.coded (meter V.owner_of V.life_of V.used_of) k) };
}

/// The words and slots of a list, as threads share them.
pub(crate) type Words<V> = Shared<Option<V>, View<Mark>, Founding<V>, ListRule>;

/// A seat within a call, where it may hold its slot.
pub(crate) type OwnSeat<V> = Seat<Option<V>, View<Mark>>;

/// The shared list of an arena's parts. Each of its callers steps with a seat of its own, by a `&` to it.
#[derive(Drop)]
pub struct ArenaList<V: Part> {
    pub(crate) table: Table<Option<V>, View<Mark>, Founding<V>, ListRule, Global>,
    // The linked entries of callers without a seat, oldest first. No step reaches their values.
    pub(crate) others: Vec<Entry<V>>,
    ghost sized: { (table.shared.table_id.words ≡ word_count) × (table.shared.table_id.slots ≡ value_count) },
    ghost kept: { others.items ≡ others_of table.shared.key.linked.items table.shared.key.callers.items },
    ghost apart: { Differ (map slot others.items) },
    ghost called: { 0 < length table.shared.key.callers.items },
}

/// One caller's right to step on a list. Its view is what the caller knows of it. It holds no slot between two calls, so
/// it doesn't name the type of the parts.
#[derive(Drop)]
pub struct ListSeat {
    pub(crate) badge: Badge<View<Mark>>,
    pub(crate) caller: u32,
    pub(crate) slot: u32,
    pub(crate) linked: bool,
    // The used sum that the slot's state shows.
    pub(crate) used: u64,
    // The head's word when the list was last seen.
    pub(crate) head: u64,
    ghost one: { badge.views ≡ sole badge.views ∷ [] },
    ghost seated: { IsSeated marks caller slot linked used head (sole badge.views, []) },
}

/// The seat that a badge stands for, taken out of its place for a call.
pub(crate) fn take_up<V: Part>(badge: &mut Badge<View<Mark>>) -> OwnSeat<V>
    requires { badge.old.views ≡ sole badge.old.views ∷ [] }
    ensures list { result.table_id ≡ badge.old.table_id }
    ensures me { result.me ≡ (sole badge.old.views, []) }
{
    replace(badge, Badge::blank()).into_seat()
}
