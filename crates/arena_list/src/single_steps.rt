//! The single steps on the words of a list, each with what it tells.
ghost use Rattle.std.specs.Prelude.{◌≡◌, ℕ, ◌+◌, ◌<◌, ◌≤◌, ◌++◌, ◌∷◌, [], Bool, true, false, Some, None, length, IsTrue};
ghost use mathlib.Core.Option.{some};
ghost use lib.ListN.{get_elem?};
ghost use Rattle.arena_list.specs.Words.Core.{slot_count};
ghost use Rattle.arena_list.specs.Words.Nodes.{before, head_of, node_word, Begins};
ghost use Rattle.arena_list.specs.Marks.OfParts.{marks};
ghost use Rattle.arena_list.specs.Rule.Views.{hand};
ghost use Rattle.arena_list.specs.Steps.Moments.{SeenList, SeenJoin};
ghost use Rattle.arena_list.specs.Steps.After.{counted, looked, noted, joined};
ghost use Rattle.arena_list.specs.Steps.Tales.{Sees};
ghost use Rattle.arena_list.specs.Calls.Seats.{view, IsSeatOf, SameList};

use crate::list::{ArenaList, ListSeat, take_up};
use crate::step_kinds::{Link, Look, ReadNode, StoreNode};
use arena_mem::Part;

/// How many slots a list has, and so how many callers stand in it at most.
pub(crate) const SLOTS: usize = 64;

/// The word of the head.
pub(crate) const HEAD: usize = 0;

/// The word of the node of slot 0; the nodes of the slots lie side by side.
pub(crate) const NODES: usize = 8;

/// The word of the state of slot 0.
pub(crate) const STATES: usize = 80;

/// How many words the state of a slot stands behind that of the slot before: 128 bytes, so that no two share a line,
/// nor two lines that are fetched together.
pub(crate) const STRIDE: usize = 16;

/// How many places the value of a slot stands behind that of the slot before. A boxed arena takes 16 bytes of its
/// place, so that two are 128 bytes apart, too.
pub(crate) const SPACING: usize = 8;

/// What a word counts in its upper half.
pub(crate) const SPAN: u64 = 1 << 32;

impl<V: Part> ArenaList<V> {
    /// Loads the head, and answers it.
    pub(crate) fn look(&self, seat: &mut ListSeat) -> u64
        requires { IsSeatOf self.now seat.old }
        ensures list { SameList seat.old seat.new }
        ensures view { view seat.new ≡ looked (view seat.old) (view seat.new).seen }
        ensures seen { Begins (view seat.old).seen (view seat.new).seen × Sees (hand (view seat.old)) (view seat.new).seen }
        ensures head { result ≡ head_of (view seat.new).seen }
        ensures moment { SeenList marks (view seat.old).base (view seat.old) (view seat.new).seen }
    {
        let mut own = take_up(&mut seat.badge);
        seat.head = self.table.shared.load::<Look>(&mut own, HEAD);
        seat.badge = own.into_badge();
        seat.head
    }

    /// Loads the node of a slot, and answers it.
    pub(crate) fn read_node(&self, seat: &mut ListSeat, slot: u64) -> u64
        requires list { IsSeatOf self.now seat.old }
        requires slot { slot < slot_count }
        ensures list { SameList seat.old seat.new }
        ensures view { view seat.new ≡ counted (view seat.old) }
        ensures node { (k : ℕ) (n : _) → get_elem? (view seat.old).seen k ≡ some n → slot ≡ n.slot → result ≡ node_word n.caller (before (view seat.old).seen k) }
    {
        let word = NODES + slot as usize;
        let mut own = take_up(&mut seat.badge);
        let node = self.table.shared.load::<ReadNode>(&mut own, word);
        seat.badge = own.into_badge();
        node
    }

    /// Tries to link the caller's spare behind the list as the seat has seen it. It does not where the list is longer.
    pub(crate) fn try_link(&self, seat: &mut ListSeat) -> bool
        requires list { IsSeatOf self.now seat.old }
        requires spare { (hand (view seat.old)).linked ≡ false }
        ensures list { SameList seat.old seat.new }
        ensures linked { IsTrue result → (view seat.new ≡ joined (noted (view seat.old))) × SeenJoin marks (view seat.old).base (noted (view seat.old)) }
        ensures longer { result ≡ false → (view seat.new ≡ looked (noted (view seat.old)) (view seat.new).seen) × Begins (view seat.old).seen (view seat.new).seen × (length (view seat.old).seen < length (view seat.new).seen) }
    {
        let words = &self.table.shared;
        let link = seat.head % SPAN;
        let node = seat.caller as u64 * SPAN + link;
        let head = (seat.head / SPAN + 1) * SPAN + seat.slot as u64 + 1;
        let mut own = take_up(&mut seat.badge);
        words.store::<StoreNode>(&mut own, NODES + seat.slot as usize, node);
        let found = words.compare_exchange::<Link>(&mut own, HEAD, seat.head, head);
        seat.badge = own.into_badge();
        if found == seat.head {
            seat.linked = true;
            seat.head = head;
            return true;
        }
        seat.head = found;
        false
    }
}
