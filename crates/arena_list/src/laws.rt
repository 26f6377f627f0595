//! Laws of the list, each the contract of a function that does nothing.
ghost use Rattle.std.specs.Prelude.{◌≡◌, ℕ, List};
ghost use Rattle.arena_list.specs.Words.Core.{Core};
ghost use Rattle.arena_list.specs.Words.Written.{Show, AreSmall};
ghost use Rattle.arena_list.specs.declared.list.ListSeat.{ListSeat};
ghost use Rattle.arena_list.specs.Rule.Founded.{meter};
ghost use Rattle.arena_list.specs.Calls.Seats.{HasValue};

use arena_mem::Part;

/// A law: the words show one list at most, so the list is a function of the words.
pub fn words_show_one_list()
    ensures one_list { (c d : Core) (words : List ℕ) → Show c words → Show d words → AreSmall c.joined → AreSmall d.joined → c.joined ≡ d.joined }
{}

/// A law: a seat's slot has one value at most, though the seat doesn't name the type of the parts.
pub fn a_slot_has_one_value<V: Part>()
    ensures one_value { (s : ListSeat) (x y : V) → HasValue V.row.coded (meter V.owner_of V.life_of V.used_of) s x → HasValue V.row.coded (meter V.owner_of V.life_of V.used_of) s y → x ≡ y }
{}
