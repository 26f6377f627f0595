//! What each kind of step on the table tells its seat. These types are for the proofs alone.
ghost use Rattle.arena_list.specs.Rule.Founded.{meter};
ghost use Rattle.arena_list.specs.Marks.Image.{through};
ghost use Rattle.arena_list.specs.Marks.OfParts.{marks, marked};
ghost use Rattle.arena_list.specs.Steps.Tales.{saw_head, saw_node, stored_node, tried_link, took, emptied, claimed, gave, saw_size, dealt, undealt, both, spent};

use crate::for_clauses::mark::Mark;
use crate::for_clauses::view::View;
use arena_mem::Part;
use atomic_table::{Join, Play, Split};

/// A load of the head.
pub(crate) struct Look;

impl<V: Part> Play<Option<V>, View<Mark>> for Look {
    ghost then = { through (marked V.row.coded (meter V.owner_of V.life_of V.used_of)) (saw_head marks) };
}

/// A load of a node.
pub(crate) struct ReadNode;

impl<V: Part> Play<Option<V>, View<Mark>> for ReadNode {
    ghost then = { through (marked V.row.coded (meter V.owner_of V.life_of V.used_of)) saw_node };
}

/// A store into the node of the own spare.
pub(crate) struct StoreNode;

impl<V: Part> Play<Option<V>, View<Mark>> for StoreNode {
    ghost then = { through (marked V.row.coded (meter V.owner_of V.life_of V.used_of)) stored_node };
}

/// A compare and exchange on the head.
pub(crate) struct Link;

impl<V: Part> Play<Option<V>, View<Mark>> for Link {
    ghost then = { through (marked V.row.coded (meter V.owner_of V.life_of V.used_of)) (tried_link marks) };
}

/// An exchange on the state of the own slot, which takes its value.
pub(crate) struct Take;

impl<V: Part> Play<Option<V>, View<Mark>> for Take {
    ghost then = { through (marked V.row.coded (meter V.owner_of V.life_of V.used_of)) (took marks) };
}

/// A load of the own slot's state, which gives the emptied slot back.
pub(crate) struct Empty;

impl<V: Part> Play<Option<V>, View<Mark>> for Empty {
    ghost then = { through (marked V.row.coded (meter V.owner_of V.life_of V.used_of)) emptied };
}

/// A load of the own slot's state, which takes the empty slot.
pub(crate) struct Claim;

impl<V: Part> Play<Option<V>, View<Mark>> for Claim {
    ghost then = { through (marked V.row.coded (meter V.owner_of V.life_of V.used_of)) (claimed marks) };
}

/// A store into the state of the own slot, which gives its value.
pub(crate) struct Give;

impl<V: Part> Play<Option<V>, View<Mark>> for Give {
    ghost then = { through (marked V.row.coded (meter V.owner_of V.life_of V.used_of)) (gave marks) };
}

/// A load of the state of a slot.
pub(crate) struct ReadSize;

impl<V: Part> Play<Option<V>, View<Mark>> for ReadSize {
    ghost then = { through (marked V.row.coded (meter V.owner_of V.life_of V.used_of)) (saw_size marks) };
}

/// The first hand goes to a seat of its own.
pub(crate) struct Deal;

impl Split<View<Mark>> for Deal {
    ghost left = { undealt };

    ghost right = { dealt };
}

/// The hands of another seat come back.
pub(crate) struct Gather;

impl Join<View<Mark>> for Gather {
    ghost both = { both };

    ghost spent = { spent };
}
