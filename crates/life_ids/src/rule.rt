// The rule of the counter's word, and the kinds of step on it: taking a batch, a look, a split and a join.
ghost use Rattle.std.specs.Prelude.{ℕ, []};
ghost use Rattle.life_ids.specs.Rule.{view_of};
ghost use Rattle.life_ids.specs.Plays.{Ruled, took, looked, kept, cut_off, joined, spent};

use crate::view::View;
use atomic_table::{Join, Play, Split, TableRule};
use std::marker::{Brand, PhantomData};

/// The rule: no id stands in two batches.
pub struct IdLaw;

impl TableRule<(), View, u64> for IdLaw {
    ghost holds = { Ruled };

    ghost first = { λ total. view_of total [] [] total };
}

/// A fetch and add that takes a batch.
pub(crate) struct Take;

impl Play<(), View> for Take {
    ghost then = { took };
}

/// A load after a join.
pub(crate) struct Look;

impl Play<(), View> for Look {
    ghost then = { looked };
}

/// How many batches a split gives, in proofs. Each call picks it.
pub(crate) trait Batches {
    ghost batches: { ℕ };
}

impl Batches for Brand {
    ghost batches = { 0 };
}

pub(crate) struct Cut<N> {
    batches: PhantomData<N>,
}

impl<N: Batches> Split<View> for Cut<N> {
    ghost left = { kept N.batches };

    ghost right = { cut_off N.batches };
}

pub(crate) struct Both;

impl Join<View> for Both {
    ghost both = { joined };

    ghost spent = { spent };
}
