//! The words with which a list begins.
ghost use Rattle.std.specs.Prelude.{◌≡◌, ℕ, ◌^◌, ◌<◌, ◌≤◌, length, slice_index};
ghost use Rattle.arena_list.specs.Words.Written.{word_count};
ghost use Rattle.arena_list.specs.Words.Core.{slot_count};
ghost use Rattle.arena_list.specs.Rule.Founded.{meter, has, AreFit, IsLaid, with_entry};

use crate::entry::Entry;
use crate::single_steps::{HEAD, NODES, SLOTS, SPAN, STATES, STRIDE};
use arena_mem::Part;

/// How many words a list has.
pub(crate) const WORDS: usize = STATES + SLOTS * STRIDE;

/// Whether the caller is among these.
pub(crate) fn is_among(callers: &[u32], caller: u32) -> bool
    ensures { result ≡ has callers.now caller }
{
    for other in callers {
        if *other == caller {
            return true;
        }
    }
    false
}

/// Writes the node of an entry behind that of `link`, and where its caller has no seat its used sum as that of a value
/// at home.
fn lay_entry<V: Part>(words: &mut [u64], entry: &Entry<V>, callers: &[u32], link: u64)
    requires { (length words.old ≡ word_count) × (entry.now.slot < slot_count) × (link ≤ slot_count) × (V.used_of entry.now.part < 2 ^ 63) }
    ensures { words.new ≡ with_entry (meter V.owner_of V.life_of V.used_of) words.old entry.now (has callers.now entry.now.caller) link }
{
    let slot = entry.slot as usize;
    words[NODES + slot] = entry.caller as u64 * SPAN + link;
    if !is_among(callers, entry.caller) {
        words[STATES + slot * STRIDE] = 2 * entry.part.used() + 1;
    }
}

/// Writes the words of a list of these entries, oldest first: the head, a node for each, and for each whose caller has
/// no seat its used sum as that of a value at home.
fn lay<V: Part>(words: &mut [u64], linked: &[Entry<V>], callers: &[u32])
    requires zeros { (length words.old ≡ word_count) × ((k : ℕ) → slice_index words.old k ≡ 0) }
    requires fit { (life : ℕ) × (spare : _) × AreFit (meter V.owner_of V.life_of V.used_of) life linked.now spare callers.now }
    ensures { IsLaid (meter V.owner_of V.life_of V.used_of) linked.now callers.now words.new }
{
    let mut link = 0;
    for entry in linked {
        lay_entry(words, entry, callers, link);
        link = entry.slot as u64 + 1;
    }
    words[HEAD] = linked.len() as u64 * SPAN + link;
}

/// The words of a list of these entries, oldest first.
pub(crate) fn opening_words<V: Part>(linked: &[Entry<V>], callers: &[u32]) -> [u64; WORDS]
    requires fit { (life : ℕ) × (spare : _) × AreFit (meter V.owner_of V.life_of V.used_of) life linked.now spare callers.now }
    ensures { IsLaid (meter V.owner_of V.life_of V.used_of) linked.now callers.now result }
{
    let mut words = [0; WORDS];
    lay(&mut words, linked, callers);
    words
}
