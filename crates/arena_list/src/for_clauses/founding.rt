//! What a list is told once, when it is made.
use crate::entry::Entry;
use ghost_list::GhostList;

/// The life of a list, and the entries and callers that it is made with.
#[derive(Drop)]
pub struct Founding<V> {
    pub life: u64,
    pub linked: GhostList<Entry<V>>,
    pub spare: GhostList<Entry<V>>,
    pub callers: GhostList<u32>,
}
