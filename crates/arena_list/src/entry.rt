//! What a list is made of and gives back.

/// A slot of the list with its caller, and the part of the arena that the caller fills.
#[derive(Drop)]
pub struct Entry<V> {
    pub slot: u32,
    pub caller: u32,
    pub part: V,
}
