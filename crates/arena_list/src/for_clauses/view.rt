//! What a seat knows. No value of these types is ever made: they exist for the proofs.
use crate::for_clauses::founding::Founding;
use std::collections::LinkedList;

/// A node of the list: a slot, and the caller whose slot it is.
pub struct Node {
    pub slot: u32,
    pub caller: u32,
}

/// Where the value of a caller's slot is.
pub enum Hold<V> {
    /// In the hand of `make`: the slot isn't filled yet.
    Vacant,
    /// Within `make`: the slot is with the seat, to be filled for the first time.
    Filling,
    /// Within a take or a give: the slot, which is in the list, is with the seat, and shows this used sum.
    Moving { used: u64 },
    /// The value is out, and had this used sum when it was taken. The emptied slot is at home.
    Away { used: u64 },
    /// At home in the slot.
    Rests { part: V },
}

/// What is known of one caller.
pub struct Hand<V> {
    pub who: u32,
    pub slot: u32,
    /// Whether the slot is in the list; else it is the caller's spare.
    pub linked: bool,
    /// What was last stored in the node of a spare, where anything was.
    pub noted: Option<u64>,
    pub hold: Hold<V>,
}

/// What a seat knows: of its callers, which are several inside `make` and `close` alone, of the list, oldest node
/// first, and by slot the used sums that it saw.
pub struct View<V> {
    pub hands: LinkedList<Hand<V>>,
    pub seen: LinkedList<Node>,
    pub list_steps: u64,
    pub sizes: LinkedList<u64>,
    /// What the list was made with.
    pub base: Founding<V>,
    /// What the seats that were joined into this one had seen of the list.
    pub pasts: LinkedList<LinkedList<Node>>,
}
