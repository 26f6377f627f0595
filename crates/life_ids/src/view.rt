// What a seat knows. It stands in proofs alone.
use std::collections::LinkedList;

/// What a seat knows of the counter, in proofs. No value of it is made.
pub struct View {
    /// How many batches the counter was made for.
    pub total: u64,
    /// The batches that the seat took, in order, each by its first id.
    pub taken: LinkedList<u64>,
    /// The batches that came with seats given back to it.
    pub given: LinkedList<u64>,
    /// How many batches it may still take.
    pub quota: u64,
}
