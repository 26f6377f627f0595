// Where a register's message stands.

/// Where a message stands: in arena A, in arena B, or on the heap, in a region of its own.
#[derive(Clone, Copy, Debug, PartialEq, Eq)]
pub enum Home {
    A,
    B,
    H,
}
