// Where a placement lies.

/// A placement without its region: `len` bytes from `offset` on in a block.
#[derive(Clone, Copy, Debug, PartialEq, Eq)]
pub struct Span {
    pub block: u32,
    pub offset: u32,
    pub len: u32,
}
