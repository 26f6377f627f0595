// The names of parts of a memory: plain numbers, never addresses.

/// A placement: `len` bytes from `offset` on in a block of a region.
#[derive(Clone, Copy, Debug, PartialEq, Eq)]
pub struct Place {
    pub region: u32,
    pub block: u32,
    pub offset: u32,
    pub len: u32,
}

/// A byte string that a region keeps outside its blocks, by its number there.
#[derive(Clone, Copy, Debug, PartialEq, Eq)]
pub struct Buffer {
    pub region: u32,
    pub number: u64,
}
