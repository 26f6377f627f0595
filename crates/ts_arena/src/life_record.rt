//! What the end of an arena's life tells.

/// The life that ended, how many serial arenas and adopted regions it had, and their sums: the registered cleanups, those
/// that were run, and the used bytes.
#[derive(Clone, Copy, Debug, PartialEq, Eq)]
pub struct LifeRecord {
    pub life: u64,
    pub serials: u32,
    pub adopted: u32,
    pub registered: u128,
    pub cleaned: u128,
    pub used: u128,
}
