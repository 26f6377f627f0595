//! Where a part of an arena stands.

/// A place among the owners, or among the adopted regions.
#[derive(Clone, Copy, Debug, PartialEq, Eq)]
pub(crate) enum Spot {
    Owner(usize),
    Adopted(usize),
}
