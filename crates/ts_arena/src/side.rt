//! An arena between two uses.
use crate::arena::Arena;
use crate::pass::Pass;
use crate::shared::Shared;

/// An arena whose last settling succeeded, or found no memory. An `Unsettled` one holds all passes that its `Shared`
/// made (`HoldsPasses`).
#[derive(Drop)]
pub enum Side {
    Sole(Arena),
    Unsettled(Shared, Vec<Pass>),
}
