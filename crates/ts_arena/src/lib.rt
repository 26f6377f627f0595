//! The arena that threads share: many callers each fill a part of it, and one owner settles, resets or ends it.
//!
//! It stands on the shared list of serial arenas, and the parsing workers stand on it. Its contract: while a caller's
//! part is leased nobody else has it; a settled arena has each part as its pass left it last; an arena that is entered
//! alone is one memory over all parts; `reset` and `end` tell each cleanup once.
//!
//! An example of use, whose calls the test `an_arena_is_shared_settled_entered_alone_and_reset` makes in this order:
//!
//! ```text
//! let arena = Arena::new(alloc, Policy::profile(), ids.draw()?);
//! let (shared, passes) = arena.share(&[4])?;        // a pass for each caller
//! // on the caller's own thread:
//! let mut lease = shared.enter(pass, cache);        // its own serial arena, as it left it last
//! let placed = lease.place(8);
//! let (pass, cache) = lease.leave();                // by the cache it comes back without a step on the list
//! // with all passes back:
//! let mut arena = shared.settle(passes)?;
//! let mut sole = arena.enter_sole(7)?;              // one memory over all parts
//! let place = sole.place(8)?;                       // in the serial arena of caller 7
//! sole.write(place, 0, &[7]);
//! let record = arena.reset(&mut ids, &mut watch)?;  // each cleanup once, and then the next life
//! ```
#![tactic(auto)]

mod adopted;
mod adopting;
mod arena;
mod boxed;
#[cfg(test)]
mod callers;
mod ending;
mod faults;
mod holder;
mod laws;
mod lease;
mod lease_memory;
mod life_record;
mod part_calls;
mod parts;
mod pass;
mod settle;
mod share;
mod shared;
mod side;
mod sole;
mod sole_memory;
mod spot;
#[cfg(test)]
mod tests;
mod used;
#[cfg(test)]
mod workers;

pub use arena::Arena;
pub use faults::{SettleFault, ShareFault, SoleFault};
pub use laws::{
    a_leased_slot_is_its_callers, arenas_are_lawful, lookups_go_to_the_region,
    passes_have_slots_of_their_own, placements_lie_apart, sole_use_keeps_all_else,
    sums_are_those_of_the_map,
};
pub use lease::Lease;
pub use life_record::LifeRecord;
pub use pass::Pass;
pub use shared::Shared;
pub use side::Side;
pub use sole_memory::SoleMemory;
