//! An arena's life ends.
ghost use Rattle.std.specs.Prelude.{◌≡◌, ◌↔◌, ◌+◌, ◌*◌, ◌^◌, ◌<◌, ◌≤◌, ◌∷◌, ◌++◌, [], IfOk, OnOk, OnErr, IsErr, IsSome, length, flat_map, sum_by};
ghost use Rattle.cleanup_list.specs.Told.{Gains, HasRoom};
ghost use Rattle.life_ids.specs.Seats.{drawn, greatest_drawn, ids_left};
ghost use Rattle.serial_arena.specs.Serial.{used_of};
ghost use Rattle.ts_arena.specs.Arena.{registered_of};
ghost use Rattle.ts_arena.specs.Ending.{part_told, cleanups, record_of, fresh_arena};

use crate::arena::Arena;
use crate::holder::Holder;
use crate::life_record::LifeRecord;
use cleanup_list::CleanupWatch;
use life_ids::{IdSource, IdsSpent};
use serial_arena::SerialArena;
use std::mem::replace;

/// What ended serial arenas had together.
#[derive(Clone, Copy)]
pub(crate) struct Ended {
    pub(crate) registered: u128,
    pub(crate) cleaned: u128,
    pub(crate) used: u128,
}

/// Ends a serial arena, and adds what it had.
fn end_part<W: CleanupWatch>(part: SerialArena, watch: &mut W, sums: &mut Ended)
    requires small { (sums.old.registered < 2 ^ 127) × (sums.old.cleaned < 2 ^ 127) × (sums.old.used < 2 ^ 127) }
    ensures told { Gains (W.told watch.old) (W.told watch.new) (part_told part) }
    ensures tells { HasRoom (W.told watch.old) (W.room watch.old) (registered_of part) → IsSome (W.told watch.new) }
    ensures room { W.room watch.new ≡ W.room watch.old }
    ensures registered { sums.new.registered ≡ sums.old.registered + registered_of part }
    ensures cleaned { sums.new.cleaned ≡ sums.old.cleaned + registered_of part }
    ensures used { sums.new.used ≡ sums.old.used + used_of part }
    ensures small { (registered_of part < 2 ^ 64) × (used_of part < 2 ^ 64) }
{
    let record = part.end(watch);
    sums.registered += record.registered as u128;
    sums.cleaned += record.cleaned as u128;
    sums.used += record.used as u128;
}

/// Ends serial arenas, in order, and adds what they had.
fn end_all<P: Holder, W: CleanupWatch>(mut items: Vec<P>, watch: &mut W, sums: &mut Ended)
    requires registered { sums.old.registered + length items.items * 2 ^ 64 < 2 ^ 127 }
    requires cleaned { sums.old.cleaned + length items.items * 2 ^ 64 < 2 ^ 127 }
    requires used { sums.old.used + length items.items * 2 ^ 64 < 2 ^ 127 }
    ensures told { Gains (W.told watch.old) (W.told watch.new) (flat_map (λ x. part_told (P.part_of x)) items.items) }
    ensures tells { HasRoom (W.told watch.old) (W.room watch.old) (length (flat_map (λ x. part_told (P.part_of x)) items.items)) → IsSome (W.told watch.new) }
    ensures room { W.room watch.new ≡ W.room watch.old }
    ensures registered { sums.new.registered ≡ sums.old.registered + sum_by (λ x. registered_of (P.part_of x)) items.items }
    ensures cleaned { sums.new.cleaned ≡ sums.old.cleaned + sum_by (λ x. registered_of (P.part_of x)) items.items }
    ensures used { sums.new.used ≡ sums.old.used + sum_by (λ x. used_of (P.part_of x)) items.items }
    ensures few_registered { sums.new.registered ≤ sums.old.registered + length items.items * 2 ^ 64 }
    ensures few_cleaned { sums.new.cleaned ≤ sums.old.cleaned + length items.items * 2 ^ 64 }
    ensures few_used { sums.new.used ≤ sums.old.used + length items.items * 2 ^ 64 }
{
    items.reverse();
    while let Some(item) = items.pop() {
        end_part(item.into_part(), watch, sums);
    }
}

impl Arena {
    /// Ends the arena: runs each cleanup once and tells the watch, owner by owner in the order in which they joined,
    /// then region by region in the order of adoption, each from the last number down to 0; then frees everything. It
    /// takes no memory.
    pub fn end<W: CleanupWatch>(self, watch: &mut W) -> LifeRecord
        ensures record_ { result ≡ record_of self }
        ensures told { Gains (W.told watch.old) (W.told watch.new) (cleanups self) }
        ensures tells { HasRoom (W.told watch.old) (W.room watch.old) (length (cleanups self)) → IsSome (W.told watch.new) }
        ensures room { W.room watch.new ≡ W.room watch.old }
    {
        let serials = self.owners();
        let Arena {
            life,
            policy: _,
            owners,
            adopted: regions,
        } = self;
        let regions = regions.into_list();
        let adopted = regions.len() as u32;
        let mut sums = Ended {
            registered: 0,
            cleaned: 0,
            used: 0,
        };
        end_all(owners, watch, &mut sums);
        end_all(regions, watch, &mut sums);
        LifeRecord {
            life,
            serials,
            adopted,
            registered: sums.registered,
            cleaned: sums.cleaned,
            used: sums.used,
        }
    }

    /// Ends the arena as `end` does, and begins a new life of it, whose id is drawn: it has no owners and no adopted
    /// regions then. It takes no memory.
    ///
    /// # Errors
    ///
    /// `IdsSpent` exactly where no id is left. Nothing changes then.
    pub fn reset<W: CleanupWatch>(
        &mut self,
        ids: &mut IdSource,
        watch: &mut W,
    ) -> Result<LifeRecord, IdsSpent>
        ensures spent { IsErr result ↔ (ids_left ids.old ≡ 0) }
        ensures unchanged { OnErr result ((self.new ≡ self.old) × (ids.new ≡ ids.old) × (watch.new ≡ watch.old)) }
        ensures record_ { IfOk result (λ r. r ≡ record_of self.old) }
        ensures told { OnOk result (Gains (W.told watch.old) (W.told watch.new) (cleanups self.old)) }
        ensures tells { OnOk result (HasRoom (W.told watch.old) (W.room watch.old) (length (cleanups self.old)) → IsSome (W.told watch.new)) }
        ensures room { W.room watch.new ≡ W.room watch.old }
        ensures fresh { OnOk result (self.new ≡ fresh_arena self.old (greatest_drawn ids.new)) }
        ensures drawn { OnOk result (drawn ids.new ≡ drawn ids.old ++ greatest_drawn ids.new ∷ []) }
        ensures ascends { OnOk result (greatest_drawn ids.old < greatest_drawn ids.new) }
        ensures left { OnOk result (ids_left ids.new + 1 ≡ ids_left ids.old) }
        ensures counter { ids.new.counter ≡ ids.old.counter }
    {
        let life = ids.draw()?;
        let alloc = *self.owners.allocator();
        let next = Arena::new(alloc, self.policy, life);
        let ended = replace(self, next);
        Ok(ended.end(watch))
    }
}
