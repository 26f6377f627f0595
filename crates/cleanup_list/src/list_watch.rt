// A watch that keeps what it was told.
ghost use Rattle.std.specs.Prelude.{◌≡◌, [], ◌∷◌, false, IsSome, IfSome, IfOk};
ghost use Rattle.cleanup_list.specs.Told.{Gains, HasRoom};
ghost use Rattle.cleanup_list.specs.ListWatch.{told_of, with_triple};

use crate::watch::CleanupWatch;
use no_memory::NoMemory;
use std::alloc::Global;
use std::marker::Model;

/// A watch with room for so many triples. It tells its list until more came than it has room for.
#[derive(Drop)]
pub struct ListWatch {
    room: u64,
    fitted: Vec<(u64, u32, u64)>,
    // More came than there is room for.
    passed: bool,
}

impl Model for ListWatch {
    ghost use Rattle.std.specs.Prelude.{◌≤◌, ℕ, length, vec_capacity};
    ghost use Rattle.cleanup_list.specs.ListWatch.{WatchState};

    ghost Value = { WatchState };

    ghost view = { λ w. record { room = w.room; fitted = w.fitted.items; passed = w.passed } };

    // All the room was reserved at the start.
    ghost invariant = { λ w. (w.room ≤ vec_capacity w.fitted) × (length w.fitted.items ≤ w.room) };
}

impl ListWatch {
    /// A watch that was told nothing, with room for that many triples.
    pub fn with_room(alloc: Global, room: u64) -> Result<ListWatch, NoMemory>
        ensures { IfOk result (λ watch. watch ≡ record { room = room; fitted = []; passed = false }) }
    {
        Ok(ListWatch {
            room,
            fitted: Vec::with_capacity(alloc, room as usize)?,
            passed: false,
        })
    }

    /// Lends the triples that fitted its room, in the order in which they came: life, region and number. It takes no
    /// memory.
    pub fn told(&self) -> &[(u64, u32, u64)]
        ensures fitted { result.now ≡ self.now.fitted }
        ensures told { IfSome (told_of self.now) (λ told. told ≡ result.now) }
    {
        self.fitted.as_slice()
    }
}

impl CleanupWatch for ListWatch {
    ghost told = { told_of };

    ghost room = { λ w. w.room };

    fn tell(&mut self, life: u64, region: u32, number: u64)
        ensures gains { Gains (told_of self.old) (told_of self.new) ((life, region, number) ∷ []) }
        ensures tells { HasRoom (told_of self.old) self.old.room 1 → IsSome (told_of self.new) }
        ensures room { self.new.room ≡ self.old.room }

        // It keeps what fits, and is passed where something doesn't.
        ensures exact { self.new ≡ with_triple self.old (life, region, number) }
    {
        if (self.fitted.len() as u64) < self.room {
            self.fitted.push_reserved((life, region, number));
        } else {
            self.passed = true;
        }
    }
}
