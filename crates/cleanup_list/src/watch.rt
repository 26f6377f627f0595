// Who is told of each cleanup that was run.
ghost use Rattle.std.specs.Prelude.{◌≡◌, ℕ, List, [], ◌∷◌, Option, None, IsSome};
ghost use Rattle.cleanup_list.specs.Told.{Triple, Gains, HasRoom};

/// Who is told of each cleanup that was run.
pub trait CleanupWatch {
    /// The list of what it was told, where it tells that.
    ghost told: { Self → Option (List Triple) };

    /// How many triples it can tell.
    ghost room: { Self → ℕ };

    /// Tells it that the cleanup of that number, in that region and life, was run. It takes no memory.
    fn tell(&mut self, life: u64, region: u32, number: u64)
        ensures gains { Gains (told self.old) (told self.new) ((life, region, number) ∷ []) }

        // It goes on telling its list as long as there is room.
        ensures tells { HasRoom (told self.old) (room self.old) 1 → IsSome (told self.new) }
        ensures room { room self.new ≡ room self.old };
}

/// A watch that nobody asks: it tells nothing.
#[derive(Clone, Copy, Debug, PartialEq, Eq)]
pub struct SilentWatch;

impl CleanupWatch for SilentWatch {
    ghost told = { λ _. None };

    ghost room = { λ _. 0 };

    fn tell(&mut self, _life: u64, _region: u32, _number: u64) {}
}
