// A part of an arena, as a list of such parts sees it.
ghost use Rattle.std.specs.Prelude.{◌≡◌, ℕ};

/// A part of an arena that one owner fills. Its three calls take no memory.
pub trait Part {
    /// Who fills it.
    ghost owner_of: { Self → ℕ };

    /// The life of the arena that it belongs to.
    ghost life_of: { Self → ℕ };

    /// How many bytes of it are used.
    ghost used_of: { Self → ℕ };

    /// Who fills it.
    fn owner(&self) -> u32
        ensures { result ≡ owner_of self.now };

    /// The life of the arena that it belongs to.
    fn life(&self) -> u64
        ensures { result ≡ life_of self.now };

    /// How many bytes of it are used.
    fn used(&self) -> u64
        ensures { result ≡ used_of self.now };
}
