//! What holds a serial arena, to be ended with it.
ghost use Rattle.std.specs.Prelude.{◌≡◌};
ghost use Rattle.serial_arena.specs.Serial.{SerialState};

use crate::boxed::BoxedArena;
use arena_list::Entry;
use serial_arena::SerialArena;

/// A serial arena, alone or in an entry of the list.
pub(crate) trait Holder: Drop {
    /// The serial arena.
    ghost part_of: { Self → SerialState };

    /// Gives it up.
    fn into_part(self) -> SerialArena
        ensures { result ≡ part_of self };
}

impl Holder for SerialArena {
    ghost part_of = { λ s. s };

    fn into_part(self) -> SerialArena {
        self
    }
}

impl Holder for Entry<BoxedArena> {
    ghost part_of = { λ e. e.part };

    fn into_part(self) -> SerialArena {
        self.part.into_arena()
    }
}
