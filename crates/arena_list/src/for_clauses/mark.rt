//! What a part means, in a type that doesn't name the part's.
ghost use Rattle.std.specs.Prelude.{ℕ};
ghost use Rattle.std.specs.Borrow.{ftrue};
ghost use base.Stored.{Gv};
ghost use Rattle.atomic_table.specs.Seated.{itself};

use std::marker::{Model, PhantomData};

/// A part as a seat's view has it: by the code that the logic has for its meaning, which no other part has, with its
/// owner, life and used sum. It has no bytes.
pub struct Mark {
    marker: PhantomData<u8>,
    pub ghost code: { Gv } by { itself },
    pub ghost owner: { ℕ },
    pub ghost life: { ℕ },
    pub ghost used: { ℕ },
}

impl Model for Mark {
    ghost also_owns = { λ _. ftrue };
}
