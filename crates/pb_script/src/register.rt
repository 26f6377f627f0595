// A register.
ghost use Rattle.std.specs.Prelude.{◌≡◌};
ghost use Rattle.pb_script.specs.Registers.{IsRegister, in_a};

use crate::home::Home;
use dyn_message::MsgRef;
use serial_arena::SerialArena;
use std::marker::Model;

/// A register: where its message stands, the message where it has one, and the region of a message on the heap. It has a
/// region exactly where it has a message on the heap.
///
/// The region lies behind a pointer, since a run may have a million registers, of which few have one. Contracts see the
/// register as a `RegisterState`.
#[derive(Drop)]
pub struct Register {
    pub home: Home,
    pub msg: Option<MsgRef>,
    pub region: Option<Box<SerialArena>>,
}

impl Model for Register {
    ghost use Rattle.std.specs.Option.{option_map};
    ghost use Rattle.pb_script.specs.Registers.{RegisterState, IsRegister};

    ghost Value = { RegisterState };

    ghost view = { λ r. record { home = r.home; msg = r.msg; region = option_map (λ b. b.value) r.region } };

    ghost invariant = { λ r. IsRegister (record { home = r.home; msg = r.msg; region = option_map (λ b. b.value) r.region }) };
}

impl Register {
    /// A register with a message of arena A. It takes no memory.
    pub fn in_a(msg: MsgRef) -> Register
        ensures { result ≡ in_a msg }
    {
        Register {
            home: Home::A,
            msg: Some(msg),
            region: None,
        }
    }

    /// Gives up the register for the region of its message on the heap, where it has one.
    pub fn into_region(self) -> Option<SerialArena>
        ensures { result ≡ self.region }
    {
        match self.region {
            Some(region) => Some(Box::into_inner(region)),
            None => None,
        }
    }
}

/// A law: a register has a region exactly where it has a message on the heap.
pub fn regions_are_of_the_heap(register: &Register)
    ensures { IsRegister register.now }
{
    let _home = register.home;
}
