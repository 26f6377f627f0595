// A sink in memory that fails where it was told to.
ghost use Rattle.std.specs.Prelude.{◌≡◌, ◌<◌, ◌≤◌, min, [], length, Some, false, is_err, IfOk, OnOk};

use crate::calls::Calls;
use crate::outside::{Failed, Sink};
use std::alloc::Global;
use std::marker::Model;

/// A sink that keeps all the bytes that it took. It fails at the calls that it was told to.
#[derive(Drop)]
pub struct MemorySink {
    taken: Vec<u8>,
    per_call: u32,
    calls: Calls,
}

impl Model for MemorySink {
    ghost use Rattle.std.specs.Prelude.{◌≤◌};
    ghost use Rattle.arena_mem.specs.MemorySink.{SinkState};

    ghost Value = { SinkState };

    ghost view = { λ s. record { taken = s.taken.items; per_call = s.per_call; calls = s.calls } };

    ghost invariant = { λ s. 1 ≤ s.per_call };
}

impl MemorySink {
    ghost use Rattle.arena_mem.specs.Calls.{no_calls};

    /// Nothing is taken yet, and a call takes at most `per_call` bytes.
    ///
    /// The calls of `write` whose numbers, counted from 0, are in `failing` fail. The number stands still at
    /// `u64::MAX`.
    pub fn new(alloc: Global, per_call: u32, failing: Vec<u64>) -> MemorySink
        requires { 1 ≤ per_call }
        ensures taken { result.taken ≡ [] }
        ensures per_call { result.per_call ≡ per_call }
        ensures calls { result.calls ≡ no_calls failing.items }
    {
        MemorySink {
            taken: Vec::new(alloc),
            per_call,
            calls: Calls::new(failing),
        }
    }

    /// Lends all the bytes that were taken. It takes no memory.
    pub fn taken(&self) -> &[u8]
        ensures { result.now ≡ self.now.taken }
    {
        self.taken.as_slice()
    }

    /// How many calls have failed.
    pub fn faults(&self) -> u64
        ensures { result ≡ self.now.calls.faults }
    {
        self.calls.faults()
    }
}

impl Sink for MemorySink {
    ghost use Rattle.std.specs.Io.KnownBytes.{WriteAppends};
    ghost use Rattle.arena_mem.specs.Outside.{HasCause};
    ghost use Rattle.arena_mem.specs.Calls.{fails_next, after_call};

    ghost taken = { λ s. Some s.taken };

    ghost faults = { λ s. s.calls.faults };

    /// A growth that finds no memory is a fault too.
    fn write(&mut self, piece: &[u8]) -> Result<usize, Failed>
        ensures per_call { self.new.per_call ≡ self.old.per_call }
        ensures listed { OnOk result (fails_next self.old.calls ≡ false) }
        ensures count { IfOk result (λ count. count ≡ min self.old.per_call (length piece.now)) }
        ensures progress { IfOk result (λ count. 0 < length piece.now → 0 < count) }
        ensures bytes { WriteAppends (Some self.old.taken) (Some self.new.taken) result piece.now }
        ensures cause { HasCause self.old.calls.faults self.new.calls.faults result }
        ensures calls { self.new.calls ≡ after_call self.old.calls (is_err result) }
    {
        if self.calls.next_fails() {
            return Err(self.calls.fault());
        }
        let count = piece.len().min(self.per_call as usize);
        match self.taken.extend_from_slice(&piece[..count]) {
            Ok(()) => Ok(count),
            Err(_) => Err(self.calls.fault()),
        }
    }
}
