// A writer of std, as the top call sees a sink.
ghost use Rattle.std.specs.Prelude.{◌≡◌, ◌≤◌, None};
ghost use Rattle.arena_mem.specs.Outside.{Rose};

use crate::again::{flush_again, write_again};
use arena_mem::{Failed, Sink};
use std::io::Write;

/// A sink over a writer. It tells no content, and counts its errors. A call that a signal interrupted goes on.
#[derive(Drop)]
pub struct WriterSink<W: Write> {
    writer: W,
    faults: u64,
}

impl<W: Write> WriterSink<W> {
    /// A sink that hasn't failed.
    pub fn new(writer: W) -> Self
        ensures { ⟦<WriterSink<W> as Sink>⟧.faults result ≡ 0 }
    {
        WriterSink { writer, faults: 0 }
    }

    // Counts an error.
    fn fault(&mut self) -> Failed
        ensures never_falls { self.old.faults ≤ self.new.faults }
        ensures rose { Rose self.old.faults self.new.faults }
    {
        self.faults = self.faults.saturating_add(1);
        Failed
    }
}

impl<W: Write> Sink for WriterSink<W> {
    ghost taken = { λ s. None };

    ghost faults = { λ s. s.faults };

    // What was written is flushed at once, so that an error of the flush isn't lost. A writer that takes nothing of a
    // piece has failed.
    fn write(&mut self, piece: &[u8]) -> Result<usize, Failed> {
        match write_again(&mut self.writer, piece) {
            Ok(0) if !piece.is_empty() => Err(self.fault()),
            Ok(count) => match flush_again(&mut self.writer) {
                Ok(()) => Ok(count),
                Err(_) => Err(self.fault()),
            },
            Err(_) => Err(self.fault()),
        }
    }
}
