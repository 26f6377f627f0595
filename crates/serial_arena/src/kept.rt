// Where the byte strings lie that an arena keeps.
use cleanup_list::Cleanup;

/// Where a kept byte string lies. It is what the string's cleanup gives up: a string has no other name in the arena.
#[derive(Drop)]
pub enum KeptBytes {
    /// A row of its own, by its number among those that were handed over.
    Own { number: usize },
    /// A part of a chunk that it shares with other short strings.
    Shared { chunk: u32, start: u16, len: u16 },
}

impl Cleanup for KeptBytes {
    fn run(self) {}
}
