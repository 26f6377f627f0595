// Text that is gathered for a sink, so that the sink isn't called for each short piece.
ghost use Rattle.std.specs.Prelude.{◌≡◌, ◌+◌, ◌≤◌, ◌++◌, [], length, take};

use crate::room::ROOM_BYTES;

/// Bytes that wait to be handed over, from the start of a room on, and a count of those that a sink took.
#[derive(Drop)]
pub(crate) struct Gathered {
    bytes: [u8; ROOM_BYTES],
    filled: usize,
    /// How many bytes a sink took, up to the end of what a u64 counts.
    pub(crate) taken: u64,
    ghost within: { filled ≤ 65536 },
}

impl Gathered {
    /// Nothing is gathered.
    pub(crate) fn new() -> Gathered
        ensures text { take result.filled result.bytes ≡ [] }
        ensures taken { result.taken ≡ 0 }
    {
        Gathered {
            bytes: [0u8; ROOM_BYTES],
            filled: 0,
            taken: 0,
        }
    }

    /// The bytes, where they lie.
    pub(crate) fn text(&self) -> &[u8]
        ensures { result.now ≡ take self.now.filled self.now.bytes }
    {
        &self.bytes[..self.filled]
    }

    /// How many bytes more there is room for.
    pub(crate) fn room(&self) -> usize
        ensures { result + self.now.filled ≡ 65536 }
    {
        ROOM_BYTES - self.filled
    }

    /// Nothing is gathered any more.
    pub(crate) fn clear(&mut self)
        ensures text { take self.new.filled self.new.bytes ≡ [] }
        ensures room { self.new.filled ≡ 0 }
        ensures taken { self.new.taken ≡ self.old.taken }
    {
        self.filled = 0;
    }

    /// Gathers bytes for which there is room.
    pub(crate) fn push(&mut self, bytes: &[u8])
        requires { self.old.filled + length bytes.now ≤ 65536 }
        ensures text { take self.new.filled self.new.bytes ≡ take self.old.filled self.old.bytes ++ bytes.now }
        ensures taken { self.new.taken ≡ self.old.taken }
    {
        let end = self.filled + bytes.len();
        self.bytes[self.filled..end].copy_from_slice(bytes);
        self.filled = end;
    }
}
