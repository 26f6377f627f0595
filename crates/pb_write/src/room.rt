// Text in a room of a fixed size.
ghost use Rattle.std.specs.Prelude.{◌≡◌, ◌≤◌, [], length, drop};

use crate::target::Target;
use pb_wire::put_varint;

/// How many bytes a room has.
pub(crate) const ROOM_BYTES: usize = 65536;

/// The room hasn't as many bytes left.
#[derive(Drop)]
pub(crate) struct Full;

/// A room that is filled from its end.
#[derive(Drop)]
pub(crate) struct Room {
    bytes: [u8; ROOM_BYTES],
    // Where the text begins.
    at: usize,
    ghost within: { at ≤ 65536 },
}

impl Room {
    /// An empty room.
    pub(crate) fn new() -> Room
        ensures { drop result.at result.bytes ≡ [] }
    {
        Room {
            bytes: [0u8; ROOM_BYTES],
            at: ROOM_BYTES,
        }
    }

    /// Empties the room.
    pub(crate) fn clear(&mut self)
        ensures { drop self.new.at self.new.bytes ≡ [] }
    {
        self.at = end_of(&self.bytes);
    }

    /// The text, where it lies.
    pub(crate) fn text(&self) -> &[u8]
        ensures { result.now ≡ drop self.now.at self.now.bytes }
    {
        &self.bytes[self.at..]
    }
}

impl Target for Room {
    type Refusal = Full;

    ghost holds = { λ room s. drop room.at room.bytes ≡ s };

    #[inline]
    fn put_bytes(&mut self, bytes: &[u8]) -> Result<(), Full> {
        if bytes.len() > self.at {
            return Err(Full);
        }
        let start = self.at - bytes.len();
        self.bytes[start..self.at].copy_from_slice(bytes);
        self.at = start;
        Ok(())
    }

    // Most varints are short, and those are stored straight away.
    #[inline]
    fn put_varint(&mut self, value: u64) -> Result<(), Full> {
        if value < 128 {
            if self.at < 1 {
                return Err(Full);
            }
            self.at -= 1;
            self.bytes[self.at] = value as u8;
            return Ok(());
        }
        if value < 16384 {
            if self.at < 2 {
                return Err(Full);
            }
            self.at -= 2;
            self.bytes[self.at] = (value % 128) as u8 + 128;
            self.bytes[self.at + 1] = (value / 128) as u8;
            return Ok(());
        }
        let mut varint = [0u8; 10];
        let count = put_varint(&mut varint, 0, value);
        self.put_bytes(&varint[..count])
    }

    #[inline]
    fn len(&self) -> u64 {
        (ROOM_BYTES - self.at) as u64
    }
}

// How many bytes a room has, as their length.
fn end_of(bytes: &[u8; ROOM_BYTES]) -> usize
    ensures end { result ≡ length bytes.now }
    ensures bound { result ≤ 65536 }
{
    let all: &[u8] = bytes;
    all.len()
}
