// A row of bytes.
ghost use Rattle.std.specs.Prelude.{◌≡◌, ◌++◌, [], length, IfOk, OnOk, OnErr};

use arena_mem::NoMemory;
use std::alloc::Global;
use std::marker::Model;

/// Bytes to which more may be added.
#[derive(Drop)]
pub(crate) struct Row {
    bytes: Vec<u8>,
}

impl Model for Row {
    ghost use Rattle.std.specs.Prelude.{ℕ, List};

    ghost Value = { List ℕ };

    ghost view = { λ row. row.bytes.items };
}

impl Row {
    // A row of no bytes, with room for that many.
    pub(crate) fn with_room(alloc: Global, room: usize) -> Result<Row, NoMemory>
        ensures { IfOk result (λ row. row ≡ []) }
    {
        Ok(Row {
            bytes: Vec::with_capacity(alloc, room)?,
        })
    }

    pub(crate) fn of(bytes: Vec<u8>) -> Row
        ensures { result ≡ bytes.items }
    {
        Row { bytes }
    }

    #[inline]
    pub(crate) fn len(&self) -> usize
        ensures { result ≡ length self.now }
    {
        self.bytes.len()
    }

    #[inline]
    pub(crate) fn bytes(&self) -> &[u8]
        ensures { result.now ≡ self.now }
    {
        &self.bytes
    }

    // Adds bytes behind those that are there.
    #[inline]
    pub(crate) fn add(&mut self, bytes: &[u8]) -> Result<(), NoMemory>
        ensures added { OnOk result (self.new ≡ self.old ++ bytes.now) }
        ensures unchanged { OnErr result (self.new ≡ self.old) }
    {
        self.bytes.extend_from_slice(bytes)?;
        Ok(())
    }
}
