// Byte strings in a row, each of them a block of its own.
ghost use Rattle.std.specs.Prelude.{◌≡◌, ◌+◌, ◌<◌, ◌≤◌, length, take};
ghost use Rattle.arena_mem.specs.Places.{splice};
ghost use Rattle.arena_mem.specs.Plain.{block_at, with_written};

use std::marker::Model;

/// A byte string that contracts see as its list of bytes.
#[derive(Drop)]
pub struct PlainBytes {
    pub bytes: Vec<u8>,
}

impl Model for PlainBytes {
    ghost use Rattle.std.specs.Prelude.{ℕ, List};

    ghost Value = { List ℕ };

    ghost view = { λ b. b.bytes.items };
}

impl PlainBytes {
    // These bytes from `start` on.
    fn overwrite(&mut self, start: usize, bytes: &[u8])
        requires { start + length bytes.now ≤ length self.old }
        ensures { self.new ≡ splice start bytes.now self.old }
    {
        self.bytes[start..start + bytes.len()].copy_from_slice(bytes);
    }

    // Lends all of them.
    fn all(&self) -> &[u8]
        ensures { result.now ≡ self.now }
    {
        &self.bytes
    }

    // Lends the first `count` bytes.
    fn front(&self, count: usize) -> &[u8]
        requires { count ≤ length self.now }
        ensures { result.now ≡ take count self.now }
    {
        &self.bytes[..count]
    }
}

// Lends the bytes of one of them.
pub(crate) fn read_at(row: &[PlainBytes], index: usize) -> &[u8]
    requires { index < length row.now }
    ensures { result.now ≡ block_at row.now index }
{
    row[index].all()
}

// Writes `bytes` into one block, from its byte `start` on.
pub(crate) fn write_block(blocks: &mut Vec<PlainBytes>, block: u32, start: u32, bytes: &[u8])
    requires there { block < length blocks.old.items }
    requires fits { start + length bytes.now ≤ length (block_at blocks.old.items block) }
    ensures { blocks.new.items ≡ with_written blocks.old.items block start bytes.now }
{
    blocks[block as usize].overwrite(start as usize, bytes);
}

// Copies the first `count` bytes of one block to the front of another, or of the same one, which then stays as it is.
pub(crate) fn copy_block(blocks: &mut Vec<PlainBytes>, from: u32, to: u32, count: u32)
    requires from_there { from < length blocks.old.items }
    requires to_there { to < length blocks.old.items }
    requires from_fits { count ≤ length (block_at blocks.old.items from) }
    requires to_fits { count ≤ length (block_at blocks.old.items to) }
    ensures { blocks.new.items ≡ with_written blocks.old.items to 0 (take count (block_at blocks.old.items from)) }
{
    if from == to {
        return;
    }
    let alloc = *blocks.allocator();
    let nothing = PlainBytes {
        bytes: Vec::new(alloc),
    };
    let source = std::mem::replace(&mut blocks[from as usize], nothing);
    blocks[to as usize].overwrite(0, source.front(count as usize));
    blocks[from as usize] = source;
}
