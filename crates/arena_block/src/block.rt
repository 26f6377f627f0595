// Bump placement within one block.
ghost use Rattle.std.specs.Prelude.{◌≡◌, ◌+◌, ◌-◌, ◌^◌, ◌≤◌, ◌++◌, length, replicate, IfOk, vec_capacity};
ghost use Rattle.arena_block.specs.Policy.{round8};

use crate::filled::{copy_part, fill, overwrite, part, rounded, zero_ahead};
use no_memory::NoMemory;
use std::alloc::Global;
use std::marker::Model;

/// A block of fixed size, filled from its start on: 16 bytes of header, then part after part.
///
/// Its memory is taken at once, and is zeroed in steps ahead of what is filled: so placing a part is mostly a comparison
/// and an addition, and what is never filled is hardly touched.
#[derive(Drop)]
pub struct Block {
    size: u32,
    // How far it is filled; what is zeroed ahead of that stands behind it.
    filled: u32,
    bytes: Vec<u8>,
}

impl Model for Block {
    ghost use Rattle.std.specs.Prelude.{◌≤◌, take, vec_capacity};
    ghost use Rattle.arena_block.specs.Block.{BlockState, IsBlock};
    ghost use Rattle.arena_block.specs.Ahead.{IsZeroed};

    ghost Value = { BlockState };

    ghost view = { λ b. record { size = b.size; bytes = take b.filled b.bytes.items } };

    // The room that is left was reserved with the block.
    ghost invariant = { λ b. IsBlock (record { size = b.size; bytes = take b.filled b.bytes.items }) × IsZeroed b.size b.filled b.bytes.items × (b.size ≤ vec_capacity b.bytes) };
}

impl Block {
    ghost use Rattle.arena_block.specs.Block.{fresh_block, room_of, part_of, with_part, with_bytes, IsBlock, IsPart};

    /// A block of that many bytes, of which its header is filled.
    pub fn new(alloc: Global, size: u32) -> Result<Block, NoMemory>
        requires least { 24 ≤ size }
        requires most { size ≤ 2 ^ 31 + 8 }
        ensures { IfOk result (λ block. block ≡ fresh_block size) }
    {
        let mut bytes = Vec::with_capacity(alloc, size as usize)?;
        zero_ahead(&mut bytes, 16, size);
        Ok(Block {
            size,
            filled: 16,
            bytes,
        })
    }

    /// Its size in bytes, the header included. It takes no memory.
    pub fn size(&self) -> u32
        ensures size { result ≡ self.now.size }
        ensures block { IsBlock self.now }
    {
        self.size
    }

    /// How many bytes are left, the header counted as filled. It takes no memory.
    pub fn room(&self) -> u32
        ensures room { result ≡ room_of self.now }
        ensures block { IsBlock self.now }
    {
        self.size - self.filled
    }

    /// Fills `bytes` bytes more, rounded up to a multiple of 8, with zeros, and answers the offset that they begin
    /// at, which is what was filled before. It takes no memory.
    pub fn place(&mut self, bytes: u32) -> u32
        requires some { 1 ≤ bytes }
        requires most { bytes ≤ 2 ^ 31 - 8 }
        requires fits { round8 bytes ≤ room_of self.old }
        ensures offset { result ≡ length self.old.bytes }
        ensures placed { self.new ≡ with_part self.old bytes }
    {
        let offset = self.filled;
        self.filled = fill(&mut self.bytes, offset, rounded(bytes), self.size);
        offset
    }

    /// Lends `len` bytes from `offset` on. It takes no memory.
    pub fn read(&self, offset: u32, len: u32) -> &[u8]
        requires { IsPart self.now offset len }
        ensures { result.now ≡ part_of self.now offset len }
    {
        part(&self.bytes, offset as usize, len as usize)
    }

    /// Writes `bytes` from `offset` on. It takes no memory.
    pub fn write(&mut self, offset: u32, bytes: &[u8])
        requires { IsPart self.old offset (length bytes.now) }
        ensures { self.new ≡ with_bytes self.old offset bytes.now }
    {
        overwrite(&mut self.bytes, offset as usize, bytes);
    }

    /// Copies `len` bytes from one offset to another. It takes no memory.
    pub fn copy(&mut self, from: u32, to: u32, len: u32)
        requires from { IsPart self.old from len }
        requires to { IsPart self.old to len }
        ensures { self.new ≡ with_bytes self.old to (part_of self.old from len) }
    {
        copy_part(&mut self.bytes, from as usize, to as usize, len as usize);
    }
}
