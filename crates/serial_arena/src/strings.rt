// The byte strings that an arena keeps, each with a cleanup.
ghost use Rattle.std.specs.Prelude.{◌≡◌, ◌<◌, ◌≤◌, [], ◌∷◌, ◌++◌, IsSome, IfOk, IfErr, OnOk, OnErr, length, get_or};
ghost use Rattle.serial_arena.specs.Chunks.{bytes_of, LiesIn};
ghost use Rattle.cleanup_list.specs.Told.{block, Gains, HasRoom};

use crate::kept::KeptBytes;
use crate::row::Row;
use crate::sharing::{MOST_SHARED, share};
use arena_mem::NoMemory;
use cleanup_list::{CleanupList, CleanupWatch};
use std::alloc::Global;
use std::marker::Model;

/// Byte strings by their numbers: those that were handed over as they are, and copies, of which the short ones lie in
/// shared chunks. A string never changes, and is given up with the others.
#[derive(Drop)]
pub(crate) struct KeptStrings {
    own: Vec<Row>,
    chunks: Vec<Row>,
    list: CleanupList<KeptBytes>,
}

impl Model for KeptStrings {
    ghost use Rattle.std.specs.Prelude.{ℕ, List, map};
    ghost use Rattle.serial_arena.specs.Chunks.{bytes_of, AllLieIn};

    ghost Value = { List (List ℕ) };

    ghost view = { λ s. map (bytes_of s.own.items s.chunks.items) s.list };

    ghost invariant = { λ s. AllLieIn s.own.items s.chunks.items s.list };
}

impl KeptStrings {
    // No byte strings. It takes no memory.
    pub(crate) fn new(alloc: Global) -> KeptStrings
        ensures { result ≡ [] }
    {
        KeptStrings {
            own: Vec::new(alloc),
            chunks: Vec::new(alloc),
            list: CleanupList::new(alloc),
        }
    }

    // How many there are.
    pub(crate) fn count(&self) -> u64
        ensures { result ≡ length self.now }
    {
        self.list.count()
    }

    // Keeps a byte string as it is, and answers its number. A refusal hands it back.
    pub(crate) fn keep(&mut self, bytes: Vec<u8>) -> Result<u64, (NoMemory, Vec<u8>)>
        ensures number { IfOk result (λ number. number ≡ length self.old) }
        ensures kept { OnOk result (self.new ≡ self.old ++ bytes.items ∷ []) }
        ensures handed_back { IfErr result (λ refused. refused.1 ≡ bytes) }
        ensures unchanged { OnErr result (self.new ≡ self.old) }
    {
        if self.own.reserve(1).is_err() {
            return Err((NoMemory, bytes));
        }
        let own = self.own.len();
        match self.list.register(KeptBytes::Own { number: own }) {
            Ok(number) => {
                self.own.push_reserved(Row::of(bytes));
                Ok(number)
            }
            Err((fault, _)) => Err((fault, bytes)),
        }
    }

    // Keeps a copy of a byte string, and answers its number.
    #[inline]
    pub(crate) fn keep_copy(&mut self, bytes: &[u8]) -> Result<u64, NoMemory>
        ensures number { IfOk result (λ number. number ≡ length self.old) }
        ensures kept { OnOk result (self.new ≡ self.old ++ bytes.now ∷ []) }
        ensures unchanged { OnErr result (self.new ≡ self.old) }
    {
        if bytes.len() <= MOST_SHARED {
            self.keep_short(bytes)
        } else {
            self.keep_long(bytes)
        }
    }

    #[inline]
    fn keep_short(&mut self, bytes: &[u8]) -> Result<u64, NoMemory>
        requires { length bytes.now ≤ 4096 }
        ensures number { IfOk result (λ number. number ≡ length self.old) }
        ensures kept { OnOk result (self.new ≡ self.old ++ bytes.now ∷ []) }
        ensures unchanged { OnErr result (self.new ≡ self.old) }
    {
        let item = share(&mut self.chunks, bytes)?;
        match self.list.register(item) {
            Ok(number) => Ok(number),
            Err((fault, _)) => Err(fault),
        }
    }

    fn keep_long(&mut self, bytes: &[u8]) -> Result<u64, NoMemory>
        ensures number { IfOk result (λ number. number ≡ length self.old) }
        ensures kept { OnOk result (self.new ≡ self.old ++ bytes.now ∷ []) }
        ensures unchanged { OnErr result (self.new ≡ self.old) }
    {
        let copy = bytes.to_vec(*self.own.allocator())?;
        match self.keep(copy) {
            Ok(number) => Ok(number),
            Err((fault, _)) => Err(fault),
        }
    }

    // Lends the byte string of that number. It takes no memory.
    pub(crate) fn bytes(&self, number: u64) -> &[u8]
        requires { number < length self.now }
        ensures { result.now ≡ get_or self.now number [] }
    {
        bytes_in(&self.own, &self.chunks, self.list.item(number))
    }

    // Runs the cleanup of each, from the last number down to 0, and tells the watch of it.
    pub(crate) fn run_all<W: CleanupWatch>(self, life: u64, region: u32, watch: &mut W) -> u64
        ensures count { result ≡ length self }
        ensures told { Gains (W.told watch.old) (W.told watch.new) (block life region (length self)) }
        ensures tells { HasRoom (W.told watch.old) (W.room watch.old) (length self) → IsSome (W.told watch.new) }
        ensures room { W.room watch.new ≡ W.room watch.old }
    {
        self.list.run_all(life, region, watch)
    }
}

// Lends the byte string that lies there.
fn bytes_in<'a>(own: &'a [Row], chunks: &'a [Row], item: &KeptBytes) -> &'a [u8]
    requires { LiesIn own.now chunks.now item.now }
    ensures { result.now ≡ bytes_of own.now chunks.now item.now }
{
    match item {
        KeptBytes::Own { number } => own[*number].bytes(),
        KeptBytes::Shared { chunk, start, len } => {
            let start = *start as usize;
            &chunks[*chunk as usize].bytes()[start..start + *len as usize]
        }
    }
}
