// Chunks in which short byte strings lie behind one another.
ghost use Rattle.std.specs.Prelude.{◌≡◌, ◌+◌, ◌<◌, ◌≤◌, ℕ, List, length, IfOk, OnOk, IsTrue};
ghost use Rattle.serial_arena.specs.Chunks.{row_at, newest_row, bytes_of, LiesIn, GoesOnAs};

use crate::kept::KeptBytes;
use crate::row::Row;
use arena_mem::NoMemory;

/// How many bytes a chunk has room for.
const CHUNK: usize = 32768;

/// Strings of more bytes have a row of their own, so that a chunk's end is wasted by an eighth at most.
pub(crate) const MOST_SHARED: usize = 4096;

// Copies a short byte string behind the others in the newest chunk, or into the next one, and answers where it lies.
#[inline]
pub(crate) fn share(chunks: &mut Vec<Row>, bytes: &[u8]) -> Result<KeptBytes, NoMemory>
    requires short { length bytes.now ≤ 4096 }
    ensures lies { IfOk result (λ item. (own : List (List ℕ)) → LiesIn own chunks.new.items item) }
    ensures bytes { IfOk result (λ item. (own : List (List ℕ)) → bytes_of own chunks.new.items item ≡ bytes.now) }
    ensures others { GoesOnAs chunks.old.items chunks.new.items }
{
    make_room(chunks, bytes.len())?;
    let last = chunks.len() - 1;
    let Ok(chunk) = u32::try_from(last) else {
        return Err(NoMemory);
    };
    let start = chunks[last].len() as u16;
    chunks[last].add(bytes)?;
    Ok(KeptBytes::Shared {
        chunk,
        start,
        len: bytes.len() as u16,
    })
}

// Makes room for so many bytes in the newest chunk: a new one where they don't fit.
#[inline]
fn make_room(chunks: &mut Vec<Row>, len: usize) -> Result<(), NoMemory>
    requires short { len ≤ 4096 }
    ensures there { OnOk result (0 < length chunks.new.items) }
    ensures fits { OnOk result (length (newest_row chunks.new.items) + len ≤ 32768) }
    ensures others { GoesOnAs chunks.old.items chunks.new.items }
{
    if has_room(chunks, len) {
        return Ok(());
    }
    open_chunk(chunks)
}

// So many bytes fit the newest chunk.
#[inline]
fn has_room(chunks: &[Row], len: usize) -> bool
    requires short { len ≤ 4096 }
    ensures there { IsTrue result → 0 < length chunks.now }
    ensures fits { IsTrue result → length (newest_row chunks.now) + len ≤ 32768 }
{
    match chunks.len() {
        0 => false,
        count => chunks[count - 1].len() <= CHUNK - len,
    }
}

// Opens the next chunk. It is apart so that the common case is a few instructions.
#[cold]
#[inline(never)]
fn open_chunk(chunks: &mut Vec<Row>) -> Result<(), NoMemory>
    ensures there { OnOk result (0 < length chunks.new.items) }
    ensures empty { OnOk result (length (newest_row chunks.new.items) ≡ 0) }
    ensures others { GoesOnAs chunks.old.items chunks.new.items }
{
    let alloc = *chunks.allocator();
    let chunk = Row::with_room(alloc, CHUNK)?;
    if chunks.push(chunk).is_err() {
        return Err(NoMemory);
    }
    Ok(())
}
