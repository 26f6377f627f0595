// An open file among files in memory, and how far it is read.
ghost use Rattle.std.specs.Prelude.{◌≡◌, ◌++◌, length, take, drop, min, [], Some, is_some, unwrap_or};
ghost use Rattle.arena_mem.specs.NamedBytes.{opens};
ghost use Rattle.arena_mem.specs.Reading.{IsReadingOf, left_of};

use crate::named_bytes::{NamedBytes, content_of, find_file};

/// The index of the open file, and how many of its bytes are read.
#[derive(Clone, Copy, Drop)]
pub(crate) struct Reading {
    file: usize,
    place: usize,
}

/// Opens the file of that name at its start; nothing where the call fails, or where no file has the name.
pub(crate) fn open_file(files: &[NamedBytes], name: &[u8], fails: bool) -> Option<Reading>
    ensures within { IsReadingOf files.now result }
    ensures found { is_some result ≡ is_some (opens files.now name.now fails) }
    ensures left { left_of files.now result ≡ unwrap_or (opens files.now name.now fails) [] }
{
    if fails {
        return None;
    }
    let file = find_file(files, name)?;
    Some(Reading { file, place: 0 })
}

/// Copies the next bytes of the open file into the front of `room`, and answers how many.
pub(crate) fn read_next(files: &[NamedBytes], reading: &mut Reading, room: &mut [u8]) -> usize
    requires { IsReadingOf files.now (Some reading.old) }
    ensures count { result ≡ min (length room.old) (length (left_of files.now (Some reading.old))) }
    ensures room { room.new ≡ take result (left_of files.now (Some reading.old)) ++ drop result room.old }
    ensures within { IsReadingOf files.now (Some reading.new) }
    ensures left { left_of files.now (Some reading.new) ≡ drop result (left_of files.now (Some reading.old)) }
{
    let content = content_of(files, reading.file);
    let count = copy_front(room, &content[reading.place..]);
    reading.place += count;
    count
}

// Copies as many bytes as both have, and answers how many.
fn copy_front(room: &mut [u8], bytes: &[u8]) -> usize
    ensures count { result ≡ min (length room.old) (length bytes.now) }
    ensures copied { room.new ≡ take result bytes.now ++ drop result room.old }
{
    let count = room.len().min(bytes.len());
    room[..count].copy_from_slice(&bytes[..count]);
    count
}
