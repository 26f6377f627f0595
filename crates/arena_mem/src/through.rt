// A memory that is lent, and functions over any memory.
ghost use Rattle.std.specs.Prelude.{◌≡◌, ◌+◌, ◌≤◌, IfOk, IfSome, length};
ghost use Rattle.std.specs.FinMap as map;
ghost use Rattle.arena_mem.specs.Places.{IsPlaceable, used};
ghost use Rattle.arena_mem.specs.Grows.{Grows};

use super::*;

// A lent memory. The borrow stands in the key, so that whoever lent the memory knows it by its key when it is back.
#[derive(Drop)]
struct Through<'a, M> {
    inner: &'a mut M,
}

impl<'a, M: Memory> Memory for Through<'a, M> {
    type Key = (M::Key, u64);

    ghost key = { λ t. (M.key t.inner.now, t.inner.ghost_name) };

    ghost places = { λ t. M.places t.inner.now };

    ghost buffers = { λ t. M.buffers t.inner.now };

    ghost blocks = { λ t. M.blocks t.inner.now };

    fn place(&mut self, bytes: u32) -> Result<Place, MemFault> {
        self.inner.place(bytes)
    }

    fn read(&self, place: Place) -> &[u8] {
        self.inner.read(place)
    }

    fn write(&mut self, place: Place, start: u32, bytes: &[u8]) {
        self.inner.write(place, start, bytes);
    }

    fn copy_front(&mut self, from: Place, to: Place, bytes: u32) {
        self.inner.copy_front(from, to, bytes);
    }

    fn keep(&mut self, bytes: Vec<u8>) -> Result<Buffer, (NoMemory, Vec<u8>)> {
        self.inner.keep(bytes)
    }

    fn keep_copy(&mut self, bytes: &[u8]) -> Result<Buffer, NoMemory> {
        self.inner.keep_copy(bytes)
    }

    fn kept(&self, buffer: Buffer) -> &[u8] {
        self.inner.kept(buffer)
    }
}

// Two places of one length, the second with these bytes at its front.
fn place_two<M: Memory>(mem: &mut M, size: u32, front: &[u8]) -> Result<(Place, Place), MemFault>
    requires size { IsPlaceable size }
    requires front { length front.now ≤ size }
    ensures key { M.key mem.new ≡ M.key mem.old }
    ensures count { IfOk result (λ _. map.len (M.places mem.new) ≡ map.len (M.places mem.old) + 2) }
    ensures space { IfOk result (λ two. used (M.places mem.new) ≡ used (M.places mem.old) + two.0.len + two.1.len) }
    ensures few { map.len (M.places mem.new) ≤ map.len (M.places mem.old) + 2 }
    ensures buffers { M.buffers mem.new ≡ M.buffers mem.old }
{
    let first = mem.place(size)?;
    let second = mem.place(size)?;
    mem.write(second, 0, front);
    Ok((first, second))
}

// A place and two buffers, as one growth.
fn place_and_keep<M: Memory>(
    mem: &mut M,
    size: u32,
    bytes: &[u8],
) -> Result<Option<Buffer>, MemFault>
    requires { IsPlaceable size }
    ensures grows { Grows M.key M.places M.buffers M.blocks 1 2 mem.old mem.new }
    ensures count { IfOk result (λ kept. IfSome kept (λ _. map.len (M.buffers mem.new) ≡ map.len (M.buffers mem.old) + 2)) }
{
    mem.place(size)?;
    if mem.keep_copy(bytes).is_err() {
        return Ok(None);
    }
    Ok(mem.keep_copy(bytes).ok())
}

// Two growths, one after the other, are one.
fn place_and_keep_twice<M: Memory>(
    mem: &mut M,
    size: u32,
    bytes: &[u8],
) -> Result<Option<Buffer>, MemFault>
    requires { IsPlaceable size }
    ensures grows { Grows M.key M.places M.buffers M.blocks 2 4 mem.old mem.new }
{
    place_and_keep(mem, size, bytes)?;
    place_and_keep(mem, size, bytes)
}

// `place_two` over the lent memory: what was lent has its key when it is back.
fn place_two_through<M: Memory>(mem: &mut M) -> Result<(Place, Place), MemFault>
    ensures key { M.key mem.new ≡ M.key mem.old }
    ensures count { IfOk result (λ _. map.len (M.places mem.new) ≡ map.len (M.places mem.old) + 2) }
    ensures few { map.len (M.places mem.new) ≤ map.len (M.places mem.old) + 2 }
    ensures buffers { M.buffers mem.new ≡ M.buffers mem.old }
{
    let mut through = Through { inner: mem };
    place_two(&mut through, 16, b"abc")
}
