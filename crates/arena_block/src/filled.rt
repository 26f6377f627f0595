// Rows of bytes that are filled within their capacity.
ghost use Rattle.std.specs.Prelude.{◌≡◌, ◌+◌, ◌^◌, ◌-◌, ◌≤◌, ◌++◌, length, take, drop, replicate, vec_capacity};
ghost use Rattle.arena_block.specs.Policy.{round8};
ghost use Rattle.arena_block.specs.Ahead.{IsZeroed};

// The least multiple of 8 that is at least `bytes`.
#[inline]
pub(crate) fn rounded(bytes: u32) -> u32
    requires { bytes ≤ 2 ^ 31 - 8 }
    ensures { result ≡ round8 bytes }
{
    (bytes + 7) / 8 * 8
}

// How far a row is zeroed ahead of what is wanted. More is touched in vain at a block's end, less is asked for too often.
const STEP: u32 = 512;

// Adds zero bytes up to `end`, and a step more where the size has room for it. It is apart so that filling what is
// zeroed already is a few instructions.
#[cold]
#[inline(never)]
pub(crate) fn zero_ahead(row: &mut Vec<u8>, end: u32, size: u32)
    requires fits { end ≤ size }
    requires more { length row.old.items ≤ end }
    requires reserved { size ≤ vec_capacity row.old }
    ensures zeroed { row.new.items ≡ row.old.items ++ replicate (length row.new.items - length row.old.items) 0 }
    ensures enough { end ≤ length row.new.items }
    ensures within { length row.new.items ≤ size }
    ensures reserved { size ≤ vec_capacity row.new }
{
    let target = size.min(end.saturating_add(STEP));
    let Ok(()) = row.resize(target as usize, 0) else {
        unreachable!()
    };
}

// Fills `len` zero bytes behind those that are filled, and answers how far it is filled then.
#[inline]
pub(crate) fn fill(row: &mut Vec<u8>, filled: u32, len: u32, size: u32) -> u32
    requires zeroed { IsZeroed size filled row.old.items }
    requires fits { filled + len ≤ size }
    requires reserved { size ≤ vec_capacity row.old }
    ensures end { result ≡ filled + len }
    ensures filled { take result row.new.items ≡ take filled row.old.items ++ replicate len 0 }
    ensures zeroed { IsZeroed size result row.new.items }
    ensures reserved { size ≤ vec_capacity row.new }
{
    let end = filled + len;
    if end as usize > row.len() {
        zero_ahead(row, end, size);
    }
    end
}

// Lends `len` bytes of the row from `offset` on.
#[inline]
pub(crate) fn part(row: &[u8], offset: usize, len: usize) -> &[u8]
    requires { offset + len ≤ length row.now }
    ensures { result.now ≡ take len (drop offset row.now) }
{
    &row[offset..offset + len]
}

// Writes `bytes` into the row from `offset` on.
#[inline]
pub(crate) fn overwrite(row: &mut [u8], offset: usize, bytes: &[u8])
    requires { offset + length bytes.now ≤ length row.old }
    ensures { row.new ≡ take offset row.old ++ bytes.now ++ drop (offset + length bytes.now) row.old }
{
    row[offset..offset + bytes.len()].copy_from_slice(bytes);
}

// Copies `len` bytes of the row from one offset to another.
pub(crate) fn copy_part(row: &mut [u8], from: usize, to: usize, len: usize)
    requires from { from + len ≤ length row.old }
    requires to { to + len ≤ length row.old }
    ensures { row.new ≡ take to row.old ++ take len (drop from row.old) ++ drop (to + len) row.old }
{
    row.copy_within(from..from + len, to);
}
