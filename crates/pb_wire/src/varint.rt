// Reading varints: a number in groups of seven bits, the least group first.
ghost use Rattle.std.specs.Prelude.{◌≡◌, ◌+◌, ◌*◌, ◌^◌, ◌<◌, ◌≤◌, ℕ, length, take, drop, IfOk, IfSome};
ghost use Rattle.pb_schema.specs.Varint.{value_bytes, varint_at};
ghost use Rattle.pb_schema.specs.Form.{read_varint as varint_read};
ghost use Rattle.pb_wire.specs.Placed.{moved, found_from};

use pb_schema::{WireFault, WireKind};

/// The most bytes of a value.
pub(crate) const VALUE_BYTES: usize = 10;

/// The value at `start`, and the place behind it (encoding guide, "Base 128 Varints"). It has at most ten bytes, of
/// which bits past the 64th don't count.
///
/// The fault stands at `start`: `Cut` where fewer than ten bytes are there and all go on, `LongVarint` where the tenth
/// goes on.
pub fn read_varint(bytes: &[u8], start: u32) -> Result<(u64, u32), WireFault>
    requires start { start ≤ length bytes.now }
    requires short { length bytes.now < 2 ^ 31 }
    ensures exact { result ≡ moved start (varint_read value_bytes start (drop start bytes.now)) }
    ensures bound { IfOk result (λ found. (start < found.1) × (found.1 ≤ length bytes.now)) }
{
    match find_varint(bytes, start as usize, VALUE_BYTES) {
        Some((value, end)) => Ok((value, end as u32)),
        None => Err(varint_fault(bytes, start, VALUE_BYTES)),
    }
}

// What is wrong at `start`, where no varint of at most `most` bytes ends. It is asked for only where `find_varint`
// found none: a `Result` of a value of 64 bits or a fault goes through memory, and that takes longer than a short
// varint.
pub(crate) fn varint_fault(bytes: &[u8], start: u32, most: usize) -> WireFault
    requires start { start ≤ length bytes.now }
    requires none { None ≡ found_from start (varint_at most (drop start bytes.now)) }
    ensures { Err result ≡ moved start (varint_read most start (drop start bytes.now)) }
{
    let there = bytes.len() - start as usize;
    let kind = if there < most {
        WireKind::Cut
    } else {
        WireKind::LongVarint
    };
    WireFault { kind, byte: start }
}

// The varint of at most `most` bytes at `start`, and the place behind it; none where no such varint ends.
#[inline]
pub(crate) fn find_varint(bytes: &[u8], start: usize, most: usize) -> Option<(u64, usize)>
    requires start { start ≤ length bytes.now }
    requires some { 2 ≤ most }
    requires most { most ≤ 10 }
    ensures found { result ≡ found_from start (varint_at most (drop start bytes.now)) }
    ensures bound { IfSome result (λ found. (start < found.1) × (found.1 ≤ length bytes.now)) }
{
    // Most tags, lengths and values have one byte, and most others two.
    if start < bytes.len() && bytes[start] < 128 {
        return Some((u64::from(bytes[start]), start + 1));
    }
    if bytes.len() - start >= 2 && bytes[start + 1] < 128 {
        let value = u64::from(bytes[start] % 128) + u64::from(bytes[start + 1]) * 128;
        return Some((value, start + 2));
    }
    find_long(bytes, start, most)
}

// The same of any length.
fn find_long(bytes: &[u8], start: usize, most: usize) -> Option<(u64, usize)>
    requires start { start ≤ length bytes.now }
    requires some { 1 ≤ most }
    requires most { most ≤ 10 }
    ensures found { result ≡ found_from start (varint_at most (drop start bytes.now)) }
    ensures bound { IfSome result (λ found. (start < found.1) × (found.1 ≤ length bytes.now)) }
{
    let limit = most.min(bytes.len() - start);
    let mut value = 0u64;
    for i in 0..limit {
        let byte = bytes[start + i];
        value = value.wrapping_add(u64::from(byte % 128) << (7 * i));
        if byte < 128 {
            return Some((value, start + i + 1));
        }
    }
    None
}
