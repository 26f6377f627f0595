// Records: a tag, and a payload by its wire type; a group runs to its end tag.
ghost use Rattle.std.specs.Prelude.{◌≡◌, ◌+◌, ◌-◌, ◌^◌, ◌<◌, ◌≤◌, ℕ, [], Some, length, drop, IfOk};
ghost use Rattle.pb_schema.specs.Reads.{read_map};
ghost use Rattle.pb_schema.specs.Form.{read_bytes, read_length as length_read, read_payload as payload_read, form_at};
ghost use Rattle.pb_schema.specs.Fits.{no_types};
ghost use Rattle.pb_schema.specs.Walk.{in_group, walk_left};
ghost use Rattle.pb_wire.specs.Placed.{moved, moved_part};
ghost use Rattle.pb_wire.specs.PlacedRecord.{placed, record_in, LiesFrom, FillsFrom};

use crate::tag::{LENGTH_BYTES, LENGTH_END, read_tag};
use crate::varint::{VALUE_BYTES, find_varint, varint_fault};
use crate::wire_record::WireRecord;
use pb_schema::{WireFault, WireKind};

/// A message or a group is at most so many levels below the root.
const MOST_LEVELS: u32 = 100;

/// The wire types.
const VARINT: u8 = 0;

const EIGHT_BYTES: u8 = 1;

const DELIMITED: u8 = 2;

const GROUP_START: u8 = 3;

const GROUP_END: u8 = 4;

const FOUR_BYTES: u8 = 5;

// So many bytes at `at`, as a payload: its place and its length.
#[inline(always)]
fn read_fixed(bytes: &[u8], at: u32, len: u32) -> Result<(u32, u32), WireFault>
    requires at { at ≤ length bytes.now }
    requires short { length bytes.now < 2 ^ 31 }
    ensures exact { result ≡ read_map (λ n. (at, n)) (read_bytes len at (drop at bytes.now)) }
    ensures bound { IfOk result (λ part. (part.0 ≡ at) × (at + part.1 ≤ length bytes.now)) }
{
    if bytes.len() - (at as usize) < len as usize {
        return Err(WireFault {
            kind: WireKind::Cut,
            byte: at,
        });
    }
    Ok((at, len))
}

// The length at `start`, and the place behind it.
#[inline(always)]
fn read_length(bytes: &[u8], start: u32) -> Result<(u32, u32), WireFault>
    requires start { start ≤ length bytes.now }
    requires short { length bytes.now < 2 ^ 31 }
    ensures exact { result ≡ moved start (length_read start (drop start bytes.now)) }
    ensures bound { IfOk result (λ len. (start < len.1) × (len.1 ≤ length bytes.now)) }
{
    let Some((len, end)) = find_varint(bytes, start as usize, LENGTH_BYTES) else {
        return Err(varint_fault(bytes, start, LENGTH_BYTES));
    };
    if len >= LENGTH_END {
        return Err(WireFault {
            kind: WireKind::BadLength,
            byte: start,
        });
    }
    Ok((len as u32, end as u32))
}

// The payload behind a tag of a wire type: its place and its length. The tags of a group have none.
#[inline(always)]
fn read_payload(bytes: &[u8], at: u32, wire: u8) -> Result<(u32, u32), WireFault>
    requires at { at ≤ length bytes.now }
    requires short { length bytes.now < 2 ^ 31 }
    ensures exact { result ≡ moved_part at (payload_read wire at (drop at bytes.now)) }
    ensures bound { IfOk result (λ part. (at ≤ part.0) × (part.0 + part.1 ≤ length bytes.now)) }
{
    match wire {
        VARINT => {
            let Some((_, end)) = find_varint(bytes, at as usize, VALUE_BYTES) else {
                return Err(varint_fault(bytes, at, VALUE_BYTES));
            };
            Ok((at, end as u32 - at))
        }
        DELIMITED => {
            let (len, payload) = read_length(bytes, at)?;
            read_fixed(bytes, payload, len)
        }
        EIGHT_BYTES => read_fixed(bytes, at, 8),
        FOUR_BYTES => read_fixed(bytes, at, 4),
        _ => Ok((at, 0)),
    }
}

// The form of the record at `start`: of the start and the end of a group the tag alone, of any other the whole record.
// It is inlined for speed: the result of a call goes through memory.
#[inline(always)]
fn read_form(bytes: &[u8], start: u32) -> Result<WireRecord, WireFault>
    requires start { start ≤ length bytes.now }
    requires short { length bytes.now < 2 ^ 31 }
    ensures exact { result ≡ read_map (placed start) (form_at start (drop start bytes.now)) }
    ensures bound { IfOk result (FillsFrom start (length bytes.now)) }
{
    let (number, wire, at) = read_tag(bytes, start)?;
    let (payload, payload_len) = read_payload(bytes, at, wire)?;
    Ok(WireRecord {
        number,
        wire,
        start,
        payload,
        payload_len,
        end: payload + payload_len,
    })
}

// Where the records of the group of this number, which begin at `start`, stop, and the place behind its end tag. So
// many levels are left below them, which is as often as this calls itself.
fn read_group(bytes: &[u8], start: u32, number: u32, left: u32) -> Result<(u32, u32), WireFault>
    requires start { start ≤ length bytes.now }
    requires short { length bytes.now < 2 ^ 31 }
    ensures exact { result ≡ walk_left no_types left 0 (in_group [] number) start (drop start bytes.now) }
    ensures bound { IfOk result (λ stop. (start ≤ stop.0) × (stop.0 < stop.1) × (stop.1 ≤ length bytes.now)) }
{
    let mut at = start;
    while (at as usize) < bytes.len() {
        let form = read_form(bytes, at)?;
        if form.wire == GROUP_END {
            if form.number == number {
                return Ok((at, form.end));
            }
            return Err(WireFault {
                kind: WireKind::GroupEnd,
                byte: at,
            });
        }
        if form.wire == GROUP_START {
            if left == 0 {
                return Err(WireFault {
                    kind: WireKind::TooDeep,
                    byte: at,
                });
            }
            let (_, end) = read_group(bytes, form.payload, form.number, left - 1)?;
            at = end;
        } else {
            at = form.end;
        }
    }
    Err(WireFault {
        kind: WireKind::Cut,
        byte: bytes.len() as u32,
    })
}

/// The record at `start`, with what stands in it where it is a group; or its first fault (encoding guide, "Message
/// Structure", "Length-Delimited Records" and "Groups"). The record stands in a message or a group at this depth, and a
/// group stands one deeper than that. A million groups, each in the one before, are refused as too deep, and a group's
/// bytes are read once.
///
/// Faults, where they come first in the record or in a group's records:
/// - those of [`read_tag`] at a tag's first byte, and those of [`read_varint`](crate::read_varint) at a value's;
/// - `Cut` or `LongVarint` at a length's first byte, as of a tag, and `BadLength` where it is 2^31 or more;
/// - `Cut` at the first byte of a payload or a fixed value that isn't all there, and at the end of the bytes
///   where a group isn't closed;
/// - `GroupEnd` at an end tag outside a group or with another number, and `TooDeep` at the tag of a group at depth 101.
#[inline(always)]
pub fn read_record(bytes: &[u8], start: u32, depth: u32) -> Result<WireRecord, WireFault>
    requires start { start < length bytes.now }
    requires short { length bytes.now < 2 ^ 31 }
    requires depth { depth ≤ 100 }
    ensures exact { result ≡ record_in depth start bytes.now }
    ensures bound { IfOk result (LiesFrom start (length bytes.now)) }
{
    let form = read_form(bytes, start)?;
    if form.wire == GROUP_END {
        return Err(WireFault {
            kind: WireKind::GroupEnd,
            byte: start,
        });
    }
    if form.wire != GROUP_START {
        return Ok(form);
    }
    if depth >= MOST_LEVELS {
        return Err(WireFault {
            kind: WireKind::TooDeep,
            byte: start,
        });
    }
    let (stop, end) = read_group(bytes, form.payload, form.number, MOST_LEVELS - depth - 1)?;
    Ok(WireRecord {
        payload_len: stop - form.payload,
        end,
        ..form
    })
}
