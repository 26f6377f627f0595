// The first fault of a payload, by a reading of its own: where a parser only says that there is one, this tells it.
ghost use Rattle.std.specs.Prelude.{◌≡◌, ◌+◌, ◌^◌, ◌<◌, ◌≤◌, length, take, drop, Ok, Err, IfOk, if◌then◌else◌};
ghost use Rattle.std.specs.Str.{is_utf8};
ghost use Rattle.pb_schema.specs.declared.wire_fault.WireKind.TheVariants.{NotUtf8};
ghost use Rattle.pb_schema.specs.Reads.{fault, fault_read, read_map};
ghost use Rattle.pb_schema.specs.Form.{read_scalar};
ghost use Rattle.pb_schema.specs.Fits.{fields_of};
ghost use Rattle.pb_schema.specs.Walk.{in_message, numbers_end, read_contents, walk_left, deeper_left};
ghost use Rattle.pb_schema.specs.Fault.{fault_of};
ghost use Rattle.pb_parse.specs.Contents.{meant, IsKnown, IsNumberWire};

use crate::contents::{Contents, DELIMITED, EIGHT_BYTES, FOUR_BYTES, VARINT, contents_of};
use msg_layout::tables::Layouts;
use pb_wire::{WireFault, WireKind, WireRecord, read_record, read_varint};

/// A message or a group is at most so many levels below the root.
const MOST_LEVELS: u32 = 100;

/// The first fault of a payload that is read as a message of a type; none where it has none (encoding guide, "Message
/// Structure"). It stands in the first record, in the order of the bytes, whose form, depth or contents are wrong: in a
/// field's message the fault is that message's first, counted from the start of the whole payload. It takes no memory,
/// and reads the bytes of each level once.
pub fn first_fault(types: &Layouts, type_no: u32, bytes: &[u8]) -> Option<WireFault>
    requires known { type_no < length types.now.types }
    requires short { length bytes.now < 2 ^ 31 }
    ensures { result ≡ fault_of types.now type_no 0 bytes.now }
{
    check_message(types, type_no, bytes, 0, MOST_LEVELS).err()
}

// Whether the bytes from `start` on are a message of this type, where so many levels are left below it; or the first
// fault.
#[cycle(check)]
fn check_message(
    types: &Layouts,
    type_no: u32,
    bytes: &[u8],
    start: u32,
    left: u32,
) -> Result<(), WireFault>
    requires known { type_no < length types.now.types }
    requires start { start ≤ length bytes.now }
    requires short { length bytes.now < 2 ^ 31 }
    requires left { left ≤ 100 }
    ensures { fault_read result ≡ fault_read (walk_left types.now left 0 (in_message (fields_of types.now type_no)) start (drop start bytes.now)) }
{
    let mut at = start;
    while (at as usize) < bytes.len() {
        let found = read_record(bytes, at, MOST_LEVELS - left)?;
        let contents = contents_of(types, type_no, found.number, found.wire);
        check_contents(types, bytes, &found, contents, left)?;
        at = found.end;
    }
    Ok(())
}

// Whether the payload of a record is what it has to be, or the first fault in it.
#[cycle(check)]
fn check_contents(
    types: &Layouts,
    bytes: &[u8],
    found: &WireRecord,
    contents: Contents,
    left: u32,
) -> Result<(), WireFault>
    requires within { found.now.payload + found.now.payload_len ≤ length bytes.now }
    requires short { length bytes.now < 2 ^ 31 }
    requires left { left ≤ 100 }
    requires known { IsKnown types.now contents }
    ensures { fault_read result ≡ fault_read (read_contents types.now (deeper_left types.now left) found.now.start found.now.payload (take found.now.payload_len (drop found.now.payload bytes.now)) (meant contents)) }
{
    let front = &bytes[..(found.payload + found.payload_len) as usize];
    match contents {
        Contents::Anything => Ok(()),
        Contents::Numbers(wire) => check_numbers(front, found.payload, wire),
        Contents::Text => check_text(front, found.payload),
        Contents::Message(type_no) => {
            if left == 0 {
                return refuse(WireKind::TooDeep, found.start);
            }
            check_message(types, type_no, front, found.payload, left - 1)
        }
    }
}

fn refuse(kind: WireKind, byte: u32) -> Result<(), WireFault>
    ensures { result ≡ fault kind byte }
{
    Err(WireFault { kind, byte })
}

// Whether the bytes from `start` on are text.
fn check_text(bytes: &[u8], start: u32) -> Result<(), WireFault>
    requires { start ≤ length bytes.now }
    ensures { fault_read result ≡ fault_read (if is_utf8 (drop start bytes.now) then Ok start else fault NotUtf8 start) }
{
    match str::from_utf8(&bytes[start as usize..]) {
        Ok(_) => Ok(()),
        Err(_) => refuse(WireKind::NotUtf8, start),
    }
}

// Whether the bytes from `start` on are whole numbers of this wire type, or the first fault.
fn check_numbers(bytes: &[u8], start: u32, wire: u8) -> Result<(), WireFault>
    requires start { start ≤ length bytes.now }
    requires short { length bytes.now < 2 ^ 31 }
    requires wire { IsNumberWire wire }
    ensures { fault_read result ≡ fault_read (numbers_end wire start 0 (drop start bytes.now)) }
{
    let mut at = start;
    while (at as usize) < bytes.len() {
        at = number_end(bytes, at, wire)?;
    }
    Ok(())
}

// Where the number of this wire type at `start` ends.
fn number_end(bytes: &[u8], start: u32, wire: u8) -> Result<u32, WireFault>
    requires start { start ≤ length bytes.now }
    requires short { length bytes.now < 2 ^ 31 }
    requires wire { IsNumberWire wire }
    ensures exact { result ≡ read_map (λ n. start + n) (read_scalar wire start (drop start bytes.now)) }
    ensures bound { IfOk result (λ end. (start < end) × (end ≤ length bytes.now)) }
{
    if wire == VARINT {
        let (_, end) = read_varint(bytes, start)?;
        return Ok(end);
    }
    let len = if wire == EIGHT_BYTES { 8 } else { 4 };
    if bytes.len() - (start as usize) < len as usize {
        return Err(WireFault {
            kind: WireKind::Cut,
            byte: start,
        });
    }
    Ok(start + len)
}
