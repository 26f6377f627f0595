// The first fault of a descriptor set.
ghost use Rattle.std.specs.Prelude.{◌≡◌, ◌^◌, ◌<◌, ◌≤◌, length, drop};
ghost use Rattle.pb_schema.specs.Reads.{fault_read};
ghost use Rattle.pb_schema.specs.Walk.{in_message, walk_left};
ghost use Rattle.pb_schema.specs.Fault.{fault_of};
ghost use Rattle.desc_pool.specs.Descriptors.{descriptor_schema, fields_read, type_of};

use crate::descriptor::{Contents, Descriptor, contents_by};
use crate::payload::{is_text, payload_of};
use pb_wire::{WireFault, WireKind, WireRecord, read_record};

/// A message is at most so many levels below the set.
pub(crate) const MOST_LEVELS: u32 = 100;

/// The first fault of the bytes of a set, if there is one, as of any payload: each text has to be UTF-8, also one that a
/// later record overrides.
pub(crate) fn set_fault(bytes: &[u8]) -> Option<WireFault>
    requires { length bytes.now < 2 ^ 31 }
    ensures { result ≡ fault_of descriptor_schema 0 0 bytes.now }
{
    message_fault(bytes, 0, Descriptor::Set, MOST_LEVELS)
}

// The first fault in the records of a message, which go from `start` to the end of the bytes. So many levels are left
// below it.
fn message_fault(bytes: &[u8], start: u32, descriptor: Descriptor, left: u32) -> Option<WireFault>
    requires start { start ≤ length bytes.now }
    requires short { length bytes.now < 2 ^ 31 }
    requires left { left ≤ 100 }
    ensures { result ≡ fault_read (walk_left descriptor_schema left 0 (in_message (fields_read descriptor)) start (drop start bytes.now)) }
{
    let mut at = start;
    while (at as usize) < bytes.len() {
        let record = match read_record(bytes, at, MOST_LEVELS - left) {
            Ok(record) => record,
            Err(fault) => return Some(fault),
        };
        match contents_by(descriptor, record.number, record.wire) {
            Contents::Anything => {}
            Contents::Text => {
                if !is_text(payload_of(bytes, &record)) {
                    return Some(WireFault {
                        kind: WireKind::NotUtf8,
                        byte: record.payload,
                    });
                }
            }
            Contents::Message(inner) => {
                if left == 0 {
                    return Some(WireFault {
                        kind: WireKind::TooDeep,
                        byte: at,
                    });
                }
                let end = (record.payload + record.payload_len) as usize;
                match message_fault(&bytes[..end], record.payload, inner, left - 1) {
                    Some(fault) => return Some(fault),
                    None => {}
                }
            }
        }
        at = record.end;
    }
    None
}
