// The records of a message that has no fault, and what the last of a field's records holds.
ghost use Rattle.std.specs.Prelude.{◌≡◌, ◌+◌, ◌-◌, ◌^◌, ◌<◌, ◌≤◌, ℕ, List, All, ◌==◌, ◌&&◌, IfOk, filter, length, map};
ghost use Rattle.std.specs.Option.{option_map};
ghost use Rattle.pb_schema.specs.TreeOf.{records_in};
ghost use Rattle.desc_pool.specs.Payloads.{record_at, IsSound, IsRead, last_payload};

use crate::descriptor::Descriptor;
use crate::payload::{has_tag, payload_of};
use no_memory::NoMemory;
use pb_wire::{WireRecord, read_record};
use std::alloc::Global;

/// The records of a message at this depth, in their order.
pub(crate) fn read_records(
    alloc: Global,
    bytes: &[u8],
    descriptor: Descriptor,
    depth: u32,
) -> Result<Vec<WireRecord>, NoMemory>
    requires short { length bytes.now < 2 ^ 31 }
    requires depth { depth ≤ 100 }
    requires sound { IsSound descriptor depth bytes.now }
    ensures records { IfOk result (λ found. map (record_at bytes.now) found.items ≡ records_in (100 - depth) bytes.now) }
    ensures read { IfOk result (λ found. All (IsRead descriptor depth bytes.now) found.items) }
{
    let mut records = Vec::new(alloc);
    let mut at = 0;
    while (at as usize) < bytes.len() {
        let Ok(record) = read_record(bytes, at, depth) else {
            unreachable!()
        };
        records.push(record)?;
        at = record.end;
    }
    Ok(records)
}

/// The payload of the last record of this number and wire type.
pub(crate) fn last_payload<'a>(
    bytes: &'a [u8],
    records: &[WireRecord],
    number: u32,
    wire: u8,
) -> Option<&'a [u8]>
    requires { All (λ r. r.payload + r.payload_len ≤ length bytes.now) records.now }
    ensures { option_map (λ payload. payload.now) result ≡ last_payload number wire (map (record_at bytes.now) records.now) }
{
    let mut last = None;
    for record in records {
        if !has_tag(record, number, wire) {
            continue;
        }
        last = Some(payload_of(bytes, record));
    }
    last
}

/// The records of this number and wire type, in their order.
pub(crate) fn all_tagged(
    alloc: Global,
    records: &[WireRecord],
    number: u32,
    wire: u8,
) -> Result<Vec<WireRecord>, NoMemory>
    ensures { IfOk result (λ found. found.items ≡ filter (λ r. r.number == number && r.wire == wire) records.now) }
{
    let mut found = Vec::new(alloc);
    for record in records {
        if has_tag(record, number, wire) {
            found.push(*record)?;
        }
    }
    Ok(found)
}
