// The payload of a record, and whether it is text.
ghost use Rattle.std.specs.Prelude.{◌≡◌, ◌+◌, ◌≤◌, ◌==◌, ◌&&◌, length};
ghost use Rattle.std.specs.Str.{is_utf8};
ghost use Rattle.desc_pool.specs.Payloads.{record_at};

use pb_wire::WireRecord;

/// The payload of a record of these bytes.
pub(crate) fn payload_of<'a>(bytes: &'a [u8], found: &WireRecord) -> &'a [u8]
    requires { found.now.payload + found.now.payload_len ≤ length bytes.now }
    ensures value { result.now ≡ (record_at bytes.now found.now).payload }
    ensures short { length result.now ≤ length bytes.now }
{
    let start = found.payload as usize;
    &bytes[start..start + found.payload_len as usize]
}

/// Whether a record has this number and wire type.
pub(crate) fn has_tag(found: &WireRecord, number: u32, wire: u8) -> bool
    ensures { result ≡ (found.now.number == number && found.now.wire == wire) }
{
    found.number == number && found.wire == wire
}

/// Whether bytes are text in UTF-8.
pub(crate) fn is_text(bytes: &[u8]) -> bool
    ensures { result ≡ is_utf8 bytes.now }
{
    match str::from_utf8(bytes) {
        Ok(_) => true,
        Err(_) => false,
    }
}
