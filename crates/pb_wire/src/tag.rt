// Tags: a field's number and a wire type in one number.
ghost use Rattle.std.specs.Prelude.{◌≡◌, ◌+◌, ◌^◌, ◌<◌, ◌≤◌, ℕ, length, take, drop, IfOk};
ghost use Rattle.pb_schema.specs.Varint.{varint_of};
ghost use Rattle.pb_schema.specs.Tag.{tag_of};
ghost use Rattle.pb_schema.specs.Form.{read_tag as tag_read};
ghost use Rattle.pb_wire.specs.Placed.{moved_tag};

use crate::varint::{find_varint, varint_fault};
use crate::write::write_varint;
use pb_schema::{WireFault, WireKind};

/// The most bytes of a tag.
const TAG_BYTES: usize = 5;

/// The most bytes of a length or a frame's prefix.
pub(crate) const LENGTH_BYTES: usize = 5;

/// Lengths and prefixes are below this.
pub(crate) const LENGTH_END: u64 = 1 << 31;

/// Tags are below this.
const TAG_END: u64 = 1 << 32;

/// How many wire types a tag can tell apart.
const WIRE_TYPES: u64 = 8;

/// The greatest wire type, of four bytes.
const LAST_WIRE_TYPE: u64 = 5;

/// The field's number, which is 1 to 2^29 - 1, and the wire type of the tag at `start`, and the place behind it
/// (encoding guide, "Message Structure"). Wire types are 0 varint, 1 eight bytes, 2 a length and as many bytes, 3 the
/// start and 4 the end of a group, 5 four bytes.
///
/// The fault stands at `start`: `Cut` where fewer than five bytes are there and all go on, `LongVarint` where the fifth
/// goes on, and `BadTag` where the number is 0, the wire type 6 or 7, or the tag 2^32 or more.
#[inline]
pub fn read_tag(bytes: &[u8], start: u32) -> Result<(u32, u8, u32), WireFault>
    requires start { start ≤ length bytes.now }
    requires short { length bytes.now < 2 ^ 31 }
    ensures exact { result ≡ moved_tag start (tag_read start (drop start bytes.now)) }
    ensures bound { IfOk result (λ tag. (start < tag.2) × (tag.2 ≤ length bytes.now)) }
{
    let Some((tag, end)) = find_varint(bytes, start as usize, TAG_BYTES) else {
        return Err(varint_fault(bytes, start, TAG_BYTES));
    };
    let wire = tag % WIRE_TYPES;
    if tag >= TAG_END || tag < WIRE_TYPES || wire > LAST_WIRE_TYPE {
        return Err(WireFault {
            kind: WireKind::BadTag,
            byte: start,
        });
    }
    Ok(((tag / WIRE_TYPES) as u32, wire as u8, end as u32))
}

/// Writes the shortest tag of a field's number and a wire type to the front of the room, and answers how many bytes it
/// has: 1 to 5 for the numbers and wire types of [`read_tag`]. Any other pair is spelled as `number * 8 + wire`, which
/// no reader takes for a tag of that pair. The room behind is left as it was.
#[inline]
pub fn write_tag(number: u32, wire: u8, room: &mut [u8; 10]) -> usize
    ensures spelled { take result room.new ≡ varint_of (tag_of number wire) }
    ensures count { result ≡ length (varint_of (tag_of number wire)) }
    ensures rest { drop result room.new ≡ drop result room.old }
    ensures bound { (0 < result) × (result ≤ 10) }
{
    write_varint(u64::from(number) * WIRE_TYPES + u64::from(wire), room)
}
