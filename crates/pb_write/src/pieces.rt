// Short pieces of text, gathered for a sink.
ghost use Rattle.std.specs.Prelude.{◌≡◌, ◌^◌, ◌<◌};
ghost use Rattle.pb_schema.specs.Fitted.{IsPatternOf};
ghost use Rattle.pb_schema.specs.Kinds.{value_type_of};
ghost use Rattle.pb_schema.specs.Text.{field_tag, framed, spelled_text};
ghost use Rattle.pb_schema.specs.Varint.{varint_of};
ghost use Rattle.pb_write.specs.Puts.{front_of};
ghost use Rattle.pb_write.specs.Writes.{Counts, Sends, Writes, gathered_in};

use crate::backwards::wire_of;
use crate::gathered::Gathered;
use crate::number::spelled;
use crate::sending::gather;
use arena_mem::{Failed, Sink};
use pb_schema::{FieldType, Kind};
use pb_wire::put_varint;

/// Gathers the shortest varint of a value.
pub(crate) fn gather_varint<S: Sink>(
    value: u64,
    out: &mut Gathered,
    sink: &mut S,
) -> Result<(), Failed>
    ensures written { Writes (S.taken sink.old) (gathered_in out.old) (S.taken sink.new) (gathered_in out.new) result (varint_of value) }
    ensures sent { Sends (S.taken sink.old) (S.taken sink.new) (S.faults sink.old) (S.faults sink.new) result }
    ensures counted { Counts (S.taken sink.old) (S.taken sink.new) out.old.taken out.new.taken }
{
    let mut varint = [0u8; 10];
    let count = put_varint(&mut varint, 0, value);
    gather(&varint[..count], out, sink)
}

/// Gathers the tag of a field's records.
pub(crate) fn gather_tag<S: Sink>(
    field: FieldType,
    out: &mut Gathered,
    sink: &mut S,
) -> Result<(), Failed>
    requires { field.number < 2 ^ 29 }
    ensures written { Writes (S.taken sink.old) (gathered_in out.old) (S.taken sink.new) (gathered_in out.new) result (field_tag field) }
    ensures sent { Sends (S.taken sink.old) (S.taken sink.new) (S.faults sink.old) (S.faults sink.new) result }
    ensures counted { Counts (S.taken sink.old) (S.taken sink.new) out.old.taken out.new.taken }
{
    gather_varint(u64::from(field.number * 8 + wire_of(field.kind)), out, sink)
}

/// Gathers the tag of a field's records, where a list isn't packed.
pub(crate) fn gather_front<S: Sink>(
    field: FieldType,
    packed: bool,
    out: &mut Gathered,
    sink: &mut S,
) -> Result<(), Failed>
    requires { field.number < 2 ^ 29 }
    ensures written { Writes (S.taken sink.old) (gathered_in out.old) (S.taken sink.new) (gathered_in out.new) result (front_of packed field) }
    ensures sent { Sends (S.taken sink.old) (S.taken sink.new) (S.faults sink.old) (S.faults sink.new) result }
    ensures counted { Counts (S.taken sink.old) (S.taken sink.new) out.old.taken out.new.taken }
{
    if packed {
        Ok(())
    } else {
        gather_tag(field, out, sink)
    }
}

/// Gathers bytes behind their length.
pub(crate) fn gather_framed<S: Sink>(
    bytes: &[u8],
    out: &mut Gathered,
    sink: &mut S,
) -> Result<(), Failed>
    ensures written { Writes (S.taken sink.old) (gathered_in out.old) (S.taken sink.new) (gathered_in out.new) result (framed bytes.now) }
    ensures sent { Sends (S.taken sink.old) (S.taken sink.new) (S.faults sink.old) (S.faults sink.new) result }
    ensures counted { Counts (S.taken sink.old) (S.taken sink.new) out.old.taken out.new.taken }
{
    gather_varint(bytes.len() as u64, out, sink)?;
    gather(bytes, out, sink)
}

/// Gathers the number with this bit pattern, as its kind is written.
pub(crate) fn gather_number<S: Sink>(
    kind: Kind,
    bits: u64,
    out: &mut Gathered,
    sink: &mut S,
) -> Result<(), Failed>
    requires { IsPatternOf (value_type_of kind) bits }
    ensures written { Writes (S.taken sink.old) (gathered_in out.old) (S.taken sink.new) (gathered_in out.new) result (spelled_text (value_type_of kind) bits) }
    ensures sent { Sends (S.taken sink.old) (S.taken sink.new) (S.faults sink.old) (S.faults sink.new) result }
    ensures counted { Counts (S.taken sink.old) (S.taken sink.new) out.old.taken out.new.taken }
{
    match kind {
        Kind::Double | Kind::Fixed64 | Kind::SFixed64 => gather(&bits.to_le_bytes(), out, sink),
        Kind::Float | Kind::Fixed32 | Kind::SFixed32 => gather(
            &(bits as u32).to_le_bytes(),
            out,
            sink,
        ),
        _ => gather_varint(spelled(kind, bits), out, sink),
    }
}
