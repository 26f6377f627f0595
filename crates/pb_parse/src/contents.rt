// What the payload of a record has to be, by the field that takes the record.
ghost use Rattle.std.specs.Prelude.{◌≡◌, ◌<◌, length};
ghost use Rattle.pb_schema.specs.Kinds.{value_type_of, value_wire, is_number};
ghost use Rattle.pb_schema.specs.Cards.{is_repeated};
ghost use Rattle.pb_schema.specs.Fits.{contents_by};
ghost use Rattle.pb_parse.specs.Contents.{meant, contents_at, fits_wire, IsKnown, IsNumberWire};

use msg_layout::tables::Layouts;
use pb_schema::{Card, FieldType, Kind};

/// The wire types.
pub(crate) const VARINT: u8 = 0;

pub(crate) const EIGHT_BYTES: u8 = 1;

pub(crate) const DELIMITED: u8 = 2;

pub(crate) const FOUR_BYTES: u8 = 5;

/// What a payload has to be: anything, whole numbers of this wire type, text, or a message of the type with this number.
#[derive(Clone, Copy, Debug, PartialEq, Eq)]
pub enum Contents {
    Anything,
    Numbers(u8),
    Text,
    Message(u32),
}

/// The wire type of a value of a kind by itself.
#[inline]
pub(crate) fn wire_of_kind(kind: Kind) -> u8
    ensures { result ≡ value_wire (value_type_of kind) }
{
    match kind {
        Kind::Double | Kind::Fixed64 | Kind::SFixed64 => EIGHT_BYTES,
        Kind::Float | Kind::Fixed32 | Kind::SFixed32 => FOUR_BYTES,
        Kind::Text | Kind::Bytes | Kind::Message(_) => DELIMITED,
        _ => VARINT,
    }
}

/// Whether values of a kind are numbers.
#[inline]
pub(crate) fn is_number_kind(kind: Kind) -> bool
    ensures { result ≡ is_number (value_type_of kind) }
{
    !matches!(kind, Kind::Text | Kind::Bytes | Kind::Message(_))
}

/// Whether a field of a card is a list.
#[inline]
pub(crate) fn is_list(card: Card) -> bool
    ensures { result ≡ is_repeated card }
{
    matches!(card, Card::Repeated { .. })
}

/// Whether a field takes a record of its number that has this wire type (encoding guide, "Packed Repeated Fields").
#[inline]
pub(crate) fn takes_wire(field: FieldType, wire: u8) -> bool
    ensures { result ≡ fits_wire field wire }
{
    wire == wire_of_kind(field.kind)
        || wire == DELIMITED
            && is_number_kind(field.kind)
            && matches!(field.card, Card::Repeated { .. })
}

/// What the payload of a record of this number and wire type has to be in a message of a type; a record that no field
/// takes holds anything.
pub(crate) fn contents_of(types: &Layouts, type_no: u32, number: u32, wire: u8) -> Contents
    requires { type_no < length types.now.types }
    ensures exact { meant result ≡ contents_at types.now type_no number wire }
    ensures known { IsKnown types.now result }
{
    let _schema = types.schema();
    match types.entry(type_no, number) {
        Some(entry) if takes_wire(entry.field, wire) => contents_in(entry.field.kind, wire),
        _ => Contents::Anything,
    }
}

// The same where the field's kind is this.
fn contents_in(kind: Kind, wire: u8) -> Contents
    ensures { meant result ≡ contents_by (value_type_of kind) wire }
{
    match kind {
        Kind::Text => Contents::Text,
        Kind::Bytes => Contents::Anything,
        Kind::Message(type_no) => Contents::Message(type_no),
        _ if wire == DELIMITED => Contents::Numbers(wire_of_kind(kind)),
        _ => Contents::Anything,
    }
}
