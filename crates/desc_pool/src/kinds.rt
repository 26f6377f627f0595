// The kinds by their numbers in descriptor.proto.
ghost use Rattle.std.specs.Prelude.{◌≡◌};
ghost use Rattle.pb_schema.specs.Kinds.{is_number, value_type_of};
ghost use Rattle.desc_pool.specs.Refusals.{kind_by};

use pb_schema::Kind;

/// The kind of a field by its type's number, where a message is of the type at this place; none of a group, which is
/// number 10, and of an unknown number.
pub(crate) fn kind_by(code: u32, place: u32) -> Option<Kind>
    ensures { result ≡ kind_by code place }
{
    let kind = match code {
        1 => Kind::Double,
        2 => Kind::Float,
        3 => Kind::Int64,
        4 => Kind::UInt64,
        5 => Kind::Int32,
        6 => Kind::Fixed64,
        7 => Kind::Fixed32,
        8 => Kind::Bool,
        9 => Kind::Text,
        11 => Kind::Message(place),
        12 => Kind::Bytes,
        13 => Kind::UInt32,
        14 => Kind::Enumeration,
        15 => Kind::SFixed32,
        16 => Kind::SFixed64,
        17 => Kind::SInt32,
        18 => Kind::SInt64,
        _ => return None,
    };
    Some(kind)
}

/// Whether values of a kind are numbers.
pub(crate) fn is_number(kind: Kind) -> bool
    ensures { result ≡ is_number (value_type_of kind) }
{
    match kind {
        Kind::Text => false,
        Kind::Bytes => false,
        Kind::Message(_) => false,
        _ => true,
    }
}
