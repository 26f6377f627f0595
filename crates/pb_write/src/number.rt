// Numbers as they stand on the wire.
ghost use Rattle.std.specs.Prelude.{◌≡◌, ◌*◌, ◌^◌, ◌<◌, ◌≤◌, ℕ, List, true, OnOk, length};
ghost use Rattle.std.specs.List.{concat};
ghost use Rattle.arena_mem.specs.Places.{Places, Buffers};
ghost use Rattle.pb_schema.specs.declared.schema.Schema.{Schema};
ghost use Rattle.pb_schema.specs.Fitted.{IsPatternOf};
ghost use Rattle.pb_schema.specs.Kinds.{value_type_of, slot_of};
ghost use Rattle.pb_schema.specs.Text.{spelled_text, values_text};
ghost use Rattle.pb_schema.specs.Tree.{ValueListWith, values_in_list, values_map};
ghost use Rattle.dyn_message.specs.Feet.{Foot};
ghost use Rattle.dyn_message.specs.Fields.{IsNumberType};
ghost use Rattle.dyn_message.specs.Stands.{ValuesStand};
ghost use Rattle.pb_write.specs.Puts.{Gains, SpellsSmall, front_of, spelled_by};

use crate::backwards::put_front;
use crate::target::Target;
use dyn_message::number_at;
use msg_layout::single_bytes;
use pb_schema::{FieldType, Kind};

/// A varint of a number below this has one or two bytes.
const SMALL_END: u64 = 1 << 14;

/// Where the patterns of negative numbers of 32 bits begin.
const NEGATIVE_32: u64 = 1 << 31;

/// Where the patterns of negative numbers of 64 bits begin.
const NEGATIVE_64: u64 = 1 << 63;

/// The upper half of a word, which a negative number of 32 bits has set where it is written in 64.
const SIGN_BITS: u64 = 0xffff_ffff_0000_0000;

/// Puts the number with this bit pattern in front, as its kind is written (encoding guide, "More Integer Types" and
/// "Non-varint Numbers").
#[inline]
pub(crate) fn put_number<T: Target>(kind: Kind, bits: u64, target: &mut T) -> Result<(), T::Refusal>
    requires { IsPatternOf (value_type_of kind) bits }
    ensures { OnOk result (Gains (T.holds target.old) (T.holds target.new) (spelled_text (value_type_of kind) bits)) }
{
    match kind {
        Kind::Double | Kind::Fixed64 | Kind::SFixed64 => target.put_bytes(&bits.to_le_bytes()),
        Kind::Float | Kind::Fixed32 | Kind::SFixed32 => target.put_bytes(
            &(bits as u32).to_le_bytes(),
        ),
        _ => target.put_varint(spelled(kind, bits)),
    }
}

/// Whether a small number of this kind is written as a varint of its pattern.
#[inline]
pub(crate) fn is_plain(kind: Kind) -> bool
    ensures { result ≡ true → SpellsSmall (value_type_of kind) }
{
    matches!(
        kind,
        Kind::Int32 | Kind::Int64 | Kind::UInt32 | Kind::UInt64 | Kind::Enumeration | Kind::Bool
    )
}

/// Puts a number as [`put_number`] does, where most are small and of a plain kind: those are put straight away.
#[inline(always)]
pub(crate) fn put_short<T: Target>(
    kind: Kind,
    plain: bool,
    bits: u64,
    target: &mut T,
) -> Result<(), T::Refusal>
    requires pattern { IsPatternOf (value_type_of kind) bits }
    requires plain { plain ≡ true → SpellsSmall (value_type_of kind) }
    ensures { OnOk result (Gains (T.holds target.old) (T.holds target.new) (spelled_text (value_type_of kind) bits)) }
{
    if plain && bits < SMALL_END {
        return target.put_varint(bits);
    }
    put_number(kind, bits, target)
}

/// Puts the numbers of a list, which lie one behind the other in these bytes, each behind its tag where they aren't
/// packed.
pub(crate) fn put_numbers<T: Target>(
    elements: &[u8],
    count: u32,
    field: FieldType,
    packed: bool,
    target: &mut T,
) -> Result<(), T::Refusal>
    requires within { count * slot_of (value_type_of field.kind) ≤ length elements.now }
    requires few { count ≤ 2 ^ 26 }
    requires number { field.number < 2 ^ 29 }
    requires kind { IsNumberType (value_type_of field.kind) }
    requires stand { (schema : Schema) × (places : Places) × (buffers : Buffers) × (values : ValueListWith (List (List ℕ))) × (feet : List Foot) × ValuesStand schema places buffers (value_type_of field.kind) elements.now values feet × (length (values_in_list values) ≡ count) }
    ensures { (schema : Schema) (places : Places) (buffers : Buffers) (values : ValueListWith (List (List ℕ))) (feet : List Foot) → ValuesStand schema places buffers (value_type_of field.kind) elements.now values feet → length (values_in_list values) ≡ count
        → OnOk result (Gains (T.holds target.old) (T.holds target.new) (values_text schema field (front_of packed field) (values_map concat values))) }
{
    let size = single_bytes(field.kind);
    let plain = is_plain(field.kind);
    let mut i = count;
    'numbers: while i > 0 {
        i -= 1;
        put_short(
            field.kind,
            plain,
            number_at(elements, i * size, field.kind),
            target,
        )?;
        put_front(field, packed, target)?;
    }
    Ok(())
}

/// The number that a varint spells for a bit pattern of its kind.
#[inline]
pub(crate) fn spelled(kind: Kind, bits: u64) -> u64
    requires { IsPatternOf (value_type_of kind) bits }
    ensures { result ≡ spelled_by (value_type_of kind) bits }
{
    match kind {
        Kind::Int32 | Kind::Enumeration => {
            if bits < NEGATIVE_32 {
                bits
            } else {
                bits + SIGN_BITS
            }
        }
        Kind::SInt32 => {
            if bits < NEGATIVE_32 {
                2 * bits
            } else {
                2 * ((1 << 32) - bits) - 1
            }
        }
        Kind::SInt64 => {
            if bits < NEGATIVE_64 {
                2 * bits
            } else {
                2 * (u64::MAX - bits) + 1
            }
        }
        _ => bits,
    }
}
