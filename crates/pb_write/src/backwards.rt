// The text of a message, from its end to its start: the pieces of its unknown bytes, then its fields by descending
// number.
ghost use Rattle.std.specs.Prelude.{◌≡◌, ◌+◌, ◌*◌, ◌≤◌, ◌<◌, ◌^◌, ◌++◌, ℕ, List, All, length, map, true, OnOk};
ghost use Rattle.std.specs.List.{concat};
ghost use Rattle.std.specs.FinMap as fin;
ghost use Rattle.arena_mem.specs.Places.{IsLive};
ghost use Rattle.pb_schema.specs.declared.kind.Card.TheVariants.{Repeated};
ghost use Rattle.pb_schema.specs.Depth.{depth_of, fields_levels, held_levels, value_levels, values_levels};
ghost use Rattle.pb_schema.specs.Fits.{fields_of};
ghost use Rattle.pb_schema.specs.Kinds.{value_type_of, value_wire, slot_of};
ghost use Rattle.pb_schema.specs.Text.{field_tag, framed, value_text, held_text, values_text, fields_text, message_text};
ghost use Rattle.pb_schema.specs.Tree.{ValueWith, HeldWith, Shape, ValueListWith, HeldListWith, values_in_list, value_map, held_map, values_map, fields_map, tree_map};
ghost use Rattle.msg_layout.specs.Slots.{array_slot};
ghost use Rattle.dyn_message.specs.Arrays.{HoldsArray};
ghost use Rattle.dyn_message.specs.Feet.{Foot};
ghost use Rattle.dyn_message.specs.Slots.{part, slot_in, told_in};
ghost use Rattle.dyn_message.specs.Stands.{IsSingle, ValueStands, ValuesStand, HeldStands, FieldsStand, MessageStands, PiecesStand};
ghost use Rattle.pb_write.specs.Puts.{Gains, IsEntryIn, is_held, holds_some, slot_tells, front_of, fields_in};

use crate::number::{is_plain, put_numbers, put_short};
use crate::target::Target;
use arena_mem::Memory;
use dyn_message::{MsgRef, bytes_in, is_set, link_at, list_at, number_at, slot_at, word};
use msg_layout::tables::Layouts;
use msg_layout::{Entry, Mark, single_bytes};
use pb_schema::{Card, FieldType, Kind};

/// More levels than messages nest in a text of fewer than 2^63 bytes, since each takes a byte.
pub(crate) const MOST_LEVELS: u64 = 1 << 63;

/// The wire type of a length and as many bytes.
pub(crate) const DELIMITED: u32 = 2;

/// The word of a slot of 24 bytes that tells its form, which is 0 where it holds nothing.
const FORM: usize = 5;

/// The bytes of a slot of unknown bytes.
pub(crate) const PIECE_BYTES: u32 = 24;

/// Puts the text of a message in front of what the target has taken. Messages nest in it at most `left` levels deep.
#[cycle(backwards)]
pub(crate) fn put_message<M: Memory, T: Target>(
    mem: &M,
    types: &Layouts,
    msg: MsgRef,
    left: u64,
    target: &mut T,
) -> Result<(), T::Refusal>
    requires { (t : Shape) × (feet : List Foot) × MessageStands types.now (M.places mem.now) (M.buffers mem.now) msg.type_no msg.place t feet × (depth_of t ≤ left) }
    ensures { (t : Shape) (feet : List Foot) → MessageStands types.now (M.places mem.now) (M.buffers mem.now) msg.type_no msg.place t feet
        → OnOk result (Gains (T.holds target.old) (T.holds target.new) (message_text types.now (fields_of types.now msg.type_no) (tree_map concat t))) }
{
    let _schema = types.schema();
    let layout = types.of_type(msg.type_no);
    let bytes = mem.read(msg.place);
    put_pieces(mem, bytes, layout.unknown(), target)?;
    put_fields(mem, types, bytes, layout.entries(), left, target)
}

// Puts the pieces of unknown bytes that the slot at a place of a record tells of.
fn put_pieces<M: Memory, T: Target>(
    mem: &M,
    bytes: &[u8],
    at: u32,
    target: &mut T,
) -> Result<(), T::Refusal>
    requires within { at + 24 ≤ length bytes.now }
    requires stand { (pieces : List (List ℕ)) × (feet : List Foot) × HoldsArray (λ elements more. PiecesStand (M.places mem.now) (M.buffers mem.now) elements pieces more) (M.places mem.now) array_slot (length pieces) (part at array_slot bytes.now) feet }
    ensures { (pieces : List (List ℕ)) (feet : List Foot) → HoldsArray (λ elements more. PiecesStand (M.places mem.now) (M.buffers mem.now) elements pieces more) (M.places mem.now) array_slot (length pieces) (part at array_slot bytes.now) feet
        → OnOk result (Gains (T.holds target.old) (T.holds target.new) (concat pieces)) }
{
    let (array, count) = list_at(bytes, at);
    if count == 0 {
        return Ok(());
    }
    let elements = mem.read(array);
    let mut i = count;
    'pieces: while i > 0 {
        i -= 1;
        target.put_bytes(bytes_in(mem, slot_at(elements, i * PIECE_BYTES)))?;
    }
    Ok(())
}

// Puts what the fields of some entries hold. Most hold nothing, and those are passed over without a call.
#[cycle(backwards)]
fn put_fields<M: Memory, T: Target>(
    mem: &M,
    types: &Layouts,
    bytes: &[u8],
    entries: &[Entry],
    left: u64,
    target: &mut T,
) -> Result<(), T::Refusal>
    requires within { All (λ entry. IsEntryIn entry bytes.now) entries.now }
    requires stand { (held : HeldListWith (List (List ℕ))) × (feet : List Foot) × FieldsStand types.now (M.places mem.now) (M.buffers mem.now) bytes.now entries.now held feet × (fields_levels held ≤ left) }
    ensures { (held : HeldListWith (List (List ℕ))) (feet : List Foot) → FieldsStand types.now (M.places mem.now) (M.buffers mem.now) bytes.now entries.now held feet
        → OnOk result (Gains (T.holds target.old) (T.holds target.new) (fields_text types.now (fields_in entries.now) (fields_map concat held))) }
{
    let _schema = types.schema();
    let mut i = entries.len();
    'fields: while i > 0 {
        i -= 1;
        if holds_some(bytes, &entries[i]) {
            put_some(mem, types, bytes, &entries[i], left, target)?;
        }
    }
    Ok(())
}

/// Puts what a field holds.
pub(crate) fn put_field<M: Memory, T: Target>(
    mem: &M,
    types: &Layouts,
    bytes: &[u8],
    entry: &Entry,
    left: u64,
    target: &mut T,
) -> Result<(), T::Refusal>
    requires within { IsEntryIn entry.now bytes.now }
    requires stand { (held : HeldWith (List (List ℕ))) × (feet : List Foot) × HeldStands types.now (M.places mem.now) (M.buffers mem.now) entry.now.field (told_in entry.now bytes.now) (slot_in entry.now bytes.now) held feet × (held_levels held ≤ left) }
    ensures { (held : HeldWith (List (List ℕ))) (feet : List Foot) → HeldStands types.now (M.places mem.now) (M.buffers mem.now) entry.now.field (told_in entry.now bytes.now) (slot_in entry.now bytes.now) held feet
        → OnOk result (Gains (T.holds target.old) (T.holds target.new) (held_text types.now entry.now.field (held_map concat held))) }
{
    let _schema = types.schema();
    if !holds_some(bytes, entry) {
        return Ok(());
    }
    put_some(mem, types, bytes, entry, left, target)
}

// Puts what a field holds, where it holds something. It is inlined, so that a field is read once.
#[cycle(backwards)]
#[inline(always)]
fn put_some<M: Memory, T: Target>(
    mem: &M,
    types: &Layouts,
    bytes: &[u8],
    entry: &Entry,
    left: u64,
    target: &mut T,
) -> Result<(), T::Refusal>
    requires some { holds_some entry.now bytes.now ≡ true }
    requires within { IsEntryIn entry.now bytes.now }
    requires stand { (held : HeldWith (List (List ℕ))) × (feet : List Foot) × HeldStands types.now (M.places mem.now) (M.buffers mem.now) entry.now.field (told_in entry.now bytes.now) (slot_in entry.now bytes.now) held feet × (held_levels held ≤ left) }
    ensures { (held : HeldWith (List (List ℕ))) (feet : List Foot) → HeldStands types.now (M.places mem.now) (M.buffers mem.now) entry.now.field (told_in entry.now bytes.now) (slot_in entry.now bytes.now) held feet
        → OnOk result (Gains (T.holds target.old) (T.holds target.new) (held_text types.now entry.now.field (held_map concat held))) }
{
    match entry.field.card {
        Card::Repeated { packed } => put_list(mem, types, bytes, entry, packed, left, target),
        _ => put_single(mem, types, bytes, entry, left, target),
    }
}

// Puts the value of a field of one value that is set, behind its tag.
#[cycle(backwards)]
#[inline(always)]
fn put_single<M: Memory, T: Target>(
    mem: &M,
    types: &Layouts,
    bytes: &[u8],
    entry: &Entry,
    left: u64,
    target: &mut T,
) -> Result<(), T::Refusal>
    requires single { IsSingle entry.now.field.card }
    requires held { is_held entry.now bytes.now ≡ true }
    requires within { IsEntryIn entry.now bytes.now }
    requires stand { (held : HeldWith (List (List ℕ))) × (feet : List Foot) × HeldStands types.now (M.places mem.now) (M.buffers mem.now) entry.now.field (told_in entry.now bytes.now) (slot_in entry.now bytes.now) held feet × (held_levels held ≤ left) }
    ensures { (held : HeldWith (List (List ℕ))) (feet : List Foot) → HeldStands types.now (M.places mem.now) (M.buffers mem.now) entry.now.field (told_in entry.now bytes.now) (slot_in entry.now bytes.now) held feet
        → OnOk result (Gains (T.holds target.old) (T.holds target.new) (held_text types.now entry.now.field (held_map concat held))) }
{
    let _schema = types.schema();
    put_value(mem, types, bytes, entry.slot, entry.field, left, target)?;
    put_tag(entry.field, target)
}

// Puts the values of a list, each behind its tag, or all of them as one record.
#[cycle(backwards)]
#[inline(never)]
fn put_list<M: Memory, T: Target>(
    mem: &M,
    types: &Layouts,
    bytes: &[u8],
    entry: &Entry,
    packed: bool,
    left: u64,
    target: &mut T,
) -> Result<(), T::Refusal>
    requires list { entry.now.field.card ≡ Repeated packed }
    requires within { IsEntryIn entry.now bytes.now }
    requires stand { (held : HeldWith (List (List ℕ))) × (feet : List Foot) × HeldStands types.now (M.places mem.now) (M.buffers mem.now) entry.now.field (told_in entry.now bytes.now) (slot_in entry.now bytes.now) held feet × (held_levels held ≤ left) }
    ensures { (held : HeldWith (List (List ℕ))) (feet : List Foot) → HeldStands types.now (M.places mem.now) (M.buffers mem.now) entry.now.field (told_in entry.now bytes.now) (slot_in entry.now bytes.now) held feet
        → OnOk result (Gains (T.holds target.old) (T.holds target.new) (held_text types.now entry.now.field (held_map concat held))) }
{
    let (array, count) = list_at(bytes, entry.slot);
    if count == 0 {
        return Ok(());
    }
    let elements = mem.read(array);
    if !packed {
        return put_elements(
            mem,
            types,
            elements,
            count,
            entry.field,
            false,
            left,
            target,
        );
    }
    let before = target.len();
    put_elements(mem, types, elements, count, entry.field, true, left, target)?;
    let len = target.len().saturating_sub(before);
    if len == 0 {
        return Ok(());
    }
    target.put_varint(len)?;
    target.put_varint(u64::from(entry.field.number * 8 + DELIMITED))
}

/// Puts so many values, which lie one behind the other in these bytes, each behind its tag where they aren't packed.
#[cycle(backwards)]
pub(crate) fn put_elements<M: Memory, T: Target>(
    mem: &M,
    types: &Layouts,
    elements: &[u8],
    count: u32,
    field: FieldType,
    packed: bool,
    left: u64,
    target: &mut T,
) -> Result<(), T::Refusal>
    requires within { count * slot_of (value_type_of field.kind) ≤ length elements.now }
    requires few { count ≤ 2 ^ 26 }
    requires number { field.number < 2 ^ 29 }
    requires stand { (values : ValueListWith (List (List ℕ))) × (feet : List Foot) × ValuesStand types.now (M.places mem.now) (M.buffers mem.now) (value_type_of field.kind) elements.now values feet × (length (values_in_list values) ≡ count) × (values_levels values ≤ left) }
    ensures { (values : ValueListWith (List (List ℕ))) (feet : List Foot) → ValuesStand types.now (M.places mem.now) (M.buffers mem.now) (value_type_of field.kind) elements.now values feet → length (values_in_list values) ≡ count
        → OnOk result (Gains (T.holds target.old) (T.holds target.new) (values_text types.now field (front_of packed field) (values_map concat values))) }
{
    match field.kind {
        Kind::Message(_) | Kind::Text | Kind::Bytes => put_values(
            mem, types, elements, count, field, packed, left, target,
        ),
        _ => put_numbers(elements, count, field, packed, target),
    }
}

// The same, value by value, for any kind.
#[cycle(backwards)]
fn put_values<M: Memory, T: Target>(
    mem: &M,
    types: &Layouts,
    elements: &[u8],
    count: u32,
    field: FieldType,
    packed: bool,
    left: u64,
    target: &mut T,
) -> Result<(), T::Refusal>
    requires within { count * slot_of (value_type_of field.kind) ≤ length elements.now }
    requires few { count ≤ 2 ^ 26 }
    requires number { field.number < 2 ^ 29 }
    requires stand { (values : ValueListWith (List (List ℕ))) × (feet : List Foot) × ValuesStand types.now (M.places mem.now) (M.buffers mem.now) (value_type_of field.kind) elements.now values feet × (length (values_in_list values) ≡ count) × (values_levels values ≤ left) }
    ensures { (values : ValueListWith (List (List ℕ))) (feet : List Foot) → ValuesStand types.now (M.places mem.now) (M.buffers mem.now) (value_type_of field.kind) elements.now values feet → length (values_in_list values) ≡ count
        → OnOk result (Gains (T.holds target.old) (T.holds target.new) (values_text types.now field (front_of packed field) (values_map concat values))) }
{
    let size = single_bytes(field.kind);
    let mut i = count;
    'values: while i > 0 {
        i -= 1;
        put_value(mem, types, elements, i * size, field, left, target)?;
        put_front(field, packed, target)?;
    }
    Ok(())
}

// Puts a value, whose slot lies at this place.
#[cycle(backwards)]
#[inline(always)]
fn put_value<M: Memory, T: Target>(
    mem: &M,
    types: &Layouts,
    bytes: &[u8],
    at: u32,
    field: FieldType,
    left: u64,
    target: &mut T,
) -> Result<(), T::Refusal>
    requires within { at + slot_of (value_type_of field.kind) ≤ length bytes.now }
    requires small { at < 2 ^ 31 }
    requires stand { (value : ValueWith (List (List ℕ))) × (feet : List Foot) × ValueStands types.now (M.places mem.now) (M.buffers mem.now) (value_type_of field.kind) (part at (slot_of (value_type_of field.kind)) bytes.now) value feet × (value_levels value ≤ left) }
    ensures { (value : ValueWith (List (List ℕ))) (feet : List Foot) → ValueStands types.now (M.places mem.now) (M.buffers mem.now) (value_type_of field.kind) (part at (slot_of (value_type_of field.kind)) bytes.now) value feet
        → OnOk result (Gains (T.holds target.old) (T.holds target.new) (value_text types.now field (value_map concat value))) }
{
    match field.kind {
        Kind::Message(type_no) => {
            let msg = MsgRef {
                place: link_at(bytes, at),
                type_no,
            };
            put_nested(mem, types, msg, left - 1, target)
        }
        Kind::Text | Kind::Bytes => put_framed(bytes_in(mem, slot_at(bytes, at)), target),
        _ => {
            let bits = number_at(bytes, at, field.kind);
            put_short(field.kind, is_plain(field.kind), bits, target)
        }
    }
}

/// Puts a message behind its length.
#[cycle(backwards)]
pub(crate) fn put_nested<M: Memory, T: Target>(
    mem: &M,
    types: &Layouts,
    msg: MsgRef,
    left: u64,
    target: &mut T,
) -> Result<(), T::Refusal>
    requires { (t : Shape) × (feet : List Foot) × MessageStands types.now (M.places mem.now) (M.buffers mem.now) msg.type_no msg.place t feet × (depth_of t ≤ left) }
    ensures { (t : Shape) (feet : List Foot) → MessageStands types.now (M.places mem.now) (M.buffers mem.now) msg.type_no msg.place t feet
        → OnOk result (Gains (T.holds target.old) (T.holds target.new) (framed (message_text types.now (fields_of types.now msg.type_no) (tree_map concat t)))) }
{
    let before = target.len();
    put_message(mem, types, msg, left, target)?;
    target.put_varint(target.len().saturating_sub(before))
}

// Puts bytes behind their length.
#[inline(never)]
fn put_framed<T: Target>(bytes: &[u8], target: &mut T) -> Result<(), T::Refusal>
    ensures { OnOk result (Gains (T.holds target.old) (T.holds target.new) (framed bytes.now)) }
{
    target.put_bytes(bytes)?;
    target.put_varint(bytes.len() as u64)
}

// Puts the tag of a field's records.
#[inline(always)]
fn put_tag<T: Target>(field: FieldType, target: &mut T) -> Result<(), T::Refusal>
    requires { field.number < 2 ^ 29 }
    ensures { OnOk result (Gains (T.holds target.old) (T.holds target.new) (field_tag field)) }
{
    target.put_varint(u64::from(field.number * 8 + wire_of(field.kind)))
}

// Puts the tag of a field's records, where a list isn't packed.
#[inline(always)]
pub(crate) fn put_front<T: Target>(
    field: FieldType,
    packed: bool,
    target: &mut T,
) -> Result<(), T::Refusal>
    requires { field.number < 2 ^ 29 }
    ensures { OnOk result (Gains (T.holds target.old) (T.holds target.new) (front_of packed field)) }
{
    if packed {
        Ok(())
    } else {
        put_tag(field, target)
    }
}

/// The wire type of a value of this kind by itself.
pub(crate) fn wire_of(kind: Kind) -> u32
    ensures value { result ≡ value_wire (value_type_of kind) }
    ensures small { result ≤ 5 }
{
    match kind {
        Kind::Double | Kind::Fixed64 | Kind::SFixed64 => 1,
        Kind::Float | Kind::Fixed32 | Kind::SFixed32 => 5,
        Kind::Text | Kind::Bytes | Kind::Message(_) => DELIMITED,
        _ => 0,
    }
}

/// Whether a field of one value is set.
#[inline]
pub(crate) fn is_held(bytes: &[u8], entry: &Entry) -> bool
    requires single { IsSingle entry.now.field.card }
    requires within { IsEntryIn entry.now bytes.now }
    ensures { result ≡ is_held entry.now bytes.now }
{
    match entry.mark {
        Mark::Unmarked => slot_tells(bytes, entry.slot, entry.field.kind),
        _ => is_set(bytes, *entry, false),
    }
}

// Whether a field holds something: a list an element, and any other a value.
#[inline(always)]
fn holds_some(bytes: &[u8], entry: &Entry) -> bool
    requires { IsEntryIn entry.now bytes.now }
    ensures { result ≡ holds_some entry.now bytes.now }
{
    match entry.field.card {
        Card::Repeated { .. } => list_at(bytes, entry.slot).1 != 0,
        _ => is_held(bytes, entry),
    }
}

// Whether the slot at this place isn't that of none.
#[inline]
fn slot_tells(bytes: &[u8], at: u32, kind: Kind) -> bool
    requires within { at + slot_of (value_type_of kind) ≤ length bytes.now }
    requires small { at < 2 ^ 31 }
    ensures { result ≡ slot_tells (value_type_of kind) (part at (slot_of (value_type_of kind)) bytes.now) }
{
    match kind {
        Kind::Message(_) => link_at(bytes, at).len != 0,
        Kind::Text | Kind::Bytes => word(slot_at(bytes, at), FORM) != 0,
        _ => number_at(bytes, at, kind) != 0,
    }
}
