// The text of a message that is too long for a room, from its start to its end: what fits the room is put there first,
// backwards, and of the rest the lengths are counted.
ghost use Rattle.std.specs.Prelude.{◌≡◌, ◌+◌, ◌*◌, ◌≤◌, ◌<◌, ◌^◌, ◌++◌, ℕ, List, All, length};
ghost use Rattle.std.specs.List.{concat};
ghost use Rattle.pb_schema.specs.declared.kind.Card.TheVariants.{Repeated};
ghost use Rattle.pb_schema.specs.Depth.{depth_of, fields_levels, held_levels, value_levels, values_levels};
ghost use Rattle.pb_schema.specs.Fits.{fields_of};
ghost use Rattle.pb_schema.specs.Kinds.{value_type_of, slot_of};
ghost use Rattle.pb_schema.specs.Text.{framed, value_text, held_text, values_text, fields_text, message_text};
ghost use Rattle.pb_schema.specs.Tree.{ValueWith, HeldWith, Shape, ValueListWith, HeldListWith, values_in_list, value_map, held_map, values_map, fields_map, tree_map};
ghost use Rattle.msg_layout.specs.Slots.{array_slot};
ghost use Rattle.dyn_message.specs.Arrays.{HoldsArray};
ghost use Rattle.dyn_message.specs.Feet.{Foot};
ghost use Rattle.dyn_message.specs.Slots.{part, slot_in, told_in};
ghost use Rattle.dyn_message.specs.Stands.{IsSingle, ValueStands, ValuesStand, HeldStands, FieldsStand, MessageStands, PiecesStand};
ghost use Rattle.pb_write.specs.Puts.{IsEntryIn, front_of, fields_in};
ghost use Rattle.pb_write.specs.Writes.{Counts, Sends, Writes, gathered_in};

use crate::backwards::{DELIMITED, PIECE_BYTES, is_held, put_field, put_nested};
use crate::counter::{elements_size, message_size};
use crate::gathered::Gathered;
use crate::pieces::{gather_framed, gather_front, gather_number, gather_tag, gather_varint};
use crate::room::Room;
use crate::sending::gather;
use arena_mem::{Failed, Memory, Sink};
use dyn_message::{MsgRef, bytes_in, link_at, list_at, number_at, slot_at};
use msg_layout::tables::Layouts;
use msg_layout::{Entry, single_bytes};
use pb_schema::{Card, FieldType, Kind};

/// Writes the text of a message. Messages nest in it at most `left` levels deep.
#[cycle(forwards)]
pub(crate) fn write_text<M: Memory, S: Sink>(
    mem: &M,
    types: &Layouts,
    msg: MsgRef,
    left: u64,
    room: &mut Room,
    out: &mut Gathered,
    sink: &mut S,
) -> Result<(), Failed>
    requires { (t : Shape) × (feet : List Foot) × MessageStands types.now (M.places mem.now) (M.buffers mem.now) msg.type_no msg.place t feet × (depth_of t ≤ left) }
    ensures written { (t : Shape) (feet : List Foot) → MessageStands types.now (M.places mem.now) (M.buffers mem.now) msg.type_no msg.place t feet
        → length (message_text types.now (fields_of types.now msg.type_no) (tree_map concat t)) < 2 ^ 63
        → Writes (S.taken sink.old) (gathered_in out.old) (S.taken sink.new) (gathered_in out.new) result (message_text types.now (fields_of types.now msg.type_no) (tree_map concat t)) }
    ensures sent { Sends (S.taken sink.old) (S.taken sink.new) (S.faults sink.old) (S.faults sink.new) result }
    ensures counted { Counts (S.taken sink.old) (S.taken sink.new) out.old.taken out.new.taken }
{
    let _schema = types.schema();
    let layout = types.of_type(msg.type_no);
    let bytes = mem.read(msg.place);
    write_fields(mem, types, bytes, layout.entries(), left, room, out, sink)?;
    write_pieces(mem, bytes, layout.unknown(), out, sink)
}

// Writes the pieces of unknown bytes that the slot at a place of a record tells of.
fn write_pieces<M: Memory, S: Sink>(
    mem: &M,
    bytes: &[u8],
    at: u32,
    out: &mut Gathered,
    sink: &mut S,
) -> Result<(), Failed>
    requires within { at + 24 ≤ length bytes.now }
    requires stand { (pieces : List (List ℕ)) × (feet : List Foot) × HoldsArray (λ elements more. PiecesStand (M.places mem.now) (M.buffers mem.now) elements pieces more) (M.places mem.now) array_slot (length pieces) (part at array_slot bytes.now) feet }
    ensures written { (pieces : List (List ℕ)) (feet : List Foot) → HoldsArray (λ elements more. PiecesStand (M.places mem.now) (M.buffers mem.now) elements pieces more) (M.places mem.now) array_slot (length pieces) (part at array_slot bytes.now) feet
        → length (concat pieces) < 2 ^ 63
        → Writes (S.taken sink.old) (gathered_in out.old) (S.taken sink.new) (gathered_in out.new) result (concat pieces) }
    ensures sent { Sends (S.taken sink.old) (S.taken sink.new) (S.faults sink.old) (S.faults sink.new) result }
    ensures counted { Counts (S.taken sink.old) (S.taken sink.new) out.old.taken out.new.taken }
{
    let (array, count) = list_at(bytes, at);
    if count == 0 {
        return Ok(());
    }
    let elements = mem.read(array);
    let mut i = 0;
    'pieces: while i < count {
        gather(bytes_in(mem, slot_at(elements, i * PIECE_BYTES)), out, sink)?;
        i += 1;
    }
    Ok(())
}

// Writes what the fields of some entries hold.
#[cycle(forwards)]
fn write_fields<M: Memory, S: Sink>(
    mem: &M,
    types: &Layouts,
    bytes: &[u8],
    entries: &[Entry],
    left: u64,
    room: &mut Room,
    out: &mut Gathered,
    sink: &mut S,
) -> Result<(), Failed>
    requires within { All (λ entry. IsEntryIn entry bytes.now) entries.now }
    requires stand { (held : HeldListWith (List (List ℕ))) × (feet : List Foot) × FieldsStand types.now (M.places mem.now) (M.buffers mem.now) bytes.now entries.now held feet × (fields_levels held ≤ left) }
    ensures written { (held : HeldListWith (List (List ℕ))) (feet : List Foot) → FieldsStand types.now (M.places mem.now) (M.buffers mem.now) bytes.now entries.now held feet
        → length (fields_text types.now (fields_in entries.now) (fields_map concat held)) < 2 ^ 63
        → Writes (S.taken sink.old) (gathered_in out.old) (S.taken sink.new) (gathered_in out.new) result (fields_text types.now (fields_in entries.now) (fields_map concat held)) }
    ensures sent { Sends (S.taken sink.old) (S.taken sink.new) (S.faults sink.old) (S.faults sink.new) result }
    ensures counted { Counts (S.taken sink.old) (S.taken sink.new) out.old.taken out.new.taken }
{
    let mut i = 0;
    'fields: while i < entries.len() {
        write_field(mem, types, bytes, entries[i], left, room, out, sink)?;
        i += 1;
    }
    Ok(())
}

// Writes what a field holds.
#[cycle(forwards)]
fn write_field<M: Memory, S: Sink>(
    mem: &M,
    types: &Layouts,
    bytes: &[u8],
    entry: Entry,
    left: u64,
    room: &mut Room,
    out: &mut Gathered,
    sink: &mut S,
) -> Result<(), Failed>
    requires within { IsEntryIn entry bytes.now }
    requires stand { (held : HeldWith (List (List ℕ))) × (feet : List Foot) × HeldStands types.now (M.places mem.now) (M.buffers mem.now) entry.field (told_in entry bytes.now) (slot_in entry bytes.now) held feet × (held_levels held ≤ left) }
    ensures written { (held : HeldWith (List (List ℕ))) (feet : List Foot) → HeldStands types.now (M.places mem.now) (M.buffers mem.now) entry.field (told_in entry bytes.now) (slot_in entry bytes.now) held feet
        → length (held_text types.now entry.field (held_map concat held)) < 2 ^ 63
        → Writes (S.taken sink.old) (gathered_in out.old) (S.taken sink.new) (gathered_in out.new) result (held_text types.now entry.field (held_map concat held)) }
    ensures sent { Sends (S.taken sink.old) (S.taken sink.new) (S.faults sink.old) (S.faults sink.new) result }
    ensures counted { Counts (S.taken sink.old) (S.taken sink.new) out.old.taken out.new.taken }
{
    room.clear();
    if let Ok(()) = put_field(mem, types, bytes, &entry, left, room) {
        return gather(room.text(), out, sink);
    }
    match entry.field.card {
        Card::Repeated { packed } => {
            write_list(mem, types, bytes, entry, packed, left, room, out, sink)
        }
        _ => write_single(mem, types, bytes, entry, left, room, out, sink),
    }
}

// Writes what a field of one value holds, behind its tag, and nothing where it is unset.
#[cycle(forwards)]
fn write_single<M: Memory, S: Sink>(
    mem: &M,
    types: &Layouts,
    bytes: &[u8],
    entry: Entry,
    left: u64,
    room: &mut Room,
    out: &mut Gathered,
    sink: &mut S,
) -> Result<(), Failed>
    requires single { IsSingle entry.field.card }
    requires within { IsEntryIn entry bytes.now }
    requires stand { (held : HeldWith (List (List ℕ))) × (feet : List Foot) × HeldStands types.now (M.places mem.now) (M.buffers mem.now) entry.field (told_in entry bytes.now) (slot_in entry bytes.now) held feet × (held_levels held ≤ left) }
    ensures written { (held : HeldWith (List (List ℕ))) (feet : List Foot) → HeldStands types.now (M.places mem.now) (M.buffers mem.now) entry.field (told_in entry bytes.now) (slot_in entry bytes.now) held feet
        → length (held_text types.now entry.field (held_map concat held)) < 2 ^ 63
        → Writes (S.taken sink.old) (gathered_in out.old) (S.taken sink.new) (gathered_in out.new) result (held_text types.now entry.field (held_map concat held)) }
    ensures sent { Sends (S.taken sink.old) (S.taken sink.new) (S.faults sink.old) (S.faults sink.new) result }
    ensures counted { Counts (S.taken sink.old) (S.taken sink.new) out.old.taken out.new.taken }
{
    let _schema = types.schema();
    if !is_held(bytes, &entry) {
        return Ok(());
    }
    gather_tag(entry.field, out, sink)?;
    write_value(
        mem,
        types,
        bytes,
        entry.slot,
        entry.field,
        left,
        room,
        out,
        sink,
    )
}

// Writes the values of a list, each behind its tag, or all of them as one record.
#[cycle(forwards)]
fn write_list<M: Memory, S: Sink>(
    mem: &M,
    types: &Layouts,
    bytes: &[u8],
    entry: Entry,
    packed: bool,
    left: u64,
    room: &mut Room,
    out: &mut Gathered,
    sink: &mut S,
) -> Result<(), Failed>
    requires list { entry.field.card ≡ Repeated packed }
    requires within { IsEntryIn entry bytes.now }
    requires stand { (held : HeldWith (List (List ℕ))) × (feet : List Foot) × HeldStands types.now (M.places mem.now) (M.buffers mem.now) entry.field (told_in entry bytes.now) (slot_in entry bytes.now) held feet × (held_levels held ≤ left) }
    ensures written { (held : HeldWith (List (List ℕ))) (feet : List Foot) → HeldStands types.now (M.places mem.now) (M.buffers mem.now) entry.field (told_in entry bytes.now) (slot_in entry bytes.now) held feet
        → length (held_text types.now entry.field (held_map concat held)) < 2 ^ 63
        → Writes (S.taken sink.old) (gathered_in out.old) (S.taken sink.new) (gathered_in out.new) result (held_text types.now entry.field (held_map concat held)) }
    ensures sent { Sends (S.taken sink.old) (S.taken sink.new) (S.faults sink.old) (S.faults sink.new) result }
    ensures counted { Counts (S.taken sink.old) (S.taken sink.new) out.old.taken out.new.taken }
{
    let (array, count) = list_at(bytes, entry.slot);
    if count == 0 {
        return Ok(());
    }
    let elements = mem.read(array);
    let field = entry.field;
    if !packed {
        return write_elements(
            mem, types, elements, count, field, false, left, room, out, sink,
        );
    }
    let len = elements_size(mem, types, elements, count, field, left);
    if len == 0 {
        return Ok(());
    }
    gather_varint(u64::from(field.number * 8 + DELIMITED), out, sink)?;
    gather_varint(len, out, sink)?;
    write_elements(
        mem, types, elements, count, field, true, left, room, out, sink,
    )
}

// Writes so many values, which lie one behind the other in these bytes, each behind its tag where they aren't packed.
#[cycle(forwards)]
fn write_elements<M: Memory, S: Sink>(
    mem: &M,
    types: &Layouts,
    elements: &[u8],
    count: u32,
    field: FieldType,
    packed: bool,
    left: u64,
    room: &mut Room,
    out: &mut Gathered,
    sink: &mut S,
) -> Result<(), Failed>
    requires within { count * slot_of (value_type_of field.kind) ≤ length elements.now }
    requires few { count ≤ 2 ^ 26 }
    requires number { field.number < 2 ^ 29 }
    requires stand { (values : ValueListWith (List (List ℕ))) × (feet : List Foot) × ValuesStand types.now (M.places mem.now) (M.buffers mem.now) (value_type_of field.kind) elements.now values feet × (length (values_in_list values) ≡ count) × (values_levels values ≤ left) }
    ensures written { (values : ValueListWith (List (List ℕ))) (feet : List Foot) → ValuesStand types.now (M.places mem.now) (M.buffers mem.now) (value_type_of field.kind) elements.now values feet → length (values_in_list values) ≡ count
        → length (values_text types.now field (front_of packed field) (values_map concat values)) < 2 ^ 63
        → Writes (S.taken sink.old) (gathered_in out.old) (S.taken sink.new) (gathered_in out.new) result (values_text types.now field (front_of packed field) (values_map concat values)) }
    ensures sent { Sends (S.taken sink.old) (S.taken sink.new) (S.faults sink.old) (S.faults sink.new) result }
    ensures counted { Counts (S.taken sink.old) (S.taken sink.new) out.old.taken out.new.taken }
{
    let size = single_bytes(field.kind);
    let mut i = 0;
    'values: while i < count {
        gather_front(field, packed, out, sink)?;
        write_value(mem, types, elements, i * size, field, left, room, out, sink)?;
        i += 1;
    }
    Ok(())
}

// Writes a value, whose slot lies at this place.
#[cycle(forwards)]
fn write_value<M: Memory, S: Sink>(
    mem: &M,
    types: &Layouts,
    bytes: &[u8],
    at: u32,
    field: FieldType,
    left: u64,
    room: &mut Room,
    out: &mut Gathered,
    sink: &mut S,
) -> Result<(), Failed>
    requires within { at + slot_of (value_type_of field.kind) ≤ length bytes.now }
    requires small { at < 2 ^ 31 }
    requires stand { (value : ValueWith (List (List ℕ))) × (feet : List Foot) × ValueStands types.now (M.places mem.now) (M.buffers mem.now) (value_type_of field.kind) (part at (slot_of (value_type_of field.kind)) bytes.now) value feet × (value_levels value ≤ left) }
    ensures written { (value : ValueWith (List (List ℕ))) (feet : List Foot) → ValueStands types.now (M.places mem.now) (M.buffers mem.now) (value_type_of field.kind) (part at (slot_of (value_type_of field.kind)) bytes.now) value feet
        → length (value_text types.now field (value_map concat value)) < 2 ^ 63
        → Writes (S.taken sink.old) (gathered_in out.old) (S.taken sink.new) (gathered_in out.new) result (value_text types.now field (value_map concat value)) }
    ensures sent { Sends (S.taken sink.old) (S.taken sink.new) (S.faults sink.old) (S.faults sink.new) result }
    ensures counted { Counts (S.taken sink.old) (S.taken sink.new) out.old.taken out.new.taken }
{
    match field.kind {
        Kind::Message(type_no) => {
            let msg = MsgRef {
                place: link_at(bytes, at),
                type_no,
            };
            write_nested(mem, types, msg, left - 1, room, out, sink)
        }
        Kind::Text | Kind::Bytes => gather_framed(bytes_in(mem, slot_at(bytes, at)), out, sink),
        _ => gather_number(field.kind, number_at(bytes, at, field.kind), out, sink),
    }
}

/// Writes a message behind its length.
#[cycle(forwards)]
pub(crate) fn write_nested<M: Memory, S: Sink>(
    mem: &M,
    types: &Layouts,
    msg: MsgRef,
    left: u64,
    room: &mut Room,
    out: &mut Gathered,
    sink: &mut S,
) -> Result<(), Failed>
    requires { (t : Shape) × (feet : List Foot) × MessageStands types.now (M.places mem.now) (M.buffers mem.now) msg.type_no msg.place t feet × (depth_of t ≤ left) }
    ensures written { (t : Shape) (feet : List Foot) → MessageStands types.now (M.places mem.now) (M.buffers mem.now) msg.type_no msg.place t feet
        → length (framed (message_text types.now (fields_of types.now msg.type_no) (tree_map concat t))) < 2 ^ 63
        → Writes (S.taken sink.old) (gathered_in out.old) (S.taken sink.new) (gathered_in out.new) result (framed (message_text types.now (fields_of types.now msg.type_no) (tree_map concat t))) }
    ensures sent { Sends (S.taken sink.old) (S.taken sink.new) (S.faults sink.old) (S.faults sink.new) result }
    ensures counted { Counts (S.taken sink.old) (S.taken sink.new) out.old.taken out.new.taken }
{
    room.clear();
    if let Ok(()) = put_nested(mem, types, msg, left, room) {
        return gather(room.text(), out, sink);
    }
    gather_varint(message_size(mem, types, msg, left), out, sink)?;
    write_text(mem, types, msg, left, room, out, sink)
}
