// A walk over a message and all that is in it, which counts the units and the levels.
ghost use Rattle.std.specs.Prelude.{◌≡◌, ◌+◌, ◌*◌, ◌-◌, ◌^◌, ◌≤◌, ◌<◌, ℕ, List, All, length, min};
ghost use Rattle.pb_schema.specs.declared.kind.Card.TheVariants.{Repeated};
ghost use Rattle.pb_schema.specs.Depth.{depth_of, fields_levels, held_levels, value_levels, values_levels};
ghost use Rattle.pb_schema.specs.Kinds.{value_type_of, slot_of};
ghost use Rattle.pb_schema.specs.Tree.{ValueWith, HeldWith, Shape, ValueListWith, HeldListWith, values_in_list};
ghost use Rattle.pb_schema.specs.Units.{value_units, held_units, values_units, fields_units, tree_units};
ghost use Rattle.msg_layout.specs.Slots.{array_slot};
ghost use Rattle.dyn_message.specs.Arrays.{HoldsArray};
ghost use Rattle.dyn_message.specs.Feet.{Foot};
ghost use Rattle.dyn_message.specs.Slots.{part, slot_in, told_in};
ghost use Rattle.dyn_message.specs.Stands.{IsSingle, ValueStands, ValuesStand, HeldStands, FieldsStand, MessageStands, PiecesStand};
ghost use Rattle.pb_write.specs.Puts.{IsEntryIn, is_held, slot_tells};
ghost use Rattle.msg_merge.specs.Extents.{IsExtent, pieces_bytes};

use crate::extent::Extent;
use arena_mem::Memory;
use dyn_message::{MsgRef, is_set, link_at, list_at, number_at, slot_at, word};
use msg_layout::tables::Layouts;
use msg_layout::{Entry, single_bytes};
use pb_schema::{Card, FieldType, Kind};

// The word of a slot of 24 bytes that tells how many bytes or elements there are, and the one that tells its form, which
// is 0 where it holds nothing.
const COUNT: usize = 4;

const FORM: usize = 5;

// The bytes of a slot of unknown bytes.
const PIECE_BYTES: u32 = 24;

/// The extent of a message. Messages nest in it at most `left` levels deep.
#[cycle(walk)]
pub(crate) fn message_extent<M: Memory>(mem: &M, types: &Layouts, msg: MsgRef, left: u64) -> Extent
    requires { (t : Shape) × (feet : List Foot) × MessageStands types.now (M.places mem.now) (M.buffers mem.now) msg.type_no msg.place t feet × (depth_of t ≤ left) }
    ensures { (t : Shape) (feet : List Foot) → MessageStands types.now (M.places mem.now) (M.buffers mem.now) msg.type_no msg.place t feet
        → IsExtent (tree_units pieces_bytes t) (depth_of t) result }
{
    let _schema = types.schema();
    let layout = types.of_type(msg.type_no);
    let bytes = mem.read(msg.place);
    let unknown = unknown_bytes(mem, bytes, layout.unknown());
    fields_extent(mem, types, bytes, layout.entries(), left).of_message(unknown)
}

// How many bytes the pieces of unknown bytes have that the slot at a place of a record tells of.
fn unknown_bytes<M: Memory>(mem: &M, bytes: &[u8], at: u32) -> u64
    requires within { at + 24 ≤ length bytes.now }
    requires stand { (pieces : List (List ℕ)) × (feet : List Foot) × HoldsArray (λ elements more. PiecesStand (M.places mem.now) (M.buffers mem.now) elements pieces more) (M.places mem.now) array_slot (length pieces) (part at array_slot bytes.now) feet }
    ensures { (pieces : List (List ℕ)) (feet : List Foot) → HoldsArray (λ elements more. PiecesStand (M.places mem.now) (M.buffers mem.now) elements pieces more) (M.places mem.now) array_slot (length pieces) (part at array_slot bytes.now) feet
        → result ≡ min (pieces_bytes pieces) (2 ^ 64 - 1) }
{
    let (array, count) = list_at(bytes, at);
    if count == 0 {
        return 0;
    }
    let elements = mem.read(array);
    let mut total: u64 = 0;
    let mut i = count;
    'pieces: while i > 0 {
        i -= 1;
        let len = word(slot_at(elements, i * PIECE_BYTES), COUNT);
        total = total.saturating_add(u64::from(len));
    }
    total
}

// The extent of what the fields of some entries hold.
#[cycle(walk)]
fn fields_extent<M: Memory>(
    mem: &M,
    types: &Layouts,
    bytes: &[u8],
    entries: &[Entry],
    left: u64,
) -> Extent
    requires within { All (λ entry. IsEntryIn entry bytes.now) entries.now }
    requires stand { (held : HeldListWith (List (List ℕ))) × (feet : List Foot) × FieldsStand types.now (M.places mem.now) (M.buffers mem.now) bytes.now entries.now held feet × (fields_levels held ≤ left) }
    ensures { (held : HeldListWith (List (List ℕ))) (feet : List Foot) → FieldsStand types.now (M.places mem.now) (M.buffers mem.now) bytes.now entries.now held feet
        → IsExtent (fields_units pieces_bytes held) (fields_levels held) result }
{
    let mut total = Extent::none();
    let mut i = entries.len();
    'fields: while i > 0 {
        i -= 1;
        let field = field_extent(mem, types, bytes, &entries[i], left);
        total = field.and(total);
    }
    total
}

// The extent of what a field holds.
#[cycle(walk)]
fn field_extent<M: Memory>(
    mem: &M,
    types: &Layouts,
    bytes: &[u8],
    entry: &Entry,
    left: u64,
) -> Extent
    requires within { IsEntryIn entry.now bytes.now }
    requires stand { (held : HeldWith (List (List ℕ))) × (feet : List Foot) × HeldStands types.now (M.places mem.now) (M.buffers mem.now) entry.now.field (told_in entry.now bytes.now) (slot_in entry.now bytes.now) held feet × (held_levels held ≤ left) }
    ensures { (held : HeldWith (List (List ℕ))) (feet : List Foot) → HeldStands types.now (M.places mem.now) (M.buffers mem.now) entry.now.field (told_in entry.now bytes.now) (slot_in entry.now bytes.now) held feet
        → IsExtent (held_units pieces_bytes held) (held_levels held) result }
{
    match entry.field.card {
        Card::Repeated { packed } => list_extent(mem, types, bytes, entry, packed, left),
        _ => single_extent(mem, types, bytes, entry, left),
    }
}

// The extent of what a field of one value holds.
#[cycle(walk)]
fn single_extent<M: Memory>(
    mem: &M,
    types: &Layouts,
    bytes: &[u8],
    entry: &Entry,
    left: u64,
) -> Extent
    requires single { IsSingle entry.now.field.card }
    requires within { IsEntryIn entry.now bytes.now }
    requires stand { (held : HeldWith (List (List ℕ))) × (feet : List Foot) × HeldStands types.now (M.places mem.now) (M.buffers mem.now) entry.now.field (told_in entry.now bytes.now) (slot_in entry.now bytes.now) held feet × (held_levels held ≤ left) }
    ensures { (held : HeldWith (List (List ℕ))) (feet : List Foot) → HeldStands types.now (M.places mem.now) (M.buffers mem.now) entry.now.field (told_in entry.now bytes.now) (slot_in entry.now bytes.now) held feet
        → IsExtent (held_units pieces_bytes held) (held_levels held) result }
{
    let _schema = types.schema();
    if !is_held(bytes, entry) {
        return Extent::none();
    }
    value_extent(mem, types, bytes, entry.slot, entry.field, left)
}

// The extent of a list. Numbers count one each, so their list isn't walked.
#[cycle(walk)]
fn list_extent<M: Memory>(
    mem: &M,
    types: &Layouts,
    bytes: &[u8],
    entry: &Entry,
    packed: bool,
    left: u64,
) -> Extent
    requires list { entry.now.field.card ≡ Repeated packed }
    requires within { IsEntryIn entry.now bytes.now }
    requires stand { (held : HeldWith (List (List ℕ))) × (feet : List Foot) × HeldStands types.now (M.places mem.now) (M.buffers mem.now) entry.now.field (told_in entry.now bytes.now) (slot_in entry.now bytes.now) held feet × (held_levels held ≤ left) }
    ensures { (held : HeldWith (List (List ℕ))) (feet : List Foot) → HeldStands types.now (M.places mem.now) (M.buffers mem.now) entry.now.field (told_in entry.now bytes.now) (slot_in entry.now bytes.now) held feet
        → IsExtent (held_units pieces_bytes held) (held_levels held) result }
{
    let (array, count) = list_at(bytes, entry.slot);
    if count == 0 {
        return Extent::none();
    }
    match entry.field.kind {
        Kind::Message(_) | Kind::Text | Kind::Bytes => {
            values_extent(mem, types, mem.read(array), count, entry.field, left)
        }
        _ => Extent::flat(u64::from(count)),
    }
}

// The extent of so many values, which lie one behind the other in these bytes.
#[cycle(walk)]
fn values_extent<M: Memory>(
    mem: &M,
    types: &Layouts,
    elements: &[u8],
    count: u32,
    field: FieldType,
    left: u64,
) -> Extent
    requires within { count * slot_of (value_type_of field.kind) ≤ length elements.now }
    requires few { count ≤ 2 ^ 26 }
    requires stand { (values : ValueListWith (List (List ℕ))) × (feet : List Foot) × ValuesStand types.now (M.places mem.now) (M.buffers mem.now) (value_type_of field.kind) elements.now values feet × (length (values_in_list values) ≡ count) × (values_levels values ≤ left) }
    ensures { (values : ValueListWith (List (List ℕ))) (feet : List Foot) → ValuesStand types.now (M.places mem.now) (M.buffers mem.now) (value_type_of field.kind) elements.now values feet → length (values_in_list values) ≡ count
        → IsExtent (values_units pieces_bytes values) (values_levels values) result }
{
    let size = single_bytes(field.kind);
    let mut total = Extent::none();
    let mut i = count;
    'values: while i > 0 {
        i -= 1;
        let value = value_extent(mem, types, elements, i * size, field, left);
        total = value.and(total);
    }
    total
}

// The extent of a value, whose slot lies at this place.
#[cycle(walk)]
fn value_extent<M: Memory>(
    mem: &M,
    types: &Layouts,
    bytes: &[u8],
    at: u32,
    field: FieldType,
    left: u64,
) -> Extent
    requires within { at + slot_of (value_type_of field.kind) ≤ length bytes.now }
    requires small { at < 2 ^ 31 }
    requires stand { (value : ValueWith (List (List ℕ))) × (feet : List Foot) × ValueStands types.now (M.places mem.now) (M.buffers mem.now) (value_type_of field.kind) (part at (slot_of (value_type_of field.kind)) bytes.now) value feet × (value_levels value ≤ left) }
    ensures { (value : ValueWith (List (List ℕ))) (feet : List Foot) → ValueStands types.now (M.places mem.now) (M.buffers mem.now) (value_type_of field.kind) (part at (slot_of (value_type_of field.kind)) bytes.now) value feet
        → IsExtent (value_units pieces_bytes value) (value_levels value) result }
{
    match field.kind {
        Kind::Message(type_no) => {
            let msg = MsgRef {
                place: link_at(bytes, at),
                type_no,
            };
            message_extent(mem, types, msg, left - 1).nested()
        }
        Kind::Text | Kind::Bytes => { Extent::flat(1 + u64::from(word(slot_at(bytes, at), COUNT))) }
        _ => Extent::flat(1),
    }
}

// Whether a field of one value is set.
#[inline]
fn is_held(bytes: &[u8], entry: &Entry) -> bool
    requires single { IsSingle entry.now.field.card }
    requires within { IsEntryIn entry.now bytes.now }
    ensures { result ≡ is_held entry.now bytes.now }
{
    is_set(
        bytes,
        *entry,
        slot_tells(bytes, entry.slot, entry.field.kind),
    )
}

// Whether the slot at this place isn't that of none.
#[inline]
fn slot_tells(bytes: &[u8], at: u32, kind: Kind) -> bool
    requires within { at + slot_of (value_type_of kind) ≤ length bytes.now }
    requires small { at < 2 ^ 31 }
    ensures { result ≡ slot_tells (value_type_of kind) (part at (slot_of (value_type_of kind)) bytes.now) }
{
    match kind {
        Kind::Message(_) => link_at(bytes, at).len != 0,
        Kind::Text | Kind::Bytes => word(slot_at(bytes, at), FORM) != 0,
        _ => number_at(bytes, at, kind) != 0,
    }
}
