// Text of which only the length is kept.
ghost use Rattle.std.specs.Prelude.{◌≡◌, ◌*◌, ◌^◌, ◌-◌, ◌<◌, ◌≤◌, ℕ, List, [], min, length};
ghost use Rattle.std.specs.List.{concat};
ghost use Rattle.pb_schema.specs.Depth.{depth_of, values_levels};
ghost use Rattle.pb_schema.specs.Fits.{fields_of};
ghost use Rattle.pb_schema.specs.Kinds.{value_type_of, slot_of};
ghost use Rattle.pb_schema.specs.Text.{values_text, message_text};
ghost use Rattle.pb_schema.specs.Tree.{Shape, ValueListWith, values_in_list, values_map, tree_map};
ghost use Rattle.dyn_message.specs.Feet.{Foot};
ghost use Rattle.dyn_message.specs.Stands.{MessageStands, ValuesStand};

use crate::backwards::{put_elements, put_message};
use crate::target::Target;
use arena_mem::Memory;
use dyn_message::MsgRef;
use msg_layout::tables::Layouts;
use pb_schema::FieldType;
use pb_wire::varint_len;
use std::convert::Infallible;

/// How many bytes a text has. It takes everything, and stands still at the end of a `u64`.
#[derive(Drop)]
pub(crate) struct Counter {
    bytes: u64,
}

impl Counter {
    /// The count of nothing.
    pub(crate) fn new() -> Counter
        ensures { result.bytes ≡ 0 }
    {
        Counter { bytes: 0 }
    }
}

impl Target for Counter {
    type Refusal = Infallible;

    ghost holds = { λ c s. c.bytes ≡ min (length s) (2 ^ 64 - 1) };

    fn put_bytes(&mut self, bytes: &[u8]) -> Result<(), Infallible> {
        self.bytes = self.bytes.saturating_add(bytes.len() as u64);
        Ok(())
    }

    fn put_varint(&mut self, value: u64) -> Result<(), Infallible> {
        self.bytes = self.bytes.saturating_add(u64::from(varint_len(value)));
        Ok(())
    }

    fn len(&self) -> u64 {
        self.bytes
    }
}

/// How many bytes the text of a message has.
pub(crate) fn message_size<M: Memory>(mem: &M, types: &Layouts, msg: MsgRef, left: u64) -> u64
    requires { (t : Shape) × (feet : List Foot) × MessageStands types.now (M.places mem.now) (M.buffers mem.now) msg.type_no msg.place t feet × (depth_of t ≤ left) }
    ensures { (t : Shape) (feet : List Foot) → MessageStands types.now (M.places mem.now) (M.buffers mem.now) msg.type_no msg.place t feet
        → length (message_text types.now (fields_of types.now msg.type_no) (tree_map concat t)) < 2 ^ 63
        → result ≡ length (message_text types.now (fields_of types.now msg.type_no) (tree_map concat t)) }
{
    let mut counter = Counter::new();
    match put_message(mem, types, msg, left, &mut counter) {
        Ok(()) => counter.len(),
        Err(never) => match never {},
    }
}

/// How many bytes so many values have one behind the other, without tags.
pub(crate) fn elements_size<M: Memory>(
    mem: &M,
    types: &Layouts,
    elements: &[u8],
    count: u32,
    field: FieldType,
    left: u64,
) -> u64
    requires within { count * slot_of (value_type_of field.kind) ≤ length elements.now }
    requires few { count ≤ 2 ^ 26 }
    requires number { field.number < 2 ^ 29 }
    requires stand { (values : ValueListWith (List (List ℕ))) × (feet : List Foot) × ValuesStand types.now (M.places mem.now) (M.buffers mem.now) (value_type_of field.kind) elements.now values feet × (length (values_in_list values) ≡ count) × (values_levels values ≤ left) }
    ensures { (values : ValueListWith (List (List ℕ))) (feet : List Foot) → ValuesStand types.now (M.places mem.now) (M.buffers mem.now) (value_type_of field.kind) elements.now values feet → length (values_in_list values) ≡ count
        → length (values_text types.now field [] (values_map concat values)) < 2 ^ 63
        → result ≡ length (values_text types.now field [] (values_map concat values)) }
{
    let mut counter = Counter::new();
    match put_elements(mem, types, elements, count, field, true, left, &mut counter) {
        Ok(()) => counter.len(),
        Err(never) => match never {},
    }
}
