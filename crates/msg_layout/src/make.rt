// Makes the layouts of all types of a schema.
ghost use Rattle.std.specs.Prelude.{◌≡◌, ◌≤◌, ◌^◌, ℕ, List, [], IfErr, IfOk, length, map};
ghost use Rattle.pb_schema.specs.Lawful.{Lawful, TypeAllowed};
ghost use Rattle.msg_layout.specs.Slots.{front_bytes};
ghost use Rattle.msg_layout.specs.Find.{AreAscending};
ghost use Rattle.msg_layout.specs.Layout.{SlotsAfter, layout_of_type, entries_from};

use crate::entry::Entry;
use crate::find::near_table;
use crate::slots::{bit_bytes, front_bytes, has_bit, mark_with, round8, slot_bytes, slots_start};
use crate::tables::{Layouts, TypeLayout};
use no_memory::NoMemory;
use pb_schema::{MessageType, Schema};
use std::alloc::Global;

// One more than the greatest size of a slot.
const SIZES_END: usize = 25;

/// The layouts of all types of a lawful schema. Want of memory hands the schema back.
pub fn layouts(alloc: Global, schema: Schema) -> Result<Layouts, (NoMemory, Schema)>
    requires { Lawful schema }
    ensures made { IfOk result (λ layouts. layouts ≡ schema) }
    ensures handed_back { IfErr result (λ refused. refused.1 ≡ schema) }
{
    match type_layouts(alloc, &schema) {
        Ok(types) => Ok(Layouts::of(schema, types)),
        Err(refused) => Err((refused, schema)),
    }
}

fn type_layouts(alloc: Global, schema: &Schema) -> Result<Vec<TypeLayout>, NoMemory>
    requires { Lawful schema.now }
    ensures { IfOk result (λ layouts. layouts.items ≡ map layout_of_type schema.now.types) }
{
    let types = schema.types.items();
    let mut layouts = Vec::with_capacity(alloc, types.len())?;
    for ty in types {
        layouts.push(layout_of_type(alloc, ty)?)?;
    }
    Ok(layouts)
}

fn layout_of_type(alloc: Global, ty: &MessageType) -> Result<TypeLayout, NoMemory>
    requires { (types : ℕ) × TypeAllowed types ty.now }
    ensures { IfOk result (λ layout. layout ≡ layout_of_type ty.now) }
{
    let front = front_bytes(ty);
    let entries = entries_of(alloc, ty, front)?;
    let near = near_table(alloc, entries.as_slice())?;
    let size = round8(slots_start(ty, front, 0));
    Ok(TypeLayout::of(entries, near, front, size, bit_bytes(ty), ty.oneofs))
}

// The entries of a type's fields. The slots of each size are handed out one after the other.
fn entries_of(alloc: Global, ty: &MessageType, front: u32) -> Result<Vec<Entry>, NoMemory>
    requires allowed { (types : ℕ) × TypeAllowed types ty.now }
    requires front { front ≡ front_bytes ty.now }
    requires small { front ≤ 2 ^ 25 }
    ensures value { IfOk result (λ entries. entries.items ≡ entries_from ty.now [] ty.now.fields) }
    ensures ascending { IfOk result (λ entries. AreAscending entries.items) }
    ensures few { IfOk result (λ entries. length entries.items ≤ 512) }
{
    let fields = ty.fields.items();
    let bytes = bit_bytes(ty);
    let mut next = first_slots(ty, front);
    let mut bits = 0;
    let mut entries = Vec::with_capacity(alloc, fields.len())?;
    for field in fields {
        let own = slot_bytes(field);
        let slot = next[own as usize];
        next[own as usize] = slot + own;
        let mark = mark_with(bytes, bits, field);
        if has_bit(field) {
            bits += 1;
        }
        entries.push(Entry {
            field: *field,
            slot,
            mark,
        })?;
    }
    Ok(entries)
}

// For each size where the slots of so many bytes begin.
fn first_slots(ty: &MessageType, front: u32) -> [u32; SIZES_END]
    requires allowed { (types : ℕ) × TypeAllowed types ty.now }
    requires front { front ≡ front_bytes ty.now }
    requires small { front ≤ 2 ^ 25 }
    ensures { SlotsAfter ty.now [] result }
{
    let mut first = [0; SIZES_END];
    first[24] = slots_start(ty, front, 24);
    first[16] = slots_start(ty, front, 16);
    first[8] = slots_start(ty, front, 8);
    first[4] = slots_start(ty, front, 4);
    first[1] = slots_start(ty, front, 1);
    first
}
