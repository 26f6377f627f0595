// Texts and bytes of messages: up to 15 bytes in a place, more as a kept buffer.
ghost use Rattle.std.specs.Prelude.{◌≡◌, ◌≤◌, ◌<◌, ◌+◌, ◌^◌, ◌∷◌, [], ℕ, List, length, IfOk, IfErr, OnErr, MatchOption};
ghost use Rattle.std.specs.FinMap as fin;
ghost use Rattle.arena_mem.specs.Grows.{Grows};
ghost use Rattle.arena_mem.specs.Places.{NamesFullRegion, used};
ghost use Rattle.pb_schema.specs.Meter.{string_bytes, cleanups};
ghost use Rattle.pb_schema.specs.Tree.{Shape, Nothing, One, Bytes};
ghost use Rattle.pb_schema.specs.HeldAt.{held_at, with_held};
ghost use Rattle.dyn_message.specs.Feet.{Foot, InPlace};
ghost use Rattle.dyn_message.specs.Slots.{part};
ghost use Rattle.dyn_message.specs.Strings.{HoldsBytes, IsKeptAnew};
ghost use Rattle.dyn_message.specs.Stands.{Stands};
ghost use Rattle.dyn_message.specs.Changes.{Changes, NowStands};
ghost use Rattle.dyn_message.specs.Fields.{IsMessageIn, HasBytes, TakesBytes, bytes_put};

use crate::fields::{entry_in, is_set, record_is_there};
use crate::msg_ref::MsgRef;
use crate::rewrite::{mark_set, set_slot};
use crate::slot::{
    COUNT, FORM, KEPT, NOTHING, PLACED, SLOT_BYTES, buffer_at, buffer_slot, place_at, place_slot,
    word,
};
use arena_mem::{MemFault, Memory};
use msg_layout::tables::Layouts;

/// Longer byte strings are kept as they are.
const MOST_PLACED: usize = 15;

/// Lends the bytes that the message holds at this field, where they lie; nothing where it holds none.
#[inline]
pub fn get_bytes<'a, M: Memory>(
    mem: &'a M,
    types: &Layouts,
    msg: MsgRef,
    field: u32,
) -> Option<&'a [u8]>
    requires message { IsMessageIn types.now (M.places mem.now) (M.buffers mem.now) msg }
    requires field { HasBytes types.now msg.type_no field }
    ensures { (t : Shape) (feet : List Foot) → Stands types.now (M.places mem.now) (M.buffers mem.now) msg t feet
        → MatchOption result (held_at types.now msg.type_no field t ≡ Nothing) (λ bytes. held_at types.now msg.type_no field t ≡ One (Bytes bytes.now)) }
{
    record_is_there(mem, types, msg);
    let entry = entry_in(types, msg.type_no, field);
    let record = mem.read(msg.place);
    let slot = slot_at(record, entry.slot);
    if is_set(record, entry, word(slot, FORM) != NOTHING) {
        Some(bytes_in(mem, slot))
    } else {
        None
    }
}

/// Sets the field to these bytes, which are fewer than 2^31, and UTF-8 where it is a text. Of a field without presence
/// no bytes are nothing. The bytes from before stay where they are.
pub fn set_bytes<M: Memory>(
    mem: &mut M,
    types: &Layouts,
    msg: MsgRef,
    field: u32,
    bytes: &[u8],
) -> Result<(), MemFault>
    requires message { IsMessageIn types.now (M.places mem.old) (M.buffers mem.old) msg }
    requires field { TakesBytes types.now msg.type_no field bytes.now }
    requires short { length bytes.now < 2 ^ 31 }
    ensures set { IfOk result (λ _. (t : Shape) (feet : List Foot) → Stands types.now (M.places mem.old) (M.buffers mem.old) msg t feet
        → NowStands types.now (M.places mem.old) (M.buffers mem.old) (M.places mem.new) (M.buffers mem.new) msg
        (with_held types.now msg.type_no field (bytes_put types.now msg.type_no field bytes.now) t) feet) }
    ensures changes { Changes M.key M.places M.buffers M.blocks 1 1 (InPlace msg.place ∷ []) mem.old mem.new }
    ensures space { IfOk result (λ _. used (M.places mem.new) ≡ used (M.places mem.old) + string_bytes (length bytes.now)) }
    ensures kept { IfOk result (λ _. fin.len (M.buffers mem.new) ≡ fin.len (M.buffers mem.old) + cleanups.bytes (length bytes.now)) }
    ensures places_unchanged { OnErr result (M.places mem.new ≡ M.places mem.old) }
    ensures buffers_unchanged { OnErr result (M.buffers mem.new ≡ M.buffers mem.old) }
    ensures spent { IfErr result (NamesFullRegion (M.blocks mem.new)) }
{
    record_is_there(mem, types, msg);
    let entry = entry_in(types, msg.type_no, field);
    let slot = keep_bytes(mem, bytes)?;
    mark_set(mem, types.of_type(msg.type_no), msg.place, entry);
    set_slot(mem, msg.place, entry.slot, &slot);
    Ok(())
}

/// Keeps some bytes, and gives the slot that tells where they are.
pub fn keep_bytes<M: Memory>(mem: &mut M, bytes: &[u8]) -> Result<[u8; 24], MemFault>
    requires short { length bytes.now < 2 ^ 31 }
    ensures kept { IfOk result (λ slot. IsKeptAnew (M.places mem.old) (M.buffers mem.old) (M.places mem.new) (M.buffers mem.new) slot bytes.now) }
    ensures grows { Grows M.key M.places M.buffers M.blocks 1 1 mem.old mem.new }
    ensures space { IfOk result (λ _. used (M.places mem.new) ≡ used (M.places mem.old) + string_bytes (length bytes.now)) }
    ensures count { IfOk result (λ _. fin.len (M.buffers mem.new) ≡ fin.len (M.buffers mem.old) + cleanups.bytes (length bytes.now)) }
    ensures places_unchanged { OnErr result (M.places mem.new ≡ M.places mem.old) }
    ensures buffers_unchanged { OnErr result (M.buffers mem.new ≡ M.buffers mem.old) }
    ensures spent { IfErr result (NamesFullRegion (M.blocks mem.new)) }
{
    if bytes.is_empty() {
        Ok([0u8; 24])
    } else if bytes.len() <= MOST_PLACED {
        place_bytes(mem, bytes)
    } else {
        keep_long(mem, bytes)
    }
}

// The same of few bytes, in a place.
fn place_bytes<M: Memory>(mem: &mut M, bytes: &[u8]) -> Result<[u8; 24], MemFault>
    requires some { 1 ≤ length bytes.now }
    requires few { length bytes.now ≤ 15 }
    ensures kept { IfOk result (λ slot. IsKeptAnew (M.places mem.old) (M.buffers mem.old) (M.places mem.new) (M.buffers mem.new) slot bytes.now) }
    ensures grows { Grows M.key M.places M.buffers M.blocks 1 0 mem.old mem.new }
    ensures space { IfOk result (λ _. used (M.places mem.new) ≡ used (M.places mem.old) + string_bytes (length bytes.now)) }
    ensures buffers { M.buffers mem.new ≡ M.buffers mem.old }
    ensures unchanged { OnErr result (M.places mem.new ≡ M.places mem.old) }
    ensures spent { IfErr result (NamesFullRegion (M.blocks mem.new)) }
{
    let len = bytes.len() as u32;
    let place = mem.place(len)?;
    mem.write(place, 0, bytes);
    Ok(place_slot(place, len, PLACED))
}

// The same of many bytes, as a buffer.
fn keep_long<M: Memory>(mem: &mut M, bytes: &[u8]) -> Result<[u8; 24], MemFault>
    requires many { 16 ≤ length bytes.now }
    requires short { length bytes.now < 2 ^ 31 }
    ensures kept { IfOk result (λ slot. IsKeptAnew (M.places mem.old) (M.buffers mem.old) (M.places mem.new) (M.buffers mem.new) slot bytes.now) }
    ensures grows { Grows M.key M.places M.buffers M.blocks 0 1 mem.old mem.new }
    ensures count { IfOk result (λ _. fin.len (M.buffers mem.new) ≡ fin.len (M.buffers mem.old) + 1) }
    ensures places { M.places mem.new ≡ M.places mem.old }
    ensures unchanged { OnErr result (M.buffers mem.new ≡ M.buffers mem.old) }
    ensures spent { IfErr result (NamesFullRegion (M.blocks mem.new)) }
{
    let len = bytes.len() as u32;
    match mem.keep_copy(bytes) {
        Ok(buffer) => Ok(buffer_slot(buffer, len)),
        Err(_) => Err(MemFault::NoMemory),
    }
}

/// Lends the bytes that a slot tells of, where they lie.
pub fn bytes_in<'a, M: Memory>(mem: &'a M, slot: &[u8]) -> &'a [u8]
    requires size { 24 ≤ length slot.now }
    requires holds { (bytes : List ℕ) × (feet : List Foot) × HoldsBytes (M.places mem.now) (M.buffers mem.now) slot.now bytes feet }
    ensures { (bytes : List ℕ) (feet : List Foot) → HoldsBytes (M.places mem.now) (M.buffers mem.now) slot.now bytes feet → result.now ≡ bytes }
{
    let form = word(slot, FORM);
    if form == PLACED {
        &mem.read(place_at(slot))[..word(slot, COUNT) as usize]
    } else if form == KEPT {
        mem.kept(buffer_at(slot))
    } else {
        &[]
    }
}

/// The 24 bytes at this place.
pub fn slot_at(bytes: &[u8], at: u32) -> &[u8]
    requires { at + 24 ≤ length bytes.now }
    ensures { result.now ≡ part at 24 bytes.now }
{
    let start = at as usize;
    &bytes[start..start + SLOT_BYTES]
}
