// Numbers of messages.
ghost use Rattle.std.specs.Prelude.{◌≡◌, ◌≤◌, ◌<◌, ◌+◌, ◌∷◌, [], ℕ, List, length, map, MatchOption};
ghost use Rattle.std.specs.FinMap as fin;
ghost use Rattle.arena_mem.specs.Places.{used};
ghost use Rattle.pb_schema.specs.Tree.{Shape, Nothing, One, Number};
ghost use Rattle.pb_schema.specs.Kinds.{value_type_of, slot_of};
ghost use Rattle.pb_schema.specs.HeldAt.{held_at, with_held};
ghost use Rattle.dyn_message.specs.Feet.{Foot, InPlace};
ghost use Rattle.msg_layout.specs.Sound.{Beside, EachTwo};
ghost use Rattle.dyn_message.specs.Slots.{part, number_in};
ghost use Rattle.dyn_message.specs.Stands.{Stands};
ghost use Rattle.dyn_message.specs.Changes.{Changes, NowStands};
ghost use Rattle.dyn_message.specs.Fields.{IsMessageIn, HasNumber, IsNumberType, first_set, TakesNumber, number_put, case_in};

use crate::by_entry::set_scalar_by;
use crate::bytes::{long_at, word_at};
use crate::fields::{entry_in, is_set, record_is_there};
use crate::msg_ref::MsgRef;
use crate::rewrite::is_word_at;
use arena_mem::Memory;
use msg_layout::single_bytes;
use msg_layout::tables::{Layouts, TypeLayout};
use pb_schema::Kind;

/// The number that the message holds at this field, as its bit pattern; nothing where it holds none.
#[inline]
pub fn get_scalar<M: Memory>(mem: &M, types: &Layouts, msg: MsgRef, field: u32) -> Option<u64>
    requires message { IsMessageIn types.now (M.places mem.now) (M.buffers mem.now) msg }
    requires field { HasNumber types.now msg.type_no field }
    ensures { (t : Shape) (feet : List Foot) → Stands types.now (M.places mem.now) (M.buffers mem.now) msg t feet
        → MatchOption result (held_at types.now msg.type_no field t ≡ Nothing) (λ bits. held_at types.now msg.type_no field t ≡ One (Number bits)) }
{
    record_is_there(mem, types, msg);
    let entry = entry_in(types, msg.type_no, field);
    let bytes = mem.read(msg.place);
    let bits = number_at(bytes, entry.slot, entry.field.kind);
    if is_set(bytes, entry, bits != 0) {
        Some(bits)
    } else {
        None
    }
}

/// Sets the field to the number with this bit pattern, which is one of the field's kind. Of a field without presence 0
/// is nothing. It takes no memory.
#[inline]
pub fn set_scalar<M: Memory>(mem: &mut M, types: &Layouts, msg: MsgRef, field: u32, bits: u64)
    requires message { IsMessageIn types.now (M.places mem.old) (M.buffers mem.old) msg }
    requires field { TakesNumber types.now msg.type_no field bits }
    ensures set { (t : Shape) (feet : List Foot) → Stands types.now (M.places mem.old) (M.buffers mem.old) msg t feet
        → NowStands types.now (M.places mem.old) (M.buffers mem.old) (M.places mem.new) (M.buffers mem.new) msg
        (with_held types.now msg.type_no field (number_put types.now msg.type_no field bits) t) feet }
    ensures changes { Changes M.key M.places M.buffers M.blocks 0 0 (InPlace msg.place ∷ []) mem.old mem.new }
    ensures space { used (M.places mem.new) ≡ used (M.places mem.old) }
    ensures buffers { M.buffers mem.new ≡ M.buffers mem.old }
{
    record_is_there(mem, types, msg);
    let entry = entry_in(types, msg.type_no, field);
    set_scalar_by(mem, types, msg, field, entry, bits);
}

/// The number of the field that is set in this oneof, or 0.
pub fn case_of<M: Memory>(mem: &M, types: &Layouts, msg: MsgRef, oneof: u32) -> u32
    requires message { IsMessageIn types.now (M.places mem.now) (M.buffers mem.now) msg }
    ensures { (t : Shape) (feet : List Foot) → Stands types.now (M.places mem.now) (M.buffers mem.now) msg t feet
        → result ≡ case_in types.now msg.type_no oneof t }
{
    record_is_there(mem, types, msg);
    set_member(mem.read(msg.place), types.of_type(msg.type_no), oneof)
}

// The number of the member of the oneof that is set, or 0. The oneof's word tells a number, which counts where a member
// has it.
fn set_member(bytes: &[u8], layout: &TypeLayout, oneof: u32) -> u32
    requires within { layout.now.unknown ≤ length bytes.now }
    requires apart { EachTwo Beside layout.now.entries }
    ensures { result ≡ first_set oneof bytes.now layout.now.entries }
{
    let Some(at) = layout.word_of(oneof) else {
        return 0;
    };
    let number = word_at(bytes, at);
    match layout.find(number) {
        Some(entry) => {
            if is_word_at(entry.mark, at) {
                number
            } else {
                0
            }
        }
        None => 0,
    }
}

/// The number in a slot of its kind.
#[inline]
pub fn number_at(bytes: &[u8], at: u32, kind: Kind) -> u64
    requires within { at + slot_of (value_type_of kind) ≤ length bytes.now }
    requires number { IsNumberType (value_type_of kind) }
    ensures { result ≡ number_in (part at (slot_of (value_type_of kind)) bytes.now) }
{
    match single_bytes(kind) {
        8 => long_at(bytes, at),
        4 => u64::from(word_at(bytes, at)),
        _ => u64::from(bytes[at as usize]),
    }
}
