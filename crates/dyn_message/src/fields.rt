// A field of a message, as its record has it.
ghost use Rattle.std.specs.Prelude.{◌≡◌, ◌≤◌, ◌+◌, ◌/◌, ◌<◌, ◌^◌, length, Some, None, IsSome};
ghost use Rattle.arena_mem.specs.Places.{IsLive};
ghost use Rattle.pb_schema.specs.HeldAt.{field_at};
ghost use Rattle.pb_schema.specs.Lawful.{Lawful};
ghost use Rattle.msg_layout.specs.Layout.{layout_of, entry_of, entry_among};
ghost use Rattle.msg_layout.specs.Sound.{MarkWithin, IsSound, FitsIn};
ghost use Rattle.dyn_message.specs.Slots.{set_by, told_in};
ghost use Rattle.dyn_message.specs.Fields.{IsFieldOf, IsMessageIn};

use crate::bytes::{bit_at, word_at};
use crate::msg_ref::MsgRef;
use arena_mem::Memory;
use msg_layout::tables::Layouts;
use msg_layout::{Entry, Mark};

/// Whether a field is set, where its slot tells this in case that no mark does.
#[inline]
pub fn is_set(bytes: &[u8], entry: Entry, slot_tells: bool) -> bool
    requires { MarkWithin (length bytes.now) entry.mark }
    ensures { result ≡ set_by (told_in entry bytes.now) slot_tells }
{
    match entry.mark {
        Mark::Unmarked => slot_tells,
        Mark::Bit(bit) => bit_at(bytes, bit),
        Mark::Word(at) => word_at(bytes, at) == entry.field.number,
    }
}

/// The entry of a field, which the type has.
#[inline]
pub fn entry_in(types: &Layouts, type_no: u32, field: u32) -> Entry
    requires known { type_no < length types.now.types }
    requires field { IsFieldOf types.now type_no field }
    ensures found { entry_of types.now type_no field ≡ Some result }
    ensures again { entry_among (layout_of types.now type_no).entries result.field.number ≡ Some result }
    ensures number { result.field.number ≡ field }
    ensures field { field_at types.now type_no field ≡ Some result.field }
    ensures fits { FitsIn (layout_of types.now type_no) result }
{
    let _schema = types.schema();
    match types.entry(type_no, field) {
        Some(entry) => entry,
        None => unreachable!(),
    }
}

/// A law: the record of a message is live and as long as its type says, by a sound layout.
#[inline]
pub fn record_is_there<M: Memory>(mem: &M, types: &Layouts, msg: MsgRef)
    requires { IsMessageIn types.now (M.places mem.now) (M.buffers mem.now) msg }
    ensures known { msg.type_no < length types.now.types }
    ensures live { IsLive (M.places mem.now) msg.place }
    ensures len { msg.place.len ≡ (layout_of types.now msg.type_no).size }
    ensures sound { IsSound (layout_of types.now msg.type_no) }
    ensures lawful { Lawful types.now }
{
    let _schema = types.schema();
}
