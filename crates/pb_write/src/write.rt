// Writing a message to a sink.
ghost use Rattle.std.specs.Prelude.{◌≡◌, ◌^◌, ◌<◌, ℕ, List, length, OnOk, OnErr};
ghost use Rattle.std.specs.Io.KnownBytes.{Appends};
ghost use Rattle.arena_mem.specs.Outside.{HasCause, TookPart, KeepsTaken};
ghost use Rattle.pb_schema.specs.Tree.{Shape};
ghost use Rattle.dyn_message.specs.Feet.{Foot};
ghost use Rattle.dyn_message.specs.Stands.{Stands};
ghost use Rattle.pb_write.specs.Texts.{IsWritable, shape_text};

use crate::backwards::{MOST_LEVELS, put_message};
use crate::forwards::write_text;
use crate::gathered::Gathered;
use crate::room::Room;
use crate::sending::{hand_over, send};
use arena_mem::{Failed, Memory, Sink};
use dyn_message::MsgRef;
use msg_layout::tables::Layouts;

/// Writes the text of a message, which has fewer than 2^63 bytes: its fields by ascending number, and then its unknown
/// bytes. It takes no memory. Where the sink failed, a front of the text was taken that isn't the whole.
pub fn write_message<M: Memory, S: Sink>(
    mem: &M,
    types: &Layouts,
    msg: MsgRef,
    sink: &mut S,
) -> Result<(), Failed>
    requires { IsWritable types.now (M.places mem.now) (M.buffers mem.now) msg }
    ensures ok { (t : Shape) (feet : List Foot) → Stands types.now (M.places mem.now) (M.buffers mem.now) msg t feet → length (shape_text types.now msg.type_no t) < 2 ^ 63
        → OnOk result (Appends (S.taken sink.old) (S.taken sink.new) (shape_text types.now msg.type_no t)) }
    ensures err { (t : Shape) (feet : List Foot) → Stands types.now (M.places mem.now) (M.buffers mem.now) msg t feet → length (shape_text types.now msg.type_no t) < 2 ^ 63
        → OnErr result (TookPart (S.taken sink.old) (S.taken sink.new) (shape_text types.now msg.type_no t)) }
    ensures longer { KeepsTaken (S.taken sink.old) (S.taken sink.new) }
    ensures cause { HasCause (S.faults sink.old) (S.faults sink.new) result }
{
    let mut room = Room::new();
    if let Ok(()) = put_message(mem, types, msg, MOST_LEVELS, &mut room) {
        let mut taken = 0;
        return hand_over(room.text(), &mut taken, sink);
    }
    write_long(mem, types, msg, &mut room, sink)
}

// Writes a text that is too long for a room.
#[inline(never)]
fn write_long<M: Memory, S: Sink>(
    mem: &M,
    types: &Layouts,
    msg: MsgRef,
    room: &mut Room,
    sink: &mut S,
) -> Result<(), Failed>
    requires { IsWritable types.now (M.places mem.now) (M.buffers mem.now) msg }
    ensures ok { (t : Shape) (feet : List Foot) → Stands types.now (M.places mem.now) (M.buffers mem.now) msg t feet → length (shape_text types.now msg.type_no t) < 2 ^ 63
        → OnOk result (Appends (S.taken sink.old) (S.taken sink.new) (shape_text types.now msg.type_no t)) }
    ensures err { (t : Shape) (feet : List Foot) → Stands types.now (M.places mem.now) (M.buffers mem.now) msg t feet → length (shape_text types.now msg.type_no t) < 2 ^ 63
        → OnErr result (TookPart (S.taken sink.old) (S.taken sink.new) (shape_text types.now msg.type_no t)) }
    ensures longer { KeepsTaken (S.taken sink.old) (S.taken sink.new) }
    ensures cause { HasCause (S.faults sink.old) (S.faults sink.new) result }
{
    let mut out = Gathered::new();
    write_text(mem, types, msg, MOST_LEVELS, room, &mut out, sink)?;
    send(&mut out, sink)
}
