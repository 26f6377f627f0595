// Writing messages behind their lengths, gathered so that a sink isn't called for each of them.
ghost use Rattle.std.specs.Prelude.{◌≡◌, ◌^◌, ◌<◌, ℕ, List, [], length, OnOk, OnErr};
ghost use Rattle.std.specs.Io.KnownBytes.{Appends};
ghost use Rattle.arena_mem.specs.Outside.{HasCause, TookPart, KeepsTaken};
ghost use Rattle.pb_schema.specs.Text.{framed};
ghost use Rattle.pb_schema.specs.Tree.{Shape};
ghost use Rattle.dyn_message.specs.Feet.{Foot};
ghost use Rattle.dyn_message.specs.Stands.{Stands};
ghost use Rattle.pb_write.specs.Texts.{IsWritable, shape_text};
ghost use Rattle.pb_write.specs.Waiting.{waiting_in, counted_in};
ghost use Rattle.pb_write.specs.Writes.{Counts, Sends, Writes};

use crate::backwards::MOST_LEVELS;
use crate::forwards::write_nested;
use crate::gathered::Gathered;
use crate::room::Room;
use crate::sending::send;
use crate::text_rooms::TextRooms;
use arena_mem::{Failed, Memory, Sink};
use dyn_message::MsgRef;
use msg_layout::tables::Layouts;

impl TextRooms {
    /// Rooms in which nothing waits, and from which nothing was taken.
    pub fn new() -> TextRooms
        ensures waiting { waiting_in result ≡ [] }
        ensures counted { counted_in result ≡ 0 }
    {
        TextRooms {
            room: Room::new(),
            out: Gathered::new(),
        }
    }

    /// How many bytes sinks have taken from the rooms since they were new, up to the end of what a u64 counts.
    pub fn bytes_taken(&self) -> u64
        ensures { result ≡ counted_in self.now }
    {
        self.out.taken
    }

    /// Hands over what waits, so that nothing does afterwards. Where the sink failed, a front of it was taken that isn't
    /// the whole, and the rest is given up.
    pub fn flush<S: Sink>(&mut self, sink: &mut S) -> Result<(), Failed>
        ensures ok { OnOk result (Appends (S.taken sink.old) (S.taken sink.new) (waiting_in self.old)) }
        ensures err { OnErr result (TookPart (S.taken sink.old) (S.taken sink.new) (waiting_in self.old)) }
        ensures emptied { waiting_in self.new ≡ [] }
        ensures longer { KeepsTaken (S.taken sink.old) (S.taken sink.new) }
        ensures counted { Counts (S.taken sink.old) (S.taken sink.new) (counted_in self.old) (counted_in self.new) }
        ensures cause { HasCause (S.faults sink.old) (S.faults sink.new) result }
    {
        send(&mut self.out, sink)
    }
}

/// Writes the text of a message, which has fewer than 2^62 bytes, behind its length (encoding guide, "Length-Delimited
/// Records"). What waits and what the sink took grow by that together; or else the sink failed and took a front of both,
/// and not all. The rooms' count rises by what the sink took, whether it failed or not. It takes no memory.
pub fn write_framed<M: Memory, S: Sink>(
    mem: &M,
    types: &Layouts,
    msg: MsgRef,
    rooms: &mut TextRooms,
    sink: &mut S,
) -> Result<(), Failed>
    requires { IsWritable types.now (M.places mem.now) (M.buffers mem.now) msg }
    ensures written { (t : Shape) (feet : List Foot) → Stands types.now (M.places mem.now) (M.buffers mem.now) msg t feet → length (shape_text types.now msg.type_no t) < 2 ^ 62
        → Writes (S.taken sink.old) (waiting_in rooms.old) (S.taken sink.new) (waiting_in rooms.new) result (framed (shape_text types.now msg.type_no t)) }
    ensures emptied { OnErr result (waiting_in rooms.new ≡ []) }
    ensures sent { Sends (S.taken sink.old) (S.taken sink.new) (S.faults sink.old) (S.faults sink.new) result }
    ensures counted { Counts (S.taken sink.old) (S.taken sink.new) (counted_in rooms.old) (counted_in rooms.new) }
{
    let written = write_nested(
        mem,
        types,
        msg,
        MOST_LEVELS,
        &mut rooms.room,
        &mut rooms.out,
        sink,
    );
    match written {
        Ok(()) => Ok(()),
        Err(failed) => {
            rooms.out.clear();
            Err(failed)
        }
    }
}
