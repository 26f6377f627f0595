// Writing messages to a sink, each behind its prefix, and counting the texts that it took.
ghost use Rattle.std.specs.Prelude.{◌≡◌, ◌^◌, ◌<◌, ◌≤◌, ℕ, List, [], length, OnOk, OnErr};
ghost use Rattle.std.specs.Io.KnownBytes.{Appends};
ghost use Rattle.arena_mem.specs.Outside.{HasCause, TookPart};
ghost use Rattle.pb_schema.specs.Payloads.{framed_texts};
ghost use Rattle.pb_schema.specs.Text.{framed};
ghost use Rattle.pb_schema.specs.Tree.{Shape, Tree};
ghost use Rattle.dyn_message.specs.Feet.{Foot};
ghost use Rattle.dyn_message.specs.Stands.{Stands};
ghost use Rattle.pb_write.specs.Texts.{IsWritable, shape_text};
ghost use Rattle.pb_write.specs.Waiting.{counted_in, waiting_in};
ghost use Rattle.pb_write.specs.Writes.{Counts};
ghost use Rattle.ts_arena.specs.Sole.{Owns, arena_places, arena_buffers};
ghost use Rattle.arena_run.specs.Lines.{LieWhole, TookLines};
ghost use Rattle.arena_run.specs.Stands.{StandShort};

use arena_mem::{Failed, Memory, Sink};
use dyn_message::MsgRef;
use msg_layout::tables::Layouts;
use pb_wire::varint_len;
use pb_write::{TextRooms, size, write_framed};
use ts_arena::Arena;

/// The caller as which the program enters an arena alone.
const SOLE_CALLER: u32 = 0;

/// How the writing of messages ended, and how many of their texts lie whole in what the sink took.
#[derive(Drop)]
pub struct Written {
    pub ended: Result<(), Failed>,
    pub lines: u32,
}

/// Writes the text of each message of an arena behind its prefix, in order. The arena is entered where there is a message,
/// and caller 0 owns a part of it then. It takes no memory.
pub fn write_arena<O: Sink>(
    arena: &mut Arena,
    types: &Layouts,
    messages: &[MsgRef],
    out: &mut O,
) -> Written
    requires few { length messages.now ≤ 2 ^ 20 }
    requires owner { 0 < length messages.now → Owns arena.old.owners 0 }
    requires stand { (type_no : ℕ) × (trees : List Tree) × StandShort types.now (arena_places arena.old) (arena_buffers arena.old) type_no messages.now trees }
    ensures same { arena.new ≡ arena.old }
    ensures ok { (type_no : ℕ) (trees : List Tree) → StandShort types.now (arena_places arena.old) (arena_buffers arena.old) type_no messages.now trees → OnOk result.ended (Appends (O.taken out.old) (O.taken out.new) (framed_texts types.now type_no trees)) }
    ensures err { (type_no : ℕ) (trees : List Tree) → StandShort types.now (arena_places arena.old) (arena_buffers arena.old) type_no messages.now trees → OnErr result.ended (TookPart (O.taken out.old) (O.taken out.new) (framed_texts types.now type_no trees)) }
    ensures cause { HasCause (O.faults out.old) (O.faults out.new) result.ended }
    ensures lines { OnOk result.ended (result.lines ≡ length messages.now) }
    ensures cut_lines { (type_no : ℕ) (trees : List Tree) → StandShort types.now (arena_places arena.old) (arena_buffers arena.old) type_no messages.now trees → OnErr result.ended (TookLines types.now type_no trees (O.taken out.old) (O.taken out.new) result.lines) }
{
    if messages.is_empty() {
        return Written {
            ended: Ok(()),
            lines: 0,
        };
    }
    match arena.enter_sole(SOLE_CALLER) {
        Ok(sole) => write_counted(&sole, types, messages, out),
        Err(_) => unreachable!(),
    }
}

// The same in any memory.
fn write_counted<M: Memory, O: Sink>(
    mem: &M,
    types: &Layouts,
    messages: &[MsgRef],
    out: &mut O,
) -> Written
    requires few { length messages.now ≤ 2 ^ 20 }
    requires stand { (type_no : ℕ) × (trees : List Tree) × StandShort types.now (M.places mem.now) (M.buffers mem.now) type_no messages.now trees }
    ensures ok { (type_no : ℕ) (trees : List Tree) → StandShort types.now (M.places mem.now) (M.buffers mem.now) type_no messages.now trees → OnOk result.ended (Appends (O.taken out.old) (O.taken out.new) (framed_texts types.now type_no trees)) }
    ensures err { (type_no : ℕ) (trees : List Tree) → StandShort types.now (M.places mem.now) (M.buffers mem.now) type_no messages.now trees → OnErr result.ended (TookPart (O.taken out.old) (O.taken out.new) (framed_texts types.now type_no trees)) }
    ensures cause { HasCause (O.faults out.old) (O.faults out.new) result.ended }
    ensures lines { OnOk result.ended (result.lines ≡ length messages.now) }
    ensures cut_lines { (type_no : ℕ) (trees : List Tree) → StandShort types.now (M.places mem.now) (M.buffers mem.now) type_no messages.now trees → OnErr result.ended (TookLines types.now type_no trees (O.taken out.old) (O.taken out.new) result.lines) }
{
    let mut rooms = TextRooms::new();
    let ended = write_messages(mem, types, messages, &mut rooms, out);
    let lines = match ended {
        Ok(()) => messages.len() as u32,
        Err(_) => whole_texts(mem, types, messages, rooms.bytes_taken()),
    };
    Written { ended, lines }
}

// Writes the text of each message behind its prefix, in order. It takes no memory.
fn write_messages<M: Memory, O: Sink>(
    mem: &M,
    types: &Layouts,
    messages: &[MsgRef],
    rooms: &mut TextRooms,
    out: &mut O,
) -> Result<(), Failed>
    requires none_waits { waiting_in rooms.old ≡ [] }
    requires stand { (type_no : ℕ) × (trees : List Tree) × StandShort types.now (M.places mem.now) (M.buffers mem.now) type_no messages.now trees }
    ensures ok { (type_no : ℕ) (trees : List Tree) → StandShort types.now (M.places mem.now) (M.buffers mem.now) type_no messages.now trees → OnOk result (Appends (O.taken out.old) (O.taken out.new) (framed_texts types.now type_no trees)) }
    ensures err { (type_no : ℕ) (trees : List Tree) → StandShort types.now (M.places mem.now) (M.buffers mem.now) type_no messages.now trees → OnErr result (TookPart (O.taken out.old) (O.taken out.new) (framed_texts types.now type_no trees)) }
    ensures cause { HasCause (O.faults out.old) (O.faults out.new) result }
    ensures counted { Counts (O.taken out.old) (O.taken out.new) (counted_in rooms.old) (counted_in rooms.new) }
{
    for message in messages {
        write_framed(mem, types, *message, rooms, out)?;
    }
    rooms.flush(out)
}

// How many texts lie whole in so many bytes, each behind its prefix, in order.
fn whole_texts<M: Memory>(mem: &M, types: &Layouts, messages: &[MsgRef], bytes: u64) -> u32
    requires few { length messages.now ≤ 2 ^ 20 }
    requires stand { (type_no : ℕ) × (trees : List Tree) × StandShort types.now (M.places mem.now) (M.buffers mem.now) type_no messages.now trees }
    ensures { (type_no : ℕ) (trees : List Tree) → StandShort types.now (M.places mem.now) (M.buffers mem.now) type_no messages.now trees → LieWhole types.now type_no trees bytes result }
{
    let mut left = bytes;
    let mut whole = 0;
    for message in messages {
        let size = framed_size(mem, types, *message);
        if left < size {
            return whole;
        }
        left -= size;
        whole += 1;
    }
    whole
}

// How many bytes the text of a message has behind its prefix, and the prefix.
fn framed_size<M: Memory>(mem: &M, types: &Layouts, message: MsgRef) -> u64
    requires { IsWritable types.now (M.places mem.now) (M.buffers mem.now) message }
    ensures { (t : Shape) (feet : List Foot) → Stands types.now (M.places mem.now) (M.buffers mem.now) message t feet → length (shape_text types.now message.type_no t) < 2 ^ 63
        → result ≡ length (framed (shape_text types.now message.type_no t)) }
{
    let text = size(mem, types, message);
    text + u64::from(varint_len(text))
}
