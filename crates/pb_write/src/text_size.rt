// The length of a message's text.
ghost use Rattle.std.specs.Prelude.{◌≡◌, ◌^◌, ◌<◌, ℕ, List, length};
ghost use Rattle.pb_schema.specs.Tree.{Shape};
ghost use Rattle.dyn_message.specs.Feet.{Foot};
ghost use Rattle.dyn_message.specs.Stands.{Stands};
ghost use Rattle.pb_write.specs.Texts.{IsWritable, shape_text};

use crate::backwards::MOST_LEVELS;
use crate::counter::message_size;
use arena_mem::Memory;
use dyn_message::MsgRef;
use msg_layout::tables::Layouts;

/// How many bytes the text of a message has, which are fewer than 2^63. It takes no memory, and goes over the message
/// once, without its bytes.
pub fn size<M: Memory>(mem: &M, types: &Layouts, msg: MsgRef) -> u64
    requires { IsWritable types.now (M.places mem.now) (M.buffers mem.now) msg }
    ensures { (t : Shape) (feet : List Foot) → Stands types.now (M.places mem.now) (M.buffers mem.now) msg t feet → length (shape_text types.now msg.type_no t) < 2 ^ 63
        → result ≡ length (shape_text types.now msg.type_no t) }
{
    message_size(mem, types, msg, MOST_LEVELS)
}
