// The units and the depth of a message.
ghost use Rattle.std.specs.Prelude.{◌≡◌, ◌^◌, ◌<◌, ℕ, List};
ghost use Rattle.pb_schema.specs.Depth.{depth_of};
ghost use Rattle.pb_schema.specs.Tree.{Shape};
ghost use Rattle.dyn_message.specs.Feet.{Foot};
ghost use Rattle.dyn_message.specs.Stands.{Stands};
ghost use Rattle.msg_merge.specs.Extents.{IsBounded, IsCountable, shape_units};

use crate::walk::message_extent;
use arena_mem::Memory;
use dyn_message::MsgRef;
use msg_layout::tables::Layouts;

// More levels than messages nest in fewer than 2^63 units, since each has one.
const MOST_LEVELS: u64 = 1 << 63;

// More levels than a depth of fewer than 2^32 has.
const MOST_DEPTH: u64 = 1 << 32;

/// How many units the message has, which are fewer than 2^63: one for each message in it and each of their unknown bytes,
/// one for each number, and one for each text or bytes and each byte of it. It takes no memory.
pub fn units<M: Memory>(mem: &M, types: &Layouts, msg: MsgRef) -> u64
    requires { IsCountable types.now (M.places mem.now) (M.buffers mem.now) msg }
    ensures { (t : Shape) (feet : List Foot) → Stands types.now (M.places mem.now) (M.buffers mem.now) msg t feet → shape_units t < 2 ^ 63
        → result ≡ shape_units t }
{
    message_extent(mem, types, msg, MOST_LEVELS).units
}

/// How many levels deep messages nest in the message, which are fewer than 2^32: 0 without messages in it. It takes no
/// memory.
pub fn depth<M: Memory>(mem: &M, types: &Layouts, msg: MsgRef) -> u32
    requires { IsBounded types.now (M.places mem.now) (M.buffers mem.now) msg }
    ensures { (t : Shape) (feet : List Foot) → Stands types.now (M.places mem.now) (M.buffers mem.now) msg t feet → depth_of t < 2 ^ 32
        → result ≡ depth_of t }
{
    message_extent(mem, types, msg, MOST_DEPTH).levels
}
