// Messages that move between the fields of others within one memory, by links alone.
ghost use Rattle.std.specs.Prelude.{◌≡◌, ◌∷◌, [], List};
ghost use Rattle.arena_mem.specs.Places.{used};
ghost use Rattle.pb_schema.specs.Tree.{Shape, One, Sub};
ghost use Rattle.pb_schema.specs.HeldAt.{with_held};
ghost use Rattle.dyn_message.specs.Feet.{Foot, InPlace, Separate};
ghost use Rattle.dyn_message.specs.Stands.{Stands};
ghost use Rattle.dyn_message.specs.Changes.{Changes};
ghost use Rattle.dyn_message.specs.Fields.{HasMessage};
ghost use Rattle.dyn_message.specs.Links.{IsLinked, LinksTo};
ghost use Rattle.msg_move.specs.Taken.{HoldsMessage, IsTaken};

use arena_mem::Memory;
use dyn_message::{MsgRef, link_sub, unlink_sub};
use msg_layout::tables::Layouts;

/// Takes the message out of a field that is set: the field is unset then, and the answer is the message itself, with no
/// byte of it moved. It takes no memory.
pub fn take_sub<M: Memory>(mem: &mut M, types: &Layouts, msg: MsgRef, field: u32) -> MsgRef
    requires field { HasMessage types.now msg.type_no field }
    requires set { HoldsMessage types.now (M.places mem.old) (M.buffers mem.old) msg field }
    ensures taken { (t : Shape) (feet : List Foot) → Stands types.now (M.places mem.old) (M.buffers mem.old) msg t feet
        → IsTaken types.now (M.places mem.new) (M.buffers mem.new) msg t feet field result }
    ensures changes { Changes M.key M.places M.buffers M.blocks 0 0 (InPlace msg.place ∷ []) mem.old mem.new }
    ensures space { used (M.places mem.new) ≡ used (M.places mem.old) }
    ensures buffers { M.buffers mem.new ≡ M.buffers mem.old }
{
    match unlink_sub(mem, types, msg, field) {
        Some(child) => child,
        None => unreachable!(),
    }
}

/// Gives a message to a field of its type: the message of the field is the child itself then, with no byte of it moved,
/// and the other members of the field's oneof are unset. The two share no place or buffer before. It takes no memory.
pub fn give_same<M: Memory>(mem: &mut M, types: &Layouts, msg: MsgRef, field: u32, child: MsgRef)
    requires stand { (t : Shape) × (feet : List Foot) × (u : Shape) × (own : List Foot)
        × Stands types.now (M.places mem.old) (M.buffers mem.old) msg t feet
        × Stands types.now (M.places mem.old) (M.buffers mem.old) child u own × Separate own feet }
    requires field { LinksTo types.now msg.type_no field child.type_no }
    ensures given { (t : Shape) (feet : List Foot) (u : Shape) (own : List Foot)
        → Stands types.now (M.places mem.old) (M.buffers mem.old) msg t feet
        → Stands types.now (M.places mem.old) (M.buffers mem.old) child u own → Separate own feet
        → IsLinked types.now (M.places mem.new) (M.buffers mem.new) msg (with_held types.now msg.type_no field (One (Sub u)) t) feet own field child }
    ensures changes { Changes M.key M.places M.buffers M.blocks 0 0 (InPlace msg.place ∷ []) mem.old mem.new }
    ensures space { used (M.places mem.new) ≡ used (M.places mem.old) }
    ensures buffers { M.buffers mem.new ≡ M.buffers mem.old }
{
    link_sub(mem, types, msg, field, child);
}
