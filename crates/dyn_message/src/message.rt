// New messages.
ghost use Rattle.std.specs.Prelude.{◌≡◌, ◌+◌, ◌<◌, ◌≤◌, ◌^◌, ◌∷◌, [], ℕ, List, Some, length, IfOk, IfErr, OnErr};
ghost use Rattle.std.specs.FinMap as fin;
ghost use Rattle.arena_mem.specs.Grows.{Grows};
ghost use Rattle.arena_mem.specs.Places.{IsLive, NamesFullRegion, used};
ghost use Rattle.pb_schema.specs.Empty.{empty_with};
ghost use Rattle.pb_schema.specs.Fits.{fields_of};
ghost use Rattle.msg_layout.specs.Layout.{layout_of};
ghost use Rattle.dyn_message.specs.Feet.{InPlace, foot_bytes};
ghost use Rattle.dyn_message.specs.Stands.{Stands};
ghost use Rattle.dyn_message.specs.Changes.{Changes, IsFreshEmpty};
ghost use Rattle.dyn_message.specs.Fields.{IsMessageIn};
ghost use Rattle.dyn_message.specs.Writes.{Rewritten, zeros_to};

use crate::fields::record_is_there;
use crate::msg_ref::MsgRef;
use arena_mem::{MemFault, Memory, Place};
use msg_layout::tables::Layouts;

/// How many zeros are written at once.
const ZEROS: u32 = 64;

/// Makes an empty message of a type, which there is: one place of the size of the type's record.
#[inline]
pub fn create<M: Memory>(mem: &mut M, types: &Layouts, type_no: u32) -> Result<MsgRef, MemFault>
    requires { type_no < length types.now.types }
    ensures made { IfOk result (λ msg. IsFreshEmpty types.now (M.places mem.old) (M.places mem.new) (M.buffers mem.new) type_no msg) }
    ensures space { IfOk result (λ msg. used (M.places mem.new) ≡ used (M.places mem.old) + (layout_of types.now type_no).size) }
    ensures buffers { M.buffers mem.new ≡ M.buffers mem.old }
    ensures unchanged { OnErr result (M.places mem.new ≡ M.places mem.old) }
    ensures grows { Grows M.key M.places M.buffers M.blocks 1 0 mem.old mem.new }
    ensures spent { IfErr result (NamesFullRegion (M.blocks mem.new)) }
{
    let _schema = types.schema();
    let size = types.record_size(type_no);
    let place = mem.place(size)?;
    Ok(MsgRef { place, type_no })
}

/// Empties a message: its record is zero bytes then, and what it stood on stays live. It takes no memory.
pub fn clear<M: Memory>(mem: &mut M, types: &Layouts, msg: MsgRef)
    requires { IsMessageIn types.now (M.places mem.old) (M.buffers mem.old) msg }
    ensures cleared { Stands types.now (M.places mem.new) (M.buffers mem.new) msg (empty_with [] (fields_of types.now msg.type_no)) (InPlace msg.place ∷ []) }
    ensures changes { Changes M.key M.places M.buffers M.blocks 0 0 (InPlace msg.place ∷ []) mem.old mem.new }
    ensures space { used (M.places mem.new) ≡ used (M.places mem.old) }
    ensures buffers { M.buffers mem.new ≡ M.buffers mem.old }
{
    record_is_there(mem, types, msg);
    zero_place(mem, msg.place);
}

// Writes zeros to a whole place.
fn zero_place<M: Memory>(mem: &mut M, place: Place)
    requires live { IsLive (M.places mem.old) place }
    requires small { place.len ≤ 2 ^ 25 }
    requires size { (bytes : List ℕ) → fin.get (M.places mem.old) place ≡ Some bytes → length bytes ≡ place.len }
    ensures { Rewritten M.key M.places M.buffers M.blocks place (zeros_to place.len) mem.old mem.new }
{
    let zeros = [0u8; ZEROS as usize];
    let mut at = 0;
    while at < place.len {
        let count = ZEROS.min(place.len - at);
        mem.write(place, at, &zeros[..count as usize]);
        at += count;
    }
}
