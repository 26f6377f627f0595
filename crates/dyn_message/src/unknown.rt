// The unknown bytes of messages, piece by piece.
ghost use Rattle.std.specs.Prelude.{◌≡◌, ◌+◌, ◌<◌, ◌≤◌, ◌^◌, ℕ, List, length, IfOk, IfErr, OnErr, Some, slice_get};
ghost use Rattle.std.specs.FinMap as fin;
ghost use Rattle.arena_mem.specs.Places.{NamesFullRegion, used};
ghost use Rattle.pb_schema.specs.Meter.{array_bytes, string_bytes, cleanups};
ghost use Rattle.pb_schema.specs.Records.{Record, Records};
ghost use Rattle.pb_schema.specs.Tree.{Shape};
ghost use Rattle.dyn_message.specs.Feet.{Foot};
ghost use Rattle.dyn_message.specs.Stands.{Stands};
ghost use Rattle.dyn_message.specs.Changes.{Changes, NowStands};
ghost use Rattle.dyn_message.specs.Fields.{IsMessageIn};
ghost use Rattle.dyn_message.specs.Unknown.{HasFewerPieces, HasMorePieces, pieces_of, with_piece};

use crate::fields::record_is_there;
use crate::msg_ref::MsgRef;
use crate::rooms::{append_element, list_at};
use crate::strings::{bytes_in, keep_bytes, slot_at};
use arena_mem::{MemFault, Memory};
use msg_layout::tables::Layouts;

/// How many pieces of unknown bytes the message has.
pub fn unknown_count<M: Memory>(mem: &M, types: &Layouts, msg: MsgRef) -> u32
    requires message { IsMessageIn types.now (M.places mem.now) (M.buffers mem.now) msg }
    ensures { (t : Shape) (feet : List Foot) → Stands types.now (M.places mem.now) (M.buffers mem.now) msg t feet → result ≡ length (pieces_of t) }
{
    record_is_there(mem, types, msg);
    let at = types.of_type(msg.type_no).unknown();
    list_at(mem.read(msg.place), at).1
}

/// Appends a piece of unknown bytes: whole records, at least one of them and fewer than 2^31 bytes, behind fewer than 2^26
/// pieces.
pub fn append_unknown<M: Memory>(
    mem: &mut M,
    types: &Layouts,
    msg: MsgRef,
    bytes: &[u8],
) -> Result<(), MemFault>
    requires message { IsMessageIn types.now (M.places mem.old) (M.buffers mem.old) msg }
    requires whole { (rs : List Record) × Records bytes.now rs }
    requires some { 1 ≤ length bytes.now }
    requires short { length bytes.now < 2 ^ 31 }
    requires few { HasFewerPieces types.now (M.places mem.old) (M.buffers mem.old) msg }
    ensures appended { IfOk result (λ _. (t : Shape) (feet : List Foot) → Stands types.now (M.places mem.old) (M.buffers mem.old) msg t feet
        → NowStands types.now (M.places mem.old) (M.buffers mem.old) (M.places mem.new) (M.buffers mem.new) msg (with_piece bytes.now t) feet) }
    ensures space { IfOk result (λ _. (t : Shape) (feet : List Foot) → Stands types.now (M.places mem.old) (M.buffers mem.old) msg t feet
        → used (M.places mem.new) ≡ used (M.places mem.old) + string_bytes (length bytes.now) + array_bytes 24 (length (pieces_of t)) (length (pieces_of t) + 1)) }
    ensures kept { IfOk result (λ _. fin.len (M.buffers mem.new) ≡ fin.len (M.buffers mem.old) + cleanups.bytes (length bytes.now)) }
    ensures stands { OnErr result ((t : Shape) (feet : List Foot) → Stands types.now (M.places mem.old) (M.buffers mem.old) msg t feet → Stands types.now (M.places mem.new) (M.buffers mem.new) msg t feet) }
    ensures changes { (t : Shape) (feet : List Foot) → Stands types.now (M.places mem.old) (M.buffers mem.old) msg t feet → Changes M.key M.places M.buffers M.blocks 2 1 feet mem.old mem.new }
    ensures spent { IfErr result (NamesFullRegion (M.blocks mem.new)) }
{
    record_is_there(mem, types, msg);
    let at = types.of_type(msg.type_no).unknown();
    let element = keep_bytes(mem, bytes)?;
    append_element(mem, msg.place, at, &element)?;
    Ok(())
}

/// Lends the piece of unknown bytes at this index, where it lies.
pub fn unknown_element<'a, M: Memory>(
    mem: &'a M,
    types: &Layouts,
    msg: MsgRef,
    index: u32,
) -> &'a [u8]
    requires message { IsMessageIn types.now (M.places mem.now) (M.buffers mem.now) msg }
    requires index { HasMorePieces types.now (M.places mem.now) (M.buffers mem.now) msg index }
    ensures { (t : Shape) (feet : List Foot) → Stands types.now (M.places mem.now) (M.buffers mem.now) msg t feet
        → slice_get (pieces_of t) index ≡ Some result.now }
{
    record_is_there(mem, types, msg);
    let at = types.of_type(msg.type_no).unknown();
    let (array, _) = list_at(mem.read(msg.place), at);
    bytes_in(mem, slot_at(mem.read(array), index * 24))
}
