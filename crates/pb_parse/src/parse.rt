// Parsing a payload into an empty message.
ghost use Rattle.std.specs.Prelude.{◌≡◌, ◌+◌, ◌*◌, ◌<◌, ◌^◌, ◌∷◌, [], None, Some, length, IfOk, IfErr};
ghost use Rattle.std.specs.FinMap as fin;
ghost use Rattle.std.specs.List.{concat};
ghost use Rattle.arena_mem.specs.Places.{used};
ghost use Rattle.msg_layout.specs.Layout.{layout_of};
ghost use Rattle.pb_schema.specs.Empty.{empty_with};
ghost use Rattle.pb_schema.specs.Fault.{fault_of};
ghost use Rattle.pb_schema.specs.Fits.{fields_of};
ghost use Rattle.pb_schema.specs.Meter.{cleanups};
ghost use Rattle.pb_parse.specs.Costs.{record_meter};
ghost use Rattle.pb_parse.specs.Whole.{payload_cost, shape_of_payload};
ghost use Rattle.pb_schema.specs.Tree.{tree_map};
ghost use Rattle.pb_schema.specs.TreeOf.{tree_of};
ghost use Rattle.dyn_message.specs.Feet.{InPlace};
ghost use Rattle.dyn_message.specs.Stands.{Stands};
ghost use Rattle.dyn_message.specs.Changes.{Changes, NowStands};
ghost use Rattle.pb_parse.specs.Parsing.{IsParseFault};

use crate::exact::first_fault;
use crate::message::{MOST_LEVELS, parse_message};
use crate::short::put_front;
use crate::stop::{Halt, ParseFault};
use arena_mem::{MemFault, Memory};
use dyn_message::MsgRef;
use msg_layout::tables::Layouts;
use std::alloc::Global;

/// Parses a payload of fewer than 2^25 bytes into a message that is empty and stands on its record alone (encoding guide,
/// "Message Structure"). Each record counts in its order: of a field's one number, text or bytes the last wins, lists grow,
/// messages are read into the one that is there, and a member of a oneof takes the place of another one. What no field
/// takes is kept as one piece of unknown bytes for each payload.
///
/// `Bad` tells exactly the first fault. `NoMemory` and `BlocksSpent` may come before a fault is seen. After a refusal
/// the message isn't to be read, and all that it didn't stand on is as it was.
///
/// What it places and keeps is exactly what the payload counts by itself, less the record that is there already: each
/// record of a text or bytes is put anew, an array grows value by value, and a message is one record. Whatever the memory,
/// two readings of the same payload cost the same.
pub fn parse_into<M: Memory>(
    alloc: Global,
    mem: &mut M,
    types: &Layouts,
    msg: MsgRef,
    bytes: &[u8],
) -> Result<(), ParseFault>
    requires empty { Stands types.now (M.places mem.old) (M.buffers mem.old) msg (empty_with [] (fields_of types.now msg.type_no)) (InPlace msg.place ∷ []) }
    requires short { length bytes.now < 2 ^ 25 }
    ensures stands { IfOk result (λ _. NowStands types.now (M.places mem.old) (M.buffers mem.old) (M.places mem.new) (M.buffers mem.new) msg (shape_of_payload types.now msg.type_no bytes.now) (InPlace msg.place ∷ [])) }
    ensures tree { IfOk result (λ _. tree_of types.now msg.type_no bytes.now ≡ Some (tree_map concat (shape_of_payload types.now msg.type_no bytes.now))) }
    ensures sound { IfOk result (λ _. fault_of types.now msg.type_no 0 bytes.now ≡ None) }
    ensures fault { IfErr result (IsParseFault (fault_of types.now msg.type_no 0 bytes.now) (M.blocks mem.new)) }
    ensures changes { Changes M.key M.places M.buffers M.blocks (4 * length bytes.now + 3) (4 * length bytes.now + 3) (InPlace msg.place ∷ []) mem.old mem.new }
    ensures space { IfOk result (λ _. used (M.places mem.new) + (layout_of types.now msg.type_no).size ≡ used (M.places mem.old) + payload_cost (record_meter types.now) types.now msg.type_no bytes.now) }
    ensures kept { IfOk result (λ _. fin.len (M.buffers mem.new) ≡ fin.len (M.buffers mem.old) + payload_cost cleanups types.now msg.type_no bytes.now) }
{
    let _schema = types.schema();
    let start = put_front(mem, types, msg, bytes);
    if start as usize == bytes.len() {
        return Ok(());
    }
    match parse_message(alloc, mem, types, msg, bytes, start, MOST_LEVELS) {
        Ok(()) => Ok(()),
        Err(Halt::Bad) => match first_fault(types, msg.type_no, bytes) {
            Some(fault) => Err(ParseFault::Bad(fault)),
            None => unreachable!(),
        },
        Err(Halt::Refused(MemFault::NoMemory)) => Err(ParseFault::NoMemory),
        Err(Halt::Refused(MemFault::BlocksSpent { region })) => {
            Err(ParseFault::BlocksSpent { region })
        }
    }
}
