// One frame of a worker.
ghost use Rattle.std.specs.Prelude.{◌≡◌, ◌+◌, ◌*◌, ◌<◌, ◌≤◌, ◌^◌, [], None, Some, length, IfOk, IfErr, IfSome};
ghost use Rattle.std.specs.List.{concat};
ghost use Rattle.serial_arena.specs.Serial.{SerialState};
ghost use Rattle.pb_schema.specs.Fault.{fault_of};
ghost use Rattle.pb_schema.specs.Tree.{tree_map};
ghost use Rattle.pb_schema.specs.TreeOf.{tree_of};
ghost use Rattle.dyn_message.specs.Changes.{Changes, NowStands};
ghost use Rattle.pb_parse.specs.Parsing.{IsParseFault};
ghost use Rattle.pb_parse.specs.Costs.{Costs};
ghost use Rattle.pb_parse.specs.Whole.{payload_cost, shape_of_payload};
ghost use Rattle.ts_arena.specs.Passes.{caller_of, slot_of, steps_of, HasPart, IsPassOf, FitsPass};
ghost use Rattle.parse_pool.specs.Phases.{payload_at, end_of};
ghost use Rattle.parse_pool.specs.Parsed.{HasGrown};

use crate::gate::Gate;
use crate::phase::Phase;
use arena_mem::{MemFault, Memory};
use dyn_message::{MsgRef, create};
use life_ids::ThreadCache;
use msg_layout::tables::Layouts;
use pb_parse::{ParseFault, parse_into};
use std::alloc::Global;
use ts_arena::Pass;

/// Makes a message in any memory, and parses a payload into it.
#[inline]
fn parse_in<M: Memory>(
    alloc: Global,
    mem: &mut M,
    types: &Layouts,
    root: u32,
    bytes: &[u8],
) -> Result<MsgRef, ParseFault>
    requires root { root < length types.now.types }
    requires short { length bytes.now < 2 ^ 25 }
    ensures type_no { IfOk result (λ msg. msg.type_no ≡ root) }
    ensures stands { IfOk result (λ msg. NowStands types.now (M.places mem.old) (M.buffers mem.old) (M.places mem.new) (M.buffers mem.new) msg (shape_of_payload types.now root bytes.now) []) }
    ensures tree { IfOk result (λ _. tree_of types.now root bytes.now ≡ Some (tree_map concat (shape_of_payload types.now root bytes.now))) }
    ensures sound { IfOk result (λ _. fault_of types.now root 0 bytes.now ≡ None) }
    ensures fault { IfErr result (IsParseFault (fault_of types.now root 0 bytes.now) (M.blocks mem.new)) }
    ensures costs { IfOk result (λ _. Costs types.now (M.places mem.old) (M.buffers mem.old) (M.places mem.new) (M.buffers mem.new) (λ meter. payload_cost meter types.now root bytes.now)) }
    ensures changes { Changes M.key M.places M.buffers M.blocks (4 * length bytes.now + 4) (4 * length bytes.now + 4) [] mem.old mem.new }
{
    match create(mem, types, root) {
        Ok(msg) => match parse_into(alloc, mem, types, msg, bytes) {
            Ok(()) => Ok(msg),
            Err(fault) => Err(fault),
        },
        Err(MemFault::NoMemory) => Err(ParseFault::NoMemory),
        Err(MemFault::BlocksSpent { region }) => Err(ParseFault::BlocksSpent { region }),
    }
}

/// A worker's turn for one frame: it passes the gate, enters its part of the arena, parses the frame there, and leaves.
#[inline]
pub(crate) fn parse_frame<G: Gate>(
    alloc: Global,
    phase: &Phase<'_, G>,
    worker: u32,
    frame: u32,
    pass: Pass,
    cache: ThreadCache,
) -> (Pass, ThreadCache, Result<MsgRef, ParseFault>)
    requires made { IsPassOf phase.now.shared pass }
    requires fits { FitsPass cache pass }
    requires first { phase.now.first ≤ frame }
    requires last { frame < end_of phase.now }
    ensures made { IsPassOf phase.now.shared result.0 }
    ensures caller { caller_of result.0 ≡ caller_of pass }
    ensures fits { FitsPass result.1 result.0 }
    ensures life { result.1.life ≡ phase.now.shared.life }
    ensures slot { IfSome (slot_of pass) (λ slot. slot_of result.0 ≡ Some slot) }
    ensures joined { slot_of result.0 ≡ Some result.1.slot }
    ensures no_step { cache.life ≡ phase.now.shared.life → steps_of result.0 ≡ steps_of pass }
    ensures steps { (steps_of pass ≤ steps_of result.0) × (steps_of result.0 ≤ steps_of pass + 193) }
    ensures grown { (part : SerialState) → HasPart pass part → (after : SerialState) × HasPart result.0 after × HasGrown phase.now frame (4 * length (payload_at phase.now frame) + 4) part after result.2 }
{
    phase.gate.reach(worker, frame);
    let mut lease = phase.shared.enter(pass, cache);
    let bytes = phase.frames.payload(frame);
    let parsed = parse_in(alloc, &mut lease, phase.types, phase.root, bytes);
    let (pass, cache) = lease.leave();
    (pass, cache, parsed)
}
