// The unknown bytes of a payload while it is read: most payloads have none, and most others one run of them.
ghost use Rattle.std.specs.Prelude.{◌≡◌, ◌++◌, ◌-◌, ◌+◌, ◌<◌, ◌≤◌, ◌^◌, [], ℕ, List, take, drop, length, IfOk, IfErr, OnErr};
ghost use Rattle.arena_mem.specs.Places.{NamesFullRegion};
ghost use Rattle.pb_schema.specs.ParseCost.{pieces_cost};
ghost use Rattle.pb_schema.specs.Records.{Record, Records};
ghost use Rattle.pb_schema.specs.ShapeOf.{piece};
ghost use Rattle.pb_schema.specs.Tree.{Shape, Message, fields_held, unknown_held};
ghost use Rattle.dyn_message.specs.Feet.{Foot};
ghost use Rattle.dyn_message.specs.Stands.{Stands};
ghost use Rattle.dyn_message.specs.Changes.{Changes, NowStands};
ghost use Rattle.dyn_message.specs.Fields.{IsMessageIn};
ghost use Rattle.pb_parse.specs.Costs.{Costs};
ghost use Rattle.pb_parse.specs.Parsing.{LiesBefore, pending};

use arena_mem::{MemFault, Memory};
use dyn_message::{MsgRef, append_unknown, unknown_count};
use msg_layout::tables::Layouts;
use no_memory::NoMemory;
use std::alloc::Global;
use std::marker::Model;

/// A message has at most so many pieces of unknown bytes, and a list so many elements.
pub const MOST_ELEMENTS: u32 = 1 << 26;

/// The unknown bytes so far: a run that lies in the payload, behind those that were copied.
#[derive(Debug, Drop)]
pub struct Unknown {
    copied: Vec<u8>,
    start: u32,
    end: u32,
}

impl Model for Unknown {
    ghost use Rattle.pb_parse.specs.Parsing.{Pending};

    ghost Value = { Pending };

    ghost view = { λ u. record { copied = u.copied.items; start = u.start; end = u.end } };
}

impl Unknown {
    /// None so far, in front of a place.
    pub fn before(alloc: Global, at: u32) -> Unknown
        ensures { result ≡ record { copied = []; start = at; end = at } }
    {
        Unknown {
            copied: Vec::new(alloc),
            start: at,
            end: at,
        }
    }

    /// Adds the bytes from `from` to `to`, which lie behind those so far.
    pub fn add(&mut self, bytes: &[u8], from: u32, to: u32) -> Result<(), NoMemory>
        requires lies { LiesBefore self.old bytes.now from }
        requires from { from ≤ to }
        requires to { to ≤ length bytes.now }
        ensures added { IfOk result (λ _. pending self.new bytes.now ≡ pending self.old bytes.now ++ take (to - from) (drop from bytes.now)) }
        ensures lies { IfOk result (λ _. LiesBefore self.new bytes.now to) }
    {
        if self.end == from {
            self.end = to;
            return Ok(());
        }
        self.copy_run(bytes)?;
        self.start = from;
        self.end = to;
        Ok(())
    }

    // Copies the run behind what was copied before.
    fn copy_run(&mut self, bytes: &[u8]) -> Result<(), NoMemory>
        requires ordered { self.old.start ≤ self.old.end }
        requires within { self.old.end ≤ length bytes.now }
        ensures { IfOk result (λ _. self.new ≡ record { copied = pending self.old bytes.now; start = self.old.end; end = self.old.end }) }
    {
        self.copied
            .extend_from_slice(&bytes[self.start as usize..self.end as usize])?;
        self.start = self.end;
        Ok(())
    }
}

/// Appends the unknown bytes of a payload to the message as one piece, or nothing where there are none.
pub fn append_pending<M: Memory>(
    mem: &mut M,
    types: &Layouts,
    msg: MsgRef,
    bytes: &[u8],
    unknown: &mut Unknown,
) -> Result<(), MemFault>
    requires message { IsMessageIn types.now (M.places mem.old) (M.buffers mem.old) msg }
    requires lies { LiesBefore unknown.old bytes.now (length bytes.now) }
    requires whole { (rs : List Record) × Records (pending unknown.old bytes.now) rs }
    requires short { length bytes.now < 2 ^ 25 }
    ensures appended { IfOk result (λ _. (t : Shape) (feet : List Foot) → Stands types.now (M.places mem.old) (M.buffers mem.old) msg t feet
        → NowStands types.now (M.places mem.old) (M.buffers mem.old) (M.places mem.new) (M.buffers mem.new) msg (Message (fields_held t) (unknown_held t ++ piece (pending unknown.old bytes.now))) feet) }
    ensures changes { (t : Shape) (feet : List Foot) → Stands types.now (M.places mem.old) (M.buffers mem.old) msg t feet → Changes M.key M.places M.buffers M.blocks 2 1 feet mem.old mem.new }
    ensures costs { IfOk result (λ _. (t : Shape) (feet : List Foot) → Stands types.now (M.places mem.old) (M.buffers mem.old) msg t feet
        → Costs types.now (M.places mem.old) (M.buffers mem.old) (M.places mem.new) (M.buffers mem.new) (λ meter. pieces_cost meter (length (unknown_held t)) (piece (pending unknown.old bytes.now)))) }
    ensures spent { IfErr result (NamesFullRegion (M.blocks mem.new)) }
{
    if unknown.copied.is_empty() {
        if unknown.start == unknown.end {
            return Ok(());
        }
        let run = &bytes[unknown.start as usize..unknown.end as usize];
        return append_piece(mem, types, msg, run);
    }
    if unknown.copy_run(bytes).is_err() {
        return Err(MemFault::NoMemory);
    }
    append_piece(mem, types, msg, unknown.copied.as_slice())
}

// Appends bytes as one piece, where there are any.
fn append_piece<M: Memory>(
    mem: &mut M,
    types: &Layouts,
    msg: MsgRef,
    bytes: &[u8],
) -> Result<(), MemFault>
    requires message { IsMessageIn types.now (M.places mem.old) (M.buffers mem.old) msg }
    requires whole { (rs : List Record) × Records bytes.now rs }
    requires short { length bytes.now < 2 ^ 31 }
    ensures appended { IfOk result (λ _. (t : Shape) (feet : List Foot) → Stands types.now (M.places mem.old) (M.buffers mem.old) msg t feet
        → NowStands types.now (M.places mem.old) (M.buffers mem.old) (M.places mem.new) (M.buffers mem.new) msg (Message (fields_held t) (unknown_held t ++ piece bytes.now)) feet) }
    ensures changes { (t : Shape) (feet : List Foot) → Stands types.now (M.places mem.old) (M.buffers mem.old) msg t feet → Changes M.key M.places M.buffers M.blocks 2 1 feet mem.old mem.new }
    ensures costs { IfOk result (λ _. (t : Shape) (feet : List Foot) → Stands types.now (M.places mem.old) (M.buffers mem.old) msg t feet
        → Costs types.now (M.places mem.old) (M.buffers mem.old) (M.places mem.new) (M.buffers mem.new) (λ meter. pieces_cost meter (length (unknown_held t)) (piece bytes.now))) }
    ensures spent { IfErr result (NamesFullRegion (M.blocks mem.new)) }
{
    if bytes.is_empty() {
        return Ok(());
    }
    if unknown_count(mem, types, msg) >= MOST_ELEMENTS {
        return Err(MemFault::NoMemory);
    }
    append_unknown(mem, types, msg, bytes)
}
