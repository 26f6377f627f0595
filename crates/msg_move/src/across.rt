// Messages that move between two memories, each as a copy in its new one.
ghost use Rattle.std.specs.Prelude.{◌≡◌, ◌⊎◌, ◌+◌, ◌*◌, ◌∷◌, [], List, IfOk, IfErr, OnErr, MatchResult};
ghost use Rattle.std.specs.FinMap as fin;
ghost use Rattle.arena_mem.specs.Places.{NamesFullRegion, used};
ghost use Rattle.serial_arena.specs.Serial.{blocks_of};
ghost use Rattle.pb_schema.specs.HeldAt.{with_held};
ghost use Rattle.pb_schema.specs.MergeCost.{fresh_cost};
ghost use Rattle.pb_schema.specs.Meter.{cleanups};
ghost use Rattle.pb_schema.specs.Tree.{Shape, One, Sub};
ghost use Rattle.dyn_message.specs.Changes.{Changes, NowStands};
ghost use Rattle.dyn_message.specs.Feet.{Foot, InPlace};
ghost use Rattle.dyn_message.specs.Fields.{HasMessage, IsMessageIn};
ghost use Rattle.dyn_message.specs.Links.{LinksTo};
ghost use Rattle.dyn_message.specs.Stands.{Stands};
ghost use Rattle.msg_move.specs.Released.{GotUnits, IsReleased};
ghost use Rattle.msg_merge.specs.Across.{record_meter};
ghost use Rattle.msg_merge.specs.Extents.{shape_units};
ghost use Rattle.msg_move.specs.Taken.{HoldsMessage};

use crate::swap::swap_same;
use arena_mem::{MemFault, Memory};
use dyn_message::{MsgRef, link_sub, sub, unlink_sub};
use msg_layout::tables::Layouts;
use msg_merge::copy;
use serial_arena::SerialArena;

/// Gives a copy of a message in another memory to a field of its type. A refusal leaves the message as it was.
pub fn give_across<M: Memory, N: Memory>(
    to_mem: &mut M,
    types: &Layouts,
    msg: MsgRef,
    field: u32,
    from_mem: &N,
    child: MsgRef,
) -> Result<(), MemFault>
    requires message { IsMessageIn types.now (M.places to_mem.old) (M.buffers to_mem.old) msg }
    requires child { IsMessageIn types.now (N.places from_mem.now) (N.buffers from_mem.now) child }
    requires field { LinksTo types.now msg.type_no field child.type_no }
    ensures given { IfOk result (λ _. (t : Shape) (feet : List Foot) (u : Shape) (own : List Foot)
        → Stands types.now (M.places to_mem.old) (M.buffers to_mem.old) msg t feet
        → Stands types.now (N.places from_mem.now) (N.buffers from_mem.now) child u own
        → NowStands types.now (M.places to_mem.old) (M.buffers to_mem.old) (M.places to_mem.new) (M.buffers to_mem.new) msg (with_held types.now msg.type_no field (One (Sub u)) t) feet) }
    ensures space { IfOk result (λ _. (u : Shape) (own : List Foot) → Stands types.now (N.places from_mem.now) (N.buffers from_mem.now) child u own
        → used (M.places to_mem.new) ≡ used (M.places to_mem.old) + fresh_cost (record_meter types.now) types.now child.type_no u) }
    ensures kept { IfOk result (λ _. (u : Shape) (own : List Foot) → Stands types.now (N.places from_mem.now) (N.buffers from_mem.now) child u own
        → fin.len (M.buffers to_mem.new) ≡ fin.len (M.buffers to_mem.old) + fresh_cost cleanups types.now child.type_no u) }
    ensures changes { (u : Shape) (own : List Foot) → Stands types.now (N.places from_mem.now) (N.buffers from_mem.now) child u own
        → Changes M.key M.places M.buffers M.blocks (4 * shape_units u) (4 * shape_units u) (InPlace msg.place ∷ []) to_mem.old to_mem.new }
    ensures unchanged { OnErr result ((u : Shape) (own : List Foot) → Stands types.now (N.places from_mem.now) (N.buffers from_mem.now) child u own
        → Changes M.key M.places M.buffers M.blocks (4 * shape_units u) (4 * shape_units u) [] to_mem.old to_mem.new) }
    ensures stands { OnErr result ((t : Shape) (feet : List Foot) → Stands types.now (M.places to_mem.old) (M.buffers to_mem.old) msg t feet
        → Stands types.now (M.places to_mem.new) (M.buffers to_mem.new) msg t feet) }
    ensures spent { IfErr result (NamesFullRegion (M.blocks to_mem.new)) }
{
    match copy(to_mem, types, from_mem, child) {
        Ok(copied) => {
            link_sub(to_mem, types, msg, field, copied);
            Ok(())
        }
        Err(fault) => Err(fault),
    }
}

/// Moves the message of a field that is set out of its memory: a copy of it is made in a region, and then the field is
/// unset. A refusal leaves the message as it was, and hands the region back with what the copy left there.
pub fn release<M: Memory>(
    mem: &mut M,
    types: &Layouts,
    msg: MsgRef,
    field: u32,
    mut region: SerialArena,
) -> Result<(MsgRef, SerialArena), (MemFault, SerialArena)>
    requires field { HasMessage types.now msg.type_no field }
    requires set { HoldsMessage types.now (M.places mem.old) (M.buffers mem.old) msg field }
    ensures released { IfOk result (λ r. (t : Shape) (feet : List Foot) → Stands types.now (M.places mem.old) (M.buffers mem.old) msg t feet
        → IsReleased types.now (M.places mem.new) (M.buffers mem.new) msg t feet field region r.0 r.1) }
    ensures got { (t : Shape) (feet : List Foot) → Stands types.now (M.places mem.old) (M.buffers mem.old) msg t feet
        → MatchResult result (λ r. GotUnits types.now msg field t region r.1) (λ e. GotUnits types.now msg field t region e.1) }
    ensures changes { Changes M.key M.places M.buffers M.blocks 0 0 (InPlace msg.place ∷ []) mem.old mem.new }
    ensures space { used (M.places mem.new) ≡ used (M.places mem.old) }
    ensures buffers { M.buffers mem.new ≡ M.buffers mem.old }
    ensures unchanged { OnErr result (M.places mem.new ≡ M.places mem.old) }
    ensures spent { IfErr result (λ e. NamesFullRegion (blocks_of e.1) e.0) }
{
    match sub(mem, types, msg, field) {
        Some(child) => match copy(&mut region, types, mem, child) {
            Ok(copied) => {
                unlink_sub(mem, types, msg, field);
                Ok((copied, region))
            }
            Err(fault) => Err((fault, region)),
        },
        None => unreachable!(),
    }
}

/// Two messages of one type in two memories change places: each stands then for what the other one stood for, in its own
/// memory alone. Both copies are made before a byte of either message is changed, so a refusal leaves both as they were.
pub fn swap_across<M: Memory, N: Memory>(
    a: &mut M,
    types: &Layouts,
    x: MsgRef,
    b: &mut N,
    y: MsgRef,
) -> Result<(), MemFault>
    requires one { IsMessageIn types.now (M.places a.old) (M.buffers a.old) x }
    requires two { IsMessageIn types.now (N.places b.old) (N.buffers b.old) y }
    requires one_type { y.type_no ≡ x.type_no }
    ensures swapped { IfOk result (λ _. (t : Shape) (feet : List Foot) (u : Shape) (own : List Foot)
        → Stands types.now (M.places a.old) (M.buffers a.old) x t feet
        → Stands types.now (N.places b.old) (N.buffers b.old) y u own
        → NowStands types.now (M.places a.old) (M.buffers a.old) (M.places a.new) (M.buffers a.new) x u feet
        × NowStands types.now (N.places b.old) (N.buffers b.old) (N.places b.new) (N.buffers b.new) y t own) }
    ensures one_space { IfOk result (λ _. (u : Shape) (own : List Foot) → Stands types.now (N.places b.old) (N.buffers b.old) y u own
        → used (M.places a.new) ≡ used (M.places a.old) + fresh_cost (record_meter types.now) types.now y.type_no u) }
    ensures one_kept { IfOk result (λ _. (u : Shape) (own : List Foot) → Stands types.now (N.places b.old) (N.buffers b.old) y u own
        → fin.len (M.buffers a.new) ≡ fin.len (M.buffers a.old) + fresh_cost cleanups types.now y.type_no u) }
    ensures two_space { IfOk result (λ _. (t : Shape) (feet : List Foot) → Stands types.now (M.places a.old) (M.buffers a.old) x t feet
        → used (N.places b.new) ≡ used (N.places b.old) + fresh_cost (record_meter types.now) types.now x.type_no t) }
    ensures two_kept { IfOk result (λ _. (t : Shape) (feet : List Foot) → Stands types.now (M.places a.old) (M.buffers a.old) x t feet
        → fin.len (N.buffers b.new) ≡ fin.len (N.buffers b.old) + fresh_cost cleanups types.now x.type_no t) }
    ensures one_changes { (u : Shape) (own : List Foot) → Stands types.now (N.places b.old) (N.buffers b.old) y u own
        → MatchResult result
        (λ _. Changes M.key M.places M.buffers M.blocks (4 * shape_units u) (4 * shape_units u) (InPlace x.place ∷ []) a.old a.new)
        (λ _. Changes M.key M.places M.buffers M.blocks (4 * shape_units u) (4 * shape_units u) [] a.old a.new) }
    ensures two_changes { (t : Shape) (feet : List Foot) → Stands types.now (M.places a.old) (M.buffers a.old) x t feet
        → MatchResult result
        (λ _. Changes N.key N.places N.buffers N.blocks (4 * shape_units t) (4 * shape_units t) (InPlace y.place ∷ []) b.old b.new)
        (λ _. Changes N.key N.places N.buffers N.blocks (4 * shape_units t) (4 * shape_units t) [] b.old b.new) }
    ensures stand { OnErr result ((t : Shape) (feet : List Foot) (u : Shape) (own : List Foot)
        → Stands types.now (M.places a.old) (M.buffers a.old) x t feet
        → Stands types.now (N.places b.old) (N.buffers b.old) y u own
        → Stands types.now (M.places a.new) (M.buffers a.new) x t feet
        × Stands types.now (N.places b.new) (N.buffers b.new) y u own) }
    ensures spent { IfErr result (λ e. NamesFullRegion (M.blocks a.new) e ⊎ NamesFullRegion (N.blocks b.new) e) }
{
    match copy(a, types, b, y) {
        Ok(there) => match copy(b, types, a, x) {
            Ok(here) => {
                swap_same(a, types, x, there);
                swap_same(b, types, y, here);
                Ok(())
            }
            Err(fault) => Err(fault),
        },
        Err(fault) => Err(fault),
    }
}
