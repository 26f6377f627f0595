// The outcome of a run, and the end of its arenas.
ghost use Rattle.std.specs.Prelude.{◌≡◌, ◌+◌, ◌^◌, ◌<◌, length, flat_map, IsSome};
ghost use Rattle.cleanup_list.specs.Told.{Gains, HasRoom};
ghost use Rattle.ts_arena.specs.Sides.{HoldsPasses};
ghost use Rattle.arena_run.specs.Lives.{CanEnd, HasEnded, HasEndedAll, HeapsFit, heaps_record, region_registered, region_told, region_used};

use crate::fault::Fault;
use cleanup_list::CleanupWatch;
use pb_script::Register;
use serial_arena::SerialRecord;
use ts_arena::{LifeRecord, Side};

/// What a run leaves: its status with the fault behind it, the registers, the two arenas, the records of the lives that
/// ended on the way, and how many lines were accepted.
#[derive(Drop)]
pub struct Outcome {
    pub status: u8,
    pub fault: Option<Fault>,
    pub registers: Vec<Register>,
    pub a: Side,
    pub b: Side,
    pub ended: Vec<LifeRecord>,
    pub lines: u32,
}

/// What the end of an outcome leaves: its status, the record of each arena that was ended, and the sums of the heap regions.
#[derive(Clone, Copy, Debug, PartialEq, Eq)]
pub struct LastLives {
    pub status: u8,
    pub a: Option<LifeRecord>,
    pub b: Option<LifeRecord>,
    pub heaps: SerialRecord,
}

impl Outcome {
    /// Ends the heap regions of the registers, in the order of the registers, then arena a, and then arena b: each cleanup
    /// is run once, and the watch is told. An arena that isn't settled is settled first; where there is no memory for that, it
    /// has no record and nothing of it is told. Where both are settled no memory is taken.
    pub fn end<W: CleanupWatch>(self, watch: &mut W) -> LastLives
        requires { CanEnd self.registers.items self.a self.b }
        ensures status { result.status ≡ self.status }
        ensures heaps { result.heaps ≡ heaps_record self.registers.items }
        ensures told { HasEndedAll self.registers.items self.a self.b result.a result.b (W.told watch.old) (W.room watch.old) (W.told watch.new) }
        ensures room { W.room watch.new ≡ W.room watch.old }
    {
        let Outcome {
            status,
            fault: _,
            registers,
            a,
            b,
            ended: _,
            lines: _,
        } = self;
        let heaps = end_regions(registers, watch);
        let a = end_side(a, watch);
        let b = end_side(b, watch);
        LastLives {
            status,
            a,
            b,
            heaps,
        }
    }
}

// Ends the regions of registers, in order.
fn end_regions<W: CleanupWatch>(mut registers: Vec<Register>, watch: &mut W) -> SerialRecord
    requires { HeapsFit registers.items }
    ensures sums { result ≡ heaps_record registers.items }
    ensures told { Gains (W.told watch.old) (W.told watch.new) (flat_map region_told registers.items) }
    ensures tells { HasRoom (W.told watch.old) (W.room watch.old) (length (flat_map region_told registers.items)) → IsSome (W.told watch.new) }
    ensures room { W.room watch.new ≡ W.room watch.old }
{
    let mut sums = SerialRecord {
        registered: 0,
        cleaned: 0,
        used: 0,
    };
    registers.reverse();
    while let Some(register) = registers.pop() {
        end_region(register, watch, &mut sums);
    }
    sums
}

// Ends the region of a register, where it has one, and adds what it had.
fn end_region<W: CleanupWatch>(register: Register, watch: &mut W, sums: &mut SerialRecord)
    requires registered { sums.old.registered + region_registered register < 2 ^ 63 }
    requires cleaned { sums.old.cleaned + region_registered register < 2 ^ 63 }
    requires used { sums.old.used + region_used register < 2 ^ 63 }
    ensures registered { sums.new.registered ≡ sums.old.registered + region_registered register }
    ensures cleaned { sums.new.cleaned ≡ sums.old.cleaned + region_registered register }
    ensures used { sums.new.used ≡ sums.old.used + region_used register }
    ensures told { Gains (W.told watch.old) (W.told watch.new) (region_told register) }
    ensures tells { HasRoom (W.told watch.old) (W.room watch.old) (region_registered register) → IsSome (W.told watch.new) }
    ensures room { W.room watch.new ≡ W.room watch.old }
{
    if let Some(region) = register.into_region() {
        let ended = region.end(watch);
        sums.registered += ended.registered;
        sums.cleaned += ended.cleaned;
        sums.used += ended.used;
    }
}

// Ends the arena of a side; none where it isn't settled and can't be for want of memory.
fn end_side<W: CleanupWatch>(side: Side, watch: &mut W) -> Option<LifeRecord>
    requires { HoldsPasses side }
    ensures ended { HasEnded side result (W.told watch.old) (W.room watch.old) (W.told watch.new) }
    ensures room { W.room watch.new ≡ W.room watch.old }
{
    match side {
        Side::Sole(arena) => Some(arena.end(watch)),
        Side::Unsettled(shared, passes) => match shared.settle(passes) {
            Ok(arena) => Some(arena.end(watch)),
            Err(_) => None,
        },
    }
}
