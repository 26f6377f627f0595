// Worked phases.
ghost use Rattle.std.specs.Prelude.{◌<◌};

use crate::trials::{Settled, try_arena, try_phase};
use crate::{Gate, OpenGate, PoolEnd};
use msg_layout::layouts;
use pb_schema::builtin;
use pb_wire::{WireFault, WireKind};
use std::sync::atomic::{AtomicU64, Ordering};
use std::test::Fail;

/// How many loads a worker makes at a gate until it gives up.
const MOST_LOADS: u32 = 1_000_000_000;

/// A gate that counts how often it is reached for each of the first frames.
#[derive(Drop)]
struct Counter {
    reached: [AtomicU64; 5],
}

impl Counter {
    fn new() -> Counter {
        Counter {
            reached: [
                AtomicU64::new(0),
                AtomicU64::new(0),
                AtomicU64::new(0),
                AtomicU64::new(0),
                AtomicU64::new(0),
            ],
        }
    }

    /// How often it was reached for this frame.
    fn count(&self, frame: usize) -> u64
        requires { frame < 5 }
    {
        self.reached[frame].load(Ordering::SeqCst)
    }
}

impl Gate for Counter {
    fn reach(&self, _worker: u32, frame: u32) {
        if frame < 5 {
            self.reached[frame as usize].fetch_add(1, Ordering::SeqCst);
        }
    }
}

/// A gate for two workers that lets neither parse its first frame until the other is there too.
#[derive(Drop)]
struct Meeting {
    reached: [AtomicU64; 2],
    missed: AtomicU64,
}

impl Gate for Meeting {
    fn reach(&self, worker: u32, frame: u32) {
        if worker != frame || worker > 1 {
            return;
        }
        self.reached[worker as usize].store(1, Ordering::SeqCst);
        for _ in 0..MOST_LOADS {
            if self.reached[1 - worker as usize].load(Ordering::SeqCst) == 1 {
                return;
            }
        }
        self.missed.store(1, Ordering::SeqCst);
    }
}

#[test]
fn the_least_bad_frame_is_told(rt: HostRuntime) -> Result<(), Fail> {
    let types = layouts(rt.alloc(), builtin(rt.alloc())?)?;
    let bytes = b"\x02\x08\x01\x02\x08\x80\x02\x08\x01\x02\x08\x80\x02\x08\x01";
    let fault = WireFault {
        kind: WireKind::Cut,
        byte: 1,
    };
    for workers in [1, 2, 4, 64] {
        let (end, _) = try_phase(&rt, rt.alloc(), &types, bytes, workers, &OpenGate)?;
        assert_eq!(rt; end, PoolEnd::BadFrame { index: 1, fault });
    }
    Ok(())
}

#[test]
fn each_frame_is_parsed_once_by_its_worker(rt: HostRuntime) -> Result<(), Fail> {
    let types = layouts(rt.alloc(), builtin(rt.alloc())?)?;
    let bytes = b"\x02\x08\x01\x02\x08\x02\x02\x08\x03\x02\x08\x04\x02\x08\x05";
    let rows: [(usize, &[u32]); 4] = [
        (1, &[0, 1, 2, 3, 4]),
        (2, &[1, 3, 0, 2, 4]),
        (4, &[3, 2, 1, 0, 4]),
        (64, &[4, 3, 2, 1, 0]),
    ];
    for (workers, wanted) in rows {
        let gate = Counter::new();
        let (end, parsed) = try_phase(&rt, rt.alloc(), &types, bytes, workers, &gate)?;
        assert_eq!(rt; end, PoolEnd::Done);
        assert_eq!(rt; parsed.as_slice(), wanted);
        for frame in 0..5 {
            assert_eq!(rt; gate.count(frame), 1);
        }
    }
    Ok(())
}

#[test]
fn a_phase_without_frames_is_done(rt: HostRuntime) -> Result<(), Fail> {
    let types = layouts(rt.alloc(), builtin(rt.alloc())?)?;
    for workers in [1, 3] {
        let (end, parsed) = try_phase(&rt, rt.alloc(), &types, b"", workers, &OpenGate)?;
        assert_eq!(rt; (end, parsed.len()), (PoolEnd::Done, 0));
    }
    Ok(())
}

#[test]
fn two_workers_meet_at_their_first_frames(rt: HostRuntime) -> Result<(), Fail> {
    let types = layouts(rt.alloc(), builtin(rt.alloc())?)?;
    let gate = Meeting {
        reached: [AtomicU64::new(0), AtomicU64::new(0)],
        missed: AtomicU64::new(0),
    };
    let bytes = b"\x02\x08\x01\x02\x08\x02";
    let (end, parsed) = try_phase(&rt, rt.alloc(), &types, bytes, 2, &gate)?;
    assert_eq!(rt; end, PoolEnd::Done);
    assert_eq!(rt; parsed.as_slice(), [1, 0].as_slice());
    assert_eq!(rt; gate.missed.load(Ordering::SeqCst), 0);
    Ok(())
}

#[test]
fn a_settled_arena_has_the_messages_in_the_order_of_the_frames(
    rt: HostRuntime,
) -> Result<(), Fail> {
    let types = layouts(rt.alloc(), builtin(rt.alloc())?)?;
    let bytes = b"\x02\x08\x01\x02\x08\x02\x02\x08\x03\x02\x08\x04\x02\x08\x05";
    let rows: [(usize, &[u32]); 4] = [
        (1, &[0, 0, 0, 0, 0]),
        (2, &[0, 1, 0, 1, 0]),
        (4, &[0, 1, 2, 3, 0]),
        (64, &[0, 1, 2, 3, 4]),
    ];
    for (workers, wanted) in rows {
        let settled = try_arena(&rt, rt.alloc(), &types, bytes, workers, &OpenGate)?;
        let wanted = Settled {
            owners: if workers < 5 { workers as u32 } else { 5 },
            used: 160,
            regions: wanted.to_vec(rt.alloc())?,
        };
        assert_eq!(rt; settled, Ok(wanted));
    }
    let refused = try_arena(
        &rt,
        rt.alloc(),
        &types,
        b"\x02\x08\x01\x02\x08\x80",
        3,
        &OpenGate,
    )?;
    let fault = WireFault {
        kind: WireKind::Cut,
        byte: 1,
    };
    assert_eq!(rt; refused, Err(PoolEnd::BadFrame { index: 1, fault }));
    Ok(())
}
