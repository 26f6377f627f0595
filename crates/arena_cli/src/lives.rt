// The arenas that a run leaves, and their end; and how often workers pass the gate.
ghost use Rattle.std.specs.Prelude.{◌<◌};

use crate::runs::{NO_FAILURE, end_over, run_over};
use arena_run::{Gate, OpenGate};
use cleanup_list::ListWatch;
use std::alloc::Global;
use std::process::Abort;
use std::sync::atomic::{AtomicU64, Ordering};
use std::test::Fail;
use std::thread::Threads;
use ts_arena::LifeRecord;

// Two nodes, one with a text of 15 bytes and one with a text of 16, which is kept.
const NODES: &[u8] =
    b"\x11\x0a\x0f\x61\x61\x61\x61\x61\x61\x61\x61\x61\x61\x61\x61\x61\x61\x61\x12\x0a\x10\x61\x61\x61\x61\x61\x61\x61\x61\x61\x61\x61\x61\x61\x61\x61\x61";

// The end of a run tells the one cleanup, of the part of the worker that parsed the second node.
fn check_end<R: Abort + Threads + Sync>(
    rt: &R,
    alloc: Global,
    workers: &str,
    serials: u32,
    slot: u32,
) -> Result<(), Fail> {
    let words = ["cat", "builtin", "pb.Node", "f", workers];
    let ran = run_over(
        rt,
        alloc,
        &words,
        &[("f", NODES)],
        &NO_FAILURE,
        65536,
        &OpenGate,
    )?;
    assert_eq!(rt; ran.outcome.lines, 2);
    let mut watch = ListWatch::with_room(alloc, 4)?;
    let lives = ran.outcome.end(&mut watch);
    assert_eq!(rt; lives.status, 0);
    let a = LifeRecord {
        life: 1,
        serials,
        adopted: 0,
        registered: 1,
        cleaned: 1,
        used: 400,
    };
    let b = LifeRecord {
        life: 2,
        serials: 0,
        adopted: 0,
        registered: 0,
        cleaned: 0,
        used: 0,
    };
    assert_eq!(rt; (lives.a, lives.b), (Some(a), Some(b)));
    assert_eq!(rt;
        (
            lives.heaps.registered,
            lives.heaps.cleaned,
            lives.heaps.used
        ),
        (0, 0, 0)
    );
    assert_eq!(rt; watch.told(), [(1u64, slot, 0u64)].as_slice());
    Ok(())
}

#[test]
fn the_end_of_a_run_tells_its_cleanups(rt: HostRuntime) -> Result<(), Fail> {
    check_end(&rt, rt.alloc(), "1", 1, 0)?;
    check_end(&rt, rt.alloc(), "2", 2, 1)
}

#[test]
fn callers_own_what_their_workers_parsed(rt: HostRuntime) -> Result<(), Fail> {
    for (workers, frames, owners) in [
        ("1", b"".as_slice(), 0),
        ("4", b"", 0),
        ("1", b"\x00\x00\x00", 1),
        ("2", b"\x00\x00\x00", 2),
        ("64", b"\x00\x00\x00", 3),
    ] {
        let words = ["cat", "builtin", "pb.Tick", "f", workers];
        let end = end_over(
            &rt,
            rt.alloc(),
            &words,
            &[("f", frames)],
            &NO_FAILURE,
            65536,
        )?;
        assert_eq!(rt; (end.status, end.owners), (0, owners), "{workers}");
        assert_eq!(rt; end.lines as usize, end.registers, "{workers}");
    }
    Ok(())
}

// A gate that counts how often it is reached for each of the first frames.
#[derive(Drop)]
struct Counter {
    reached: [AtomicU64; 5],
}

impl Counter {
    fn new() -> Counter {
        Counter {
            reached: [
                AtomicU64::new(0),
                AtomicU64::new(0),
                AtomicU64::new(0),
                AtomicU64::new(0),
                AtomicU64::new(0),
            ],
        }
    }

    // How often it was reached for this frame.
    fn count(&self, frame: usize) -> u64
        requires { frame < 5 }
    {
        self.reached[frame].load(Ordering::SeqCst)
    }
}

impl Gate for Counter {
    fn reach(&self, _worker: u32, frame: u32) {
        if frame < 5 {
            self.reached[frame as usize].fetch_add(1, Ordering::SeqCst);
        }
    }
}

#[test]
fn the_gate_is_reached_once_for_each_frame(rt: HostRuntime) -> Result<(), Fail> {
    for workers in ["1", "2", "3", "64"] {
        let words = ["cat", "builtin", "pb.Tick", "f", workers];
        let gate = Counter::new();
        let files = [("f", b"\x00\x00\x00\x00\x00".as_slice())];
        let ran = run_over(&rt, rt.alloc(), &words, &files, &NO_FAILURE, 65536, &gate)?;
        assert_eq!(rt; ran.outcome.status, 0, "{workers}");
        for frame in 0..5 {
            assert_eq!(rt; gate.count(frame), 1, "{workers}, {frame}");
        }
    }
    Ok(())
}
