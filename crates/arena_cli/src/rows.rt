// Worked runs over a file, "f", in memory: each row is data, and one loop runs them all. Files that are long, calls that
// fail and a file of many frames follow.
use crate::runs::end_of_run;
use crate::told::{Told, has_fault};
use arena_run::{InputKind, WireFault, WireKind};
use std::alloc::{AllocError, Global};
use std::process::Abort;
use std::test::Fail;
use std::thread::Threads;

const CAT: &[&str] = &["cat", "builtin", "pb.Tick", "f", "1"];

const NO_FRAMES: &[u8] = b"";

// The name of a row, the words, the file, the status, the fault, the bytes that are written, the number of registers, the
// bytes that are placed and the byte strings that are kept.
type Row = (
    &'static str,
    &'static [&'static str],
    &'static [u8],
    u8,
    Option<Told>,
    &'static [u8],
    usize,
    u64,
    u64,
);

const ROWS: [Row; 50] = [
    (
        "a set field",
        CAT,
        b"\x03\x08\x96\x01",
        0,
        None,
        b"\x03\x08\x96\x01",
        1,
        32,
        0,
    ),
    (
        "the last record wins",
        CAT,
        b"\x05\x08\x01\x08\x96\x01",
        0,
        None,
        b"\x03\x08\x96\x01",
        1,
        32,
        0,
    ),
    (
        "a default isn't written",
        CAT,
        b"\x02\x08\x00",
        0,
        None,
        b"\x00",
        1,
        32,
        0,
    ),
    ("no frame", CAT, b"", 0, None, b"", 0, 0, 0),
    ("an empty frame", CAT, b"\x00", 0, None, b"\x00", 1, 32, 0),
    (
        "a long spelling of a length",
        CAT,
        b"\x82\x00\x08\x05",
        0,
        None,
        b"\x02\x08\x05",
        1,
        32,
        0,
    ),
    (
        "the largest number",
        CAT,
        b"\x0b\x08\xff\xff\xff\xff\xff\xff\xff\xff\xff\x01",
        0,
        None,
        b"\x0b\x08\xff\xff\xff\xff\xff\xff\xff\xff\xff\x01",
        1,
        32,
        0,
    ),
    (
        "a short value and a long one",
        CAT,
        b"\x03\x08\x96\x01\x09\x08\xff\xff\xff\xff\xff\xff\xff\x01",
        0,
        None,
        b"\x03\x08\x96\x01\x09\x08\xff\xff\xff\xff\xff\xff\xff\x01",
        2,
        64,
        0,
    ),
    (
        "a group",
        CAT,
        b"\x04\x13\x08\x01\x14",
        0,
        None,
        b"\x04\x13\x08\x01\x14",
        1,
        136,
        0,
    ),
    (
        "four bytes of an unfitting wire type",
        CAT,
        b"\x05\x0d\x01\x02\x03\x04",
        0,
        None,
        b"\x05\x0d\x01\x02\x03\x04",
        1,
        136,
        0,
    ),
    (
        "a group behind a plain frame",
        CAT,
        b"\x02\x08\x01\x04\x13\x08\x01\x14",
        0,
        None,
        b"\x02\x08\x01\x04\x13\x08\x01\x14",
        2,
        168,
        0,
    ),
    (
        "field 1 with wire type 2",
        CAT,
        b"\x03\x0a\x01\x61",
        0,
        None,
        b"\x03\x0a\x01\x61",
        1,
        136,
        0,
    ),
    (
        "the field between others",
        CAT,
        b"\x09\x0d\x01\x02\x03\x04\x08\x05\x10\x01",
        0,
        None,
        b"\x09\x08\x05\x0d\x01\x02\x03\x04\x10\x01",
        1,
        136,
        0,
    ),
    (
        "the last record wins beside another field",
        CAT,
        b"\x06\x08\x01\x10\x07\x08\x02",
        0,
        None,
        b"\x04\x08\x02\x10\x07",
        1,
        136,
        0,
    ),
    (
        "a default beside another field",
        CAT,
        b"\x06\x08\x07\x10\x01\x08\x00",
        0,
        None,
        b"\x02\x10\x01",
        1,
        136,
        0,
    ),
    (
        "a long spelling stays",
        CAT,
        b"\x04\x90\x00\x81\x00",
        0,
        None,
        b"\x04\x90\x00\x81\x00",
        1,
        136,
        0,
    ),
    (
        "15 unknown bytes are placed",
        CAT,
        b"\x11\x12\x0d0123456789abc\x08\x01",
        0,
        None,
        b"\x11\x08\x01\x12\x0d0123456789abc",
        1,
        144,
        0,
    ),
    (
        "16 unknown bytes are kept",
        CAT,
        b"\x12\x12\x0e0123456789abcd\x08\x01",
        0,
        None,
        b"\x12\x08\x01\x12\x0e0123456789abcd",
        1,
        128,
        1,
    ),
    (
        "one worker, with a leading zero",
        &["cat", "builtin", "pb.Tick", "f", "01"],
        b"\x00",
        0,
        None,
        b"\x00",
        1,
        32,
        0,
    ),
    (
        "a cut frame",
        CAT,
        b"\x05\x08\x01",
        4,
        Some(Told::FrameCut { index: 0 }),
        NO_FRAMES,
        0,
        0,
        0,
    ),
    (
        "a cut length",
        CAT,
        b"\x02\x08\x01\x80",
        4,
        Some(Told::FrameCut { index: 1 }),
        NO_FRAMES,
        0,
        0,
        0,
    ),
    (
        "a cut frame behind a bad one",
        CAT,
        b"\x02\x08\x80\x05\x08",
        4,
        Some(Told::FrameCut { index: 1 }),
        NO_FRAMES,
        0,
        0,
        0,
    ),
    (
        "a cut value",
        CAT,
        b"\x02\x08\x80",
        4,
        Some(Told::BadFrame {
            index: 0,
            fault: WireFault {
                kind: WireKind::Cut,
                byte: 1,
            },
        }),
        NO_FRAMES,
        0,
        0,
        0,
    ),
    (
        "a value that goes on behind its frame",
        CAT,
        b"\x02\x08\x80\x03\x08\x96\x01\x03\x08\x96\x01",
        4,
        Some(Told::BadFrame {
            index: 0,
            fault: WireFault {
                kind: WireKind::Cut,
                byte: 1,
            },
        }),
        NO_FRAMES,
        0,
        0,
        0,
    ),
    (
        "wire type 7",
        CAT,
        b"\x01\x07",
        4,
        Some(Told::BadFrame {
            index: 0,
            fault: WireFault {
                kind: WireKind::BadTag,
                byte: 0,
            },
        }),
        NO_FRAMES,
        0,
        0,
        0,
    ),
    (
        "the end of another group",
        CAT,
        b"\x02\x13\x1c",
        4,
        Some(Told::BadFrame {
            index: 0,
            fault: WireFault {
                kind: WireKind::GroupEnd,
                byte: 1,
            },
        }),
        NO_FRAMES,
        0,
        0,
        0,
    ),
    (
        "a group that isn't closed",
        CAT,
        b"\x01\x13",
        4,
        Some(Told::BadFrame {
            index: 0,
            fault: WireFault {
                kind: WireKind::Cut,
                byte: 1,
            },
        }),
        NO_FRAMES,
        0,
        0,
        0,
    ),
    (
        "an end of no group",
        CAT,
        b"\x01\x14",
        4,
        Some(Told::BadFrame {
            index: 0,
            fault: WireFault {
                kind: WireKind::GroupEnd,
                byte: 0,
            },
        }),
        NO_FRAMES,
        0,
        0,
        0,
    ),
    (
        "a length of 2^31",
        CAT,
        b"\x06\x0a\x80\x80\x80\x80\x08",
        4,
        Some(Told::BadFrame {
            index: 0,
            fault: WireFault {
                kind: WireKind::BadLength,
                byte: 1,
            },
        }),
        NO_FRAMES,
        0,
        0,
        0,
    ),
    (
        "a value of eleven bytes",
        CAT,
        b"\x0c\x08\x80\x80\x80\x80\x80\x80\x80\x80\x80\x80\x00",
        4,
        Some(Told::BadFrame {
            index: 0,
            fault: WireFault {
                kind: WireKind::LongVarint,
                byte: 1,
            },
        }),
        NO_FRAMES,
        0,
        0,
        0,
    ),
    (
        "the first of two bad frames",
        CAT,
        b"\x02\x08\x01\x02\x08\x80\x02\x08\x01\x01\x14",
        4,
        Some(Told::BadFrame {
            index: 1,
            fault: WireFault {
                kind: WireKind::Cut,
                byte: 1,
            },
        }),
        NO_FRAMES,
        0,
        32,
        0,
    ),
    (
        "a bad frame behind one with unknown bytes",
        CAT,
        b"\x05\x0d\x01\x02\x03\x04\x02\x08\x80",
        4,
        Some(Told::BadFrame {
            index: 1,
            fault: WireFault {
                kind: WireKind::Cut,
                byte: 1,
            },
        }),
        NO_FRAMES,
        0,
        136,
        0,
    ),
    (
        "a missing file",
        &["cat", "builtin", "pb.Tick", "g", "1"],
        b"\x00",
        6,
        Some(Told::ReadFault),
        NO_FRAMES,
        0,
        0,
        0,
    ),
    (
        "no words",
        &[],
        b"\x00",
        2,
        Some(Told::Usage),
        NO_FRAMES,
        0,
        0,
        0,
    ),
    (
        "another command",
        &["arena", "builtin", "pb.Tick", "f", "1"],
        b"\x00",
        2,
        Some(Told::Usage),
        NO_FRAMES,
        0,
        0,
        0,
    ),
    (
        "no worker",
        &["cat", "builtin", "pb.Tick", "f", "0"],
        b"\x00",
        2,
        Some(Told::Usage),
        NO_FRAMES,
        0,
        0,
        0,
    ),
    (
        "65 workers",
        &["cat", "builtin", "pb.Tick", "f", "65"],
        b"\x00",
        2,
        Some(Told::Usage),
        NO_FRAMES,
        0,
        0,
        0,
    ),
    (
        "three digits",
        &["cat", "builtin", "pb.Tick", "f", "001"],
        b"\x00",
        2,
        Some(Told::Usage),
        NO_FRAMES,
        0,
        0,
        0,
    ),
    (
        "a sign",
        &["cat", "builtin", "pb.Tick", "f", "+1"],
        b"\x00",
        2,
        Some(Told::Usage),
        NO_FRAMES,
        0,
        0,
        0,
    ),
    (
        "four words",
        &["cat", "builtin", "pb.Tick", "f"],
        b"\x00",
        2,
        Some(Told::Usage),
        NO_FRAMES,
        0,
        0,
        0,
    ),
    (
        "six words",
        &["cat", "builtin", "pb.Tick", "f", "1", "1"],
        b"\x00",
        2,
        Some(Told::Usage),
        NO_FRAMES,
        0,
        0,
        0,
    ),
    (
        "a seed of 2^32",
        &["gen", "4294967296", "1", "1"],
        b"\x00",
        2,
        Some(Told::Usage),
        NO_FRAMES,
        0,
        0,
        0,
    ),
    (
        "65,536 frames",
        &["gen", "0", "65536", "1"],
        b"\x00",
        2,
        Some(Told::Usage),
        NO_FRAMES,
        0,
        0,
        0,
    ),
    (
        "no count",
        &["gen", "0", "0", "1"],
        b"\x00",
        2,
        Some(Told::Usage),
        NO_FRAMES,
        0,
        0,
        0,
    ),
    (
        "a set that isn't there",
        &["cat", "other", "pb.Tick", "f", "1"],
        b"\x00",
        6,
        Some(Told::ReadFault),
        NO_FRAMES,
        0,
        0,
        0,
    ),
    (
        "a type that isn't there",
        &["cat", "builtin", "pb.None", "f", "1"],
        b"\x00",
        3,
        Some(Told::NoType { name: "pb.None" }),
        NO_FRAMES,
        0,
        0,
        0,
    ),
    (
        "64 workers",
        &["cat", "builtin", "pb.Tick", "f", "64"],
        b"\x03\x08\x96\x01",
        0,
        None,
        b"\x03\x08\x96\x01",
        1,
        32,
        0,
    ),
    (
        "the least bad frame of two, with 4 workers",
        &["cat", "builtin", "pb.Tick", "f", "4"],
        b"\x02\x08\x01\x02\x08\x80\x02\x08\x01\x02\x08\x80\x02\x08\x01",
        4,
        Some(Told::BadFrame {
            index: 1,
            fault: WireFault {
                kind: WireKind::Cut,
                byte: 1,
            },
        }),
        NO_FRAMES,
        0,
        0,
        0,
    ),
    (
        "a script",
        &["run", "builtin", "pb.Tick", "f", "s", "1"],
        b"\x00",
        9,
        Some(Told::NotBuilt),
        NO_FRAMES,
        0,
        0,
        0,
    ),
    (
        "the greatest seed and count",
        &["gen", "4294967295", "65535", "64"],
        b"\x00",
        9,
        Some(Told::NotBuilt),
        NO_FRAMES,
        0,
        0,
        0,
    ),
];

// Each row ends as it says.
fn check_rows<R: Abort + Threads + Sync>(rt: &R, alloc: Global, rows: &[Row]) -> Result<(), Fail> {
    for (name, words, content, status, fault, written, registers, space_used, kept) in rows {
        let end = end_of_run(rt, alloc, words, content, &[], 65536, &[])?;
        let is_told = has_fault(&end.fault, *fault);
        assert!(rt; is_told, "{name}");
        assert_eq!(rt; &end.status, status, "{name}");
        assert_eq!(rt; end.written.as_slice(), *written, "{name}");
        assert_eq!(rt; &end.registers, registers, "{name}");
        // Of a payload with a fault a part may have been placed.
        if *status != 4 {
            assert_eq!(rt;
                (end.space_used, end.kept),
                (u128::from(*space_used), u128::from(*kept)),
                "{name}"
            );
        }
    }
    Ok(())
}

#[test]
fn rows_end_as_they_say(rt: HostRuntime) -> Result<(), Fail> {
    check_rows(&rt, rt.alloc(), &ROWS)
}

// A run over a long file ends so, with that many messages of 32 bytes.
fn check_long<R: Abort + Threads + Sync>(
    rt: &R,
    alloc: Global,
    content: &[u8],
    fault: Option<Told>,
    messages: u32,
) -> Result<(), Fail> {
    let end = end_of_run(rt, alloc, CAT, content, &[], 65536, &[])?;
    let is_told = has_fault(&end.fault, fault);
    assert!(rt; is_told);
    assert_eq!(rt; end.registers, messages as usize);
    assert_eq!(rt; end.space_used, 32 * u128::from(messages));
    if messages > 0 {
        assert_eq!(rt; end.written.as_slice(), content);
    }
    Ok(())
}

fn too_long(which: InputKind, limit: u32) -> Option<Told> {
    Some(Told::TooLong { which, limit })
}

#[test]
fn long_files(rt: HostRuntime) -> Result<(), Fail> {
    let alloc = rt.alloc();
    let zeros = vec![in alloc; 0u8; 1048576]?;
    check_long(&rt, alloc, &zeros, None, 1048576)?;
    let zeros = vec![in alloc; 0u8; 1048577]?;
    let fault = too_long(InputKind::FrameCount, 1048576);
    check_long(&rt, alloc, &zeros, fault, 0)?;
    let zeros = vec![in alloc; 0u8; 16777217]?;
    let fault = too_long(InputKind::FrameBytes, 16777216);
    check_long(&rt, alloc, &zeros, fault, 0)
}

// Frames of 4, 3 and 1 bytes, again and again: more than are read or written in one call.
fn many_frames(alloc: Global) -> Result<Vec<u8>, AllocError> {
    let mut content = Vec::new(alloc);
    for i in 0..9000u32 {
        content.extend_from_slice(&[3, 8, (i % 128) as u8 + 128, (i / 128) as u8 + 1])?;
        content.extend_from_slice(&[2, 8, (i % 127) as u8 + 1, 0])?;
    }
    Ok(content)
}

#[test]
fn a_run_with_ample_memory_ends_well(rt: HostRuntime) -> Result<(), Fail> {
    let content = many_frames(rt.alloc())?;
    check_long(&rt, rt.alloc(), &content, None, 27000)
}

#[test]
fn each_call_may_fail(rt: HostRuntime) -> Result<(), Fail> {
    let content = b"\x02\x08\x01\x03\x08\x96\x01\x00".as_slice();
    // How many texts lie whole where 0, 3, 6 and all bytes were taken.
    let whole = [0u32, 1, 1, 3];
    for call in 0..4u64 {
        let end = end_of_run(&rt, rt.alloc(), CAT, content, &[call], 3, &[])?;
        let (status, written) = if call < 3 {
            (6, NO_FRAMES)
        } else {
            (0, content)
        };
        assert_eq!(rt; end.status, status, "at {call}");
        assert_eq!(rt; end.written.as_slice(), written, "at {call}");
        let end = end_of_run(&rt, rt.alloc(), CAT, content, &[], 3, &[call])?;
        assert_eq!(rt; end.status, if call < 3 { 7 } else { 0 }, "at {call}");
        assert_eq!(rt;
            end.written.as_slice(),
            &content[..content.len().min(3 * call as usize)],
            "at {call}"
        );
        assert_eq!(rt; (end.registers, end.space_used), (3, 96), "at {call}");
        assert_eq!(rt; end.lines, whole[call as usize], "at {call}");
    }
    Ok(())
}
