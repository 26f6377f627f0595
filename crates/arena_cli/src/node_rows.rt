// Worked runs over frames of `pb.Node`: each row is data, and one loop runs them all. Frames that nest deeply follow.

use crate::runs::end_of_run;
use crate::told::{Told, has_fault};
use arena_run::{Fault, WireFault, WireKind};
use std::alloc::{AllocError, Global};
use std::test::Fail;

const CAT: &[&str] = &["cat", "builtin", "pb.Node", "f", "1"];

// The name of a row, the file, the fault and the bytes that are written.
type NodeRow = (&'static str, &'static [u8], Option<Told>, &'static [u8]);

const ROWS: [NodeRow; 5] = [
    ("no field is set", b"\x00", None, b"\x00"),
    (
        "a message takes the place of a text, and the next record is read into it",
        b"\x0c\x3a\x01\x61\x42\x02\x10\x01\x42\x03\x0a\x01\x7a",
        None,
        b"\x07\x42\x05\x0a\x01\x7a\x10\x01",
    ),
    (
        "single and packed numbers are one list",
        b"\x08\x20\x05\x22\x02\x06\x07\x20\x08",
        None,
        b"\x06\x22\x04\x05\x06\x07\x08",
    ),
    (
        "a negative number has ten bytes",
        b"\x0b\x20\xff\xff\xff\xff\xff\xff\xff\xff\xff\x01",
        None,
        b"\x0c\x22\x0a\xff\xff\xff\xff\xff\xff\xff\xff\xff\x01",
    ),
    (
        "a text that isn't UTF-8",
        b"\x03\x0a\x01\xff",
        Some(Told::BadFrame {
            index: 0,
            fault: WireFault {
                kind: WireKind::NotUtf8,
                byte: 2,
            },
        }),
        b"",
    ),
];

#[test]
fn node_rows_end_as_they_say(rt: HostRuntime) -> Result<(), Fail> {
    for (name, content, fault, written) in &ROWS {
        let end = end_of_run(&rt, rt.alloc(), CAT, content, &[], 65536, &[])?;
        let is_told = has_fault(&end.fault, *fault);
        assert!(rt; is_told, "{name}");
        assert_eq!(rt; end.written.as_slice(), *written, "{name}");
        assert_eq!(rt;
            end.registers,
            if fault.is_none() { 1 } else { 0 },
            "{name}"
        );
    }
    Ok(())
}

// Appends a length of fewer than 2^14.
fn push_length(bytes: &mut Vec<u8>, len: usize) -> Result<(), AllocError> {
    if len >= 128 {
        bytes.push((len % 128) as u8 + 128)?;
        bytes.push((len / 128 % 128) as u8)?;
    } else {
        bytes.push(len as u8)?;
    }
    Ok(())
}

// The frame of a message with so many messages in one another, each in the field `next`.
fn nested(alloc: Global, levels: u32) -> Result<Vec<u8>, AllocError> {
    let mut message = Vec::new(alloc);
    for _ in 0..levels {
        let mut outer = vec![in alloc; b'\x32']?;
        push_length(&mut outer, message.len())?;
        outer.extend_from_slice(&message)?;
        message = outer;
    }
    let mut frame = Vec::new(alloc);
    push_length(&mut frame, message.len())?;
    frame.extend_from_slice(&message)?;
    Ok(frame)
}

#[test]
fn a_hundred_levels_are_read_and_one_more_is_too_deep(rt: HostRuntime) -> Result<(), Fail> {
    let alloc = rt.alloc();
    let frame = nested(alloc, 100)?;
    let end = end_of_run(&rt, alloc, CAT, &frame, &[], 65536, &[])?;
    assert_eq!(rt; end.status, 0);
    assert_eq!(rt; end.written.as_slice(), frame.as_slice());
    let frame = nested(alloc, 101)?;
    let end = end_of_run(&rt, alloc, CAT, &frame, &[], 65536, &[])?;
    let deep = matches!(
        &end.fault,
        Some(Fault::BadFrame {
            index: 0,
            fault: WireFault {
                kind: WireKind::TooDeep,
                ..
            },
        })
    );
    assert!(rt; deep);
    assert_eq!(rt; end.written.as_slice(), b"".as_slice());
    Ok(())
}
