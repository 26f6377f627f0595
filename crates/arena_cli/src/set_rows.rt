// Worked runs over a descriptor set, "set", and a frames file, "f": each row is data, and one loop runs them all. The line that
// is told is the fault's. Runs over a set of two files follow, and runs whose second sink fails.

use crate::runs::{Failing, NO_FAILURE, end_over};
use arena_run::{Fault, fault_text};
use std::alloc::Global;
use std::process::Abort;
use std::test::Fail;
use std::thread::Threads;

// The set of one file with a message, whose fields are a number, an optional text and a list of messages.
const ONE_FILE: &[u8] =
    b"\x0a\x5a\x0a\x07t.proto\x12\x01p\x22D\x0a\x01M\x12\x0c\x0a\x01a\x18\x01 \x01(\x05R\x01a\x12\x11\x0a\x01b\x18\x02 \x01(\x09H\x00R\x01b\x88\x01\x01\x12\x18\x0a\x04kids\x18\x03 \x03(\x0b2\x04.p.MR\x04kidsB\x04\x0a\x02_bb\x06proto3";

// The set of examples/order.proto and what it imports, as protoc writes it.
const ORDER: &[u8] =
    b"\x0aH\x0a\x0ccommon.proto\x12\x04shop**\x0a\x04Unit\x12\x0d\x0a\x09UNIT_NONE\x10\x00\x12\x09\x0a\x05PIECE\x10\x01\x12\x08\x0a\x04GRAM\x10\x02b\x06proto3\x0a\xe3\x02\x0a\x0border.proto\x12\x04shop\x1a\x0ccommon.proto\x22\xb7\x02\x0a\x05Order\x12\x0e\x0a\x02id\x18\x01 \x01(\x09R\x02id\x12$\x0a\x04line\x18\x02 \x03(\x0b2\x10.shop.Order.LineR\x04line\x12\x1f\x0a\x08discount\x18\x03 \x01(\x11H\x00R\x08discount\x88\x01\x01\x12)\x0a\x04note\x18\x04 \x03(\x0b2\x15.shop.Order.NoteEntryR\x04note\x1af\x0a\x04Line\x12\x10\x0a\x03sku\x18\x01 \x01(\x09R\x03sku\x12\x16\x0a\x06amount\x18\x02 \x01(\x0dR\x06amount\x12\x1e\x0a\x04unit\x18\x03 \x01(\x0e2\x0a.shop.UnitR\x04unit\x12\x14\x0a\x05price\x18\x04 \x01(\x01R\x05price\x1a7\x0a\x09NoteEntry\x12\x10\x0a\x03key\x18\x01 \x01(\x09R\x03key\x12\x14\x0a\x05value\x18\x02 \x01(\x03R\x05value:\x028\x01B\x0b\x0a\x09_discountb\x06proto3";

// An order with a line and a note.
const ORDER_FRAME: &[u8] =
    b"\x20\x0a\x02A1\x12\x11\x0a\x02s1\x10\x03\x18\x02\x21\x00\x00\x00\x00\x00\x00\xf8\x3f\x18\x09\x22\x05\x0a\x01k\x10\x07";

const CAT: &[&str] = &["cat", "set", "p.M", "f", "1"];

const ORDERS: &[&str] = &["cat", "set", "shop.Order", "f", "4"];

// The name of a row, the words, the set and the frames file, the status, the bytes that are written and the line that is told.
type SetRow = (
    &'static str,
    &'static [&'static str],
    &'static [u8],
    &'static [u8],
    u8,
    &'static [u8],
    &'static str,
);

const ROWS: [SetRow; 33] = [
    (
        "an empty optional text is written, and a default isn't",
        CAT,
        ONE_FILE,
        b"\x04\x08\x07\x12\x00\x02\x08\x00\x06\x1a\x02\x08\x01\x1a\x00",
        0,
        b"\x04\x08\x07\x12\x00\x00\x06\x1a\x02\x08\x01\x1a\x00",
        "",
    ),
    (
        "a set that is cut",
        CAT,
        b"\x0a\x05",
        b"\x00",
        3,
        b"",
        "schema: malformed at byte 2\n",
    ),
    (
        "a file without a syntax",
        CAT,
        b"\x0a\x10\x12\x01p\x22\x03\x0a\x01Mb\x06proto3\x0a\x03\x12\x01q",
        b"\x00",
        3,
        b"",
        "schema: file 1 is not proto3\n",
    ),
    (
        "two messages of a name",
        CAT,
        b"\x0a\x15\x12\x01p\x22\x03\x0a\x01M\x22\x03\x0a\x01Mb\x06proto3",
        b"\x00",
        3,
        b"",
        "schema: duplicate name p.M\n",
    ),
    (
        "the number 0",
        CAT,
        b"\x0a\x19\x12\x01p\x22\x0c\x0a\x01M\x12\x07\x0a\x01x\x18\x00(\x05b\x06proto3",
        b"\x00",
        3,
        b"",
        "schema: bad number p.M.x\n",
    ),
    (
        "two fields of a number",
        CAT,
        b"\x0a\x22\x12\x01p\x22\x15\x0a\x01M\x12\x07\x0a\x01x\x18\x01(\x05\x12\x07\x0a\x01y\x18\x01(\x05b\x06proto3",
        b"\x00",
        3,
        b"",
        "schema: duplicate number p.M.y\n",
    ),
    (
        "a name without a dot in front",
        CAT,
        b"\x0a\x1e\x12\x01p\x22\x11\x0a\x01M\x12\x0c\x0a\x01x\x18\x01(\x0b2\x03p.Mb\x06proto3",
        b"\x00",
        3,
        b"",
        "schema: relative name p.M.x\n",
    ),
    (
        "a message that isn't there",
        CAT,
        b"\x0a\x1f\x12\x01p\x22\x12\x0a\x01M\x12\x0d\x0a\x01x\x18\x01(\x0b2\x04.p.Nb\x06proto3",
        b"\x00",
        3,
        b"",
        "schema: unknown type p.M.x\n",
    ),
    (
        "a oneof that isn't declared",
        CAT,
        b"\x0a\x1b\x12\x01p\x22\x0e\x0a\x01M\x12\x09\x0a\x01x\x18\x01(\x05H\x00b\x06proto3",
        b"\x00",
        3,
        b"",
        "schema: bad oneof p.M.x\n",
    ),
    (
        "a required field",
        CAT,
        b"\x0a\x1b\x12\x01p\x22\x0e\x0a\x01M\x12\x09\x0a\x01x\x18\x01 \x02(\x05b\x06proto3",
        b"\x00",
        3,
        b"",
        "schema: unsupported type p.M.x\n",
    ),
    (
        "of two refusals the earlier kind is told",
        CAT,
        b"\x0a)\x12\x01p\x22\x0e\x0a\x01M\x12\x09\x0a\x01x\x18\x01 \x02(\x05\x22\x0c\x0a\x01N\x12\x07\x0a\x01y\x18\x00(\x05b\x06proto3",
        b"\x00",
        3,
        b"",
        "schema: bad number p.N.y\n",
    ),
    (
        "bytes that are no set, before a file without a syntax",
        CAT,
        b"\x0a\x08\x12\x01p\x22\x03\x0a\x01M\x0a\x05",
        b"\x00",
        3,
        b"",
        "schema: malformed at byte 12\n",
    ),
    (
        "a file without a syntax, before two messages of a name",
        CAT,
        b"\x0a\x15\x12\x01p\x22\x03\x0a\x01A\x22\x03\x0a\x01Ab\x06proto3\x0a\x08\x12\x01q\x22\x03\x0a\x01M",
        b"\x00",
        3,
        b"",
        "schema: file 1 is not proto3\n",
    ),
    (
        "two messages of a name, before the number 0",
        CAT,
        b"\x0a#\x12\x01p\x22\x0c\x0a\x01N\x12\x07\x0a\x01x\x18\x00(\x05\x22\x03\x0a\x01M\x22\x03\x0a\x01Mb\x06proto3",
        b"\x00",
        3,
        b"",
        "schema: duplicate name p.M\n",
    ),
    (
        "the number 0, before two fields of a number",
        CAT,
        b"\x0a0\x12\x01p\x22\x15\x0a\x01N\x12\x07\x0a\x01x\x18\x01(\x05\x12\x07\x0a\x01y\x18\x01(\x05\x22\x0c\x0a\x01M\x12\x07\x0a\x01x\x18\x00(\x05b\x06proto3",
        b"\x00",
        3,
        b"",
        "schema: bad number p.M.x\n",
    ),
    (
        "two fields of a number, before a name without a dot",
        CAT,
        b"\x0a5\x12\x01p\x22\x11\x0a\x01N\x12\x0c\x0a\x01x\x18\x01(\x0b2\x03p.M\x22\x15\x0a\x01M\x12\x07\x0a\x01x\x18\x01(\x05\x12\x07\x0a\x01y\x18\x01(\x05b\x06proto3",
        b"\x00",
        3,
        b"",
        "schema: duplicate number p.M.y\n",
    ),
    (
        "a name without a dot, before a message that isn't there",
        CAT,
        b"\x0a2\x12\x01p\x22\x12\x0a\x01N\x12\x0d\x0a\x01x\x18\x01(\x0b2\x04.p.Q\x22\x11\x0a\x01M\x12\x0c\x0a\x01x\x18\x01(\x0b2\x03p.Mb\x06proto3",
        b"\x00",
        3,
        b"",
        "schema: relative name p.M.x\n",
    ),
    (
        "a message that isn't there, before a oneof that isn't declared",
        CAT,
        b"\x0a/\x12\x01p\x22\x0e\x0a\x01N\x12\x09\x0a\x01x\x18\x01(\x05H\x00\x22\x12\x0a\x01M\x12\x0d\x0a\x01x\x18\x01(\x0b2\x04.p.Qb\x06proto3",
        b"\x00",
        3,
        b"",
        "schema: unknown type p.M.x\n",
    ),
    (
        "a oneof that isn't declared, before a required field",
        CAT,
        b"\x0a+\x12\x01p\x22\x0e\x0a\x01N\x12\x09\x0a\x01x\x18\x01 \x02(\x05\x22\x0e\x0a\x01M\x12\x09\x0a\x01x\x18\x01(\x05H\x00b\x06proto3",
        b"\x00",
        3,
        b"",
        "schema: bad oneof p.M.x\n",
    ),
    (
        "a set's refusal stands before a type that isn't there, and before cut frames",
        &["cat", "set", "p.N", "f", "1"],
        b"\x0a\x19\x12\x01p\x22\x0c\x0a\x01M\x12\x07\x0a\x01x\x18\x00(\x05b\x06proto3",
        b"\x05",
        3,
        b"",
        "schema: bad number p.M.x\n",
    ),
    (
        "a type that isn't there, before cut frames",
        &["cat", "set", "p.N", "f", "1"],
        ONE_FILE,
        b"\x05",
        3,
        b"",
        "schema: no type p.N\n",
    ),
    (
        "a type's name has no dot in front",
        &["cat", "set", ".p.M", "f", "1"],
        ONE_FILE,
        b"\x00",
        3,
        b"",
        "schema: no type .p.M\n",
    ),
    (
        "a type of the set that is built in",
        &["cat", "set", "pb.Tick", "f", "1"],
        ONE_FILE,
        b"\x00",
        3,
        b"",
        "schema: no type pb.Tick\n",
    ),
    (
        "a set that isn't there",
        &["cat", "none", "p.M", "f", "1"],
        ONE_FILE,
        b"\x00",
        6,
        b"",
        "read fault\n",
    ),
    (
        "a frames file that isn't there",
        &["cat", "set", "p.M", "none", "1"],
        ONE_FILE,
        b"\x00",
        6,
        b"",
        "read fault\n",
    ),
    (
        "a type that isn't there, before the frames file",
        &["cat", "set", "p.N", "none", "1"],
        ONE_FILE,
        b"\x00",
        3,
        b"",
        "schema: no type p.N\n",
    ),
    (
        "a frame that is cut",
        CAT,
        ONE_FILE,
        b"\x00\x05\x08\x01",
        4,
        b"",
        "frames: frame 1 is cut\n",
    ),
    (
        "a payload with a fault",
        CAT,
        ONE_FILE,
        b"\x00\x02\x08\x80",
        4,
        b"",
        "frames: frame 1: cut at byte 1\n",
    ),
    (
        "a text that isn't UTF-8",
        CAT,
        ONE_FILE,
        b"\x03\x12\x01\xff",
        4,
        b"",
        "frames: frame 0: not UTF-8 at byte 2\n",
    ),
    (
        "a group that isn't open",
        CAT,
        ONE_FILE,
        b"\x01\x14",
        4,
        b"",
        "frames: frame 0: group end at byte 0\n",
    ),
    (
        "no words",
        &[],
        ONE_FILE,
        b"\x00",
        2,
        b"",
        "usage: cat SET TYPE FRAMES WORKERS, run SET TYPE FRAMES SCRIPT WORKERS or gen SEED COUNT WORKERS\n",
    ),
    (
        "a script over a set that isn't there",
        &["run", "none", "p.M", "f", "s", "2"],
        ONE_FILE,
        b"\x00",
        9,
        b"",
        "not built\n",
    ),
    (
        "an empty set has no type",
        CAT,
        b"",
        b"\x00",
        3,
        b"",
        "schema: no type p.M\n",
    ),
];

// Each row ends as it says. A loop over the table itself would have the whole table in each goal.
fn check_rows<R: Abort + Threads + Sync>(
    rt: &R,
    alloc: Global,
    rows: &[SetRow],
) -> Result<(), Fail> {
    for (name, words, set, frames, status, written, told) in rows {
        let files = [("set", *set), ("f", *frames)];
        let end = end_over(rt, alloc, words, &files, &NO_FAILURE, 7)?;
        assert_eq!(rt; &end.status, status, "{name}");
        assert_eq!(rt; end.written.as_slice(), *written, "{name}");
        assert_eq!(rt; end.told.as_slice(), told.as_bytes(), "{name}");
        if let Some(fault) = &end.fault {
            let same = has_text(alloc, fault, told);
            assert!(rt; same, "{name}");
        }
    }
    Ok(())
}

// Whether this is the text of the fault.
fn has_text(alloc: Global, fault: &Fault, wanted: &str) -> bool {
    match fault_text(alloc, fault) {
        Ok(text) => text.as_str() == wanted,
        Err(_) => false,
    }
}

#[test]
fn set_rows_end_as_they_say(rt: HostRuntime) -> Result<(), Fail> {
    check_rows(&rt, rt.alloc(), &ROWS)
}

// So many frames of a type of the set are written as they were.
fn check_frames<R: Abort + Threads + Sync>(
    rt: &R,
    alloc: Global,
    set: &[u8],
    frame: &[u8],
) -> Result<(), Fail> {
    let mut frames = Vec::new(alloc);
    for _ in 0..200 {
        frames.extend_from_slice(frame)?;
    }
    let set = set.to_vec(alloc)?;
    let files = [("set", set.as_slice()), ("f", frames.as_slice())];
    let end = end_over(rt, alloc, ORDERS, &files, &NO_FAILURE, 65536)?;
    assert_eq!(rt; end.status, 0);
    assert_eq!(rt; end.registers, 200);
    assert_eq!(rt; end.written.as_slice(), frames.as_slice());
    Ok(())
}

#[test]
fn orders_are_written_as_they_were(rt: HostRuntime) -> Result<(), Fail> {
    check_frames(&rt, rt.alloc(), ORDER, ORDER_FRAME)
}

#[test]
fn a_set_above_its_limit_is_too_long(rt: HostRuntime) -> Result<(), Fail> {
    let alloc = rt.alloc();
    let set = vec![in alloc; 0u8; 4194305]?;
    let files = [("set", set.as_slice()), ("f", b"\x00".as_slice())];
    let end = end_over(&rt, alloc, CAT, &files, &NO_FAILURE, 65536)?;
    assert_eq!(rt; end.status, 8);
    assert_eq!(rt;
        end.told.as_slice(),
        b"set bytes above 4194304\n".as_slice()
    );
    Ok(())
}

// A run whose second sink fails at the call with this number ends as it does where none fails, and a front of its line is
// told.
fn check_telling<R: Abort + Threads + Sync>(
    rt: &R,
    alloc: Global,
    set: &[u8],
    frames: &[u8],
    line: &[u8],
    call: u64,
) -> Result<(), Fail> {
    let tells = [call];
    let failing = Failing {
        reads: &[],
        writes: &[],
        tells: &tells,
    };
    let files = [("set", set), ("f", frames)];
    let end = end_over(rt, alloc, CAT, &files, &failing, 5)?;
    assert_eq!(rt;
        end.status,
        if line.is_empty() { 0 } else { 4 },
        "at {call}"
    );
    assert_eq!(rt; end.written.is_empty(), !line.is_empty(), "at {call}");
    assert!(rt; line.starts_with(&end.told), "at {call}");
    assert_eq!(rt;
        end.told.len() < line.len(),
        !line.is_empty() && call < 9,
        "at {call}"
    );
    Ok(())
}

#[test]
fn a_sink_of_texts_may_fail(rt: HostRuntime) -> Result<(), Fail> {
    let line = b"frames: frame 1: cut at byte 1\n".as_slice();
    for call in 0..12u64 {
        check_telling(&rt, rt.alloc(), ONE_FILE, b"\x00\x02\x08\x80", line, call)?;
        check_telling(&rt, rt.alloc(), ONE_FILE, b"\x02\x08\x07", b"", call)?;
    }
    Ok(())
}

// A run whose files fail at the call with this number: six calls pick and read them.
fn check_reading<R: Abort + Threads + Sync>(
    rt: &R,
    alloc: Global,
    set: &[u8],
    call: u64,
) -> Result<(), Fail> {
    let reads = [call];
    let failing = Failing {
        reads: &reads,
        writes: &[],
        tells: &[],
    };
    let files = [("set", set), ("f", b"\x00".as_slice())];
    let end = end_over(rt, alloc, CAT, &files, &failing, 5)?;
    assert_eq!(rt; end.status, if call < 6 { 6 } else { 0 }, "at {call}");
    Ok(())
}

#[test]
fn each_reading_may_fail(rt: HostRuntime) -> Result<(), Fail> {
    for call in 0..8u64 {
        check_reading(&rt, rt.alloc(), ONE_FILE, call)?;
    }
    Ok(())
}
