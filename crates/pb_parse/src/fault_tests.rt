// The first fault of damaged bytes, each as the definitions tell it.

use super::*;
use msg_layout::layouts;
use msg_layout::tables::Layouts;
use pb_schema::builtin;
use std::process::Abort;
use std::test::Fail;

const NODE: u32 = 1;

fn fault(kind: WireKind, byte: u32) -> Option<WireFault> {
    Some(WireFault { kind, byte })
}

#[test]
fn faults_of_damaged_bytes(rt: HostRuntime) -> Result<(), Fail> {
    let types = layouts(rt.alloc(), builtin(rt.alloc())?)?;
    let rows: [(&[u8], Option<WireFault>); 13] = [
        (b"", None),
        (b"\x0a\x02ab\x10\x05", None),
        // An unknown record, and a group with one in it.
        (b"\xa0\x06\x01\xa3\x06\x08\x01\xa4\x06", None),
        (b"\x10", fault(WireKind::Cut, 1)),
        (b"\x0a\x03ab", fault(WireKind::Cut, 2)),
        // A name that isn't text, behind a record without a fault.
        (b"\x10\x01\x0a\x01\xff", fault(WireKind::NotUtf8, 4)),
        // The same in a child.
        (b"\x1a\x03\x0a\x01\xff", fault(WireKind::NotUtf8, 4)),
        // What is wrong in a child comes before what is wrong behind it.
        (b"\x1a\x01\x10\x07", fault(WireKind::Cut, 3)),
        // Numbers in one record, the second one cut.
        (b"\x22\x02\x01\x80", fault(WireKind::Cut, 3)),
        (b"\x22\x03\x01\x80\x01", None),
        (b"\x14", fault(WireKind::GroupEnd, 0)),
        (b"\x13\x1c", fault(WireKind::GroupEnd, 1)),
        (b"\x07", fault(WireKind::BadTag, 0)),
    ];
    for (bytes, answer) in rows {
        assert_eq!(rt; first_fault(&types, NODE, bytes), answer, "{bytes:?}");
    }
    Ok(())
}
