// Worked values, the first fault of damaged bytes, a million groups, and files of frames.

use super::*;
use std::alloc::{AllocError, Global};
use std::process::Abort;
use std::test::Fail;

fn fault<T>(kind: WireKind, byte: u32) -> Result<T, WireFault> {
    Err(WireFault { kind, byte })
}

#[test]
fn varints_and_tags(rt: HostRuntime) -> Result<(), Fail> {
    let rows: [(&[u8], Result<(u64, u32), WireFault>); 9] = [
        (b"\x96\x01", Ok((150, 2))),
        (b"\x82\x00", Ok((2, 2))),
        (b"\x80\x80\x01\x05", Ok((16384, 3))),
        (
            b"\xff\xff\xff\xff\xff\xff\xff\xff\xff\x01",
            Ok((u64::MAX, 10)),
        ),
        // Of the tenth byte only the lowest bit counts.
        (
            b"\xff\xff\xff\xff\xff\xff\xff\xff\xff\x7f",
            Ok((u64::MAX, 10)),
        ),
        (b"", fault(WireKind::Cut, 0)),
        (b"\x80", fault(WireKind::Cut, 0)),
        (
            b"\xff\xff\xff\xff\xff\xff\xff\xff\xff",
            fault(WireKind::Cut, 0),
        ),
        (
            b"\xff\xff\xff\xff\xff\xff\xff\xff\xff\xff",
            fault(WireKind::LongVarint, 0),
        ),
    ];
    for (bytes, answer) in rows {
        assert_eq!(rt; read_varint(bytes, 0), answer, "{bytes:?}");
    }
    let tags: [(&[u8], Result<(u32, u8, u32), WireFault>); 9] = [
        (b"\x08", Ok((1, 0, 1))),
        (b"\xa2\x01", Ok((20, 2, 2))),
        (b"\xfd\xff\xff\xff\x0f", Ok((536870911, 5, 5))),
        (b"", fault(WireKind::Cut, 0)),
        (b"\x88\x80\x80\x80", fault(WireKind::Cut, 0)),
        (b"\x88\x80\x80\x80\x80", fault(WireKind::LongVarint, 0)),
        (b"\x88\x80\x80\x80\x10", fault(WireKind::BadTag, 0)),
        (b"\x04", fault(WireKind::BadTag, 0)),
        (b"\x0e", fault(WireKind::BadTag, 0)),
    ];
    for (bytes, answer) in tags {
        assert_eq!(rt; read_tag(bytes, 0), answer, "{bytes:?}");
    }
    assert_eq!(rt; read_varint(b"\x08\x80", 1), fault(WireKind::Cut, 1));
    assert_eq!(rt; read_tag(b"\x08\x06", 1), fault(WireKind::BadTag, 1));
    Ok(())
}

// What is found in the first `end` bytes doesn't hang on what follows.
#[test]
fn found_values_and_lengths(rt: HostRuntime) -> Result<(), Fail> {
    let rows: [(&[u8], usize, Option<(u64, usize)>, Option<(usize, usize)>); 9] = [
        (b"\x96\x01", 2, Some((150, 2)), Some((150, 2))),
        (
            b"\x96\x01\xff\xff\xff\xff\xff\xff",
            2,
            Some((150, 2)),
            Some((150, 2)),
        ),
        (b"\x96\x01\xff\xff\xff\xff\xff\xff", 1, None, None),
        (b"\x05\x01\xff\xff\xff\xff\xff\xff", 0, None, None),
        (
            b"\xff\xff\xff\xff\x07\x00\x00\x00",
            5,
            Some((2147483647, 5)),
            Some((2147483647, 5)),
        ),
        (
            b"\x80\x80\x80\x80\x08\x00\x00\x00",
            5,
            Some((2147483648, 5)),
            None,
        ),
        (b"\x82\x80\x80\x80\x80\x00\x00\x00", 8, Some((2, 6)), None),
        (
            b"\xff\xff\xff\xff\xff\xff\xff\xff\xff\x7f",
            10,
            Some((u64::MAX, 10)),
            None,
        ),
        (b"\xff\xff\xff\xff\xff\xff\xff\xff\xff\xff", 10, None, None),
    ];
    for (bytes, end, value, length) in rows {
        if end <= bytes.len() {
            assert_eq!(rt; find_value(bytes, 0, end), value, "{bytes:?}");
            assert_eq!(rt; find_length(bytes, 0, end), length, "{bytes:?}");
        }
    }
    Ok(())
}

#[test]
fn shortest_spellings(rt: HostRuntime) -> Result<(), Fail> {
    let rows: [(u64, &[u8]); 9] = [
        (0, b"\x00"),
        (127, b"\x7f"),
        (128, b"\x80\x01"),
        (150, b"\x96\x01"),
        (16384, b"\x80\x80\x01"),
        ((1 << 56) - 1, b"\xff\xff\xff\xff\xff\xff\xff\x7f"),
        (1 << 56, b"\x80\x80\x80\x80\x80\x80\x80\x80\x01"),
        (1 << 63, b"\x80\x80\x80\x80\x80\x80\x80\x80\x80\x01"),
        (u64::MAX, b"\xff\xff\xff\xff\xff\xff\xff\xff\xff\x01"),
    ];
    for (value, bytes) in rows {
        let mut room = [0xaa; 10];
        let count = write_varint(value, &mut room);
        assert_eq!(rt; &room[..count], bytes, "{value}");
        assert_eq!(rt; varint_len(value) as usize, count, "{value}");
        let mut room = [0xaa; 12];
        assert_eq!(rt; put_varint(&mut room, 1, value), count + 1, "{value}");
        assert_eq!(rt; room[0], 0xaa, "{value}");
        assert_eq!(rt; &room[1..count + 1], bytes, "{value}");
    }
    let mut room = [0; 10];
    let count = write_tag(536870911, 5, &mut room);
    assert_eq!(rt; &room[..count], b"\xfd\xff\xff\xff\x0f".as_slice());
    Ok(())
}

fn whole(
    number: u32,
    wire: u8,
    payload: u32,
    payload_len: u32,
    end: u32,
) -> Result<WireRecord, WireFault> {
    Ok(WireRecord {
        number,
        wire,
        start: 0,
        payload,
        payload_len,
        end,
    })
}

#[test]
fn records(rt: HostRuntime) -> Result<(), Fail> {
    let rows: [(&[u8], Result<WireRecord, WireFault>); 17] = [
        (b"\x08\x96\x01\x08", whole(1, 0, 1, 2, 3)),
        (
            b"\x09\x01\x02\x03\x04\x05\x06\x07\x08",
            whole(1, 1, 1, 8, 9),
        ),
        (b"\x0d\x01\x02\x03\x04", whole(1, 5, 1, 4, 5)),
        (b"\x12\x82\x00\x61\x62", whole(2, 2, 3, 2, 5)),
        (b"\x12\x00", whole(2, 2, 2, 0, 2)),
        (b"\x13\x14", whole(2, 3, 1, 0, 2)),
        // A group in a group, its end tag spelled with two bytes.
        (b"\x13\x1b\x08\x05\x9c\x00\x14\x08", whole(2, 3, 1, 5, 7)),
        (b"\x08", fault(WireKind::Cut, 1)),
        (b"\x0d\x01\x02\x03", fault(WireKind::Cut, 1)),
        (b"\x0a\x05\x61", fault(WireKind::Cut, 2)),
        (b"\x0a", fault(WireKind::Cut, 1)),
        (b"\x0a\x80\x80\x80\x80\x08", fault(WireKind::BadLength, 1)),
        (
            b"\x0a\x80\x80\x80\x80\x80\x00",
            fault(WireKind::LongVarint, 1),
        ),
        (b"\x14", fault(WireKind::GroupEnd, 0)),
        (b"\x13\x08\x01\x1c", fault(WireKind::GroupEnd, 3)),
        (b"\x13\x08\x01", fault(WireKind::Cut, 3)),
        (b"\x13\x12\x05\x14", fault(WireKind::Cut, 3)),
    ];
    for (bytes, answer) in rows {
        assert_eq!(rt; read_record(bytes, 0, 0), answer, "{bytes:?}");
    }
    // A group at depth 100 is the last that may stand.
    assert_eq!(rt; read_record(b"\x13\x14", 0, 99), whole(2, 3, 1, 0, 2));
    assert_eq!(rt;
        read_record(b"\x13\x14", 0, 100),
        fault(WireKind::TooDeep, 0)
    );
    assert_eq!(rt;
        read_record(b"\x13\x1b\x1c\x14", 0, 99),
        fault(WireKind::TooDeep, 1)
    );
    Ok(())
}

// So many starts of group 2, and so many ends behind them.
fn nested(alloc: Global, starts: usize, ends: usize) -> Result<Vec<u8>, AllocError> {
    let mut bytes = Vec::new(alloc);
    for _ in 0..starts {
        bytes.push(0x13u8)?;
    }
    for _ in 0..ends {
        bytes.push(0x14u8)?;
    }
    Ok(bytes)
}

// The record at the front of some bytes, of which there aren't too many.
fn first_record(bytes: &[u8]) -> Option<Result<WireRecord, WireFault>> {
    if bytes.is_empty() || bytes.len() > 2000000 {
        return None;
    }
    Some(read_record(bytes, 0, 0))
}

#[test]
fn a_million_groups(rt: HostRuntime) -> Result<(), Fail> {
    let groups = nested(rt.alloc(), 1000000, 1000000)?;
    assert_eq!(rt; first_record(&groups), Some(fault(WireKind::TooDeep, 100)));
    let groups = nested(rt.alloc(), 100, 100)?;
    assert_eq!(rt; first_record(&groups), Some(whole(2, 3, 1, 198, 200)));
    Ok(())
}

// The payloads of a file, one behind another, each ended by a byte 0xee. Both calls that lend a payload give the same.
fn payloads(alloc: Global, file: &[u8]) -> Result<Result<Vec<u8>, FrameFault>, AllocError> {
    let frames = match read_frames(alloc, file.to_vec(alloc)?) {
        Ok(frames) => frames,
        Err(fault) => return Ok(Err(fault)),
    };
    let mut all = Vec::new(alloc);
    for index in 0..frames.count() {
        let (bytes, len) = frames.payload_and_behind(index);
        all.extend_from_slice(&bytes[..len])?;
        all.push(if frames.payload(index) == &bytes[..len] {
            0xee
        } else {
            0
        })?;
    }
    Ok(Ok(all))
}

#[test]
fn frames(rt: HostRuntime) -> Result<(), Fail> {
    let rows: [(&[u8], &[u8]); 4] = [
        (b"", b""),
        (b"\x00", b"\xee"),
        (
            b"\x02\x08\x01\x82\x00\x08\x05\x00",
            b"\x08\x01\xee\x08\x05\xee\xee",
        ),
        (b"\x80\x80\x80\x80\x00\x01\x61", b"\xee\x61\xee"),
    ];
    for (file, wanted) in rows {
        let all = payloads(rt.alloc(), file)?;
        assert!(rt; all.is_ok_and(|all| all.as_slice() == wanted), "{file:?}");
    }
    let cuts: [(&[u8], u32); 6] = [
        (b"\x05\x08\x01", 0),
        (b"\x00\x80", 1),
        (b"\x00\x00\x02\x08", 2),
        (b"\x80\x80\x80\x80\x80\x00", 0),
        (b"\x80\x80\x80\x80\x08", 0),
        (b"\xff\xff\xff\xff\x07\x00", 0),
    ];
    for (file, index) in cuts {
        let all = payloads(rt.alloc(), file)?;
        assert!(rt;
            all.is_err_and(|fault| fault == FrameFault::FrameCut { index }),
            "{file:?}"
        );
    }
    Ok(())
}

#[test]
fn as_many_frames_as_are_taken(rt: HostRuntime) -> Result<(), Fail> {
    let taken = read_frames(rt.alloc(), vec![in rt.alloc(); 0u8; 1048576]?);
    assert!(rt; taken.is_ok_and(|frames| frames.count() == 1048576));
    let more = read_frames(rt.alloc(), vec![in rt.alloc(); 0u8; 1048577]?);
    assert!(rt; more.is_err_and(|fault| fault == FrameFault::TooManyFrames));
    Ok(())
}
