// Worked values: blocks by the policy, names, zeros, what is read back, and the end.
ghost use Rattle.std.specs.Prelude.{◌≤◌};
ghost use Rattle.arena_mem.specs.Places.{IsPlaceable};

use crate::{
    SerialArena, SerialRecord, arena_is_laid, blocks_hold_places, laid_spans_lie_apart,
    places_lie_apart,
};
use arena_block::Policy;
use arena_mem::{Buffer, MemFault, Memory, Part, Place};
use cleanup_list::{ListWatch, SilentWatch};
use std::process::Abort;
use std::test::Fail;

// Places `bytes` bytes, looks for zeros there, and writes the first and the last one.
fn try_place(
    rt: &impl Abort,
    arena: &mut SerialArena,
    bytes: u32,
    want: Place,
) -> Result<(), MemFault>
    requires { IsPlaceable bytes }
{
    let place = arena.place(bytes)?;
    assert_eq!(rt; place, want);
    assert!(rt;
        arena.read(place).iter().all(|byte| *byte == 0),
        "at {bytes}"
    );
    arena.write(place, 0, &[1]);
    arena.write(place, place.len - 1, &[2]);
    let read = arena.read(place);
    assert_eq!(rt; read.len(), want.len as usize);
    assert_eq!(rt; read.first().copied(), Some(1));
    assert_eq!(rt; read.last().copied(), Some(2));
    Ok(())
}

fn named(block: u32, offset: u32, len: u32) -> Place {
    Place {
        region: 7,
        block,
        offset,
        len,
    }
}

#[test]
fn blocks_double_and_are_filled(rt: HostRuntime) -> Result<(), Fail> {
    let mut arena = SerialArena::new(rt.alloc(), Policy::profile(), 3, 5, 7);
    assert_eq!(rt; arena.region(), 7);
    assert_eq!(rt; (arena.owner(), arena.life(), arena.used()), (3, 5, 0));
    // What is placed, where, and the sizes of the blocks together.
    let rows = [
        (240, 0, 16, 256),
        (8, 1, 16, 768),
        (600, 2, 16, 1792),
        (40000, 3, 16, 41808),
        (8, 4, 16, 74576),
        (1, 4, 24, 74576),
        (9, 4, 32, 74576),
        (100, 4, 48, 74576),
    ];
    for (bytes, block, offset, allocated) in rows {
        let len = (bytes + 7) / 8 * 8;
        try_place(&rt, &mut arena, bytes, named(block, offset, len))?;
        assert_eq!(rt; arena.space_allocated(), allocated, "at {bytes}");
        if block == 4 && offset == 16 {
            assert_eq!(rt; arena.space_used(), 40856);
        }
    }
    assert_eq!(rt; arena.space_used(), 40984);
    assert_eq!(rt; arena.used(), 40984);
    arena_is_laid(&arena);
    places_lie_apart(&arena);
    blocks_hold_places(&arena);
    laid_spans_lie_apart();
    let record = arena.end(&mut SilentWatch);
    assert_eq!(rt;
        (record.registered, record.cleaned, record.used),
        (0, 0, 40984)
    );
    Ok(())
}

#[test]
fn a_write_changes_one_place(rt: HostRuntime) -> Result<(), Fail> {
    let mut arena = SerialArena::new(rt.alloc(), Policy::profile(), 0, 0, 0);
    let first = arena.place(8)?;
    let second = arena.place(9)?;
    let third = arena.place(8)?;
    arena.write(first, 0, b"abcdefgh");
    arena.write(third, 0, b"ijklmnop");
    arena.write(second, 3, b"0123456789");
    assert_eq!(rt; arena.read(first), b"abcdefgh".as_slice());
    assert_eq!(rt; arena.read(second), b"\0\0\00123456789\0\0\0".as_slice());
    assert_eq!(rt; arena.read(third), b"ijklmnop".as_slice());
    Ok(())
}

// The first place has a block of its own, and the other two are in the next one.
#[test]
fn fronts_are_copied_within_a_block_and_between_blocks(rt: HostRuntime) -> Result<(), Fail> {
    let mut arena = SerialArena::new(rt.alloc(), Policy::profile(), 0, 0, 0);
    let first = arena.place(240)?;
    let second = arena.place(8)?;
    let third = arena.place(16)?;
    assert_eq!(rt; (first.block, second.block, third.block), (0, 1, 1));
    arena.write(first, 0, b"abcdefgh");
    arena.copy_front(first, third, 5);
    assert_eq!(rt;
        arena.read(third),
        b"abcde\0\0\0\0\0\0\0\0\0\0\0".as_slice()
    );
    arena.copy_front(third, second, 8);
    assert_eq!(rt; arena.read(second), b"abcde\0\0\0".as_slice());
    arena.write(second, 0, b"ijklmnop");
    arena.copy_front(second, first, 2);
    assert!(rt; arena.read(first).starts_with(b"ijcdefgh"));
    arena.copy_front(second, second, 8);
    assert_eq!(rt; arena.read(second), b"ijklmnop".as_slice());
    Ok(())
}

#[test]
fn kept_byte_strings_are_told_at_the_end(rt: HostRuntime) -> Result<(), Fail> {
    let mut arena = SerialArena::new(rt.alloc(), Policy::profile(), 0, 5, 3);
    for (number, text) in [(0, "a long text"), (1, ""), (2, "another")] {
        let bytes = text.as_bytes().to_vec(rt.alloc())?;
        let buffer = arena.keep(bytes).map_err(|refused| refused.0)?;
        assert_eq!(rt; buffer, Buffer { region: 3, number });
        assert_eq!(rt; arena.kept(buffer), text.as_bytes());
        assert_eq!(rt; arena.registered(), number + 1);
    }
    let buffer = arena.keep_copy(b"a copy")?;
    assert_eq!(rt;
        buffer,
        Buffer {
            region: 3,
            number: 3
        }
    );
    assert_eq!(rt; arena.kept(buffer), b"a copy".as_slice());
    assert_eq!(rt; (arena.space_used(), arena.space_allocated()), (0, 0));
    let mut watch = ListWatch::with_room(rt.alloc(), 4)?;
    let record = arena.end(&mut watch);
    let told = [(5, 3, 3), (5, 3, 2), (5, 3, 1), (5, 3, 0)];
    assert_eq!(rt; watch.told(), told.as_slice());
    let want = SerialRecord {
        registered: 4,
        cleaned: 4,
        used: 0,
    };
    assert_eq!(rt; record, want);
    Ok(())
}

// Short copies share chunks, and a long one has a row of its own. The second chunk comes behind the first copy that is
// looked at.
#[test]
fn copies_in_chunks_stay_as_they_are(rt: HostRuntime) -> Result<(), Fail> {
    let mut arena = SerialArena::new(rt.alloc(), Policy::profile(), 0, 0, 0);
    let long = vec![in rt.alloc(); 7; 5000]?;
    let short = &long[..4096];
    for _ in 0..7 {
        let last = arena.keep_copy(short)?;
        assert_eq!(rt; arena.kept(last), short);
    }
    let first = arena.keep_copy(b"the first")?;
    let next = arena.keep_copy(short)?;
    assert_eq!(rt; arena.kept(first), b"the first".as_slice());
    assert_eq!(rt; arena.kept(next), short);
    let alone = arena.keep_copy(&long)?;
    assert_eq!(rt; arena.kept(alone), long.as_slice());
    assert_eq!(rt; arena.registered(), 10);
    Ok(())
}
