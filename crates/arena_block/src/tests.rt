// Worked values: sizes by a policy, and parts of one block.
use super::*;
use std::process::Abort;
use std::test::Fail;

#[test]
fn sizes_double_up_to_the_greatest(rt: HostRuntime) {
    let profile = Policy::profile();
    assert_eq!(rt; profile.next_size(None, 8), 256);
    assert_eq!(rt; profile.next_size(None, 240), 256);
    assert_eq!(rt; profile.next_size(None, 248), 264);
    assert_eq!(rt; profile.next_size(Some(256), 8), 512);
    assert_eq!(rt; profile.next_size(Some(16384), 8), 32768);
    assert_eq!(rt; profile.next_size(Some(32768), 8), 32768);
    assert_eq!(rt; profile.next_size(Some(1024), 40000), 40016);
    assert_eq!(rt; profile.next_size(Some(40016), 8), 32768);
    let greatest = 2147483640;
    let wide = Policy {
        start: 24,
        greatest,
    };
    assert_eq!(rt; wide.next_size(None, 8), 24);
    assert_eq!(rt; wide.next_size(Some(24), 8), 48);
    assert_eq!(rt; wide.next_size(Some(2147483656), 8), greatest);
    assert_eq!(rt; wide.next_size(Some(24), greatest), 2147483656);
}

#[test]
fn parts_are_zeros_behind_the_header(rt: HostRuntime) -> Result<(), Fail> {
    let mut block = Block::new(rt.alloc(), 256)?;
    assert_eq!(rt; block.size(), 256);
    assert_eq!(rt; block.room(), 240);
    assert_eq!(rt; block.place(1), 16);
    assert_eq!(rt; block.place(9), 24);
    assert_eq!(rt; block.place(65), 40);
    assert_eq!(rt; block.room(), 144);
    assert!(rt; block.read(16, 96).iter().all(|byte| *byte == 0));
    block.write(27, b"abc");
    assert_eq!(rt; block.read(24, 8), b"\0\0\0abc\0\0".as_slice());
    assert_eq!(rt; block.read(16, 8), [0; 8].as_slice());
    assert_eq!(rt; block.place(144), 112);
    assert_eq!(rt; block.room(), 0);
    assert_eq!(rt; block.read(112, 144), [0; 144].as_slice());
    block.copy(27, 28, 3);
    assert_eq!(rt; block.read(24, 8), b"\0\0\0aabc\0".as_slice());
    block.copy(27, 112, 4);
    assert_eq!(rt; block.read(112, 6), b"aabc\0\0".as_slice());
    Ok(())
}

#[test]
fn the_least_block_has_one_part(rt: HostRuntime) -> Result<(), Fail> {
    let mut block = Block::new(rt.alloc(), 24)?;
    assert_eq!(rt; block.room(), 8);
    assert_eq!(rt; block.place(8), 16);
    assert_eq!(rt; block.room(), 0);
    Ok(())
}

// What lies ahead is zeroed in steps, and the last step ends with the block.
#[test]
fn parts_beyond_each_step_are_zeros(rt: HostRuntime) -> Result<(), Fail> {
    let mut block = Block::new(rt.alloc(), 1216)?;
    for _ in 0..5 {
        assert!(rt; block.room() >= 240);
        let offset = block.place(240);
        assert_eq!(rt; block.read(offset, 240), [0; 240].as_slice());
        block.write(offset, &[1; 240]);
    }
    assert_eq!(rt; block.room(), 0);
    Ok(())
}
