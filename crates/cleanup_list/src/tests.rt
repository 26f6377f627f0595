// Items that count their runs, and watches with and without room.
use super::*;
use std::cell::Cell;
use std::process::Abort;
use std::test::Fail;

// Writes its digit behind those that are there when it is run.
#[derive(Drop)]
struct Digit<'a> {
    digits: &'a Cell<u64>,
    digit: u64,
}

impl<'a> Cleanup for Digit<'a> {
    fn run(self) {
        let before = self.digits.get();
        let shifted = before.saturating_mul(10);
        self.digits.set(shifted.saturating_add(self.digit));
    }
}

// Three items with the digits 1, 2 and 3.
fn three<'a>(
    rt: &(impl Abort + AllocGlobal),
    digits: &'a Cell<u64>,
) -> Result<CleanupList<Digit<'a>>, NoMemory> {
    let mut list = CleanupList::new(rt.alloc());
    for (number, digit) in [(0, 1), (1, 2), (2, 3)] {
        let registered = list.register(Digit { digits, digit });
        assert_eq!(rt; registered.map_err(|refused| refused.0)?, number);
        assert_eq!(rt; list.count(), number + 1);
        assert_eq!(rt; list.item(number).digit, digit);
    }
    Ok(list)
}

#[test]
fn items_run_from_the_last_to_the_first_and_are_told(rt: HostRuntime) -> Result<(), Fail> {
    let told = [(5, 3, 2), (5, 3, 1), (5, 3, 0)];
    for room in [4, 3, 2, 1, 0] {
        let digits = Cell::new(0);
        let list = three(&rt, &digits)?;
        assert_eq!(rt; digits.get(), 0);
        let mut watch = ListWatch::with_room(rt.alloc(), room)?;
        assert_eq!(rt; list.run_all(5, 3, &mut watch), 3);
        assert_eq!(rt; digits.get(), 321, "room {room}");
        let fitted = told.len().min(room as usize);
        assert_eq!(rt; watch.told(), &told[..fitted], "room {room}");
    }
    Ok(())
}

#[test]
fn a_silent_watch_is_told_too(rt: HostRuntime) -> Result<(), Fail> {
    let digits = Cell::new(0);
    let list = three(&rt, &digits)?;
    assert_eq!(rt; list.run_all(1, 0, &mut SilentWatch), 3);
    assert_eq!(rt; digits.get(), 321);
    let empty: CleanupList<Digit<'_>> = CleanupList::new(rt.alloc());
    assert_eq!(rt; empty.run_all(1, 0, &mut SilentWatch), 0);
    Ok(())
}
