//! Worked lists, and lists on many threads.
ghost use Rattle.std.specs.Prelude.{◌≡◌, ◌≤◌, ◌<◌, [], ◌∷◌, Some, IfOk, All, length};
ghost use Rattle.std.specs.Thread.{IsSync};
ghost use Rattle.arena_list.specs.Words.Core.{slot_count};
ghost use Rattle.arena_list.specs.Rule.Founded.{meter, AreFit, Fits};
ghost use Rattle.arena_list.specs.Rule.Views.{mine};
ghost use Rattle.arena_list.specs.contracts.tests.Counter.{the_row};
ghost use Rattle.arena_list.specs.Calls.Seats.{view, callers_of, IsHome, AreHome};

use crate::{ArenaList, Entry, ListSeat};
use arena_mem::Part;
use std::alloc::Global;
use std::test::Fail;
use std::thread::{Threads, join_mut};

/// A part that is nothing but what it tells.
#[derive(Drop)]
struct Counter {
    owner: u32,
    life: u64,
    used: u64,
}

impl Part for Counter {
    ghost owner_of = { λ c. c.owner };

    ghost life_of = { λ c. c.life };

    ghost used_of = { λ c. c.used };

    fn owner(&self) -> u32 {
        self.owner
    }

    fn life(&self) -> u64 {
        self.life
    }

    fn used(&self) -> u64 {
        self.used
    }
}

/// Spare entries for callers 4, 7, 10 and on, in slots 0, 1, 2 and on. A list may have them alone, or beside a linked
/// entry of caller 99.
fn spares(alloc: Global, count: u32) -> Result<(Vec<Entry<Counter>>, Vec<u32>), Fail>
    requires { (0 < count) × (count ≤ slot_count) }
    ensures fit { IfOk result (λ r. AreFit (meter (λ (c : Counter). c.owner) (λ (c : Counter). c.life) (λ (c : Counter). c.used)) 5 [] r.0.items r.1.items) }
    ensures beside { IfOk result (λ r. (e : _) → count ≤ e.slot → e.slot < slot_count → e.caller ≡ 99 → Fits (meter (λ (c : Counter). c.owner) (λ (c : Counter). c.life) (λ (c : Counter). c.used)) 5 e.caller e.part → AreFit (meter (λ (c : Counter). c.owner) (λ (c : Counter). c.life) (λ (c : Counter). c.used)) 5 (e ∷ []) r.0.items r.1.items) }
    ensures count { IfOk result (λ r. length r.1.items ≡ count) }
{
    let mut spare = Vec::new(alloc);
    let mut callers = Vec::new(alloc);
    for slot in 0..count {
        let caller = 4 + 3 * slot;
        let part = Counter {
            owner: caller,
            life: 5,
            used: 0,
        };
        spare.push(Entry { slot, caller, part })?;
        callers.push(caller)?;
    }
    Ok((spare, callers))
}

/// A list with ample memory.
fn made(
    alloc: Global,
    linked: Vec<Entry<Counter>>,
    spare: Vec<Entry<Counter>>,
    callers: &[u32],
) -> Result<(ArenaList<Counter>, Vec<ListSeat>), Fail>
    requires { AreFit (meter (λ (c : Counter). c.owner) (λ (c : Counter). c.life) (λ (c : Counter). c.used)) 5 linked.items spare.items callers.now }
    ensures home { IfOk result (λ r. All (IsHome the_row.coded (meter (λ (c : Counter). c.owner) (λ (c : Counter). c.life) (λ (c : Counter). c.used)) r.0) r.1.items) }
    ensures count { IfOk result (λ r. length r.1.items ≡ length callers.now) }
    ensures callers { IfOk result (λ r. length (callers_of r.0) ≡ length callers.now) }
{
    match ArenaList::make(alloc, 5, linked, spare, callers) {
        Ok(made) => Ok(made),
        Err((no_memory, _, _)) => Err(no_memory.into()),
    }
}

/// The linked entries and the spare ones of a list that is closed, with ample memory.
fn closed(
    alloc: Global,
    list: ArenaList<Counter>,
    seats: Vec<ListSeat>,
) -> Result<(Vec<Entry<Counter>>, Vec<Entry<Counter>>), Fail>
    requires enough { length (callers_of list) ≤ length seats.items }
    requires home { All (IsHome the_row.coded (meter (λ (c : Counter). c.owner) (λ (c : Counter). c.life) (λ (c : Counter). c.used)) list) seats.items }
{
    match list.close(alloc, seats) {
        Ok(entries) => Ok(entries),
        Err((no_memory, _, _)) => Err(no_memory.into()),
    }
}

/// The same, where a first try that is refused is followed by one with what it handed back.
fn made_again(
    alloc: Global,
    spare: Vec<Entry<Counter>>,
    callers: &[u32],
) -> Result<(ArenaList<Counter>, Vec<ListSeat>), Fail>
    requires { AreFit (meter (λ (c : Counter). c.owner) (λ (c : Counter). c.life) (λ (c : Counter). c.used)) 5 [] spare.items callers.now }
    ensures home { IfOk result (λ r. All (IsHome the_row.coded (meter (λ (c : Counter). c.owner) (λ (c : Counter). c.life) (λ (c : Counter). c.used)) r.0) r.1.items) }
    ensures count { IfOk result (λ r. length r.1.items ≡ length callers.now) }
    ensures callers { IfOk result (λ r. length (callers_of r.0) ≡ length callers.now) }
{
    match ArenaList::make(alloc, 5, Vec::new(alloc), spare, callers) {
        Ok(made) => Ok(made),
        Err((_, linked, spare)) => made(alloc, linked, spare, callers),
    }
}

/// The same of closing.
fn closed_again(
    alloc: Global,
    list: ArenaList<Counter>,
    seats: Vec<ListSeat>,
) -> Result<(Vec<Entry<Counter>>, Vec<Entry<Counter>>), Fail>
    requires enough { length (callers_of list) ≤ length seats.items }
    requires home { All (IsHome the_row.coded (meter (λ (c : Counter). c.owner) (λ (c : Counter). c.life) (λ (c : Counter). c.used)) list) seats.items }
{
    match list.close(alloc, seats) {
        Ok(entries) => Ok(entries),
        Err((_, list, seats)) => closed(alloc, list, seats),
    }
}

/// Whether the entries are these: the slot, the caller and the used sum of each.
fn are(entries: &[Entry<Counter>], wanted: &[(u32, u32, u64)]) -> bool {
    if entries.len() != wanted.len() {
        return false;
    }
    for (at, entry) in entries.iter().enumerate() {
        if (entry.slot, entry.caller, entry.part.used) != wanted[at] {
            return false;
        }
    }
    true
}

/// Whether one entry lies in this slot, with its caller and 24 bytes used.
fn stands_once(entries: &[Entry<Counter>], slot: u32) -> bool
    requires { slot < slot_count }
{
    let mut is_found = false;
    for entry in entries {
        if entry.slot == slot {
            if is_found || entry.caller != 4 + 3 * slot || entry.part.used != 24 {
                return false;
            }
            is_found = true;
        }
    }
    is_found
}

/// Finds the caller's slot, or else joins the list. Whether it joined, and the slot.
fn enter<V: Part>(list: &ArenaList<V>, seat: &mut ListSeat) -> (bool, u32)
    requires { IsHome V.row.coded (meter V.owner_of V.life_of V.used_of) list.now seat.old }
    ensures home { IsHome V.row.coded (meter V.owner_of V.life_of V.used_of) list.now seat.new }
    ensures own { mine (view seat.new) ≡ Some result.1 }
{
    match list.find(seat) {
        Some(slot) => (false, slot),
        None => (true, list.join(seat)),
    }
}

/// Lets the used sum of the caller's part grow by 24.
fn fill(list: &ArenaList<Counter>, seat: &mut ListSeat, slot: u32)
    requires home { IsHome the_row.coded (meter (λ (c : Counter). c.owner) (λ (c : Counter). c.life) (λ (c : Counter). c.used)) list.now seat.old }
    requires own { mine (view seat.old) ≡ Some slot }
    ensures { IsHome the_row.coded (meter (λ (c : Counter). c.owner) (λ (c : Counter). c.life) (λ (c : Counter). c.used)) list.now seat.new }
{
    let mut part = list.take_slot(seat, slot);
    if part.used < 1000 {
        part.used += 24;
    }
    list.give_slot(seat, slot, part);
}

/// Whether the caller of the seat at this place joined, and its slot, into whose part it puts 24 bytes more.
fn work(list: &ArenaList<Counter>, seats: &mut [ListSeat], at: usize) -> (bool, u32)
    requires within { at < length seats.old }
    requires home { All (IsHome the_row.coded (meter (λ (c : Counter). c.owner) (λ (c : Counter). c.life) (λ (c : Counter). c.used)) list.now) seats.old }
    ensures count { length seats.new ≡ length seats.old }
    ensures home { All (IsHome the_row.coded (meter (λ (c : Counter). c.owner) (λ (c : Counter). c.life) (λ (c : Counter). c.used)) list.now) seats.new }
{
    let seat = &mut seats[at];
    let (has_joined, slot) = enter(list, seat);
    fill(list, seat, slot);
    (has_joined, slot)
}

/// The same without a byte more.
fn come(list: &ArenaList<Counter>, seats: &mut [ListSeat], at: usize) -> (bool, u32)
    requires within { at < length seats.old }
    requires home { All (IsHome the_row.coded (meter (λ (c : Counter). c.owner) (λ (c : Counter). c.life) (λ (c : Counter). c.used)) list.now) seats.old }
    ensures count { length seats.new ≡ length seats.old }
    ensures home { All (IsHome the_row.coded (meter (λ (c : Counter). c.owner) (λ (c : Counter). c.life) (λ (c : Counter). c.used)) list.now) seats.new }
{
    enter(list, &mut seats[at])
}

/// What the caller of the seat at this place finds used.
fn sizes(list: &ArenaList<Counter>, seats: &mut [ListSeat], at: usize) -> u128
    requires within { at < length seats.old }
    requires home { All (IsHome the_row.coded (meter (λ (c : Counter). c.owner) (λ (c : Counter). c.life) (λ (c : Counter). c.used)) list.now) seats.old }
    ensures count { length seats.new ≡ length seats.old }
    ensures home { All (IsHome the_row.coded (meter (λ (c : Counter). c.owner) (λ (c : Counter). c.life) (λ (c : Counter). c.used)) list.now) seats.new }
{
    list.sizes(&mut seats[at])
}

/// Each caller works in a thread of its own.
#[cycle(halves)]
fn work_all<R: Threads + Sync>(rt: &R, list: &ArenaList<Counter>, seats: &mut [ListSeat])
    requires { AreHome the_row.coded (meter (λ (c : Counter). c.owner) (λ (c : Counter). c.life) (λ (c : Counter). c.used)) list.now (length seats.old) seats.old }
    ensures { AreHome the_row.coded (meter (λ (c : Counter). c.owner) (λ (c : Counter). c.life) (λ (c : Counter). c.used)) list.now (length seats.old) seats.new }
{
    if seats.len() < 2 {
        if seats.len() == 1 {
            work(list, seats, 0);
        }
        return;
    }
    let (left, right) = seats.split_at_mut(seats.len() / 2);
    work_both(rt, list, left, right);
}

/// Those of both slices.
#[cycle(halves)]
fn work_both<R: Threads + Sync>(
    rt: &R,
    list: &ArenaList<Counter>,
    left: &mut [ListSeat],
    right: &mut [ListSeat],
)
    requires some { (0 < length left.old) × (0 < length right.old) }
    requires left { AreHome the_row.coded (meter (λ (c : Counter). c.owner) (λ (c : Counter). c.life) (λ (c : Counter). c.used)) list.now (length left.old) left.old }
    requires right { AreHome the_row.coded (meter (λ (c : Counter). c.owner) (λ (c : Counter). c.life) (λ (c : Counter). c.used)) list.now (length right.old) right.old }
    ensures left { AreHome the_row.coded (meter (λ (c : Counter). c.owner) (λ (c : Counter). c.life) (λ (c : Counter). c.used)) list.now (length left.old) left.new }
    ensures right { AreHome the_row.coded (meter (λ (c : Counter). c.owner) (λ (c : Counter). c.life) (λ (c : Counter). c.used)) list.now (length right.old) right.new }
{
    join_mut(
        rt,
        &mut ||
            requires { IsSync R.row × AreHome the_row.coded (meter (λ (c : Counter). c.owner) (λ (c : Counter). c.life) (λ (c : Counter). c.used)) list.now (length left.now) left.now }
            ensures { AreHome the_row.coded (meter (λ (c : Counter). c.owner) (λ (c : Counter). c.life) (λ (c : Counter). c.used)) list.entry.now (length left.entry.now) left.exit.now }
        { work_all(rt, list, left) },
        &mut ||
            requires { IsSync R.row × AreHome the_row.coded (meter (λ (c : Counter). c.owner) (λ (c : Counter). c.life) (λ (c : Counter). c.used)) list.now (length right.now) right.now }
            ensures { AreHome the_row.coded (meter (λ (c : Counter). c.owner) (λ (c : Counter). c.life) (λ (c : Counter). c.used)) list.entry.now (length right.entry.now) right.exit.now }
        { work_all(rt, list, right) },
    );
}

/// Whether each of so many callers, all at work at the same time, joined with its own slot, all their bytes are counted,
/// and the closed list has each caller once.
fn side_by_side<R: Threads + Sync>(rt: &R, alloc: Global, count: u32) -> Result<bool, Fail>
    requires { (0 < count) × (count ≤ slot_count) }
{
    let (spare, callers) = spares(alloc, count)?;
    let (list, mut seats) = made(alloc, Vec::new(alloc), spare, callers.as_slice())?;
    let slice = seats.as_mut_slice();
    work_all(rt, &list, slice);
    let mut is_right = sizes(&list, slice, 0) == count as u128 * 24;
    for slot in 0..count {
        is_right &= come(&list, slice, slot as usize) == (false, slot);
    }
    let (linked, spare) = closed(alloc, list, seats)?;
    for slot in 0..count {
        is_right &= stands_once(linked.as_slice(), slot);
    }
    Ok(is_right && linked.len() == count as usize && spare.is_empty())
}

#[test]
fn two_callers_join_and_one_fills_its_part(rt: HostRuntime) -> Result<(), Fail> {
    let (spare, callers) = spares(rt.alloc(), 2)?;
    let linked = Vec::new(rt.alloc());
    let (list, mut seats) = made(rt.alloc(), linked, spare, callers.as_slice())?;
    let slice = seats.as_mut_slice();
    assert_eq!(rt; come(&list, slice, 0), (true, 0));
    assert_eq!(rt; come(&list, slice, 1), (true, 1));
    assert_eq!(rt; work(&list, slice, 0), (false, 0));
    assert_eq!(rt; sizes(&list, slice, 1), 24);
    assert_eq!(rt; sizes(&list, slice, 0), 24);
    let (linked, spare) = closed(rt.alloc(), list, seats)?;
    assert!(rt; are(linked.as_slice(), &[(0, 4, 24), (1, 7, 0)]));
    assert!(rt; spare.is_empty());
    Ok(())
}

#[test]
fn sizes_show_what_another_caller_gave_since(rt: HostRuntime) -> Result<(), Fail> {
    let (spare, callers) = spares(rt.alloc(), 2)?;
    let linked = Vec::new(rt.alloc());
    let (list, mut seats) = made(rt.alloc(), linked, spare, callers.as_slice())?;
    let slice = seats.as_mut_slice();
    assert_eq!(rt; come(&list, slice, 0), (true, 0));
    assert_eq!(rt; work(&list, slice, 1), (true, 1));
    assert_eq!(rt; sizes(&list, slice, 0), 24);
    let (linked, spare) = closed(rt.alloc(), list, seats)?;
    assert!(rt; are(linked.as_slice(), &[(0, 4, 0), (1, 7, 24)]));
    assert!(rt; spare.is_empty());
    Ok(())
}

#[test]
fn sizes_show_the_list_to_a_caller_that_has_not_joined(rt: HostRuntime) -> Result<(), Fail> {
    let (spare, callers) = spares(rt.alloc(), 2)?;
    let linked = Vec::new(rt.alloc());
    let (list, mut seats) = made(rt.alloc(), linked, spare, callers.as_slice())?;
    let slice = seats.as_mut_slice();
    assert_eq!(rt; sizes(&list, slice, 0), 0);
    assert_eq!(rt; work(&list, slice, 1), (true, 1));
    assert_eq!(rt; sizes(&list, slice, 0), 24);
    assert_eq!(rt; come(&list, slice, 0), (true, 0));
    assert_eq!(rt; sizes(&list, slice, 0), 24);
    let (linked, spare) = closed(rt.alloc(), list, seats)?;
    assert!(rt; are(linked.as_slice(), &[(1, 7, 24), (0, 4, 0)]));
    assert!(rt; spare.is_empty());
    Ok(())
}

#[test]
fn a_linked_entry_without_a_seat_counts_and_comes_through(rt: HostRuntime) -> Result<(), Fail> {
    let (spare, callers) = spares(rt.alloc(), 3)?;
    let mut linked = Vec::new(rt.alloc());
    let part = Counter {
        owner: 99,
        life: 5,
        used: 40,
    };
    linked.push(Entry {
        slot: 9,
        caller: 99,
        part,
    })?;
    let (list, mut seats) = made(rt.alloc(), linked, spare, callers.as_slice())?;
    let slice = seats.as_mut_slice();
    assert_eq!(rt; sizes(&list, slice, 2), 40);
    assert_eq!(rt; work(&list, slice, 2), (true, 2));
    assert_eq!(rt; work(&list, slice, 0), (true, 0));
    assert_eq!(rt; sizes(&list, slice, 1), 88);
    let (linked, spare) = closed(rt.alloc(), list, seats)?;
    assert!(rt; are(linked.as_slice(), &[(9, 99, 40), (2, 10, 24), (0, 4, 24)]));
    assert!(rt; are(spare.as_slice(), &[(1, 7, 0)]));
    Ok(())
}

#[test]
fn eight_seats_work_side_by_side(rt: HostRuntime) -> Result<(), Fail> {
    let is_right = side_by_side(&rt, rt.alloc(), 8)?;
    assert!(rt; is_right);
    Ok(())
}

#[test]
fn sixty_four_seats_work_side_by_side(rt: HostRuntime) -> Result<(), Fail> {
    let is_right = side_by_side(&rt, rt.alloc(), 64)?;
    assert!(rt; is_right);
    Ok(())
}

#[test]
fn a_refusal_hands_everything_back(rt: HostRuntime) -> Result<(), Fail> {
    let (spare, callers) = spares(rt.alloc(), 3)?;
    let (list, mut seats) = made_again(rt.alloc(), spare, callers.as_slice())?;
    let slice = seats.as_mut_slice();
    assert_eq!(rt; work(&list, slice, 1), (true, 1));
    let (linked, spare) = closed_again(rt.alloc(), list, seats)?;
    assert!(rt; are(linked.as_slice(), &[(1, 7, 24)]));
    assert!(rt; are(spare.as_slice(), &[(0, 4, 0), (2, 10, 0)]));
    Ok(())
}
