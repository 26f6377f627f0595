// Worked values: the first ids, what follows where they are spent, and eight threads at once.
ghost use Rattle.std.specs.Prelude.{◌≡◌, ◌≢◌, ◌≤◌, ◌<◌, ◌^◌, ◌*◌, All, IfSome, IfOk, OnOk, OnErr};
ghost use Rattle.std.specs.Thread.{IsSync};
ghost use Rattle.std.specs.List.{Contains};
ghost use Rattle.life_ids.specs.Seats.{drawn, greatest_drawn};

use crate::{IdSeat, IdSource, IdsSpent, LifeIds, NoMemory, ThreadCache, ids_differ};
use std::alloc::{AllocError, Global};
use std::process::Abort;
use std::test::Fail;
use std::thread::{Threads, join_mut};

#[test]
fn one_batch_has_256_ids_from_1(rt: HostRuntime) -> Result<(), Fail> {
    let mut ids = IdSource::new(rt.alloc(), 1)?;
    for want in 1..257u64 {
        assert_eq!(rt; ids.left(), 257 - want);
        assert_eq!(rt; ids.draw(), Ok(want));
    }
    for _ in 0..3 {
        assert_eq!(rt; ids.left(), 0);
        assert_eq!(rt; ids.draw(), Err(IdsSpent));
    }
    ids_differ();
    Ok(())
}

// The first two ids of a source, said by the contracts alone.
fn first_two(alloc: Global, quota: u64) -> Result<(u64, u64), NoMemory>
    requires { (0 < quota) × (quota ≤ 2 ^ 55) }
    ensures { IfOk result (λ drawn. (drawn.0 ≡ 1) × (drawn.1 ≡ 2)) }
{
    let mut ids = IdSource::new(alloc, quota)?;
    let Ok(first) = ids.draw() else {
        unreachable!()
    };
    let Ok(second) = ids.draw() else {
        unreachable!()
    };
    Ok((first, second))
}

#[test]
fn the_first_two_are_1_and_2(rt: HostRuntime) -> Result<(), Fail> {
    assert_eq!(rt; first_two(rt.alloc(), 300)?, (1, 2));
    Ok(())
}

// A life is renewed, where every id that is left is greater: so is the new one, and the same holds again.
fn renew(ids: &mut IdSource, life: &mut u64) -> Result<(), IdsSpent>
    requires { life.old ≤ greatest_drawn ids.old }
    ensures ok { OnOk result (life.old < life.new) }
    ensures err { OnErr result (life.new ≡ life.old) }
    ensures again { life.new ≤ greatest_drawn ids.new }
{
    *life = ids.draw()?;
    Ok(())
}

#[test]
fn a_renewed_life_is_greater(rt: HostRuntime) -> Result<(), Fail> {
    let mut ids = IdSource::new(rt.alloc(), 1)?;
    let mut life = 0;
    for want in 1..257u64 {
        assert_eq!(rt; (renew(&mut ids, &mut life), life), (Ok(()), want));
    }
    assert_eq!(rt; (renew(&mut ids, &mut life), life), (Err(IdsSpent), 256));
    Ok(())
}

#[test]
fn no_batch_has_no_id(rt: HostRuntime) -> Result<(), Fail> {
    let mut ids = IdSource::new(rt.alloc(), 0)?;
    assert_eq!(rt; (ids.left(), ids.draw()), (0, Err(IdsSpent)));
    Ok(())
}

// A seat for a thread, and what was drawn from it.
#[derive(Drop)]
struct Hand {
    seat: IdSeat,
    ids: Vec<u64>,
}

// Draws 300 ids, so from two batches.
fn draw_300(ids: &LifeIds, hand: &mut Hand)
    requires own { hand.old.seat.counter ≡ ids.now }
    ensures own { hand.new.seat.counter ≡ ids.now }
{
    for _drawn in 0..300 {
        if let Ok(id) = ids.draw(&mut hand.seat) {
            if hand.ids.push(id).is_err() {
                return;
            }
        }
    }
}

fn draw_by_all<R: Threads + Sync>(rt: &R, ids: &LifeIds, hands: &mut [Hand])
    requires own { All (λ h. h.seat.counter ≡ ids.now) hands.old }
    ensures own { All (λ h. h.seat.counter ≡ ids.now) hands.new }
{
    if hands.len() == 0 {
        return;
    }
    if hands.len() == 1 {
        draw_300(ids, &mut hands[0]);
        return;
    }
    let (front, back) = hands.split_at_mut(hands.len() / 2);
    join_mut(
        rt,
        &mut ||
            requires { IsSync R.row × All (λ h. h.seat.counter ≡ ids.now) front.now }
            ensures { All (λ h. h.seat.counter ≡ ids.entry.now) front.exit.now }
        { draw_by_all(rt, ids, front) },
        &mut ||
            requires { IsSync R.row × All (λ h. h.seat.counter ≡ ids.now) back.now }
            ensures { All (λ h. h.seat.counter ≡ ids.entry.now) back.exit.now }
        { draw_by_all(rt, ids, back) },
    );
}

// Cuts `count` seats with two batches each off the seat.
fn hands_of(
    alloc: Global,
    ids: &LifeIds,
    seat: &mut IdSeat,
    count: u64,
) -> Result<Vec<Hand>, AllocError>
    requires own { seat.old.counter ≡ ids.now }
    requires quota { 2 * count ≤ seat.old.quota }
    ensures own { IfOk result (λ hands. All (λ h. h.seat.counter ≡ ids.now) hands.items) }
{
    let mut hands = Vec::new(alloc);
    for _made in 0..count {
        let seat = ids.share_quota(seat, 2);
        hands.push(Hand {
            seat,
            ids: Vec::new(alloc),
        })?;
    }
    Ok(hands)
}

#[test]
fn eight_threads_draw_different_ids(rt: HostRuntime) -> Result<(), Fail> {
    let (ids, mut seat) = IdSource::new(rt.alloc(), 20)?.into_parts();
    let mut hands = hands_of(rt.alloc(), &ids, &mut seat, 8)?;
    draw_by_all(&rt, &ids, hands.as_mut_slice());
    let mut all = Vec::new(rt.alloc());
    for hand in &hands {
        assert_eq!(rt; hand.ids.len(), 300);
        assert!(rt; hand.ids.windows(2).all(|pair| pair[0] < pair[1]));
        all.extend_from_slice(hand.ids.as_slice())?;
    }
    all.sort()?;
    assert_eq!(rt; all.len(), 2400);
    assert!(rt; all.windows(2).all(|pair| pair[0] < pair[1]));
    Ok(())
}

// One id from each of two seats: they differ.
fn one_from_each(ids: &LifeIds, first: &mut IdSeat, mut second: IdSeat) -> Option<(u64, u64)>
    requires own { (first.old.counter ≡ ids.now) × (second.counter ≡ ids.now) }
    ensures own { first.new.counter ≡ ids.now }
    ensures differ { IfSome result (λ drawn. drawn.0 ≢ drawn.1) }
{
    let Ok(mine) = ids.draw(first) else {
        return None
    };
    let Ok(other) = ids.draw(&mut second) else {
        return None
    };
    ids.give_back(first, second);
    Some((mine, other))
}

// An id of a new batch, drawn after the other seat was given back: the other didn't draw it.
fn draw_after_gift(ids: &LifeIds, seat: &mut IdSeat, other: IdSeat) -> Option<u64>
    requires own { (seat.old.counter ≡ ids.now) × (other.counter ≡ ids.now) }
    requires used_up { seat.old.rest ≡ 0 }
    ensures own { seat.new.counter ≡ ids.now }
    ensures new { IfSome result (λ id. ¬ Contains (drawn other) id) }
{
    ids.give_back(seat, other);
    let Ok(id) = ids.draw(seat) else { return None };
    Some(id)
}

#[test]
fn what_is_drawn_after_a_gift_is_new(rt: HostRuntime) -> Result<(), Fail> {
    let (ids, mut seat) = IdSource::new(rt.alloc(), 2)?.into_parts();
    let mut other = ids.share_quota(&mut seat, 1);
    assert_eq!(rt; ids.draw(&mut other), Ok(1));
    assert_eq!(rt; draw_after_gift(&ids, &mut seat, other), Some(257));
    Ok(())
}

#[test]
fn a_quota_that_comes_back_is_drawn(rt: HostRuntime) -> Result<(), Fail> {
    let (ids, mut seat) = IdSource::new(rt.alloc(), 3)?.into_parts();
    let mut other = ids.share_quota(&mut seat, 2);
    for want in 1..257u64 {
        assert_eq!(rt; ids.draw(&mut seat), Ok(want));
    }
    assert_eq!(rt; ids.draw(&mut seat), Err(IdsSpent));
    assert_eq!(rt; ids.draw(&mut other), Ok(257));
    // The other's batch is given up from 258 on.
    ids.give_back(&mut seat, other);
    let last = ids.share_quota(&mut seat, 0);
    assert_eq!(rt; one_from_each(&ids, &mut seat, last), None);
    let mut ids = IdSource::of_parts(ids, seat);
    assert_eq!(rt; ids.left(), 255);
    assert_eq!(rt; ids.draw(), Ok(514));
    Ok(())
}

#[test]
fn a_cache_keeps_a_life_and_a_slot(rt: HostRuntime) {
    let cache = ThreadCache::of(7, 3);
    assert_eq!(rt; (cache.life(), cache.slot()), (7, 3));
    assert_eq!(rt; ThreadCache::empty().life(), 0);
    assert!(rt; cache != ThreadCache::empty() && cache == ThreadCache::of(7, 3));
}
