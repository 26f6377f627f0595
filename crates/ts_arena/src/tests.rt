//! Worked arenas.
ghost use Rattle.std.specs.Prelude.{◌≡◌, ◌≤◌, []};

use crate::callers::{
    adopt_first, copy_alone, enter_over_two_lives, fill_blocks, keep_alone, keep_leased,
    place_alone, put_pass, settle_one, settle_with, settle_with_foreign, share_among,
    share_with_one, take_pass, used_by_last, visit,
};
use crate::workers::{ROUNDS, seated, stood_up, visit_with_help, work_all};
use crate::{Arena, LifeRecord, SettleFault, ShareFault, SoleFault};
use arena_block::Policy;
use arena_mem::Memory;
use cleanup_list::{ListWatch, SilentWatch};
use life_ids::{IdSource, IdsSpent, ThreadCache};
use serial_arena::SerialArena;
use std::alloc::Global;
use std::test::Fail;

/// An arena with blocks of the profile.
fn new_arena(alloc: Global, life: u64) -> Arena
    requires { 1 ≤ life }
    ensures life { result.life ≡ life }
    ensures none { result.adopted ≡ [] }
{
    Arena::new(alloc, Policy::profile(), life)
}

/// Places 20 bytes in a region, and keeps two byte strings there.
fn fill(region: &mut SerialArena) -> Result<(), Fail>
    ensures life { region.new.life ≡ region.old.life }
    ensures number { region.new.region ≡ region.old.region }
{
    region.place(20)?;
    region.keep_copy(b"kept by an adopted region")?;
    region.keep_copy(b"kept as well")?;
    Ok(())
}

#[test]
fn a_caller_is_cached_within_one_life(rt: HostRuntime) -> Result<(), Fail> {
    let (shared, pass) = share_with_one(new_arena(rt.alloc(), 5))?;
    let _ = shared.life();
    let (pass, cache, is_placed, cached) = visit(&shared, pass, ThreadCache::empty(), 32);
    assert_eq!(rt; (is_placed, cached), (true, false));
    let (_, _, is_placed, cached) = visit(&shared, pass, cache, 32);
    assert_eq!(rt; (is_placed, cached), (true, true));
    let (shared, pass) = share_with_one(new_arena(rt.alloc(), 6))?;
    let _ = pass.life();
    let (_, _, is_placed, cached) = visit(&shared, pass, cache, 32);
    assert_eq!(rt; (is_placed, cached), (true, false));
    Ok(())
}

#[test]
fn a_cache_serves_one_life_of_two(rt: HostRuntime) -> Result<(), Fail> {
    let mut ids = IdSource::new(rt.alloc(), 1)?;
    let life = ids.draw()?;
    let arena = Arena::new(rt.alloc(), Policy::profile(), life);
    let (shared, pass, cache) = enter_over_two_lives(
        rt.alloc(),
        arena,
        &mut ids,
        &mut SilentWatch,
    )?;
    assert_eq!(rt; (shared.life(), pass.life(), pass.caller()), (2, 2, 4));
    assert_eq!(rt; (cache.life(), cache.slot(), ids.left()), (2, 0, 254));
    Ok(())
}

#[test]
fn a_cache_is_of_no_use_after_a_reset(rt: HostRuntime) -> Result<(), Fail> {
    let mut ids = IdSource::new(rt.alloc(), 1)?;
    let life = ids.draw()?;
    let (shared, pass) = share_with_one(Arena::new(rt.alloc(), Policy::profile(), life))?;
    let (pass, cache, is_placed, cached) = visit(&shared, pass, ThreadCache::empty(), 32);
    assert_eq!(rt; (is_placed, cached), (true, false));
    let mut arena = settle_one(shared, pass, rt.alloc())?;
    arena.reset(&mut ids, &mut SilentWatch)?;
    let (shared, pass) = share_with_one(arena)?;
    let fits = pass.fits(&cache);
    assert!(rt; fits);
    if fits {
        let (pass, cache, is_placed, cached) = visit(&shared, pass, cache, 32);
        assert_eq!(rt; (is_placed, cached), (true, false));
        let (_, _, is_placed, cached) = visit(&shared, pass, cache, 32);
        assert_eq!(rt; (is_placed, cached), (true, true));
    }
    Ok(())
}

#[test]
fn byte_strings_are_kept_in_a_lease_and_alone(rt: HostRuntime) -> Result<(), Fail> {
    let mut watch = ListWatch::with_room(rt.alloc(), 8)?;
    let (shared, pass) = share_with_one(new_arena(rt.alloc(), 5))?;
    let (pass, are_kept) = keep_leased(&shared, pass, b"kept in a lease", rt.alloc());
    assert!(rt; are_kept);
    let mut arena = settle_one(shared, pass, rt.alloc())?;
    assert_eq!(rt; (arena.owners(), arena.registered()), (1, 2));
    assert!(rt; keep_alone(&mut arena, 7, b"kept by one alone", rt.alloc())?);
    assert!(rt; keep_alone(&mut arena, 4, b"", rt.alloc())?);
    assert_eq!(rt; (arena.owners(), arena.registered()), (2, 6));
    let record = arena.end(&mut watch);
    assert_eq!(rt; (record.registered, record.cleaned), (6, 6));
    let wanted = [
        (5, 0, 3),
        (5, 0, 2),
        (5, 0, 1),
        (5, 0, 0),
        (5, 1, 1),
        (5, 1, 0),
    ];
    assert_eq!(rt; watch.told(), wanted.as_slice());
    Ok(())
}

#[test]
fn a_pass_of_another_life_is_foreign(rt: HostRuntime) -> Result<(), Fail> {
    let (shared, mut passes) = share_among(new_arena(rt.alloc(), 5), &[4, 7, 9])?;
    take_pass(&shared, &mut passes);
    let (other, pass) = share_with_one(new_arena(rt.alloc(), 6))?;
    let _ = (shared.life(), other.life());
    let fault = settle_with_foreign(shared, passes, pass)?;
    assert_eq!(rt; fault, SettleFault::ForeignPass { place: 2, life: 6 });
    Ok(())
}

#[test]
fn callers_that_are_equal_or_too_many_are_refused(rt: HostRuntime) -> Result<(), Fail> {
    let mut callers = [0; 65];
    for (at, caller) in callers.iter_mut().enumerate() {
        *caller = at as u32;
    }
    let Err((fault, arena)) = new_arena(rt.alloc(), 5).share(&[4, 7, 4]) else {
        assert!(rt; false);
        return Ok(());
    };
    assert_eq!(rt;
        fault,
        ShareFault::SameCaller {
            first: 0,
            second: 2
        }
    );
    let Err((fault, arena)) = arena.share(&callers) else {
        assert!(rt; false);
        return Ok(());
    };
    assert_eq!(rt;
        fault,
        ShareFault::TooManyCallers {
            owners: 0,
            asked: 65
        }
    );
    assert_eq!(rt; (arena.life(), arena.owners()), (5, 0));
    Ok(())
}

#[test]
fn a_reset_tells_owners_and_adopted_regions(rt: HostRuntime) -> Result<(), Fail> {
    let mut ids = IdSource::new(rt.alloc(), 1)?;
    let mut watch = ListWatch::with_room(rt.alloc(), 8)?;
    let mut arena = new_arena(rt.alloc(), 5);
    let mut region = SerialArena::new(rt.alloc(), Policy::profile(), 0, 0, 65536);
    fill(&mut region)?;
    assert!(rt; adopt_first(&mut arena, region));
    assert_eq!(rt; (arena.registered(), arena.space_used()), (2, 24));
    let record = arena.reset(&mut ids, &mut watch)?;
    let wanted = LifeRecord {
        life: 5,
        serials: 0,
        adopted: 1,
        registered: 2,
        cleaned: 2,
        used: 24,
    };
    assert_eq!(rt; record, wanted);
    assert_eq!(rt; watch.told(), [(0, 65536, 1), (0, 65536, 0)].as_slice());
    assert_eq!(rt;
        (arena.life(), arena.registered(), arena.space_used()),
        (1, 0, 0)
    );
    assert_eq!(rt; arena.end(&mut SilentWatch).life, 1);
    Ok(())
}

#[test]
fn ids_that_are_spent_keep_an_arena_as_it_is(rt: HostRuntime) -> Result<(), Fail> {
    let mut ids = IdSource::new(rt.alloc(), 0)?;
    let mut arena = new_arena(rt.alloc(), 5);
    assert_eq!(rt; arena.reset(&mut ids, &mut SilentWatch), Err(IdsSpent));
    assert_eq!(rt; arena.life(), 5);
    Ok(())
}

#[test]
fn a_lease_fills_blocks_by_the_policy(rt: HostRuntime) -> Result<(), Fail> {
    let (shared, pass) = share_with_one(new_arena(rt.alloc(), 5))?;
    let (pass, is_filled) = fill_blocks(&shared, pass);
    assert!(rt; is_filled);
    let arena = settle_one(shared, pass, rt.alloc())?;
    assert_eq!(rt;
        (arena.space_used(), arena.space_allocated()),
        (40_856, 74_576)
    );
    Ok(())
}

#[test]
fn eight_callers_enter_a_thousand_times_each(rt: HostRuntime) -> Result<(), Fail> {
    let callers = [0, 1, 2, 3, 4, 5, 6, 7];
    let (shared, passes) = share_among(new_arena(rt.alloc(), 5), &callers)?;
    let mut seats = seated(rt.alloc(), &shared, passes)?;
    work_all(&rt, &shared, seats.as_mut_slice());
    let mut passes = stood_up(rt.alloc(), &shared, seats)?;
    let used = used_by_last(&shared, &mut passes)?;
    let Ok(arena) = settle_with(shared, passes) else {
        assert!(rt; false);
        return Ok(());
    };
    let wanted = 8 * 32 * ROUNDS as u128;
    assert_eq!(rt;
        (used, arena.space_used(), arena.owners()),
        (wanted, wanted, 8)
    );
    Ok(())
}

#[test]
fn another_thread_places_in_a_lease(rt: HostRuntime) -> Result<(), Fail> {
    let (shared, pass) = share_with_one(new_arena(rt.alloc(), 5))?;
    let (pass, _) = visit_with_help(&rt, &shared, pass, ThreadCache::empty());
    let arena = settle_one(shared, pass, rt.alloc())?;
    assert_eq!(rt; arena.space_used(), 32);
    Ok(())
}

// The example at the head of the crate.
#[test]
fn an_arena_is_shared_settled_entered_alone_and_reset(rt: HostRuntime) -> Result<(), Fail> {
    let mut ids = IdSource::new(rt.alloc(), 1)?;
    let life = ids.draw()?;
    let (shared, pass) = share_with_one(Arena::new(rt.alloc(), Policy::profile(), life))?;
    let (pass, _, is_placed, cached) = visit(&shared, pass, ThreadCache::empty(), 8);
    assert_eq!(rt; (is_placed, cached), (true, false));
    let mut arena = settle_one(shared, pass, rt.alloc())?;
    place_alone(&mut arena, 7, 8)?;
    let record = arena.reset(&mut ids, &mut SilentWatch)?;
    let wanted = LifeRecord {
        life: 1,
        serials: 2,
        adopted: 0,
        registered: 0,
        cleaned: 0,
        used: 16,
    };
    assert_eq!(rt; (record, arena.life(), arena.owners()), (wanted, 2, 0));
    Ok(())
}

#[test]
fn a_dropped_pass_keeps_an_arena_shared(rt: HostRuntime) -> Result<(), Fail> {
    let (shared, mut passes) = share_among(new_arena(rt.alloc(), 5), &[4, 7, 9])?;
    let Some(pass) = take_pass(&shared, &mut passes) else {
        assert!(rt; false);
        return Ok(());
    };
    let (pass, _, is_placed, _) = visit(&shared, pass, ThreadCache::empty(), 32);
    assert!(rt; is_placed);
    put_pass(&shared, &mut passes, pass)?;
    take_pass(&shared, &mut passes);
    let wanted = SettleFault::PassesOut { made: 3, given: 2 };
    let Err((fault, shared, mut passes)) = settle_with(shared, passes) else {
        assert!(rt; false);
        return Ok(());
    };
    assert_eq!(rt; (fault, used_by_last(&shared, &mut passes)?), (wanted, 32));
    let Err((fault, shared, mut passes)) = settle_with(shared, passes) else {
        assert!(rt; false);
        return Ok(());
    };
    assert_eq!(rt; (fault, used_by_last(&shared, &mut passes)?), (wanted, 32));
    Ok(())
}

#[test]
fn a_second_try_settles_with_all_passes(rt: HostRuntime) -> Result<(), Fail> {
    let (shared, mut passes) = share_among(new_arena(rt.alloc(), 5), &[4, 7, 9])?;
    let Some(last) = take_pass(&shared, &mut passes) else {
        assert!(rt; false);
        return Ok(());
    };
    let Err((fault, shared, mut passes)) = settle_with(shared, passes) else {
        assert!(rt; false);
        return Ok(());
    };
    assert_eq!(rt; fault, SettleFault::PassesOut { made: 3, given: 2 });
    put_pass(&shared, &mut passes, last)?;
    let Ok(arena) = settle_with(shared, passes) else {
        assert!(rt; false);
        return Ok(());
    };
    assert_eq!(rt; (arena.life(), arena.owners()), (5, 0));
    Ok(())
}

#[test]
fn a_sole_use_reads_an_adopted_region_and_places_in_its_own(rt: HostRuntime) -> Result<(), Fail> {
    let mut arena = new_arena(rt.alloc(), 5);
    let mut region = SerialArena::new(rt.alloc(), Policy::profile(), 0, 0, 70_000);
    let place = region.place(8)?;
    region.write(place, 0, &[42]);
    let is_adopted = adopt_first(&mut arena, region);
    assert!(rt; is_adopted);
    if is_adopted {
        let (copy, byte) = copy_alone(&mut arena, 9, place)?;
        assert_eq!(rt; (copy.region, byte), (0, 42));
        let (again, byte) = copy_alone(&mut arena, 4, copy)?;
        assert_eq!(rt; (again.region, byte), (1, 42));
        assert_eq!(rt; (arena.owners(), arena.space_used()), (2, 40));
    }
    Ok(())
}

#[test]
fn the_sixty_fifth_owner_is_refused(rt: HostRuntime) -> Result<(), Fail> {
    let mut arena = new_arena(rt.alloc(), 5);
    for caller in 0..64 {
        place_alone(&mut arena, caller, 8)?;
    }
    place_alone(&mut arena, 63, 8)?;
    let Err(fault) = arena.enter_sole(64) else {
        assert!(rt; false);
        return Ok(());
    };
    assert_eq!(rt;
        fault,
        SoleFault::TooManyCallers {
            owners: 64,
            asked: 1
        }
    );
    assert_eq!(rt; (arena.owners(), arena.space_used()), (64, 65 * 8));
    Ok(())
}
