//! A keeper and a clock in memory.
use base_types::{Items, Moment};
use outside::{Clock, Framed, KeepFault, Keeper};
use outside_mem::{MemClock, MemKeeper};
use std::alloc::Global;
use std::test::Fail;
use test_builders::{first_wrong, listed};

fn append(alloc: Global, keeper: &mut MemKeeper, body: &[u8]) -> Result<(), KeepFault> {
    match Framed::of(alloc, body) {
        Ok(framed) => keeper.append(&framed),
        Err(_) => Err(KeepFault::NoMemory),
    }
}

fn reads(keeper: &mut MemKeeper, i: u32, body: &[u8]) -> bool {
    match keeper.read(i) {
        Ok(read) => read.as_slice() == body,
        Err(_) => false,
    }
}

fn is_refused(keeper: &mut MemKeeper, i: u32, wanted: KeepFault) -> bool {
    match keeper.read(i) {
        Ok(_) => false,
        Err(fault) => fault == wanted,
    }
}

#[test]
fn a_keeper_gives_its_bodies_until_a_listed_call_spends_it(rt: HostRuntime) -> Result<(), Fail> {
    let alloc = rt.alloc();
    let mut keeper = MemKeeper::new(alloc, listed(alloc, &[6u32])?, 9)?;
    let right = [
        append(alloc, &mut keeper, b"one") == Ok(()),
        append(alloc, &mut keeper, b"") == Ok(()),
        reads(&mut keeper, 1, b""),
        reads(&mut keeper, 0, b"one"),
        is_refused(&mut keeper, 2, KeepFault::NotThere),
        append(alloc, &mut keeper, b"two") == Err(KeepFault::Disk),
        append(alloc, &mut keeper, b"two") == Err(KeepFault::Disk),
        is_refused(&mut keeper, 0, KeepFault::Disk),
        keeper.count() == 2,
    ];
    assert_eq!(rt; first_wrong(&right), None);
    Ok(())
}

#[test]
fn a_keeper_fails_past_its_room(rt: HostRuntime) -> Result<(), Fail> {
    let alloc = rt.alloc();
    let mut keeper = MemKeeper::new(alloc, Items::new(alloc), 3)?;
    let right = [
        append(alloc, &mut keeper, b"abc") == Ok(()),
        append(alloc, &mut keeper, b"d") == Err(KeepFault::Disk),
        keeper.count() == 1,
    ];
    assert_eq!(rt; first_wrong(&right), None);
    Ok(())
}

#[test]
fn a_clock_gives_its_last_reading_again(rt: HostRuntime) -> Result<(), Fail> {
    let alloc = rt.alloc();
    let mut clock = MemClock::new(listed(alloc, &[Moment(5), Moment(3)])?);
    let mut empty = MemClock::new(Items::new(alloc));
    let right = [
        clock.now() == Moment(5),
        clock.now() == Moment(3),
        clock.now() == Moment(3),
        empty.now() == Moment(0),
    ];
    assert_eq!(rt; first_wrong(&right), None);
    Ok(())
}
