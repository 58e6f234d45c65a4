//! A spawner in memory.
use base_types::{Items, JobNo, Text, Work};
use outside::{End, Failed, Spawner};
use outside_mem::{Killed, MemSpawner, Started};
use std::test::Fail;
use test_builders::{first_wrong, listed};

const END: End = End {
    job: JobNo(7),
    number: 1,
    rc: -1,
};

/// Whether one start of `ls` is told, and one kill, of the launch of the test below.
fn tells_its_calls(spawner: &MemSpawner) -> bool {
    let started = Started {
        job: JobNo(7),
        number: 1,
        script: false,
        ok: true,
    };
    let killed = Killed {
        job: JobNo(7),
        number: 1,
    };
    let is_told = match spawner.started().get(0) {
        Some((call, text)) => *call == started && text == b"ls".as_slice(),
        None => false,
    };
    is_told && spawner.started().len() == 1 && spawner.killed() == [killed].as_slice()
}

#[test]
fn a_spawner_gives_its_answers_but_for_a_listed_call(rt: HostRuntime) -> Result<(), Fail> {
    let alloc = rt.alloc();
    let answers = listed(alloc, &[None, Some(END)])?;
    let mut spawner = MemSpawner::new(alloc, answers, listed(alloc, &[2u32])?, 9)?;
    let work = Work::Command(Text::of(alloc, "ls")?);
    let right = [
        spawner.start(JobNo(7), 1, &work) == Ok(()),
        spawner.poll() == Err(Failed),
        spawner.poll() == Ok(None),
        spawner.poll() == Ok(Some(END)),
        spawner.poll() == Ok(None),
    ];
    spawner.kill(JobNo(7), 1);
    assert_eq!(rt; first_wrong(&right), None);
    assert!(rt; tells_its_calls(&spawner));
    Ok(())
}

#[test]
fn a_start_past_the_room_fails_and_is_not_told(rt: HostRuntime) -> Result<(), Fail> {
    let alloc = rt.alloc();
    let mut spawner = MemSpawner::new(alloc, Items::new(alloc), Items::new(alloc), 3)?;
    let work = Work::Script(Text::of(alloc, "a.sh")?);
    let right = [
        spawner.start(JobNo(1), 1, &work) == Err(Failed),
        spawner.started().len() == 0,
        !spawner.started().is_whole(),
    ];
    assert_eq!(rt; first_wrong(&right), None);
    Ok(())
}
