//! The processes of jobs.
use base_types::{JobNo, NoMemory, Text, Work};
use outside::Spawner;
use real_outside::{ChildSpawner, Commons};
use std::alloc::Global;
use std::test::Fail;
use std::time::{Clock, Duration};
use std::{fs, thread};

/// What a launch does: it writes to both streams, tells of its surroundings, and ends by a code.
const TELLS: &str = "echo $TWS_NODE $TWS_JOB $TWS_LAUNCH; echo wrong 1>&2; read line || exit 5";

/// The work that this text is.
fn command(alloc: Global, text: &str) -> Result<Work, NoMemory> {
    Ok(Work::Command(Text::of(alloc, text)?))
}

/// The return code of the first launch of the first job, which is to end within ten seconds.
fn code_of<R: Clock, S: Spawner>(rt: &R, jobs: &mut S) -> Option<i32> {
    for _ in 0..1_000 {
        match jobs.poll() {
            Ok(None) => thread::sleep(rt, Duration::from_millis(10)),
            Ok(Some(end)) if end.job.0 == 1 && end.number == 7 => return Some(end.rc),
            _ => return None,
        }
    }
    None
}

#[test]
fn what_a_launch_writes_stands_in_its_own_file(rt: HostRuntime) -> Result<(), Fail> {
    let alloc = rt.alloc();
    let work = command(alloc, TELLS)?;
    let mut jobs = ChildSpawner::new(alloc, rt, "OFTOLD", Commons::new(alloc, rt, "OFTOLD")?)?;
    assert!(rt; jobs.start(JobNo(1), 7, &work).is_ok() && code_of(&rt, &mut jobs) == Some(5));
    let told = fs::read(&rt, "OFTOLD.out/1.7")?;
    assert_eq!(rt; told.as_slice(), b"OFTOLD 1 7\nwrong\n".as_slice());
    fs::remove_file(&rt, "OFTOLD.out/1.7")?;
    Ok(())
}
