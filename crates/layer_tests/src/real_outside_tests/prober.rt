//! Who looks for files.
use base_types::{NoMemory, Text};
use file_watch::Prober;
use outside::Failed;
use real_outside::{Commons, FileProber};
use std::alloc::Global;
use std::fs;
use std::test::Fail;

/// What the prober answers at a path.
fn seen<P: Prober>(alloc: Global, prober: &mut P, path: &str) -> Result<Option<bool>, NoMemory> {
    match prober.seen(&Text::of(alloc, path)?) {
        Ok(seen) => Ok(Some(seen)),
        Err(Failed) => Ok(None),
    }
}

#[test]
fn files_are_there_or_not(rt: HostRuntime) -> Result<(), Fail> {
    let alloc = rt.alloc();
    let _ = fs::remove_file(&rt, "in.dat");
    let mut prober = FileProber::new(rt, Commons::new(alloc, rt, "OFFILES")?);
    assert!(rt; seen(alloc, &mut prober, "in.dat")? == Some(false));
    fs::write(&rt, "in.dat", "")?;
    assert!(rt; seen(alloc, &mut prober, "in.dat")? == Some(true));
    assert!(rt; seen(alloc, &mut prober, "no/in.dat")? == Some(false));
    assert!(rt; seen(alloc, &mut prober, "in.dat/in.dat")? == None);
    fs::remove_file(&rt, "in.dat")?;
    Ok(())
}
