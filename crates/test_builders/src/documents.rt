//! Streams and jobs of a plan.
use base_types::{Items, JobDoc, JobNo, NoMemory, Recovery, StreamDoc, StreamNo, Text, Work, Ws};
use std::alloc::Global;

/// A job of priority 10 that depends on nothing. It runs `echo a`, a return code 0 is its good end, and a bad end stops.
pub fn job(alloc: Global, no: u32, ws: u16, name: &str) -> Result<JobDoc, NoMemory> {
    let name = Text::of(alloc, name)?;
    let work = Work::Command(Text::of(alloc, "echo a")?);
    Ok(JobDoc {
        no: JobNo(no),
        ws: Ws(ws),
        name,
        priority: 10,
        work,
        logon: Text::new(alloc),
        cond: Items::new(alloc),
        recovery: Recovery::Stop,
        deps: Items::new(alloc),
    })
}

/// A stream of priority 10, marked to be carried, without a limit, dependencies and jobs.
pub fn stream(alloc: Global, no: u32, ws: u16, name: &str) -> Result<StreamDoc, NoMemory> {
    let name = Text::of(alloc, name)?;
    Ok(StreamDoc {
        no: StreamNo(no),
        ws: Ws(ws),
        name,
        priority: 10,
        limit: None,
        carry: true,
        deps: Items::new(alloc),
        jobs: Items::new(alloc),
    })
}
