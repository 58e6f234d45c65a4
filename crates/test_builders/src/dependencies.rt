//! Dependencies as rows.
use base_types::{Dep, JobNo, Moment, NoMemory, OnUntil, PromptRef, StreamNo, Text};
use std::alloc::Global;

/// A dependency, in numbers and names.
#[derive(Clone, Copy)]
pub enum Waits<'a> {
    Job(u32),
    Stream(u32),
    /// A resource by its number, and the units that are needed of it.
    Units(u16, u16),
    /// A global prompt by its number.
    Global(u16),
    /// A prompt of the dependency's own, by its text.
    Own(&'a str),
    At(u64),
    Until(u64, OnUntil),
    /// A file by its path.
    File(&'a str),
    Deadline(u64),
}

fn own(alloc: Global, text: &str) -> Result<Dep, NoMemory> {
    Ok(Dep::Prompt(PromptRef::Own(Text::of(alloc, text)?)))
}

fn file(alloc: Global, path: &str) -> Result<Dep, NoMemory> {
    Ok(Dep::Outside(Text::of(alloc, path)?))
}

/// A dependency.
pub fn dep(alloc: Global, row: &Waits) -> Result<Dep, NoMemory> {
    match row {
        Waits::Job(no) => Ok(Dep::FollowsJob(JobNo(*no))),
        Waits::Stream(no) => Ok(Dep::FollowsStream(StreamNo(*no))),
        Waits::Units(resource, units) => Ok(Dep::Needs(*resource, *units)),
        Waits::Global(prompt) => Ok(Dep::Prompt(PromptRef::Global(*prompt))),
        Waits::Own(text) => own(alloc, *text),
        Waits::At(time) => Ok(Dep::At(Moment(*time))),
        Waits::Until(time, then) => Ok(Dep::Until(Moment(*time), *then)),
        Waits::File(path) => file(alloc, *path),
        Waits::Deadline(time) => Ok(Dep::Deadline(Moment(*time))),
    }
}
