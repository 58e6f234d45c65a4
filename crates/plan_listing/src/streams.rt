//! The lines of a stream, with those of its jobs.
ghost use Rattle.std.specs.Prelude.{◌≡◌, ◌++◌, OnOk, flat_map};
ghost use Rattle.plan_listing.specs.Streams as spec;

use crate::dependencies::write_dependencies;
use crate::jobs::{put_job, write_priority};
use base_types::{JobDraft, Net, NoMemory, StreamDraft};
use report_text::name;
use std::alloc::Global;
use std::io::{self, Write};

/// Writes the lines of each stream.
pub(crate) fn put_streams(
    alloc: Global,
    out: &mut Vec<u8>,
    net: &Net,
    streams: &[StreamDraft],
) -> Result<(), NoMemory>
    ensures { OnOk result (out.new.items ≡ out.old.items ++ flat_map (spec.stream_text net.now) streams.now) }
{
    for stream in streams {
        put_stream(alloc, out, net, stream)?;
    }
    Ok(())
}

#[tactic(auto, unfolding(crate::specs::Streams::stream_text))]
fn put_stream(
    alloc: Global,
    out: &mut Vec<u8>,
    net: &Net,
    stream: &StreamDraft,
) -> Result<(), NoMemory>
    ensures { OnOk result (out.new.items ≡ out.old.items ++ spec.stream_text net.now stream.now) }
{
    match write_stream(out, net, stream) {
        Ok(()) => put_jobs(alloc, out, net, stream.jobs.as_slice()),
        Err(_) => Err(NoMemory),
    }
}

/// Writes a stream and its dependencies.
#[tactic(auto, unfolding(crate::specs::Streams::stream_lines))]
fn write_stream(out: &mut Vec<u8>, net: &Net, stream: &StreamDraft) -> io::Result<()>
    ensures { OnOk result (out.new.items ≡ out.old.items ++ spec.stream_lines net.now stream.now) }
{
    write_stream_head(out, net, stream)?;
    write_dependencies(out, net, stream.deps.as_slice())
}

/// Writes the first line of a stream.
#[tactic(auto, unfolding(crate::specs::Streams::stream_head))]
fn write_stream_head(out: &mut Vec<u8>, net: &Net, stream: &StreamDraft) -> io::Result<()>
    ensures { OnOk result (out.new.items ≡ out.old.items ++ spec.stream_head net.now stream.now) }
{
    let ws = name(net, &stream.ws);
    write!(out, "stream {ws} {}", stream.name)?;
    write_priority(out, stream.priority)?;
    write_limit(out, stream.limit)?;
    write!(out, "{}\n", carry_mark(stream.carry))
}

fn write_limit(out: &mut Vec<u8>, limit: Option<u16>) -> io::Result<()>
    ensures { OnOk result (out.new.items ≡ out.old.items ++ spec.limit_part limit) }
{
    match limit {
        Some(limit) => write!(out, " limit {limit}"),
        None => Ok(()),
    }
}

fn carry_mark(carry: bool) -> &'static str
    ensures { result.now ≡ spec.carry_mark carry }
{
    if carry { " carry" } else { "" }
}

fn put_jobs(alloc: Global, out: &mut Vec<u8>, net: &Net, jobs: &[JobDraft]) -> Result<(), NoMemory>
    ensures { OnOk result (out.new.items ≡ out.old.items ++ flat_map (spec.job_text net.now) jobs.now) }
{
    for job in jobs {
        put_job(alloc, out, net, job)?;
    }
    Ok(())
}
