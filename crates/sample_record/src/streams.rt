//! The plan of a sample.
ghost use Rattle.std.specs.Prelude.{◌≡◌, ◌+◌, ◌-◌, ◌*◌, ◌<◌, ◌≤◌, ◌++◌, length, IfOk, OnOk};
ghost use Rattle.sample_record.specs.Draws.{number};
ghost use Rattle.sample_record.specs.Streams as spec;

use crate::draws::Draws;
use std::alloc::Global;
use std::io::{self, Write};

/// How many jobs a stream has, but for the last one.
const STREAM_JOBS: u32 = 10;

/// Writes the streams of a record with so many jobs, drawn from this seed on.
#[tactic(auto, unfolding(crate::specs::Streams::plan_part))]
pub(crate) fn write_plan(out: &mut Vec<u8>, alloc: Global, jobs: u32, seed: u32) -> io::Result<()>
    requires { jobs ≤ 2000 }
    ensures { OnOk result (out.new.items ≡ out.old.items ++ spec.plan_part jobs seed) }
{
    write!(out, "$PLAN\n")?;
    let mut draws = Draws { x: u64::from(seed) };
    let mut hosts = Vec::new(alloc);
    for before in 0..jobs.div_ceil(STREAM_JOBS) {
        let host = write_stream(out, &mut draws, hosts.as_slice())?;
        let first = before * STREAM_JOBS + 1;
        let count = STREAM_JOBS.min(jobs + 1 - first);
        write_jobs(out, &mut draws, host, first, count)?;
        hosts.push(host)?;
    }
    Ok(())
}

/// Writes the line of a stream and the one of the stream that it follows, and gives its agent's number. `hosts` are
/// the agents of the streams before it.
#[tactic(auto, using(crate::proofs::Plans::first_follows, crate::proofs::Plans::later_follows), unfolding(crate::specs::Streams::head_part, crate::specs::Streams::followed_line))]
fn write_stream(out: &mut Vec<u8>, draws: &mut Draws, hosts: &[u32]) -> io::Result<u32>
    requires { length hosts.now ≤ 200 }
    ensures host { IfOk result (λ host. host ≡ spec.host_of draws.old.x) }
    ensures wrote { OnOk result (out.new.items ≡ out.old.items ++ spec.head_part hosts.now draws.old.x) }
    ensures drawn { OnOk result (draws.new.x ≡ number draws.old.x (spec.head_draws (length hosts.now) draws.old.x)) }
{
    let host = 1 + draws.below(4);
    write!(out, "stream A{host} S{}\n", hosts.len() + 1)?;
    if hosts.is_empty() {
        return Ok(host);
    }
    if draws.below(2) != 0 {
        return Ok(host);
    }
    let followed = draws.below(hosts.len() as u32);
    let followed_host = hosts[followed as usize];
    write!(out, "follows A{followed_host}#S{}\n", followed + 1)?;
    Ok(host)
}

/// Writes the jobs of a stream of this agent, so many from the number `first` on.
fn write_jobs(
    out: &mut Vec<u8>,
    draws: &mut Draws,
    host: u32,
    first: u32,
    count: u32,
) -> io::Result<()>
    requires some { 0 < count }
    requires within { first + count ≤ 4000 }
    ensures wrote { OnOk result (out.new.items ≡ out.old.items ++ spec.jobs_part host draws.old.x first count) }
    ensures drawn { OnOk result (draws.new.x ≡ number draws.old.x (count - 1)) }
{
    write_job(out, host, first)?;
    for further in 1..count {
        write_job(out, host, first + further)?;
        write_follows(out, draws, first + further)?;
    }
    Ok(())
}

#[tactic(auto, unfolding(crate::specs::Streams::job_lines))]
fn write_job(out: &mut Vec<u8>, host: u32, job: u32) -> io::Result<()>
    ensures { OnOk result (out.new.items ≡ out.old.items ++ spec.job_lines host job) }
{
    write!(out, "job A{host} J{job}\ndo \"true\"\n")
}

/// Writes that a job follows the one before it, where the next draw says so.
#[tactic(auto, unfolding(crate::specs::Streams::follows_line))]
fn write_follows(out: &mut Vec<u8>, draws: &mut Draws, job: u32) -> io::Result<()>
    requires { 0 < job }
    ensures wrote { OnOk result (out.new.items ≡ out.old.items ++ spec.follows_line draws.old.x job) }
    ensures drawn { draws.new.x ≡ number draws.old.x 1 }
{
    if draws.below(3) != 0 {
        return Ok(());
    }
    write!(out, "follows J{}\n", job - 1)
}
