//! The summary of a run.
ghost use Rattle.std.specs.Prelude.{◌≡◌, ◌++◌, IfOk, OnOk, map, slice_index};
ghost use Rattle.report_text.specs.Summaries as spec;

use crate::states::{JOB_WORDS, STREAM_WORDS};
use base_types::{Bytes, Counts, Items, Net, NoMemory};
use std::alloc::Global;
use std::io::{self, Write};

/// The summary of so many entries and starts, and of streams and jobs by the counts of their states.
///
/// The states of streams are HOLD, READY, EXEC, STUCK, SUCC, ABEND and CANCEL in this order, those of jobs HOLD,
/// FENCE, READY, INTRO, EXEC, SUCC, ABEND, FAIL and CANCEL. A count of 0 has no line, and a count that is missing is 0.
/// What stands behind these counts is not printed, nor is anything of the network. `NoMemory` where memory runs out.
#[tactic(auto, unfolding(crate::specs::Summaries::summary_of))]
pub fn print_summary(
    alloc: Global,
    _net: &Net,
    streams: &Counts,
    jobs: &Counts,
    events: u32,
    starts: u32,
) -> Result<Bytes, NoMemory>
    ensures { IfOk result (λ bytes. bytes ≡ spec.summary_of streams.now jobs.now events starts) }
{
    let mut out = Vec::new(alloc);
    match write_summary(&mut out, streams, jobs, events, starts) {
        Ok(()) => Ok(Items::of_vec(out)),
        Err(_) => Err(NoMemory),
    }
}

#[tactic(auto, unfolding(crate::specs::Summaries::summary_of))]
fn write_summary(
    out: &mut Vec<u8>,
    streams: &Counts,
    jobs: &Counts,
    events: u32,
    starts: u32,
) -> io::Result<()>
    ensures { OnOk result (out.new.items ≡ out.old.items ++ spec.summary_of streams.now jobs.now events starts) }
{
    write!(out, "events {events}\nstarts {starts}\n")?;
    write_states(out, "streams", &STREAM_WORDS, streams)?;
    write_states(out, "jobs", &JOB_WORDS, jobs)
}

fn write_states(out: &mut Vec<u8>, what: &str, states: &[&str], counts: &Counts) -> io::Result<()>
    ensures { OnOk result (out.new.items ≡ out.old.items
        ++ spec.state_lines what.now (map (λ s. s.now) states.now) counts.now) }
{
    let mut place = 0;
    for state in states {
        write_state(out, what, state, count_at(counts, place))?;
        place += 1;
    }
    Ok(())
}

#[tactic(auto, unfolding(crate::specs::Summaries::state_line))]
fn write_state(out: &mut Vec<u8>, what: &str, state: &str, count: u32) -> io::Result<()>
    ensures { OnOk result (out.new.items ≡ out.old.items ++ spec.state_line what.now state.now count) }
{
    if count == 0 {
        return Ok(());
    }
    write!(out, "{what} {state} {count}\n")
}

/// The count that stands at this place, and 0 where it is missing.
fn count_at(counts: &Counts, place: usize) -> u32
    ensures { result ≡ slice_index counts.now place }
{
    match counts.get(place) {
        Some(count) => *count,
        None => 0,
    }
}
