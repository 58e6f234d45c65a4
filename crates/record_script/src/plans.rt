//! The plans of a record.
ghost use Rattle.std.specs.Prelude.{◌≡◌, IfOk};
ghost use Rattle.record_script.specs.Plans as spec;

use crate::deps::draft_deps;
use crate::jobs::job_drafts;
use crate::numbers::Numbers;
use crate::scripts::Plans;
use crate::spans::{until_object, until_section, until_stream};
use crate::values::within;
use base_types::{Copied, Items, NoMemory, StreamDraft, StreamDrafts};
use record_rows::{Row, StreamRow};
use std::alloc::Global;

/// A stream, with the rows behind it.
#[tactic(auto, unfolding(crate::specs::Plans::stream_draft))]
fn stream_draft<'a>(
    alloc: Global,
    numbers: &Numbers<'a>,
    stream: &'a StreamRow,
    behind: &'a [Row],
) -> Result<StreamDraft, NoMemory>
    ensures { IfOk result (λ d. d ≡ spec.stream_draft numbers.now stream.now behind.now) }
{
    let own = until_stream(behind);
    Ok(StreamDraft {
        ws: numbers.ws(&stream.ws),
        name: stream.name.copy()?,
        priority: within(0, &stream.priority),
        limit: within(None, &stream.limit),
        carry: stream.carry,
        deps: draft_deps(alloc, numbers, stream, &stream.ws, until_object(own))?,
        jobs: job_drafts(alloc, numbers, stream, own)?,
    })
}

/// The streams among rows of a section.
fn stream_drafts<'a>(
    alloc: Global,
    numbers: &Numbers<'a>,
    rows: &'a [Row],
) -> Result<StreamDrafts, NoMemory>
    ensures { IfOk result (λ l. l ≡ spec.streams_in numbers.now rows.now) }
{
    let mut streams = Items::new(alloc);
    for (i, row) in rows.iter().enumerate() {
        if let Row::Stream(stream) = row {
            streams.push(stream_draft(alloc, numbers, stream, &rows[i + 1..])?)?;
        }
    }
    Ok(streams)
}

/// The plans that rows define, one for each section. The only error is that memory ran out.
pub(crate) fn plans<'a>(
    alloc: Global,
    numbers: &Numbers<'a>,
    rows: &'a [Row],
) -> Result<Plans, NoMemory>
    ensures { IfOk result (λ l. l ≡ spec.plans_with numbers.now rows.now) }
{
    let mut plans = Items::new(alloc);
    for (i, row) in rows.iter().enumerate() {
        if let Row::Plan = row {
            let section = until_section(&rows[i + 1..]);
            plans.push(stream_drafts(alloc, numbers, section)?)?;
        }
    }
    Ok(plans)
}
