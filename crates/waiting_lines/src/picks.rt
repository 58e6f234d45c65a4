//! Which names are asked for.
ghost use Rattle.std.specs.Prelude.{◌≡◌, IfOk};
ghost use Rattle.std.specs.Option.{option_copied};
ghost use Rattle.owner_fold.specs.DocPlaces.{stream_job};
ghost use Rattle.waiting_lines.specs.Answers.{is_asked};
ghost use Rattle.waiting_lines.specs.Names.{job_text, stream_text};

use crate::names::{write_job, write_stream};
use base_types::{JobDoc, NoMemory, StreamDoc, Text};
use network_tree::Network;
use node_replies::matches;
use std::alloc::Global;

/// Whether the name of a job is of the pattern, where there is one.
pub(crate) fn is_job_asked(
    alloc: Global,
    net: &Network,
    pattern: Option<&Text>,
    parent: &StreamDoc,
    doc: &JobDoc,
) -> Result<bool, NoMemory>
    ensures { IfOk result (λ yes. yes ≡ is_asked (option_copied pattern.entry)
        (job_text net.now (stream_job parent.now doc.now))) }
{
    let Some(pattern) = pattern else {
        return Ok(true);
    };
    let mut name = Vec::new(alloc);
    match write_job(&mut name, net, parent, doc) {
        Ok(()) => matches(alloc, pattern.as_str().as_bytes(), &name),
        Err(_) => Err(NoMemory),
    }
}

/// Whether the name of a stream is of the pattern, where there is one.
pub(crate) fn is_stream_asked(
    alloc: Global,
    net: &Network,
    pattern: Option<&Text>,
    doc: &StreamDoc,
) -> Result<bool, NoMemory>
    ensures { IfOk result (λ yes. yes ≡ is_asked (option_copied pattern.entry) (stream_text net.now doc.now)) }
{
    let Some(pattern) = pattern else {
        return Ok(true);
    };
    let mut name = Vec::new(alloc);
    match write_stream(&mut name, net, doc) {
        Ok(()) => matches(alloc, pattern.as_str().as_bytes(), &name),
        Err(_) => Err(NoMemory),
    }
}
