//! What streams and jobs depend on.
ghost use Rattle.std.specs.Prelude.{◌≡◌, [], IfOk, None, Some, filter_map};
ghost use Rattle.model.specs.Types.{Follows, Outside, Own, Plain, Prompt};
ghost use Rattle.record_script.specs.Numbers.{within, ws_no};
ghost use Rattle.record_script.specs.Plans as spec;

use crate::numbers::Numbers;
use crate::values::{copy_texts, text_within, within};
use base_types::{Copied, Dep, DraftDep, DraftDeps, Items, Moment, NoMemory, PromptRef, Text};
use record_rows::{DepRow, Ranged, Row, StreamRow};
use std::alloc::Global;

/// A dependency of an object on workstation `ws`, in a stream.
#[tactic(auto, unfolding(crate::specs::Plans::draft_of))]
fn draft_dep<'a>(
    alloc: Global,
    numbers: &Numbers<'a>,
    stream: &'a StreamRow,
    ws: &'a Text,
    dep: &'a DepRow,
) -> Result<DraftDep, NoMemory>
    ensures { IfOk result (λ d. d ≡ spec.draft_of numbers.now stream.now ws.now dep.now) }
{
    match dep {
        DepRow::At(t) => Ok(DraftDep::Plain(Dep::At(within(Moment(0), t)))),
        DepRow::Until(t, passed) => Ok(DraftDep::Plain(Dep::Until(within(Moment(0), t), *passed))),
        DepRow::Deadline(t) => Ok(DraftDep::Plain(Dep::Deadline(within(Moment(0), t)))),
        DepRow::FollowsStream(w, name) => follows_stream(numbers, w, name),
        DepRow::FollowsJob(w, name, job) => follows(numbers, w, name, job),
        DepRow::FollowsOwn(job) => follows(numbers, &stream.ws, &stream.name, job),
        DepRow::Needs(units, name) => Ok(DraftDep::Plain(Dep::Needs(
            numbers.resource(ws, name),
            within(0, units),
        ))),
        DepRow::AskGlobal(name) => {
            let prompt = PromptRef::Global(numbers.prompt(name));
            Ok(DraftDep::Plain(Dep::Prompt(prompt)))
        }
        DepRow::AskOwn(text) => asks_own(alloc, text),
        DepRow::Opens(path) => opens(alloc, path),
    }
}

/// A job of a stream.
fn follows<'a>(
    numbers: &Numbers<'a>,
    ws: &'a Text,
    stream: &'a Text,
    job: &'a Text,
) -> Result<DraftDep, NoMemory>
    ensures { IfOk result (λ d. d ≡ Follows (ws_no numbers.now ws.now) stream.now (Some job.now)) }
{
    match copy_texts(stream, job) {
        Ok((name, job)) => Ok(DraftDep::Follows(numbers.ws(ws), name, Some(job))),
        Err(error) => Err(error),
    }
}

/// A stream.
fn follows_stream<'a>(
    numbers: &Numbers<'a>,
    ws: &'a Text,
    stream: &'a Text,
) -> Result<DraftDep, NoMemory>
    ensures { IfOk result (λ d. d ≡ Follows (ws_no numbers.now ws.now) stream.now None) }
{
    match stream.copy() {
        Ok(name) => Ok(DraftDep::Follows(numbers.ws(ws), name, None)),
        Err(error) => Err(error),
    }
}

/// A prompt with a text of its own.
fn asks_own(alloc: Global, text: &Ranged<Text>) -> Result<DraftDep, NoMemory>
    ensures { IfOk result (λ d. d ≡ Plain (Prompt (Own (within [] text.now)))) }
{
    match text_within(alloc, text) {
        Ok(text) => Ok(DraftDep::Plain(Dep::Prompt(PromptRef::Own(text)))),
        Err(error) => Err(error),
    }
}

/// A file.
fn opens(alloc: Global, path: &Ranged<Text>) -> Result<DraftDep, NoMemory>
    ensures { IfOk result (λ d. d ≡ Plain (Outside (within [] path.now))) }
{
    match text_within(alloc, path) {
        Ok(path) => Ok(DraftDep::Plain(Dep::Outside(path))),
        Err(error) => Err(error),
    }
}

/// The dependencies among rows of an object on workstation `ws`, in a stream.
pub(crate) fn draft_deps<'a>(
    alloc: Global,
    numbers: &Numbers<'a>,
    stream: &'a StreamRow,
    ws: &'a Text,
    rows: &'a [Row],
) -> Result<DraftDeps, NoMemory>
    ensures { IfOk result (λ l. l ≡ filter_map (spec.dep_in numbers.now stream.now ws.now) rows.now) }
{
    let mut deps = Items::new(alloc);
    for row in rows {
        if let Row::Dep(dep) = row {
            deps.push(draft_dep(alloc, numbers, stream, ws, dep)?)?;
        }
    }
    Ok(deps)
}
