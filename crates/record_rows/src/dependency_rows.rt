//! The lines that are dependencies of the object above.
ghost use Rattle.std.specs.Prelude.{◌≡◌, IfOk, option_map};
ghost use Rattle.syntax.specs.Names.{name_of};
ghost use Rattle.record_rows.specs.Plans as spec;
ghost use Rattle.record_rows.specs.Words.{text_of};
ghost use Rattle.record_rows.specs.declared.rows.DepRow.TheVariants as dep;

use crate::quotes::text;
use crate::rows::DepRow;
use crate::spellings::{first_word, is};
use crate::words::{moment, number_up_to};
use base_types::{NoMemory, Text};
use conman_syntax::passed;
use std::alloc::Global;
use syntax::name;

/// `until T suppr`, `until T cont`, `until T canc`
#[tactic(auto, unfolding(crate::specs::Plans::until_of))]
fn until(rest: &str) -> Option<DepRow>
    ensures { result ≡ spec.until_of rest.now }
{
    let (time, word) = first_word(rest);
    let time = moment(time)?;
    let passed = passed(word)?;
    Some(DepRow::Until(time, passed))
}

/// `needs N RES`
#[tactic(auto, unfolding(crate::specs::Plans::needs_of))]
fn needs(alloc: Global, rest: &str) -> Result<Option<DepRow>, NoMemory>
    ensures { IfOk result (λ o. o ≡ spec.needs_of rest.now) }
{
    let (units, own) = first_word(rest);
    let Some(units) = number_up_to(1024, units) else {
        return Ok(None);
    };
    let Some(own) = name(alloc, own)? else {
        return Ok(None);
    };
    Ok(Some(DepRow::Needs(units, own)))
}

/// `ask NAME`, `ask "TEXT"`
#[tactic(auto, unfolding(crate::specs::Plans::ask_of))]
fn ask(alloc: Global, rest: &str) -> Result<Option<DepRow>, NoMemory>
    ensures { IfOk result (λ o. o ≡ spec.ask_of rest.now) }
{
    let bytes = rest.as_bytes();
    if !bytes.is_empty() && bytes[0] == b'"' {
        return Ok(text(alloc, rest)?.map(DepRow::AskOwn));
    }
    Ok(name(alloc, rest)?.map(DepRow::AskGlobal))
}

/// What stands before the first `#`, and behind it; nothing stands behind it where there is none.
fn cut_at_hash(word: &str) -> (&str, &str)
    ensures before { result.0.now ≡ spec.before_byte 35 word.now }
    ensures behind { result.1.now ≡ spec.after_byte 35 word.now }
{
    match word.split_once('#') {
        Some((before, behind)) => (before, behind),
        None => (word, ""),
    }
}

/// What stands before the first `.`, and behind it; nothing stands behind it where there is none.
fn cut_at_dot(word: &str) -> (&str, &str)
    ensures before { result.0.now ≡ spec.before_byte 46 word.now }
    ensures behind { result.1.now ≡ spec.after_byte 46 word.now }
{
    match word.split_once('.') {
        Some((before, behind)) => (before, behind),
        None => (word, ""),
    }
}

/// `WS#STREAM`, `WS#STREAM.JOB`, `JOB`
#[tactic(auto, unfolding(crate::specs::Plans::follows_of))]
fn follows(alloc: Global, word: &str) -> Result<Option<DepRow>, NoMemory>
    ensures { IfOk result (λ o. o ≡ spec.follows_of word.now) }
{
    let (ws, behind) = cut_at_hash(word);
    if ws == word {
        return Ok(name(alloc, word)?.map(DepRow::FollowsOwn));
    }
    let Some(ws) = name(alloc, ws)? else {
        return Ok(None);
    };
    follows_on(alloc, ws, behind)
}

/// `JOB` of a stream
fn follows_job(alloc: Global, ws: Text, stream: Text, job: &str) -> Result<Option<DepRow>, NoMemory>
    ensures { IfOk result (λ o. o ≡ option_map (dep.FollowsJob ws stream) (name_of job.now)) }
{
    match name(alloc, job) {
        Ok(Some(job)) => Ok(Some(DepRow::FollowsJob(ws, stream, job))),
        Ok(None) => Ok(None),
        Err(error) => Err(error),
    }
}

/// `STREAM`, `STREAM.JOB` on a workstation
fn follows_on(alloc: Global, ws: Text, word: &str) -> Result<Option<DepRow>, NoMemory>
    ensures { IfOk result (λ o. o ≡ spec.follows_on ws word.now) }
{
    let (stream, job) = cut_at_dot(word);
    let Some(own) = name(alloc, stream)? else {
        return Ok(None);
    };
    if stream == word {
        return Ok(Some(DepRow::FollowsStream(ws, own)));
    }
    follows_job(alloc, ws, own, job)
}

/// A file by the text behind `opens`.
fn opens(alloc: Global, rest: &str) -> Result<Option<DepRow>, NoMemory>
    ensures { IfOk result (λ o. o ≡ option_map dep.Opens (text_of rest.now)) }
{
    Ok(text(alloc, rest)?.map(DepRow::Opens))
}

/// A dependency, by the line's first word and what follows it. None where it is none.
#[tactic(auto, unfolding(crate::specs::Plans::dep_of))]
pub(crate) fn dep(alloc: Global, word: &str, rest: &str) -> Result<Option<DepRow>, NoMemory>
    ensures { IfOk result (λ o. o ≡ spec.dep_of word.now rest.now) }
{
    if is(word, "at") {
        Ok(moment(rest).map(DepRow::At))
    } else if is(word, "until") {
        Ok(until(rest))
    } else if is(word, "deadline") {
        Ok(moment(rest).map(DepRow::Deadline))
    } else if is(word, "follows") {
        follows(alloc, rest)
    } else if is(word, "needs") {
        needs(alloc, rest)
    } else if is(word, "ask") {
        ask(alloc, rest)
    } else if is(word, "opens") {
        opens(alloc, rest)
    } else {
        Ok(None)
    }
}
