//! The lines of a plan but its dependencies: streams, jobs and the parts of jobs.
ghost use Rattle.std.specs.Prelude.{◌≡◌, IfOk, map, option_map};
ghost use Rattle.syntax.specs.Splits.{words_of};
ghost use Rattle.record_rows.specs.Behind as behind;
ghost use Rattle.record_rows.specs.Plans as spec;
ghost use Rattle.record_rows.specs.Words.{text_of};
ghost use Rattle.record_rows.specs.declared.rows.PartRow.TheVariants as part;
ghost use Rattle.record_rows.specs.declared.rows.Row.TheVariants as row;
ghost use Rattle.record_rows.specs.Rows.{plan_row};

use crate::pairs::two_names;
use crate::quotes::text;
use crate::rows::{JobRow, PartRow, Ranged, Row, StreamRow};
use crate::spellings::is;
use crate::words::{number_up_to, priority};
use base_types::{DEFAULT_PRIORITY, NoMemory, Recovery, Text};
use std::alloc::Global;
use syntax::words;

/// `[prio N]`, and what is left of the words. None where the number is none.
fn given_priority<'a>(words: &'a [&'a str]) -> Option<(Ranged<u8>, &'a [&'a str])>
    ensures { option_map (λ p. (p.0, map (λ x. x.now) p.1.now)) result
        ≡ spec.priority_of (map (λ x. x.now) words.now) }
{
    match words {
        [key, n, rest @ ..] => {
            if *key != "prio" {
                return Some((Ranged::Within(DEFAULT_PRIORITY), words));
            }
            match priority(n) {
                Some(n) => Some((n, rest)),
                None => None,
            }
        }
        _ => Some((Ranged::Within(DEFAULT_PRIORITY), words)),
    }
}

/// A limit that is given.
fn given(limit: Ranged<u16>) -> Ranged<Option<u16>>
    ensures { result ≡ spec.given limit }
{
    match limit {
        Ranged::Within(n) => Ranged::Within(Some(n)),
        Ranged::OutOfRange => Ranged::OutOfRange,
    }
}

/// `[limit N]`, and what is left of the words. None where the number is none.
fn given_limit<'a>(words: &'a [&'a str]) -> Option<(Ranged<Option<u16>>, &'a [&'a str])>
    ensures { option_map (λ p. (p.0, map (λ x. x.now) p.1.now)) result
        ≡ spec.limit_of (map (λ x. x.now) words.now) }
{
    match words {
        [key, n, rest @ ..] => {
            if *key != "limit" {
                return Some((Ranged::Within(None), words));
            }
            match number_up_to(1024, n) {
                Some(n) => Some((given(n), rest)),
                None => None,
            }
        }
        _ => Some((Ranged::Within(None), words)),
    }
}

/// `[carry]`, which ends the line.
fn carry(words: &[&str]) -> Option<bool>
    ensures { result ≡ spec.carry_of (map (λ x. x.now) words.now) }
{
    match words {
        [] => Some(false),
        [word] => { if *word == "carry" { Some(true) } else { None } }
        _ => None,
    }
}

/// `[prio N] [limit N] [carry]`
fn terms(words: &[&str]) -> Option<(Ranged<u8>, Ranged<Option<u16>>, bool)>
    ensures { result ≡ behind.terms (map (λ x. x.now) words.now) }
{
    let (priority, rest) = given_priority(words)?;
    let (limit, rest) = given_limit(rest)?;
    let carry = carry(rest)?;
    Some((priority, limit, carry))
}

/// `[prio N] [limit N] [carry]`, behind the workstation and the name
fn stream_named(ws: Text, own: Text, words: &[&str]) -> Option<StreamRow>
    ensures { result ≡ behind.stream_named ws own (map (λ x. x.now) words.now) }
{
    match terms(words) {
        Some((priority, limit, carry)) => Some(StreamRow {
            ws,
            name: own,
            priority,
            limit,
            carry,
        }),
        None => None,
    }
}

/// `stream WS NAME [prio N] [limit N] [carry]`
#[tactic(auto, unfolding(crate::specs::Plans::stream_of))]
fn stream(alloc: Global, words: &[&str]) -> Result<Option<StreamRow>, NoMemory>
    ensures { IfOk result (λ o. o ≡ spec.stream_of (map (λ x. x.now) words.now)) }
{
    match words {
        [ws, own, rest @ ..] => match two_names(alloc, ws, own)? {
            Some((ws, own)) => Ok(stream_named(ws, own, rest)),
            None => Ok(None),
        },
        _ => Ok(None),
    }
}

/// A stream by the words of a text.
fn stream_in(alloc: Global, rest: &str) -> Result<Option<StreamRow>, NoMemory>
    ensures { IfOk result (λ o. o ≡ spec.stream_of (words_of rest.now)) }
{
    let words = words(alloc, rest)?;
    stream(alloc, &words)
}

/// A stream by the words behind `stream`.
fn stream_row(alloc: Global, rest: &str) -> Result<Option<Row>, NoMemory>
    ensures { IfOk result (λ o. o ≡ option_map row.Stream (spec.stream_of (words_of rest.now))) }
{
    match stream_in(alloc, rest) {
        Ok(Some(stream)) => Ok(Some(Row::Stream(stream))),
        Ok(None) => Ok(None),
        Err(error) => Err(error),
    }
}

/// `[prio N]`, which ends the line.
fn last_priority(words: &[&str]) -> Option<Ranged<u8>>
    ensures { result ≡ behind.last_priority (map (λ x. x.now) words.now) }
{
    let (priority, rest) = given_priority(words)?;
    if rest.is_empty() {
        Some(priority)
    } else {
        None
    }
}

/// `[prio N]`, behind the workstation and the name
fn job_named(ws: Text, own: Text, words: &[&str]) -> Option<JobRow>
    ensures { result ≡ behind.job_named ws own (map (λ x. x.now) words.now) }
{
    match last_priority(words) {
        Some(priority) => Some(JobRow {
            ws,
            name: own,
            priority,
        }),
        None => None,
    }
}

/// `job WS NAME [prio N]`
#[tactic(auto, unfolding(crate::specs::Plans::job_of))]
fn job(alloc: Global, words: &[&str]) -> Result<Option<JobRow>, NoMemory>
    ensures { IfOk result (λ o. o ≡ spec.job_of (map (λ x. x.now) words.now)) }
{
    match words {
        [ws, own, rest @ ..] => match two_names(alloc, ws, own)? {
            Some((ws, own)) => Ok(job_named(ws, own, rest)),
            None => Ok(None),
        },
        _ => Ok(None),
    }
}

/// A job by the words of a text.
fn job_in(alloc: Global, rest: &str) -> Result<Option<JobRow>, NoMemory>
    ensures { IfOk result (λ o. o ≡ spec.job_of (words_of rest.now)) }
{
    let words = words(alloc, rest)?;
    job(alloc, &words)
}

/// A job by the words behind `job`.
fn job_row(alloc: Global, rest: &str) -> Result<Option<Row>, NoMemory>
    ensures { IfOk result (λ o. o ≡ option_map row.Job (spec.job_of (words_of rest.now))) }
{
    match job_in(alloc, rest) {
        Ok(Some(job)) => Ok(Some(Row::Job(job))),
        Ok(None) => Ok(None),
        Err(error) => Err(error),
    }
}

/// A stream or a job, by the line's first word and what follows it. None where it is none.
#[tactic(auto, unfolding(crate::specs::Rows::plan_row))]
pub(crate) fn object_row(alloc: Global, word: &str, rest: &str) -> Result<Option<Row>, NoMemory>
    ensures { IfOk result (λ o. o ≡ plan_row word.now rest.now) }
{
    if is(word, "stream") {
        stream_row(alloc, rest)
    } else if is(word, "job") {
        job_row(alloc, rest)
    } else {
        Ok(None)
    }
}

/// `continue`, `rerun`
fn recovery(rest: &str) -> Option<Recovery>
    ensures { result ≡ spec.recovery_of rest.now }
{
    if is(rest, "continue") {
        Some(Recovery::Continue)
    } else if is(rest, "rerun") {
        Some(Recovery::Rerun)
    } else {
        None
    }
}

/// A text behind `do`.
fn command(alloc: Global, rest: &str) -> Result<Option<PartRow>, NoMemory>
    ensures { IfOk result (λ o. o ≡ option_map part.Command (text_of rest.now)) }
{
    Ok(text(alloc, rest)?.map(PartRow::Command))
}

/// A text behind `script`.
fn script(alloc: Global, rest: &str) -> Result<Option<PartRow>, NoMemory>
    ensures { IfOk result (λ o. o ≡ option_map part.Script (text_of rest.now)) }
{
    Ok(text(alloc, rest)?.map(PartRow::Script))
}

/// A text behind `logon`.
fn logon(alloc: Global, rest: &str) -> Result<Option<PartRow>, NoMemory>
    ensures { IfOk result (λ o. o ≡ option_map part.Logon (text_of rest.now)) }
{
    Ok(text(alloc, rest)?.map(PartRow::Logon))
}

/// A text behind `succ`.
fn condition(alloc: Global, rest: &str) -> Result<Option<PartRow>, NoMemory>
    ensures { IfOk result (λ o. o ≡ option_map part.Cond (text_of rest.now)) }
{
    Ok(text(alloc, rest)?.map(PartRow::Cond))
}

/// `do "TEXT"`, `script "TEXT"`, `logon "TEXT"`, `succ "COND"`, `recovery continue`, `recovery rerun`. None where it is
/// none of these.
#[tactic(auto, unfolding(crate::specs::Plans::part_of))]
pub(crate) fn part(alloc: Global, word: &str, rest: &str) -> Result<Option<PartRow>, NoMemory>
    ensures { IfOk result (λ o. o ≡ spec.part_of word.now rest.now) }
{
    if is(word, "do") {
        command(alloc, rest)
    } else if is(word, "script") {
        script(alloc, rest)
    } else if is(word, "logon") {
        logon(alloc, rest)
    } else if is(word, "succ") {
        condition(alloc, rest)
    } else if is(word, "recovery") {
        Ok(recovery(rest).map(PartRow::Recovery))
    } else {
        Ok(None)
    }
}
