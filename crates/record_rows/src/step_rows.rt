//! The lines that are steps.
ghost use Rattle.std.specs.Prelude.{◌≡◌, IfOk, Ok, map, option_map, true};
ghost use Rattle.std.specs.Str.{bytes_eq};
ghost use Rattle.syntax.specs.Names.{name_of};
ghost use Rattle.syntax.specs.Splits.{words_of};
ghost use Rattle.conman_syntax.specs.Rows.{due_line};
ghost use Rattle.record_rows.specs.Steps as spec;
ghost use Rattle.record_rows.specs.Behind as behind;
ghost use Rattle.record_rows.specs.Words.{code_of};
ghost use Rattle.record_rows.specs.declared.rows.CutRow.TheVariants as cut;
ghost use Rattle.record_rows.specs.declared.rows.OwnRow.TheVariants as own;
ghost use Rattle.record_rows.specs.declared.rows.StepRow.TheVariants as step;

use crate::pairs::pair;
use crate::rows::{CutRow, ObjRow, OwnRow, Ranged, StepRow};
use crate::shared_lines::SharedLine;
use crate::spellings::{first_word, is};
use crate::words::{code, count, dep_no, job_no, moment, stream_no};
use base_types::{NoMemory, Text};
use calendars::read_date;
use conman_syntax::{CommandFault, Line, parse_command};
use std::alloc::Global;
use syntax::{name, words};

/// `J RC`
fn ended(rest: &str) -> Option<OwnRow>
    ensures { result ≡ spec.ended_of rest.now }
{
    let (job, rc) = first_word(rest);
    let job = job_no(job)?;
    let rc = code(rc)?;
    Some(OwnRow::Ended(job, rc))
}

/// Whether the line gives a command. Others show, or are for a node itself.
fn gives_command(line: &Line) -> bool
    ensures { result ≡ spec.gives_command line.now }
{
    match line {
        Line::ShowJobs(_)
        | Line::ShowSchedules(_)
        | Line::ShowCpus(_)
        | Line::ShowPrompts(_)
        | Line::ShowResources(_)
        | Line::Link(_)
        | Line::Unlink(_)
        | Line::Shutdown
        | Line::JNextPlan(_) => false,
        _ => true,
    }
}

/// The step of a line that gives a command.
fn typed(alloc: Global, line: Line) -> Result<Option<OwnRow>, NoMemory>
    ensures { IfOk result (λ r. r ≡ option_map own.Typed (spec.command_of (Ok line))) }
{
    if gives_command(&line) {
        Ok(Some(OwnRow::Typed(SharedLine::of(alloc, line)?)))
    } else {
        Ok(None)
    }
}

/// An operator's line that gives a command, as a step. None where it is another, or none.
fn command(alloc: Global, text: &str) -> Result<Option<OwnRow>, NoMemory>
    ensures { IfOk result (λ o. o ≡ option_map own.Typed (spec.command_of (due_line text.now))) }
{
    match parse_command(alloc, text) {
        Ok(line) => typed(alloc, line),
        Err(CommandFault::NoMemory) => Err(NoMemory),
        Err(_) => Ok(None),
    }
}

/// `turn W T`, `started W J`, `failed W J`, `ended W J RC`, `type W LINE`, behind W. None where it is none of these.
#[tactic(auto, unfolding(crate::specs::Steps::own_of))]
fn own(alloc: Global, word: &str, rest: &str) -> Result<Option<OwnRow>, NoMemory>
    ensures { IfOk result (λ o. o ≡ spec.own_of word.now rest.now) }
{
    if is(word, "turn") {
        Ok(moment(rest).map(OwnRow::Turn))
    } else if is(word, "started") {
        Ok(job_no(rest).map(OwnRow::Started))
    } else if is(word, "failed") {
        Ok(job_no(rest).map(OwnRow::Failed))
    } else if is(word, "ended") {
        Ok(ended(rest))
    } else if is(word, "type") {
        command(alloc, rest)
    } else {
        Ok(None)
    }
}

/// What a workstation does or is told, behind its name
fn step_on(alloc: Global, ws: Text, word: &str, rest: &str) -> Result<Option<StepRow>, NoMemory>
    ensures { IfOk result (λ o. o ≡ option_map (step.Own ws) (spec.own_of word.now rest.now)) }
{
    match own(alloc, word, rest) {
        Ok(Some(step)) => Ok(Some(StepRow::Own(ws, step))),
        Ok(None) => Ok(None),
        Err(error) => Err(error),
    }
}

/// A step that is a workstation's own.
#[tactic(auto, unfolding(crate::specs::Steps::own_step))]
fn own_step(alloc: Global, word: &str, rest: &str) -> Result<Option<StepRow>, NoMemory>
    ensures { IfOk result (λ o. o ≡ spec.own_step word.now rest.now) }
{
    let (ws, rest) = first_word(rest);
    let Some(ws) = name(alloc, ws)? else {
        return Ok(None);
    };
    step_on(alloc, ws, word, rest)
}

/// `K`, behind two names
fn packet_between(from: Text, to: Text, k: &str) -> Option<(Text, Text, Ranged<u32>)>
    ensures { result ≡ behind.packet_between from to k.now }
{
    let k = count(k)?;
    Some((from, to, k))
}

/// `B K`, behind a name
fn packet_from(
    alloc: Global,
    from: Text,
    to: &str,
    k: &str,
) -> Result<Option<(Text, Text, Ranged<u32>)>, NoMemory>
    ensures { IfOk result (λ o. o ≡ behind.packet_from from to.now k.now) }
{
    let Some(to) = name(alloc, to)? else {
        return Ok(None);
    };
    Ok(packet_between(from, to, k))
}

/// `A B K`
fn packet(alloc: Global, words: &[&str]) -> Result<Option<(Text, Text, Ranged<u32>)>, NoMemory>
    ensures { IfOk result (λ o. o ≡ spec.packet_of (map (λ x. x.now) words.now)) }
{
    match words {
        [a, b, k] => {
            let Some(from) = name(alloc, a)? else {
                return Ok(None);
            };
            packet_from(alloc, from, b, k)
        }
        _ => Ok(None),
    }
}

/// `A B K`, as the words of a text
fn packet_in(alloc: Global, rest: &str) -> Result<Option<(Text, Text, Ranged<u32>)>, NoMemory>
    ensures { IfOk result (λ o. o ≡ spec.packet_of (words_of rest.now)) }
{
    let words = words(alloc, rest)?;
    packet(alloc, &words)
}

/// `RC`, behind the workstation
fn reap_on(ws: Text, rc: &str) -> Option<StepRow>
    ensures { result ≡ option_map (step.Reap ws) (code_of rc.now) }
{
    match code(rc) {
        Some(rc) => Some(StepRow::Reap(ws, rc)),
        None => None,
    }
}

/// `W RC`
#[tactic(auto, unfolding(crate::specs::Steps::reap_of))]
fn reap(alloc: Global, rest: &str) -> Result<Option<StepRow>, NoMemory>
    ensures { IfOk result (λ o. o ≡ spec.reap_of rest.now) }
{
    let (ws, rc) = first_word(rest);
    match name(alloc, ws) {
        Ok(Some(ws)) => Ok(reap_on(ws, rc)),
        Ok(None) => Ok(None),
        Err(error) => Err(error),
    }
}

/// `job J`, `stream S`
fn object(kind: &str, n: &str) -> Option<ObjRow>
    ensures { result ≡ spec.object_of kind.now n.now }
{
    if is(kind, "job") {
        job_no(n).map(ObjRow::Job)
    } else if is(kind, "stream") {
        stream_no(n).map(ObjRow::Stream)
    } else {
        None
    }
}

/// `job J I`, `stream S I`, behind the workstation
fn fulfil_on(ws: Text, kind: &str, n: &str, i: &str) -> Option<StepRow>
    ensures { result ≡ behind.fulfil_on ws kind.now n.now i.now }
{
    let object = object(kind, n)?;
    let i = dep_no(i)?;
    Some(StepRow::Fulfil(ws, object, i))
}

/// `W job J I`, `W stream S I`
#[tactic(auto, unfolding(crate::specs::Steps::fulfil_of))]
fn fulfil(alloc: Global, words: &[&str]) -> Result<Option<StepRow>, NoMemory>
    ensures { IfOk result (λ o. o ≡ spec.fulfil_of (map (λ x. x.now) words.now)) }
{
    match words {
        [ws, kind, n, i] => {
            let Some(ws) = name(alloc, ws)? else {
                return Ok(None);
            };
            Ok(fulfil_on(ws, kind, n, i))
        }
        _ => Ok(None),
    }
}

fn is_same(a: &Text, b: &Text) -> bool
    ensures { result ≡ bytes_eq a.now b.now }
{
    a.as_str() == b.as_str()
}

/// What a workstation does or is told, as the step in which it stops
fn own_as_cut(alloc: Global, word: &str, rest: &str) -> Result<Option<CutRow>, NoMemory>
    ensures { IfOk result (λ o. o ≡ option_map cut.Own (spec.own_of word.now rest.now)) }
{
    match own(alloc, word, rest) {
        Ok(Some(own)) => Ok(Some(CutRow::Own(own))),
        Ok(None) => Ok(None),
        Err(error) => Err(error),
    }
}

/// A step of this workstation's own, in which it stops.
#[tactic(auto, unfolding(crate::specs::Steps::own_cut))]
fn own_cut(alloc: Global, ws: &Text, word: &str, rest: &str) -> Result<Option<CutRow>, NoMemory>
    ensures { IfOk result (λ o. o ≡ spec.own_cut ws.now word.now rest.now) }
{
    let (named, rest) = first_word(rest);
    let Some(named) = name(alloc, named)? else {
        return Ok(None);
    };
    if !is_same(&named, ws) {
        return Ok(None);
    }
    own_as_cut(alloc, word, rest)
}

/// The packet that was read, where it goes to this workstation.
fn packet_to(ws: &Text, packet: (Text, Text, Ranged<u32>)) -> Option<CutRow>
    ensures { result ≡ behind.packet_to ws.now packet }
{
    let (from, to, k) = packet;
    if is_same(&to, ws) {
        Some(CutRow::Deliver(from, k))
    } else {
        None
    }
}

/// A packet to this workstation, at which it stops.
#[tactic(auto, unfolding(crate::specs::Steps::packet_cut))]
fn packet_cut(alloc: Global, ws: &Text, rest: &str) -> Result<Option<CutRow>, NoMemory>
    ensures { IfOk result (λ o. o ≡ spec.packet_cut ws.now rest.now) }
{
    match packet_in(alloc, rest) {
        Ok(Some(packet)) => Ok(packet_to(ws, packet)),
        Ok(None) => Ok(None),
        Err(error) => Err(error),
    }
}

/// A step in which this workstation stops.
#[tactic(auto, unfolding(crate::specs::Steps::cut_of))]
fn cut(alloc: Global, ws: &Text, text: &str) -> Result<Option<CutRow>, NoMemory>
    ensures { IfOk result (λ o. o ≡ spec.cut_of ws.now text.now) }
{
    if is(text, "next") {
        return Ok(Some(CutRow::Next));
    }
    let (word, rest) = first_word(text);
    if is(word, "next") {
        Ok(read_date(rest).map(CutRow::NextDay))
    } else if is(word, "deliver") {
        packet_cut(alloc, ws, rest)
    } else {
        own_cut(alloc, ws, word, rest)
    }
}

/// `kept`, `lost`
fn kept(word: &str) -> Option<bool>
    ensures { result ≡ spec.kept_of word.now }
{
    if is(word, "kept") {
        Some(true)
    } else if is(word, "lost") {
        Some(false)
    } else {
        None
    }
}

/// `kept STEP`, `lost STEP`
#[tactic(auto, unfolding(crate::specs::Steps::crash_in))]
fn crash_in(alloc: Global, ws: Text, rest: &str) -> Result<Option<StepRow>, NoMemory>
    ensures { IfOk result (λ o. o ≡ spec.crash_in ws rest.now) }
{
    let (word, rest) = first_word(rest);
    let Some(kept) = kept(word) else {
        return Ok(None);
    };
    let Some(step) = cut(alloc, &ws, rest)? else {
        return Ok(None);
    };
    Ok(Some(StepRow::CrashIn(ws, kept, step)))
}

/// `W`, `W kept STEP`, `W lost STEP`
#[tactic(auto, unfolding(crate::specs::Steps::crash_of))]
fn crash(alloc: Global, rest: &str) -> Result<Option<StepRow>, NoMemory>
    ensures { IfOk result (λ o. o ≡ spec.crash_of rest.now) }
{
    let (word, behind) = first_word(rest);
    let Some(ws) = name(alloc, word)? else {
        return Ok(None);
    };
    if word == rest {
        return Ok(Some(StepRow::Crash(ws)));
    }
    crash_in(alloc, ws, behind)
}

/// `A B`, behind `link`
fn link(alloc: Global, rest: &str) -> Result<Option<StepRow>, NoMemory>
    ensures { IfOk result (λ o. o ≡ option_map (λ p. step.Link p.0 p.1) (spec.pair_of rest.now)) }
{
    match pair(alloc, rest) {
        Ok(Some((a, b))) => Ok(Some(StepRow::Link(a, b))),
        Ok(None) => Ok(None),
        Err(error) => Err(error),
    }
}

/// `A B`, behind `unlink`
fn unlink(alloc: Global, rest: &str) -> Result<Option<StepRow>, NoMemory>
    ensures { IfOk result (λ o. o ≡ option_map (λ p. step.Unlink p.0 p.1) (spec.pair_of rest.now)) }
{
    match pair(alloc, rest) {
        Ok(Some((a, b))) => Ok(Some(StepRow::Unlink(a, b))),
        Ok(None) => Ok(None),
        Err(error) => Err(error),
    }
}

/// `A B`, behind `flow`
fn flow(alloc: Global, rest: &str) -> Result<Option<StepRow>, NoMemory>
    ensures { IfOk result (λ o. o ≡ option_map (λ p. step.Flow p.0 p.1) (spec.pair_of rest.now)) }
{
    match pair(alloc, rest) {
        Ok(Some((a, b))) => Ok(Some(StepRow::Flow(a, b))),
        Ok(None) => Ok(None),
        Err(error) => Err(error),
    }
}

/// `A B K`, behind `deliver`
fn deliver(alloc: Global, rest: &str) -> Result<Option<StepRow>, NoMemory>
    ensures { IfOk result (λ o. o ≡ option_map (λ p. step.Deliver p.0 p.1 p.2) (spec.packet_of (words_of rest.now))) }
{
    match packet_in(alloc, rest)? {
        Some((from, to, k)) => Ok(Some(StepRow::Deliver(from, to, k))),
        None => Ok(None),
    }
}

/// `W job J I`, `W stream S I`, as the words of a text
fn fulfil_in(alloc: Global, rest: &str) -> Result<Option<StepRow>, NoMemory>
    ensures { IfOk result (λ o. o ≡ spec.fulfil_of (words_of rest.now)) }
{
    match words(alloc, rest) {
        Ok(words) => fulfil(alloc, &words),
        Err(error) => Err(error),
    }
}

/// `W`, behind `recover`
fn recover(alloc: Global, rest: &str) -> Result<Option<StepRow>, NoMemory>
    ensures { IfOk result (λ o. o ≡ option_map step.Recover (name_of rest.now)) }
{
    match name(alloc, rest) {
        Ok(Some(ws)) => Ok(Some(StepRow::Recover(ws))),
        Ok(None) => Ok(None),
        Err(error) => Err(error),
    }
}

/// A step by its first word and what follows it.
#[tactic(auto, unfolding(crate::specs::Steps::step_of_word))]
fn step_of_word(alloc: Global, word: &str, rest: &str) -> Result<Option<StepRow>, NoMemory>
    ensures { IfOk result (λ o. o ≡ spec.step_of_word word.now rest.now) }
{
    if is(word, "next") {
        Ok(read_date(rest).map(StepRow::NextDay))
    } else if is(word, "link") {
        link(alloc, rest)
    } else if is(word, "unlink") {
        unlink(alloc, rest)
    } else if is(word, "deliver") {
        deliver(alloc, rest)
    } else if is(word, "flow") {
        flow(alloc, rest)
    } else if is(word, "reap") {
        reap(alloc, rest)
    } else if is(word, "crash") {
        crash(alloc, rest)
    } else if is(word, "fulfil") {
        fulfil_in(alloc, rest)
    } else if is(word, "recover") {
        recover(alloc, rest)
    } else {
        own_step(alloc, word, rest)
    }
}

/// Whether a step that is a workstation's own begins with this word.
fn is_own_word(word: &str) -> bool
    ensures { result ≡ spec.is_own_word word.now }
{
    is(word, "turn")
        || is(word, "type")
        || is(word, "ended")
        || is(word, "started")
        || is(word, "failed")
}

/// Whether one of the steps that a long record has most of begins with this word.
pub(crate) fn is_frequent(word: &str) -> bool
    ensures { result ≡ spec.is_frequent word.now }
{
    is(word, "flow") || is(word, "reap") || is(word, "deliver") || is_own_word(word)
}

/// One of the steps that a long record has most of, by its first word and what follows it. Few words are compared.
#[tactic(auto, using(crate::proofs::StepWords::flow_first, crate::proofs::StepWords::reap_first, crate::proofs::StepWords::deliver_first, crate::proofs::StepWords::own_first))]
pub(crate) fn frequent_step(
    alloc: Global,
    word: &str,
    rest: &str,
) -> Result<Option<StepRow>, NoMemory>
    requires { spec.is_frequent word.now ≡ true }
    ensures { IfOk result (λ o. o ≡ spec.step_of_word word.now rest.now) }
{
    if is(word, "flow") {
        flow(alloc, rest)
    } else if is(word, "reap") {
        reap(alloc, rest)
    } else if is(word, "deliver") {
        deliver(alloc, rest)
    } else {
        own_step(alloc, word, rest)
    }
}

/// A line that is a step. None where it is none.
#[tactic(auto, unfolding(crate::specs::Steps::step_of))]
pub(crate) fn step(alloc: Global, text: &str) -> Result<Option<StepRow>, NoMemory>
    ensures { IfOk result (λ o. o ≡ spec.step_of text.now) }
{
    if is(text, "next") {
        return Ok(Some(StepRow::Next));
    }
    let (word, rest) = first_word(text);
    step_of_word(alloc, word, rest)
}
