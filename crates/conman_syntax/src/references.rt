//! What an argument names: streams, jobs, resources, and the text of a submitted job.
ghost use Rattle.std.specs.Prelude.{◌≡◌, ◌<◌, IfOk};
ghost use Rattle.conman_syntax.specs.References as spec;
ghost use Rattle.conman_syntax.specs.References.{stream_of, bracketed_of, job_of, job_or_stream_of, resource_of};
ghost use Rattle.conman_syntax.specs.References.{object_of, object_from, limit_target_of, limit_target_from};
ghost use Rattle.conman_syntax.specs.References.{reply_target_of, work_of, work_from, work_for, before, behind};

use crate::heads::What;
use crate::lines::{JobRef, ObjRef, StreamRef};
use base_types::{NoMemory, Text};
use std::alloc::Global;
use syntax::{is, name, number_u32, quoted};

/// Whose limit a line sets.
#[derive(Drop)]
pub enum LimitTarget {
    Cpu(Text),
    Stream(StreamRef),
}

/// What a line answers.
#[derive(Drop)]
pub enum ReplyTarget {
    /// A prompt of the network.
    Prompt(Text),
    /// An object's own prompt.
    Own(ObjRef),
}

/// `job JOB` or `sched STREAM`; where the short form says which, the name alone.
#[tactic(auto, unfolding(crate::specs::References::object_of))]
pub fn object(alloc: Global, what: Option<What>, argument: &str) -> Result<Option<ObjRef>, NoMemory>
    ensures { IfOk result (λ o. o ≡ object_of what argument.now) }
{
    let Some(kind) = what_of(what, argument) else {
        return Ok(None);
    };
    object_from(alloc, kind, named_by(what, argument))
}

/// `cpu W` or `sched STREAM`; where the short form says which, the name alone.
#[tactic(auto, unfolding(crate::specs::References::limit_target_of))]
pub fn limit_target(
    alloc: Global,
    what: Option<What>,
    argument: &str,
) -> Result<Option<LimitTarget>, NoMemory>
    ensures { IfOk result (λ o. o ≡ limit_target_of what argument.now) }
{
    let Some(kind) = what_of(what, argument) else {
        return Ok(None);
    };
    limit_target_from(alloc, kind, named_by(what, argument))
}

/// `job JOB`, `sched STREAM` or the name of a prompt.
#[tactic(auto, unfolding(crate::specs::References::reply_target_of))]
pub fn reply_target(alloc: Global, argument: &str) -> Result<Option<ReplyTarget>, NoMemory>
    ensures { IfOk result (λ o. o ≡ reply_target_of argument.now) }
{
    if has(argument, ' ') {
        Ok(object(alloc, None, argument)?.map(ReplyTarget::Own))
    } else {
        Ok(name(alloc, argument)?.map(ReplyTarget::Prompt))
    }
}

/// `docommand W#"TEXT"`; where the short form says so, without that word. The workstation and the text.
#[tactic(auto, unfolding(crate::specs::References::work_of))]
pub fn work(
    alloc: Global,
    what: Option<What>,
    argument: &str,
) -> Result<Option<(Text, Text)>, NoMemory>
    ensures { IfOk result (λ o. o ≡ work_of what argument.now) }
{
    let Some(kind) = what_of(what, argument) else {
        return Ok(None);
    };
    work_for(alloc, kind, named_by(what, argument))
}

/// A job where there is a dot, else a stream.
#[tactic(auto, unfolding(crate::specs::References::job_or_stream_of))]
pub fn job_or_stream(alloc: Global, text: &str) -> Result<Option<ObjRef>, NoMemory>
    ensures { IfOk result (λ o. o ≡ job_or_stream_of text.now) }
{
    if has(text, '.') {
        object_from(alloc, What::Job, text)
    } else {
        object_from(alloc, What::Sched, text)
    }
}

/// A stream, a dot and a name.
#[tactic(auto, unfolding(crate::specs::References::job_of))]
pub fn job(alloc: Global, text: &str) -> Result<Option<JobRef>, NoMemory>
    ensures { IfOk result (λ o. o ≡ job_of text.now) }
{
    let (of, called) = cut(text, '.');
    let Some(stream) = stream(alloc, of)? else {
        return Ok(None);
    };
    let Some(name) = name(alloc, called)? else {
        return Ok(None);
    };
    Ok(Some(JobRef { stream, name }))
}

/// `S` or `S[n]`, behind `W#` or without it.
#[tactic(auto, unfolding(crate::specs::References::stream_of))]
pub fn stream(alloc: Global, text: &str) -> Result<Option<StreamRef>, NoMemory>
    ensures { IfOk result (λ o. o ≡ stream_of text.now) }
{
    if !has(text, '#') {
        return stream_at(alloc, None, text);
    }
    let (ws, rest) = cut(text, '#');
    let Some(ws) = name(alloc, ws)? else {
        return Ok(None);
    };
    stream_at(alloc, Some(ws), rest)
}

/// `W#R`: a workstation and the name of its resource.
#[tactic(auto, unfolding(crate::specs::References::resource_of))]
pub fn resource_names(alloc: Global, text: &str) -> Result<Option<(Text, Text)>, NoMemory>
    ensures { IfOk result (λ o. o ≡ resource_of text.now) }
{
    let (ws, called) = cut(text, '#');
    let Some(ws) = name(alloc, ws)? else {
        return Ok(None);
    };
    let Some(called) = name(alloc, called)? else {
        return Ok(None);
    };
    Ok(Some((ws, called)))
}

#[tactic(auto, unfolding(crate::specs::References::stream_at))]
fn stream_at(alloc: Global, ws: Option<Text>, text: &str) -> Result<Option<StreamRef>, NoMemory>
    ensures { IfOk result (λ o. o ≡ spec.stream_at ws text.now) }
{
    let (spelled, no) = if has(text, '[') {
        let (called, rest) = cut(text, '[');
        let Some(no) = bracketed(rest) else {
            return Ok(None);
        };
        (called, Some(no))
    } else {
        (text, None)
    };
    let Some(name) = name(alloc, spelled)? else {
        return Ok(None);
    };
    Ok(Some(StreamRef { ws, name, no }))
}

/// A number and the closing bracket.
#[tactic(auto, unfolding(crate::specs::References::bracketed_of))]
fn bracketed(text: &str) -> Option<u32>
    ensures { result ≡ bracketed_of text.now }
{
    match text.strip_suffix(']') {
        Some(digits) => number_u32(digits),
        None => None,
    }
}

fn what_of(what: Option<What>, argument: &str) -> Option<What>
    ensures { result ≡ spec.what_of what argument.now }
{
    match what {
        Some(kind) => Some(kind),
        None => {
            if !has(argument, ' ') {
                return None;
            }
            second_word(cut(argument, ' ').0)
        }
    }
}

fn named_by(what: Option<What>, argument: &str) -> &str
    ensures { result.now ≡ spec.named_by what argument.now }
{
    match what {
        Some(_) => argument,
        None => cut(argument, ' ').1,
    }
}

#[tactic(auto, unfolding(crate::specs::References::second_word))]
fn second_word(word: &str) -> Option<What>
    ensures { result ≡ spec.second_word word.now }
{
    if is(word, "job") {
        Some(What::Job)
    } else if is(word, "sched") {
        Some(What::Sched)
    } else if is(word, "cpu") {
        Some(What::Cpu)
    } else if is(word, "docommand") {
        Some(What::DoCommand)
    } else {
        None
    }
}

fn object_from(alloc: Global, kind: What, text: &str) -> Result<Option<ObjRef>, NoMemory>
    ensures { IfOk result (λ o. o ≡ object_from kind text.now) }
{
    match kind {
        What::Job => Ok(job(alloc, text)?.map(ObjRef::Job)),
        What::Sched => Ok(stream(alloc, text)?.map(ObjRef::Stream)),
        What::Cpu => Ok(None),
        What::DoCommand => Ok(None),
    }
}

fn limit_target_from(alloc: Global, kind: What, text: &str) -> Result<Option<LimitTarget>, NoMemory>
    ensures { IfOk result (λ o. o ≡ limit_target_from kind text.now) }
{
    match kind {
        What::Cpu => Ok(name(alloc, text)?.map(LimitTarget::Cpu)),
        What::Sched => Ok(stream(alloc, text)?.map(LimitTarget::Stream)),
        What::Job => Ok(None),
        What::DoCommand => Ok(None),
    }
}

fn work_for(alloc: Global, kind: What, text: &str) -> Result<Option<(Text, Text)>, NoMemory>
    ensures { IfOk result (λ o. o ≡ work_for kind text.now) }
{
    match kind {
        What::DoCommand => work_from(alloc, text),
        What::Job => Ok(None),
        What::Sched => Ok(None),
        What::Cpu => Ok(None),
    }
}

#[tactic(auto, unfolding(crate::specs::References::work_from))]
fn work_from(alloc: Global, text: &str) -> Result<Option<(Text, Text)>, NoMemory>
    ensures { IfOk result (λ o. o ≡ work_from text.now) }
{
    let (ws, command) = cut(text, '#');
    let Some(ws) = name(alloc, ws)? else {
        return Ok(None);
    };
    let Some(command) = quoted(alloc, command)? else {
        return Ok(None);
    };
    Ok(Some((ws, command)))
}

/// Whether the mark stands in the text.
fn has(text: &str, mark: char) -> bool
    requires { mark < 128 }
    ensures { result ≡ spec.has mark text.now }
{
    cut(text, mark).0.len() < text.len()
}

/// What stands before the first such mark and behind it. Where there is none, that is all and nothing.
pub fn cut(text: &str, mark: char) -> (&str, &str)
    requires { mark < 128 }
    ensures before { result.0.now ≡ before mark text.now }
    ensures behind { result.1.now ≡ behind mark text.now }
{
    match text.split_once(mark) {
        Some((before, behind)) => (before, behind),
        None => (text, ""),
    }
}
