//! The lines of refusals.
ghost use Rattle.std.specs.Prelude.{◌≡◌, ◌++◌, None, IfOk, OnOk};
ghost use Rattle.definition_texts.specs.Kinds.{word_of};
ghost use Rattle.replies.specs.Texts as texts;
ghost use Rattle.replies.specs.declared.statuses.Status.TheVariants as status;
ghost use Rattle.input_commands.specs.Lines as spec;

use crate::unsaid_replies::Reply;
use base_types::{Items, LimitName, NoMemory};
use definition_texts::Refusal;
use history_script::HistoryKind;
use record_runs::Stop;
use record_script::ScriptKind;
use replies::{Status, limit_text, refusal_text};
use std::alloc::Global;
use std::io::{self, Write};

fn write_sound(out: &mut Vec<u8>, entries: usize, starts: usize) -> io::Result<()>
    ensures { OnOk result (out.new.items ≡ out.old.items ++ spec.sound_line entries starts) }
{
    write!(out, "sound {entries} {starts}\n")
}

fn write_not_sound(out: &mut Vec<u8>, item: u32) -> io::Result<()>
    ensures { OnOk result (out.new.items ≡ out.old.items ++ spec.not_sound_line item) }
{
    write!(out, "not sound: entry {item}\n")
}

/// A record that is refused at a line.
fn refused(alloc: Global, line: u32, kind: &str) -> Result<Reply, NoMemory>
    ensures status { IfOk result (λ r. r.status ≡ status.RecordRefused) }
    ensures text { IfOk result (λ r. r.text ≡ spec.refused_line line kind.now) }
    ensures world { IfOk result (λ r. r.world ≡ None) }
{
    let text = refusal_text(alloc, "record", line, kind)?;
    Ok(Reply {
        status: Status::RecordRefused,
        text,
        world: None,
    })
}

/// Definitions that are refused at a line.
pub(crate) fn definitions_refused(alloc: Global, refusal: Refusal) -> Result<Reply, NoMemory>
    ensures status { IfOk result (λ r. r.status ≡ status.DefinitionsRefused) }
    ensures text { IfOk result (λ r. r.text ≡ texts.definitions_line refusal.line (word_of refusal.kind)) }
    ensures world { IfOk result (λ r. r.world ≡ None) }
{
    let text = refusal_text(alloc, "definitions", refusal.line, refusal.kind.word())?;
    Ok(Reply {
        status: Status::DefinitionsRefused,
        text,
        world: None,
    })
}

/// A limit that is passed, or that refuses a step.
pub(crate) fn limit(alloc: Global, name: LimitName, number: u32) -> Result<Reply, NoMemory>
    ensures status { IfOk result (λ r. r.status ≡ status.LimitPassed) }
    ensures text { IfOk result (λ r. r.text ≡ texts.limit_line (texts.limit_word name) number) }
    ensures world { IfOk result (λ r. r.world ≡ None) }
{
    let text = limit_text(alloc, name, number)?;
    Ok(Reply {
        status: Status::LimitPassed,
        text,
        world: None,
    })
}

/// A line of the record that is none.
pub(crate) fn bad_line(alloc: Global, line: u32, kind: ScriptKind) -> Result<Reply, NoMemory>
    ensures status { IfOk result (λ r. r.status ≡ status.RecordRefused) }
    ensures text { IfOk result (λ r. r.text ≡ spec.refused_line line (spec.kind_word kind)) }
    ensures world { IfOk result (λ r. r.world ≡ None) }
{
    refused(alloc, line, kind_word(kind))
}

/// A line of the history that is none.
pub(crate) fn bad_history_line(
    alloc: Global,
    line: u32,
    kind: HistoryKind,
) -> Result<Reply, NoMemory>
    ensures status { IfOk result (λ r. r.status ≡ status.RecordRefused) }
    ensures text { IfOk result (λ r. r.text ≡ spec.refused_line line (spec.history_word kind)) }
    ensures world { IfOk result (λ r. r.world ≡ None) }
{
    refused(alloc, line, history_word(kind))
}

/// A sound history with so many entries and starts.
pub(crate) fn sound(alloc: Global, entries: usize, starts: usize) -> Result<Reply, NoMemory>
    ensures status { IfOk result (λ r. r.status ≡ status.Success) }
    ensures text { IfOk result (λ r. r.text ≡ spec.sound_line entries starts) }
    ensures world { IfOk result (λ r. r.world ≡ None) }
{
    let mut out = Vec::new(alloc);
    match write_sound(&mut out, entries, starts) {
        Ok(()) => Ok(Reply {
            status: Status::Success,
            text: Items::of_vec(out),
            world: None,
        }),
        Err(_) => Err(NoMemory),
    }
}

/// A history whose first wrong item is this, from 1.
pub(crate) fn not_sound(alloc: Global, item: u32) -> Result<Reply, NoMemory>
    ensures status { IfOk result (λ r. r.status ≡ status.NotSound) }
    ensures text { IfOk result (λ r. r.text ≡ spec.not_sound_line item) }
    ensures world { IfOk result (λ r. r.world ≡ None) }
{
    let mut out = Vec::new(alloc);
    match write_not_sound(&mut out, item) {
        Ok(()) => Ok(Reply {
            status: Status::NotSound,
            text: Items::of_vec(out),
            world: None,
        }),
        Err(_) => Err(NoMemory),
    }
}

/// A line whose step cannot be taken, or is refused by a limit.
pub(crate) fn stopped(alloc: Global, line: u32, stop: Stop) -> Result<Reply, NoMemory>
    ensures status { IfOk result (λ r. r.status ≡ spec.stop_status stop) }
    ensures text { IfOk result (λ r. r.text ≡ spec.stop_line line stop) }
    ensures world { IfOk result (λ r. r.world ≡ None) }
{
    match stop {
        Stop::NoPacket => refused(alloc, line, "NoPacket"),
        Stop::NoProcess => refused(alloc, line, "NoProcess"),
        Stop::NoDep => refused(alloc, line, "NoDep"),
        Stop::NotNeighbour => refused(alloc, line, "NotNeighbour"),
        Stop::UnknownName => refused(alloc, line, "UnknownName"),
        Stop::OutOfRange => refused(alloc, line, "OutOfRange"),
        Stop::NotInNetwork => refused(alloc, line, "NotInNetwork"),
        Stop::NotMaster => refused(alloc, line, "NotMaster"),
        Stop::Limit(name, number) => limit(alloc, name, number),
    }
}

fn kind_word(kind: ScriptKind) -> &'static str
    ensures { result.now ≡ spec.kind_word kind }
{
    match kind {
        ScriptKind::BadLine => "BadLine",
        ScriptKind::NotBuilt => "NotBuilt",
        ScriptKind::Duplicate => "Duplicate",
        ScriptKind::UnknownName => "UnknownName",
        ScriptKind::OutOfRange => "OutOfRange",
        ScriptKind::BadTree => "BadTree",
        ScriptKind::NoPlan => "NoPlan",
        ScriptKind::BadChar => "BadChar",
        ScriptKind::OpenText => "OpenText",
        ScriptKind::TooLong => "TooLong",
        ScriptKind::Expected => "Expected",
        ScriptKind::LeftOut => "LeftOut",
        ScriptKind::ForeignResource => "ForeignResource",
        ScriptKind::FollowsCycle => "FollowsCycle",
        ScriptKind::Tree => "Tree",
    }
}

fn history_word(kind: HistoryKind) -> &'static str
    ensures { result.now ≡ spec.history_word kind }
{
    match kind {
        HistoryKind::OfRecord(kind) => kind_word(kind),
        HistoryKind::BadEntry => "BadEntry",
    }
}
