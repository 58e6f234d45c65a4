//! The rows of a record, each in the spelling of its line, with what the line may leave out. A text is shown between `<`
//! and `>`, and a day as its number. `?` stands for what is outside its range.
use crate::command_words::put_line;
use crate::outs::Out;
use base_types::Text;
use record_rows::{CutRow, DepRow, ObjRow, OwnRow, PartRow, Ranged, Row, StepRow, StreamRow};
use std::fmt::Debug;

fn put<T: Debug>(out: &mut Out, before: &str, value: &Ranged<T>) {
    match value {
        Ranged::Within(value) => out.debug(before, value),
        Ranged::OutOfRange => out.show(before, &"?"),
    }
}

fn put_text(out: &mut Out, before: &str, text: &Ranged<Text>) {
    match text {
        Ranged::Within(text) => out.quote(before, text),
        Ranged::OutOfRange => out.show(before, &"?"),
    }
}

fn put_stream(out: &mut Out, stream: &StreamRow) {
    out.two("stream ", &stream.ws, " ", &stream.name);
    put(out, " prio ", &stream.priority);
    put(out, " limit ", &stream.limit);
    out.show(" ", &stream.carry)
}

fn put_part(out: &mut Out, part: &PartRow) {
    match part {
        PartRow::Command(text) => put_text(out, "do ", text),
        PartRow::Script(text) => put_text(out, "script ", text),
        PartRow::Logon(text) => put_text(out, "logon ", text),
        PartRow::Cond(text) => put_text(out, "succ ", text),
        PartRow::Recovery(then) => out.debug("recovery ", then),
    }
}

fn put_dep(out: &mut Out, dep: &DepRow) {
    match dep {
        DepRow::At(time) => put(out, "at ", time),
        DepRow::Until(time, then) => {
            put(out, "until ", time);
            out.debug(" ", then)
        }
        DepRow::Deadline(time) => put(out, "deadline ", time),
        DepRow::FollowsStream(ws, stream) => out.two("follows ", ws, "#", stream),
        DepRow::FollowsJob(ws, stream, job) => {
            out.two("follows ", ws, "#", stream);
            out.show(".", job)
        }
        DepRow::FollowsOwn(job) => out.show("follows ", job),
        DepRow::Needs(units, name) => {
            put(out, "needs ", units);
            out.show(" ", name)
        }
        DepRow::AskGlobal(name) => out.show("ask ", name),
        DepRow::AskOwn(text) => put_text(out, "ask ", text),
        DepRow::Opens(text) => put_text(out, "opens ", text),
    }
}

fn put_own(out: &mut Out, own: &OwnRow) {
    match own {
        OwnRow::Turn(time) => put(out, "turn ", time),
        OwnRow::Started(job) => put(out, "started ", job),
        OwnRow::Failed(job) => put(out, "failed ", job),
        OwnRow::Ended(job, rc) => {
            put(out, "ended ", job);
            put(out, " ", rc)
        }
        OwnRow::Typed(line) => {
            out.word("type ");
            put_line(out, line.line())
        }
    }
}

fn put_cut(out: &mut Out, cut: &CutRow) {
    match cut {
        CutRow::Next => out.word("next"),
        CutRow::NextDay(day) => out.show("next ", day),
        CutRow::Own(own) => put_own(out, own),
        CutRow::Deliver(from, n) => {
            out.show("deliver ", from);
            put(out, " ", n)
        }
    }
}

fn put_fulfil(out: &mut Out, ws: &Text, object: &ObjRow, i: &Ranged<u16>) {
    out.show("fulfil ", ws);
    match object {
        ObjRow::Job(n) => put(out, " job ", n),
        ObjRow::Stream(n) => put(out, " stream ", n),
    }
    put(out, " ", i)
}

fn put_step(out: &mut Out, step: &StepRow) {
    match step {
        StepRow::Next => out.word("next"),
        StepRow::NextDay(day) => out.show("next ", day),
        StepRow::Own(ws, own) => {
            out.two("", ws, ":", &" ");
            put_own(out, own)
        }
        StepRow::Link(a, b) => out.two("link ", a, " ", b),
        StepRow::Unlink(a, b) => out.two("unlink ", a, " ", b),
        StepRow::Deliver(from, to, n) => {
            out.two("deliver ", from, " ", to);
            put(out, " ", n)
        }
        StepRow::Flow(a, b) => out.two("flow ", a, " ", b),
        StepRow::Reap(ws, rc) => {
            out.show("reap ", ws);
            put(out, " ", rc)
        }
        StepRow::Crash(ws) => out.show("crash ", ws),
        StepRow::CrashIn(ws, kept, cut) => {
            out.two("crash ", ws, " kept ", kept);
            out.word(": ");
            put_cut(out, cut)
        }
        StepRow::Fulfil(ws, object, i) => put_fulfil(out, ws, object, i),
        StepRow::Recover(ws) => out.show("recover ", ws),
    }
}

/// The rows of the lines of a network.
fn put_of_network(out: &mut Out, row: &Row) {
    match row {
        Row::Master(name) => out.show("ws ", name),
        Row::Station(station) => {
            out.two("ws ", &station.name, " ", &station.hop);
            out.two(" ", &station.manager, " ", &station.full)
        }
        Row::Resource(ws, name, total) => {
            out.two("res ", ws, " ", name);
            put(out, " ", total)
        }
        Row::Prompt(name, text) => {
            out.show("prompt ", name);
            put_text(out, " ", text)
        }
        Row::CarryForward(which) => out.debug("carryforward ", which),
        _ => {}
    }
}

/// Appends the row.
pub fn put_row(out: &mut Out, row: &Row) {
    match row {
        Row::Skipped => out.word("skipped"),
        Row::NoForm => out.word("no form"),
        Row::Network => out.word("$NETWORK"),
        Row::Definitions => out.word("$DEFINITIONS"),
        Row::Plan => out.word("$PLAN"),
        Row::Steps => out.word("$STEPS"),
        Row::Stream(stream) => put_stream(out, stream),
        Row::Job(job) => {
            out.two("job ", &job.ws, " ", &job.name);
            put(out, " prio ", &job.priority)
        }
        Row::Part(part) => put_part(out, part),
        Row::Dep(dep) => put_dep(out, dep),
        Row::Step(step) => put_step(out, step),
        _ => put_of_network(out, row),
    }
}
