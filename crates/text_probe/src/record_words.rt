//! Records: their rows, their faults, and what they are read to.
use crate::arguments::put_made;
use crate::command_words::put_line;
use crate::outs::Out;
use crate::row_texts::put_row;
use base_types::{NoMemory, Obj, Ws};
use plan_listing::listing_of;
use record_faults::{ScriptKind, place_rows, record_fault};
use record_rows::{Row, is_in_range, read_rows};
use record_script::{OneStep, Script, StepForm, read_script};
use std::alloc::Global;

/// `read_rows TEXT`
pub fn put_rows(out: &mut Out, text: &str) {
    match read_rows(out.alloc, text) {
        Ok(rows) => {
            for row in rows.as_slice() {
                put_row(out, row);
                out.word("|");
            }
        }
        Err(NoMemory) => out.unknown(),
    }
}

fn are_in_range(rows: &[Row]) -> bool {
    rows.iter().all(|row| is_in_range(row))
}

/// `are_in_range TEXT`: whether each row is.
pub fn put_ranges(out: &mut Out, text: &str) {
    match read_rows(out.alloc, text) {
        Ok(rows) => out.show("", &are_in_range(rows.as_slice())),
        Err(NoMemory) => out.unknown(),
    }
}

fn fault_of(alloc: Global, text: &str) -> Result<Option<(usize, ScriptKind)>, NoMemory> {
    let mut rows = read_rows(alloc, text)?;
    place_rows(&mut rows);
    record_fault(alloc, rows.as_slice())
}

/// `record_fault TEXT`
pub fn put_record_fault(out: &mut Out, text: &str) {
    match fault_of(out.alloc, text) {
        Ok(fault) => out.debug("", &fault),
        Err(NoMemory) => out.unknown(),
    }
}

fn put_fulfil(out: &mut Out, ws: &Ws, object: &Obj, i: u16) {
    out.show("fulfil ", &ws.0);
    match object {
        Obj::Job(job) => out.show(" job ", &job.0),
        Obj::Stream(stream) => out.show(" stream ", &stream.0),
    }
    out.show(" ", &i)
}

fn put_one(out: &mut Out, step: &OneStep) {
    match step {
        OneStep::Next => out.word("next"),
        OneStep::NextDay(day) => out.show("next ", day),
        OneStep::Turn(ws, time) => out.two("turn ", &ws.0, " ", &time.0),
        OneStep::Link(a, b) => out.two("link ", &a.0, " ", &b.0),
        OneStep::Unlink(a, b) => out.two("unlink ", &a.0, " ", &b.0),
        OneStep::Deliver(from, to, n) => {
            out.two("deliver ", &from.0, " ", &to.0);
            out.show(" ", n)
        }
        OneStep::Started(ws, job) => out.two("started ", &ws.0, " ", &job.0),
        OneStep::Failed(ws, job) => out.two("failed ", &ws.0, " ", &job.0),
        OneStep::Ended(ws, job, rc) => {
            out.two("ended ", &ws.0, " ", &job.0);
            out.show(" ", rc)
        }
        OneStep::Typed(ws, line) => {
            out.two("type ", &ws.0, "", &" ");
            put_line(out, line.line())
        }
        OneStep::Fulfil(ws, object, i) => put_fulfil(out, ws, object, *i),
    }
}

fn put_form(out: &mut Out, form: &StepForm) {
    match form {
        StepForm::One(one) => put_one(out, one),
        StepForm::Flow(a, b) => out.two("flow ", &a.0, " ", &b.0),
        StepForm::Reap(ws, rc) => out.two("reap ", &ws.0, " ", rc),
        StepForm::Crash(ws) => out.show("crash ", &ws.0),
        StepForm::CrashIn(ws, kept, cut) => {
            out.two("crash ", &ws.0, " kept ", kept);
            out.word(" ");
            put_one(out, cut)
        }
        StepForm::Recover(ws) => out.show("recover ", &ws.0),
    }
}

/// The network with each plan, and the steps with their lines.
fn put_script(out: &mut Out, script: &Script) {
    for plan in script.plans.as_slice() {
        let made = listing_of(out.alloc, &script.net, plan);
        let made = out.kept(made);
        put_made(out, made);
    }
    for step in script.steps.as_slice() {
        out.two("", &step.line, "", &" ");
        put_form(out, &step.form);
        out.word("|");
    }
}

/// `read_script TEXT`
pub fn put_read(out: &mut Out, text: &str) {
    if text.len() > 4096 {
        return out.unknown();
    }
    match read_script(out.alloc, text) {
        Ok(script) => put_script(out, &script),
        Err(fault) => out.debug("", &fault),
    }
}
