//! Entries, commands, documents and networks as texts.
use crate::outs::Out;
use base_types::{
    Body, Bytes, Cmd, Copied, Dep, Entry, Feed, Items, JobDoc, JobDraft, Net, NoMemory, Obj,
    Recovery, ReportParts, StreamDoc, StreamDraft, Text, Work, Ws,
};
use report_text::{name, print_report};
use std::str;

/// Writes what was printed.
pub fn put_printed(out: &mut Out, printed: Result<Bytes, NoMemory>) {
    if let Some(bytes) = out.kept(printed) {
        out.word(str::from_utf8(bytes.as_slice()).unwrap_or(""))
    }
}

/// The report of an entry alone.
fn report_of(out: &mut Out, net: &Net, entry: Entry) -> Option<Bytes> {
    let mut events = Items::new(out.alloc);
    let done = events.push(entry);
    out.done(done);
    let parts = ReportParts {
        events,
        starts: Items::new(out.alloc),
        packets: Items::new(out.alloc),
        nodes: Items::new(out.alloc),
    };
    let report = print_report(out.alloc, net, &parts);
    out.kept(report)
}

/// The line of the entry in such a report.
fn line_in(report: &[u8]) -> &str {
    let text = str::from_utf8(report).unwrap_or("");
    let text = text.strip_prefix("events 1\n").unwrap_or("");
    text.strip_suffix("\nstarts 0\n").unwrap_or("")
}

/// Writes an entry as a report has it.
pub fn put_entry(out: &mut Out, net: &Net, entry: &Entry) {
    if let Some(entry) = out.kept(entry.copy()) {
        if let Some(report) = report_of(out, net, entry) {
            out.word(line_in(report.as_slice()))
        }
    }
}

/// Writes a body as a report has it in an entry of the master, without the front that it has there.
fn put_behind(out: &mut Out, net: &Net, front: &str, body: Body) {
    let entry = Entry {
        feed: Feed::Events(Ws(0)),
        place: 1,
        body,
    };
    if let Some(report) = report_of(out, net, entry) {
        let line = line_in(report.as_slice());
        let body = line.split_once(" 1 ").unwrap_or(("", "")).1;
        out.word(body.strip_prefix(front).unwrap_or(""))
    }
}

/// Writes a body as a report has it in an entry of the master.
pub fn put_body(out: &mut Out, net: &Net, body: &Body) {
    if let Some(body) = out.kept(body.copy()) {
        put_behind(out, net, "", body)
    }
}

fn put_own_command(out: &mut Out, net: &Net, cmd: Cmd) {
    put_behind(out, net, "order ", Body::Order(cmd))
}

/// Writes a command as a report has it.
pub fn put_command(out: &mut Out, net: &Net, cmd: &Cmd) {
    if let Some(cmd) = out.kept(cmd.copy()) {
        put_own_command(out, net, cmd)
    }
}

/// Writes a dependency of an object as the command that adds it.
pub fn put_dependency(out: &mut Out, net: &Net, object: &Obj, dep: &Dep) {
    if let Some(dep) = out.kept(dep.copy()) {
        put_own_command(out, net, Cmd::AddDep(*object, dep))
    }
}

fn flag(set: bool, word: &'static str) -> &'static str {
    if set { word } else { "-" }
}

/// Writes the workstations of a network.
pub fn put_nodes(out: &mut Out, net: &Net) {
    out.word("nodes");
    for node in net.nodes.as_slice() {
        out.show("; ", &node.name);
        match node.hop {
            Some(w) => out.show(" ", &w.0),
            None => out.word(" -"),
        }
        out.show(" ", &flag(node.manager, "manager"));
        out.show(" ", &flag(node.full, "full"));
    }
}

/// Writes the name of a document and of its workstation, and its priority.
fn put_named(out: &mut Out, ws: &str, name: &Text, priority: u8) {
    out.two("", &ws, " ", name);
    out.show(" prio ", &priority)
}

fn put_work(out: &mut Out, work: &Work) {
    match work {
        Work::Command(text) => out.debug(" do ", text),
        Work::Script(text) => out.debug(" script ", text),
    }
}

/// Writes a document of a stream, but for its jobs and dependencies, which are counted.
pub fn put_stream(out: &mut Out, net: &Net, doc: &StreamDoc) {
    put_named(out, name(net, &doc.ws), &doc.name, doc.priority);
    out.debug(" limit ", &doc.limit);
    out.two(" carry ", &doc.carry, " deps ", &doc.deps.len());
    out.show(" jobs ", &doc.jobs.len())
}

/// Writes what else a job has: how many operations its condition has and how many dependencies there are, and the rest.
fn put_rest(out: &mut Out, logon: &Text, operations: usize, recovery: Recovery, deps: usize) {
    out.debug(" logon ", logon);
    out.show(" succ ", &operations);
    out.debug(" recovery ", &recovery);
    out.show(" deps ", &deps)
}

/// Writes a document of a job, but for its dependencies, which are counted.
pub fn put_job(out: &mut Out, net: &Net, doc: &JobDoc) {
    put_named(out, name(net, &doc.ws), &doc.name, doc.priority);
    put_work(out, &doc.work);
    let (operations, deps) = (doc.cond.len(), doc.deps.len());
    put_rest(out, &doc.logon, operations, doc.recovery, deps)
}

fn put_job_draft(out: &mut Out, net: &Net, draft: &JobDraft) {
    out.word("; job ");
    put_named(out, name(net, &draft.ws), &draft.name, draft.priority);
    put_work(out, &draft.work);
    let (operations, deps) = (draft.cond.len(), draft.deps.len());
    put_rest(out, &draft.logon, operations, draft.recovery, deps)
}

/// Writes a draft, but for its dependencies, which are counted.
pub fn put_draft(out: &mut Out, net: &Net, draft: &StreamDraft) {
    out.word("; ");
    put_named(out, name(net, &draft.ws), &draft.name, draft.priority);
    out.debug(" limit ", &draft.limit);
    out.two(" carry ", &draft.carry, " deps ", &draft.deps.len());
    for job in draft.jobs.as_slice() {
        put_job_draft(out, net, job);
    }
}
