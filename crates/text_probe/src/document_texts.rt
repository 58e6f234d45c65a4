//! The documents and drafts of entries, each in one line. Workstations, streams and jobs are told by their numbers.
use crate::outs::Out;
use base_types::{
    Body, Cmd, CondOp, Dep, DraftDep, JobDoc, JobDraft, PromptRef, Recovery, StreamDoc,
    StreamDraft, Text, Work, Ws,
};

fn put_work(out: &mut Out, work: &Work) {
    match work {
        Work::Command(text) => out.quote(" do ", text),
        Work::Script(text) => out.quote(" script ", text),
    }
}

fn put_dep(out: &mut Out, dep: &Dep) {
    match dep {
        Dep::FollowsJob(job) => out.show(", follows job ", &job.0),
        Dep::FollowsStream(stream) => out.show(", follows stream ", &stream.0),
        Dep::Needs(resource, units) => out.two(", needs ", resource, " ", units),
        Dep::Prompt(PromptRef::Global(n)) => out.show(", prompt ", n),
        Dep::Prompt(PromptRef::Own(text)) => out.quote(", prompt ", text),
        Dep::At(time) => out.show(", at ", &time.0),
        Dep::Until(time, then) => {
            out.show(", until ", &time.0);
            out.debug(" ", then)
        }
        Dep::Outside(path) => out.quote(", outside ", path),
        Dep::Deadline(time) => out.show(", deadline ", &time.0),
    }
}

fn put_deps(out: &mut Out, deps: &[Dep]) {
    for dep in deps {
        put_dep(out, dep);
    }
}

fn put_draft_deps(out: &mut Out, deps: &[DraftDep]) {
    for dep in deps {
        match dep {
            DraftDep::Follows(ws, stream, job) => {
                out.two(", follows ", &ws.0, " ", stream);
                if let Some(job) = job {
                    out.show(" ", job);
                }
            }
            DraftDep::Plain(dep) => put_dep(out, dep),
        }
    }
}

fn put_name(out: &mut Out, ws: &Ws, name: &Text, priority: u8) {
    out.show("at ", &ws.0);
    out.quote(" ", name);
    out.show(" prio ", &priority)
}

fn put_end(out: &mut Out, logon: &Text, cond: &[CondOp], then: Recovery) {
    out.quote(" logon ", logon);
    out.debug(" succ ", &cond);
    out.debug(" ", &then)
}

fn put_job(out: &mut Out, job: &JobDoc) {
    out.show("; job ", &job.no.0);
    out.word(" ");
    put_name(out, &job.ws, &job.name, job.priority);
    put_work(out, &job.work);
    put_end(out, &job.logon, job.cond.as_slice(), job.recovery);
    put_deps(out, job.deps.as_slice())
}

fn put_job_draft(out: &mut Out, job: &JobDraft) {
    out.word("; job ");
    put_name(out, &job.ws, &job.name, job.priority);
    put_work(out, &job.work);
    put_end(out, &job.logon, job.cond.as_slice(), job.recovery);
    put_draft_deps(out, job.deps.as_slice())
}

fn put_bounds(out: &mut Out, limit: Option<u16>, carry: bool) {
    out.debug(" limit ", &limit);
    out.show(" carry ", &carry)
}

fn put_stream(out: &mut Out, stream: &StreamDoc) {
    out.show("; stream ", &stream.no.0);
    out.word(" ");
    put_name(out, &stream.ws, &stream.name, stream.priority);
    put_bounds(out, stream.limit, stream.carry);
    put_deps(out, stream.deps.as_slice());
    for job in stream.jobs.as_slice() {
        put_job(out, job);
    }
}

fn put_stream_draft(out: &mut Out, stream: &StreamDraft) {
    out.word("; stream ");
    put_name(out, &stream.ws, &stream.name, stream.priority);
    put_bounds(out, stream.limit, stream.carry);
    put_draft_deps(out, stream.deps.as_slice());
    for job in stream.jobs.as_slice() {
        put_job_draft(out, job);
    }
}

/// The documents that an entry brings, and the draft that is submitted.
pub fn put_documents(out: &mut Out, body: &Body) {
    match body {
        Body::NewPlan(_, _, _, streams) => {
            for stream in streams.as_slice() {
                put_stream(out, stream);
            }
        }
        Body::Added(_, _, stream) => put_stream(out, stream),
        Body::Order(Cmd::Submit(draft)) => put_stream_draft(out, draft),
        _ => {}
    }
}
