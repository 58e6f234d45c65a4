//! The lines of an operator, each in one spelling: the long form, with the workstation and the number of a stream where it
//! has them. A text that was quoted is shown as it is meant, and the day of a plan as its number.
use crate::outs::Out;
use base_types::{OnUntil, Text};
use conman_syntax::{DepRef, JobRef, Line, ObjRef, StreamRef, parse_command};

fn put_ws(out: &mut Out, before: &str, ws: &Option<Text>) {
    match ws {
        Some(ws) => out.two(before, ws, "", &"#"),
        None => out.word(before),
    }
}

fn put_stream(out: &mut Out, before: &str, r: &StreamRef) {
    put_ws(out, before, &r.ws);
    out.show("", &r.name);
    if let Some(no) = &r.no {
        out.two("[", no, "", &"]");
    }
}

fn put_job(out: &mut Out, before: &str, r: &JobRef) {
    put_stream(out, before, &r.stream);
    out.show(".", &r.name)
}

/// The name alone.
fn put_name(out: &mut Out, before: &str, o: &ObjRef) {
    match o {
        ObjRef::Job(r) => put_job(out, before, r),
        ObjRef::Stream(r) => put_stream(out, before, r),
    }
}

/// The name behind `job` or `sched`.
fn put_object(out: &mut Out, before: &str, o: &ObjRef) {
    out.word(before);
    match o {
        ObjRef::Job(r) => put_job(out, "job ", r),
        ObjRef::Stream(r) => put_stream(out, "sched ", r),
    }
}

fn passed(then: OnUntil) -> &'static str {
    match then {
        OnUntil::Suppr => "suppr",
        OnUntil::Cont => "cont",
        OnUntil::Canc => "canc",
    }
}

fn put_dep(out: &mut Out, dep: &DepRef) {
    match dep {
        DepRef::FollowsJob(r) => put_job(out, ";follows=", r),
        DepRef::FollowsStream(r) => put_stream(out, ";follows=", r),
        DepRef::Needs(units, ws, name) => {
            out.show(";needs=", units);
            out.two(" ", ws, "#", name)
        }
        DepRef::PromptName(name) => out.show(";prompt=", name),
        DepRef::PromptText(text) => out.quote(";prompt=", text),
        DepRef::At(time) => out.show(";at=", time),
        DepRef::Until(time, then) => out.two(";until=", time, ";onuntil=", &passed(*then)),
    }
}

fn put_with_dep(out: &mut Out, before: &str, o: &ObjRef, dep: &DepRef) {
    put_object(out, before, o);
    put_dep(out, dep)
}

fn answer(yes: bool) -> &'static str {
    if yes { "yes" } else { "no" }
}

fn put_submit(out: &mut Out, ws: &Text, text: &Text, alias: &Option<Text>, priority: &Option<u8>) {
    out.show("submit docommand ", ws);
    out.quote("#", text);
    if let Some(alias) = alias {
        out.show(";alias=", alias);
    }
    if let Some(priority) = priority {
        out.show(";priority=", priority);
    }
}

fn put_show(out: &mut Out, command: &str, pattern: &Option<Text>) {
    match pattern {
        Some(pattern) => out.two(command, &" ", "", pattern),
        None => out.word(command),
    }
}

/// The lines that name an object of a plan.
fn put_of_plan(out: &mut Out, line: &Line) {
    match line {
        Line::AddDep(o, dep) => put_with_dep(out, "adddep ", o, dep),
        Line::DelDep(o, dep) => put_with_dep(out, "deldep ", o, dep),
        Line::Release(o) => put_object(out, "release ", o),
        Line::AltPri(o, priority) => {
            put_name(out, "altpri ", o);
            out.show(";", priority)
        }
        Line::Cancel(o) => put_object(out, "cancel ", o),
        Line::Confirm(r) => {
            put_job(out, "confirm ", r);
            out.word(";succ")
        }
        Line::Kill(r) => put_job(out, "kill ", r),
        Line::Rerun(r) => put_job(out, "rerun ", r),
        Line::StreamLimit(r, limit) => {
            put_stream(out, "limit sched ", r);
            out.show(";", limit)
        }
        Line::ReplyOwn(o, i, yes) => {
            put_object(out, "reply ", o);
            out.two(";", i, ";", &answer(*yes))
        }
        _ => {}
    }
}

/// The lines that show something.
fn put_showing(out: &mut Out, line: &Line) {
    match line {
        Line::ShowJobs(pattern) => put_show(out, "showjobs", pattern),
        Line::ShowSchedules(pattern) => put_show(out, "showschedules", pattern),
        Line::ShowCpus(pattern) => put_show(out, "showcpus", pattern),
        Line::ShowPrompts(pattern) => put_show(out, "showprompts", pattern),
        Line::ShowResources(pattern) => put_show(out, "showresources", pattern),
        _ => put_of_plan(out, line),
    }
}

/// Appends the line.
pub fn put_line(out: &mut Out, line: &Line) {
    match line {
        Line::Fence(ws, priority) => out.two("fence ", ws, ";", priority),
        Line::CpuLimit(ws, limit) => out.two("limit cpu ", ws, ";", limit),
        Line::Resource(ws, name, units) => {
            out.two("resource ", ws, "#", name);
            out.show(";", units)
        }
        Line::ReplyGlobal(name, yes) => out.two("reply ", name, ";", &answer(*yes)),
        Line::Start(ws) => out.show("start ", ws),
        Line::Stop(ws) => out.show("stop ", ws),
        Line::Submit(ws, text, alias, priority) => put_submit(out, ws, text, alias, priority),
        Line::SwitchMgr(domain, ws) => out.two("switchmgr ", domain, ";", ws),
        Line::Link(ws) => out.show("link ", ws),
        Line::Unlink(ws) => out.show("unlink ", ws),
        Line::Shutdown => out.word("shutdown"),
        Line::JNextPlan(day) => out.show("jnextplan ", day),
        _ => put_showing(out, line),
    }
}

/// `parse_command LINE`
pub fn put_command(out: &mut Out, text: &str) {
    match parse_command(out.alloc, text) {
        Ok(line) => put_line(out, &line),
        Err(fault) => out.debug("", &fault),
    }
}
