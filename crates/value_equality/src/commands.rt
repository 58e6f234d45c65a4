//! Whether two commands are one.
ghost use Rattle.std.specs.Prelude.{◌≡◌};
ghost use Rattle.std.specs.Bool.{Decides};
ghost use Rattle.model.specs.Types.{AddDep, AltPri, Cancel, Confirm, DelDep, Fence, Kill, Limit, Release, ReplyGlobal};
ghost use Rattle.model.specs.Types.{ReplyOwn, Rerun, Stop, StreamLimit, Submit, SwitchMgr, Total, Cmd as Command};

use crate::deps::is_same_dep;
use crate::drafts::is_same_draft;
use crate::objects::is_same_object;
use base_types::{Cmd, Dep, JobNo, Obj, StreamDraft, StreamNo, Ws};

/// Whether the two commands are one.
pub fn is_same_command(a: &Cmd, b: &Cmd) -> bool
    ensures { Decides result (a.now ≡ b.now) }
{
    match a {
        Cmd::AddDep(o, dep) => is_add_dep(b, o, dep),
        Cmd::DelDep(o, i) => is_del_dep(b, o, *i),
        Cmd::Release(o) => is_release(b, o),
        Cmd::AltPri(o, priority) => is_alt_pri(b, o, *priority),
        Cmd::Cancel(o) => is_cancel(b, o),
        Cmd::Confirm(j) => is_confirm(b, j),
        Cmd::Kill(j) => is_kill(b, j),
        Cmd::Rerun(j) => is_rerun(b, j),
        Cmd::Fence(priority) => is_fence(b, *priority),
        Cmd::Limit(launches) => is_limit(b, *launches),
        Cmd::StreamLimit(s, launches) => is_stream_limit(b, s, *launches),
        Cmd::Total(resource, units) => is_total(b, *resource, *units),
        Cmd::ReplyGlobal(prompt, answer) => is_reply_global(b, *prompt, *answer),
        Cmd::ReplyOwn(o, i, answer) => is_reply_own(b, o, *i, *answer),
        Cmd::Start => is_start(b),
        Cmd::Stop => is_stop(b),
        Cmd::Submit(draft) => is_submit(b, draft),
        Cmd::SwitchMgr(w) => is_switch(b, w),
    }
}

/// Whether a command adds this dependency to this object.
fn is_add_dep(command: &Cmd, o: &Obj, dep: &Dep) -> bool
    ensures { Decides result (AddDep o.now dep.now ≡ command.now) }
{
    match command {
        Cmd::AddDep(p, other) => is_same_object(o, p) && is_same_dep(dep, other),
        _ => false,
    }
}

/// Whether a command deletes this dependency of this object.
fn is_del_dep(command: &Cmd, o: &Obj, i: u16) -> bool
    ensures { Decides result (DelDep o.now i ≡ command.now) }
{
    match command {
        Cmd::DelDep(p, k) => is_same_object(o, p) && i == *k,
        _ => false,
    }
}

/// Whether a command releases this object.
fn is_release(command: &Cmd, o: &Obj) -> bool
    ensures { Decides result (Release o.now ≡ command.now) }
{
    match command {
        Cmd::Release(p) => is_same_object(o, p),
        _ => false,
    }
}

/// Whether a command gives this object this priority.
fn is_alt_pri(command: &Cmd, o: &Obj, priority: u8) -> bool
    ensures { Decides result (AltPri o.now priority ≡ command.now) }
{
    match command {
        Cmd::AltPri(p, other) => is_same_object(o, p) && priority == *other,
        _ => false,
    }
}

/// Whether a command cancels this object.
fn is_cancel(command: &Cmd, o: &Obj) -> bool
    ensures { Decides result (Cancel o.now ≡ command.now) }
{
    match command {
        Cmd::Cancel(p) => is_same_object(o, p),
        _ => false,
    }
}

/// Whether a command confirms this job.
fn is_confirm(command: &Cmd, j: &JobNo) -> bool
    ensures { Decides result (Confirm j.now ≡ command.now) }
{
    match command {
        Cmd::Confirm(k) => j.0 == k.0,
        _ => false,
    }
}

/// Whether a command kills this job.
fn is_kill(command: &Cmd, j: &JobNo) -> bool
    ensures { Decides result (Kill j.now ≡ command.now) }
{
    match command {
        Cmd::Kill(k) => j.0 == k.0,
        _ => false,
    }
}

/// Whether a command reruns this job.
fn is_rerun(command: &Cmd, j: &JobNo) -> bool
    ensures { Decides result (Rerun j.now ≡ command.now) }
{
    match command {
        Cmd::Rerun(k) => j.0 == k.0,
        _ => false,
    }
}

/// Whether a command sets this fence.
fn is_fence(command: &Cmd, priority: u8) -> bool
    ensures { Decides result (Fence priority ≡ command.now) }
{
    match command {
        Cmd::Fence(other) => priority == *other,
        _ => false,
    }
}

/// Whether a command sets this limit of a workstation.
fn is_limit(command: &Cmd, launches: u16) -> bool
    ensures { Decides result (Limit launches ≡ command.now) }
{
    match command {
        Cmd::Limit(other) => launches == *other,
        _ => false,
    }
}

/// Whether a command sets this limit of this stream.
fn is_stream_limit(command: &Cmd, s: &StreamNo, launches: u16) -> bool
    ensures { Decides result (StreamLimit s.now launches ≡ command.now) }
{
    match command {
        Cmd::StreamLimit(t, other) => s.0 == t.0 && launches == *other,
        _ => false,
    }
}

/// Whether a command sets this total of this resource.
fn is_total(command: &Cmd, resource: u16, units: u16) -> bool
    ensures { Decides result (Total resource units ≡ command.now) }
{
    match command {
        Cmd::Total(q, other) => resource == *q && units == *other,
        _ => false,
    }
}

/// Whether a command answers this prompt of the network so.
fn is_reply_global(command: &Cmd, prompt: u16, answer: bool) -> bool
    ensures { Decides result (ReplyGlobal prompt answer ≡ command.now) }
{
    match command {
        Cmd::ReplyGlobal(q, other) => prompt == *q && answer == *other,
        _ => false,
    }
}

/// Whether a command answers this prompt of this object so.
fn is_reply_own(command: &Cmd, o: &Obj, i: u16, answer: bool) -> bool
    ensures { Decides result (ReplyOwn o.now i answer ≡ command.now) }
{
    match command {
        Cmd::ReplyOwn(p, k, other) => is_same_object(o, p) && i == *k && answer == *other,
        _ => false,
    }
}

/// Whether a command starts the workstation.
fn is_start(command: &Cmd) -> bool
    ensures { Decides result (Command.Start ≡ command.now) }
{
    match command {
        Cmd::Start => true,
        _ => false,
    }
}

/// Whether a command stops the workstation.
fn is_stop(command: &Cmd) -> bool
    ensures { Decides result (Stop ≡ command.now) }
{
    match command {
        Cmd::Stop => true,
        _ => false,
    }
}

/// Whether a command submits this draft.
fn is_submit(command: &Cmd, draft: &StreamDraft) -> bool
    ensures { Decides result (Submit draft.now ≡ command.now) }
{
    match command {
        Cmd::Submit(other) => is_same_draft(draft, other),
        _ => false,
    }
}

/// Whether a command makes this workstation a manager.
fn is_switch(command: &Cmd, w: &Ws) -> bool
    ensures { Decides result (SwitchMgr w.now ≡ command.now) }
{
    match command {
        Cmd::SwitchMgr(v) => w.0 == v.0,
        _ => false,
    }
}
