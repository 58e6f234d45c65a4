//! Whether a workstation obeys a command.
ghost use Rattle.std.specs.Prelude.{◌≡◌};
ghost use Rattle.std.specs.Bool.{then_some};
ghost use Rattle.model.specs.Types.{ReplyGlobal, Submit, SwitchMgr, Total};
ghost use Rattle.model.specs.Words.{first_of_these};
ghost use Rattle.model.specs.History.{View, view_of};
ghost use Rattle.model.specs.Verdicts.{reasons, verdict};
ghost use Rattle.conman_orders.specs.Said.{verdict_for};

use crate::dependencies::{is_foreign, prompt, resource};
use crate::object_verdicts::{
    add_dep, alt_pri, cancel, confirm, del_dep, kill, release, reply_own, rerun, stream_limit,
};
use crate::rooms::has_no_room;
use base_types::{Cmd, GREATEST_LIMIT, GREATEST_PRIORITY, Net, StreamDraft, Why, Ws};
use network_tree::{Network, is_only_shown};
use owner_fold::Owners;

/// What comes of a command.
#[derive(Clone, Copy, Debug)]
pub enum Verdict {
    Obey,
    /// For the first reason that applies.
    Decline(Why),
}

/// Why the total of a resource is not set, by its number from 1.
#[tactic(auto, unfolding(model::specs::Verdicts::reasons))]
fn total(net: &Net, o: &Owners, me: Ws, number: u16, units: u16) -> Option<Why>
    ensures { result ≡ first_of_these (reasons net.now (view_of o.now) me (Total number units)) }
{
    if resource(net, number).is_none() {
        return Some(Why::NotThere);
    }
    if is_foreign(net, me, number) {
        return Some(Why::NotMine);
    }
    if units > GREATEST_LIMIT {
        return Some(Why::OutOfRange);
    }
    None
}

/// Why a prompt of the network is not answered, by its number from 1.
#[tactic(auto, unfolding(model::specs::Verdicts::reasons))]
fn reply_global(net: &Net, o: &Owners, me: Ws, number: u16, yes: bool) -> Option<Why>
    ensures { result ≡ first_of_these (reasons net.now (view_of o.now) me (ReplyGlobal number yes)) }
{
    if me.0 != 0 {
        return Some(Why::NotMaster);
    }
    let Some(asked) = prompt(net, number) else {
        return Some(Why::NotThere);
    };
    if o.global_reply(number) == Some(true) || is_only_shown(&asked.text) {
        return Some(Why::AlreadyThere);
    }
    None
}

/// Why a stream is not added to the plan.
#[tactic(auto, unfolding(model::specs::Verdicts::reasons))]
fn submit(net: &Net, o: &Owners, me: Ws, draft: &StreamDraft) -> Option<Why>
    ensures { result ≡ first_of_these (reasons net.now (view_of o.now) me (Submit draft.now)) }
{
    if me.0 != 0 {
        return Some(Why::NotMaster);
    }
    if !o.has_plan() {
        return Some(Why::NotThere);
    }
    if has_no_room(o, draft) {
        return Some(Why::OutOfRange);
    }
    None
}

/// Why a workstation does not take over as the manager of its domain: its manager must not be the master.
#[tactic(auto, unfolding(model::specs::Verdicts::reasons))]
fn switch_mgr(net: &Net, me: Ws, w: Ws) -> Option<Why>
    ensures { (V : View) → result ≡ first_of_these (reasons net.now V me (SwitchMgr w)) }
{
    if me.0 != 0 {
        return Some(Why::NotMaster);
    }
    let Some(node) = net.nodes.get(usize::from(w.0)) else {
        return Some(Why::NotThere);
    };
    if node.manager {
        return Some(Why::AlreadyThere);
    }
    if node.hop == Some(Ws(0)) {
        return Some(Why::OutOfRange);
    }
    None
}

/// The reason, where it applies.
fn reason(applies: bool, why: Why) -> Option<Why>
    ensures { result ≡ then_some applies why }
{
    applies.then_some(why)
}

/// Why the workstation declines the command, if it does.
#[tactic(auto, unfolding(model::specs::Verdicts::verdict, model::specs::Verdicts::reasons))]
fn decline(net: &Net, o: &Owners, me: Ws, cmd: &Cmd) -> Option<Why>
    ensures { result ≡ verdict net.now (view_of o.now) me cmd.now }
{
    match cmd {
        Cmd::AddDep(object, dep) => add_dep(net, o, me, object, dep),
        Cmd::DelDep(object, i) => del_dep(o, me, object, *i),
        Cmd::Release(object) => release(o, me, object),
        Cmd::AltPri(object, priority) => alt_pri(o, me, object, *priority),
        Cmd::Cancel(object) => cancel(o, me, object),
        Cmd::Confirm(j) => confirm(o, me, *j),
        Cmd::Kill(j) => kill(o, me, *j),
        Cmd::Rerun(j) => rerun(o, me, *j),
        Cmd::Fence(priority) => reason(*priority > GREATEST_PRIORITY, Why::OutOfRange),
        Cmd::Limit(limit) => reason(*limit > GREATEST_LIMIT, Why::OutOfRange),
        Cmd::StreamLimit(s, limit) => stream_limit(o, me, *s, *limit),
        Cmd::Total(number, units) => total(net, o, me, *number, *units),
        Cmd::ReplyGlobal(number, yes) => reply_global(net, o, me, *number, *yes),
        Cmd::ReplyOwn(object, i, yes) => reply_own(o, me, object, *i, *yes),
        Cmd::Start => reason(!o.is_stopped(me), Why::AlreadyThere),
        Cmd::Stop => reason(o.is_stopped(me), Why::AlreadyThere),
        Cmd::Submit(draft) => submit(net, o, me, draft),
        Cmd::SwitchMgr(w) => switch_mgr(net, me, *w),
    }
}

/// What comes of a command at the workstation `me`, which took these entries, in the network as it stands for it. It
/// takes no memory.
pub fn judge(net: &Network, o: &Owners, me: Ws, cmd: &Cmd) -> Verdict
    ensures { result ≡ verdict_for (verdict net.now (view_of o.now) me cmd.now) }
{
    match decline(net.net(), o, me, cmd) {
        None => Verdict::Obey,
        Some(why) => Verdict::Decline(why),
    }
}
