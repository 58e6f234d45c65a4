//! The command that a line gives, and the workstation that it goes to.
ghost use Rattle.std.specs.Prelude.{◌≡◌, ◌↔◌, ◌∷◌, [], ℕ, IfOk, codes, option_and_then, unwrap_or};
ghost use Rattle.std.specs.Result.{IsErrOf};
ghost use Rattle.model.specs.Types.{AltPri, Cancel, Cmd as Cmds, Command, Confirm, Kill, Release, ReplyOwn, Rerun, StreamLimit};
ghost use Rattle.base_types.specs.declared.Recovery.TheVariants as recovery;
ghost use Rattle.model.specs.History.{view_of};
ghost use Rattle.model.specs.Catalogue.{owner as spec_owner};
ghost use Rattle.conman_orders.specs.Equals.{first_equal};
ghost use Rattle.conman_orders.specs.Names.{dep_named};
ghost use Rattle.conman_orders.specs.Orders as spec;
ghost use Rattle.conman_orders.specs.Orders.{Gives, GivesNoCommand, HadMemory, HasUnknownName, IsFitOrder, IsOrder};
ghost use Rattle.conman_orders.specs.Orders.{due_order};
ghost use Rattle.conman_syntax.specs.Fit.{IsFitLine};
ghost use Rattle.conman_orders.specs.declared.orders.ResolveFault.TheVariants as fault;

use crate::names::{dep, is_domain_of, job, object, prompt, resource, stream, workstation};
use crate::object_verdicts::equal_dep;
use base_types::{
    Cmd, Copied, Items, JobDraft, JobDrafts, JobNo, NoMemory, Obj, Recovery, StreamDraft, StreamNo,
    Text, Work, Ws,
};
use conman_syntax::{DepRef, JobRef, Line, ObjRef, StreamRef};
use network_tree::Network;
use owner_fold::Owners;
use std::alloc::Global;

/// Why a line gives no command.
#[derive(Clone, Copy, Debug)]
pub enum ResolveFault {
    /// The argument of this number, from 1, names what is not there. The first such argument counts; of `switchmgr`
    /// the workstation, argument 2, is looked up before the domain, which is named by that workstation's manager.
    UnknownName(u32),
    /// The line is none that gives a command: it shows, or is for the node itself.
    NotACommand,
    /// There was no memory for the command.
    NoMemory,
}

impl From<NoMemory> for ResolveFault {
    ghost from_gives = { λ _ f. f ≡ fault.NoMemory };

    fn from(_error: NoMemory) -> ResolveFault {
        ResolveFault::NoMemory
    }
}

/// A command with the workstation that it goes to.
type Order = (Ws, Cmd);

/// The workstation of an object.
fn owner(o: &Owners, object: &Obj) -> Option<Ws>
    ensures { result ≡ spec_owner (view_of o.now) object.now }
{
    o.owner(*object)
}

/// The object that is typed so, with its owner.
fn owned_object(network: &Network, o: &Owners, me: Ws, typed: &ObjRef) -> Option<(Ws, Obj)>
    ensures { result ≡ spec.owned_object network.now (view_of o.now) me typed.now }
{
    let object = object(network, o, me, typed)?;
    let to = owner(o, &object)?;
    Some((to, object))
}

/// The job that is typed so, with its owner.
fn owned_job(network: &Network, o: &Owners, me: Ws, typed: &JobRef) -> Option<(Ws, JobNo)>
    ensures { result ≡ spec.owned_job network.now (view_of o.now) me typed.now }
{
    let j = job(network, o, me, typed)?;
    let to = owner(o, &Obj::Job(j))?;
    Some((to, j))
}

/// The stream that is typed so, with its owner.
fn owned_stream(network: &Network, o: &Owners, me: Ws, typed: &StreamRef) -> Option<(Ws, StreamNo)>
    ensures { result ≡ spec.owned_stream network.now (view_of o.now) me typed.now }
{
    let s = stream(network, o, me, typed)?;
    let to = owner(o, &Obj::Stream(s))?;
    Some((to, s))
}

#[tactic(auto, unfolding(crate::specs::Orders::add_dep))]
fn add_dep(
    network: &Network,
    o: &Owners,
    me: Ws,
    object: &ObjRef,
    added: &DepRef,
) -> Result<Order, ResolveFault>
    ensures { Gives result (spec.add_dep network.now (view_of o.now) me object.now added.now) }
{
    let Some((to, object)) = owned_object(network, o, me, object) else {
        return Err(ResolveFault::UnknownName(1));
    };
    match dep(network, o, me, added)? {
        Some(dep) => Ok((to, Cmd::AddDep(object, dep))),
        None => Err(ResolveFault::UnknownName(2)),
    }
}

/// The number of the first dependency of the object that equals the one that is typed so and is not waived.
fn equal_to(
    network: &Network,
    o: &Owners,
    me: Ws,
    object: &Obj,
    typed: &DepRef,
) -> Result<Option<u16>, NoMemory>
    ensures { IfOk result (λ i. i
        ≡ option_and_then (first_equal (view_of o.now) object.now) (dep_named network.now (view_of o.now) me typed.now)) }
{
    match dep(network, o, me, typed) {
        Ok(Some(dep)) => Ok(equal_dep(o, object, &dep)),
        Ok(None) => Ok(None),
        Err(error) => Err(error),
    }
}

#[tactic(auto, unfolding(crate::specs::Orders::del_dep))]
fn del_dep(
    network: &Network,
    o: &Owners,
    me: Ws,
    object: &ObjRef,
    waived: &DepRef,
) -> Result<Order, ResolveFault>
    ensures { Gives result (spec.del_dep network.now (view_of o.now) me object.now waived.now) }
{
    let Some((to, object)) = owned_object(network, o, me, object) else {
        return Err(ResolveFault::UnknownName(1));
    };
    match equal_to(network, o, me, &object, waived)? {
        Some(i) => Ok((to, Cmd::DelDep(object, i))),
        None => Err(ResolveFault::UnknownName(2)),
    }
}

#[tactic(auto, unfolding(crate::specs::Orders::on_object))]
fn release(network: &Network, o: &Owners, me: Ws, object: &ObjRef) -> Result<Order, ResolveFault>
    ensures { result ≡ spec.on_object network.now (view_of o.now) me object.now Release }
{
    match owned_object(network, o, me, object) {
        Some((to, object)) => Ok((to, Cmd::Release(object))),
        None => Err(ResolveFault::UnknownName(1)),
    }
}

#[tactic(auto, unfolding(crate::specs::Orders::on_object))]
fn alt_pri(
    network: &Network,
    o: &Owners,
    me: Ws,
    object: &ObjRef,
    priority: u8,
) -> Result<Order, ResolveFault>
    ensures { result ≡ spec.on_object network.now (view_of o.now) me object.now (λ x. AltPri x priority) }
{
    match owned_object(network, o, me, object) {
        Some((to, object)) => Ok((to, Cmd::AltPri(object, priority))),
        None => Err(ResolveFault::UnknownName(1)),
    }
}

#[tactic(auto, unfolding(crate::specs::Orders::on_object))]
fn cancel(network: &Network, o: &Owners, me: Ws, object: &ObjRef) -> Result<Order, ResolveFault>
    ensures { result ≡ spec.on_object network.now (view_of o.now) me object.now Cancel }
{
    match owned_object(network, o, me, object) {
        Some((to, object)) => Ok((to, Cmd::Cancel(object))),
        None => Err(ResolveFault::UnknownName(1)),
    }
}

#[tactic(auto, unfolding(crate::specs::Orders::on_object))]
fn reply_own(
    network: &Network,
    o: &Owners,
    me: Ws,
    object: &ObjRef,
    i: u16,
    yes: bool,
) -> Result<Order, ResolveFault>
    ensures { result ≡ spec.on_object network.now (view_of o.now) me object.now (λ x. ReplyOwn x i yes) }
{
    match owned_object(network, o, me, object) {
        Some((to, object)) => Ok((to, Cmd::ReplyOwn(object, i, yes))),
        None => Err(ResolveFault::UnknownName(1)),
    }
}

#[tactic(auto, unfolding(crate::specs::Orders::on_job))]
fn confirm(network: &Network, o: &Owners, me: Ws, job: &JobRef) -> Result<Order, ResolveFault>
    ensures { result ≡ spec.on_job network.now (view_of o.now) me job.now Confirm }
{
    match owned_job(network, o, me, job) {
        Some((to, j)) => Ok((to, Cmd::Confirm(j))),
        None => Err(ResolveFault::UnknownName(1)),
    }
}

#[tactic(auto, unfolding(crate::specs::Orders::on_job))]
fn kill(network: &Network, o: &Owners, me: Ws, job: &JobRef) -> Result<Order, ResolveFault>
    ensures { result ≡ spec.on_job network.now (view_of o.now) me job.now Kill }
{
    match owned_job(network, o, me, job) {
        Some((to, j)) => Ok((to, Cmd::Kill(j))),
        None => Err(ResolveFault::UnknownName(1)),
    }
}

#[tactic(auto, unfolding(crate::specs::Orders::on_job))]
fn rerun(network: &Network, o: &Owners, me: Ws, job: &JobRef) -> Result<Order, ResolveFault>
    ensures { result ≡ spec.on_job network.now (view_of o.now) me job.now Rerun }
{
    match owned_job(network, o, me, job) {
        Some((to, j)) => Ok((to, Cmd::Rerun(j))),
        None => Err(ResolveFault::UnknownName(1)),
    }
}

#[tactic(auto, unfolding(crate::specs::Orders::on_stream))]
fn stream_limit(
    network: &Network,
    o: &Owners,
    me: Ws,
    stream: &StreamRef,
    limit: u16,
) -> Result<Order, ResolveFault>
    ensures { result ≡ spec.on_stream network.now (view_of o.now) me stream.now (λ s. StreamLimit s limit) }
{
    match owned_stream(network, o, me, stream) {
        Some((to, s)) => Ok((to, Cmd::StreamLimit(s, limit))),
        None => Err(ResolveFault::UnknownName(1)),
    }
}

#[tactic(auto, unfolding(crate::specs::Orders::on_workstation))]
fn on_workstation(network: &Network, ws: &Text, cmd: Cmd) -> Result<Order, ResolveFault>
    ensures { result ≡ spec.on_workstation network.now ws.now cmd }
{
    match workstation(network, ws.as_str()) {
        Some(to) => Ok((to, cmd)),
        None => Err(ResolveFault::UnknownName(1)),
    }
}

#[tactic(auto, unfolding(crate::specs::Orders::total))]
fn total(network: &Network, ws: &Text, name: &Text, units: u16) -> Result<Order, ResolveFault>
    ensures { result ≡ spec.total network.now ws.now name.now units }
{
    match resource(network, ws.as_str(), name.as_str()) {
        Some((to, number)) => Ok((to, Cmd::Total(number, units))),
        None => Err(ResolveFault::UnknownName(1)),
    }
}

#[tactic(auto, unfolding(crate::specs::Orders::reply_global))]
fn reply_global(network: &Network, name: &Text, yes: bool) -> Result<Order, ResolveFault>
    ensures { result ≡ spec.reply_global network.now name.now yes }
{
    match prompt(network, name.as_str()) {
        Some(number) => Ok((Ws(0), Cmd::ReplyGlobal(number, yes))),
        None => Err(ResolveFault::UnknownName(1)),
    }
}

/// The name of a submitted stream and of its job.
fn submitted_name(alloc: Global, alias: &Option<Text>) -> Result<Text, NoMemory>
    ensures { IfOk result (λ name. name ≡ unwrap_or alias.now (codes "ADHOC")) }
{
    match alias {
        Some(name) => name.copy(),
        None => Text::of(alloc, "ADHOC"),
    }
}

/// The job of a submitted stream, as the list that it makes.
fn submitted_jobs(alloc: Global, job: JobDraft) -> Result<JobDrafts, NoMemory>
    ensures { IfOk result (λ jobs. jobs ≡ job ∷ []) }
{
    let mut jobs = Items::new(alloc);
    jobs.push(job)?;
    Ok(jobs)
}

/// The job of a submitted stream.
fn submitted_job(alloc: Global, w: Ws, name: Text, text: Text, priority: u8) -> JobDraft
    ensures { result ≡ record {
      ws = w;
      name = name;
      priority = priority;
      work = Command text;
      logon = [];
      cond = [];
      recovery = recovery.Stop;
      deps = [];
    } }
{
    JobDraft {
        ws: w,
        name,
        priority,
        work: Work::Command(text),
        logon: Text::new(alloc),
        cond: Items::new(alloc),
        recovery: Recovery::Stop,
        deps: Items::new(alloc),
    }
}

/// A stream of one job of its name, on one workstation.
#[tactic(auto, unfolding(crate::specs::Orders::submitted))]
fn submitted(
    alloc: Global,
    w: Ws,
    text: &Text,
    alias: &Option<Text>,
    priority: Option<u8>,
) -> Result<StreamDraft, NoMemory>
    ensures { IfOk result (λ draft. draft ≡ spec.submitted w text.now alias.now priority) }
{
    let name = submitted_name(alloc, alias)?;
    let job = submitted_job(alloc, w, name, text.copy()?, priority.unwrap_or(10));
    let jobs = submitted_jobs(alloc, job)?;
    Ok(StreamDraft {
        ws: w,
        name: submitted_name(alloc, alias)?,
        priority: 10,
        limit: None,
        carry: false,
        deps: Items::new(alloc),
        jobs,
    })
}

#[tactic(auto, unfolding(crate::specs::Orders::submit))]
fn submit(
    alloc: Global,
    network: &Network,
    ws: &Text,
    text: &Text,
    alias: &Option<Text>,
    priority: Option<u8>,
) -> Result<Order, ResolveFault>
    ensures { Gives result (spec.submit network.now ws.now text.now alias.now priority) }
{
    let Some(w) = workstation(network, ws.as_str()) else {
        return Err(ResolveFault::UnknownName(1));
    };
    let draft = submitted(alloc, w, text, alias, priority)?;
    Ok((Ws(0), Cmd::Submit(draft)))
}

/// The workstation is argument 2. It is looked up first, since the domain is known by it.
#[tactic(auto, unfolding(crate::specs::Orders::switch_mgr))]
fn switch_mgr(network: &Network, domain: &Text, ws: &Text) -> Result<Order, ResolveFault>
    ensures { result ≡ spec.switch_mgr network.now domain.now ws.now }
{
    let Some(w) = workstation(network, ws.as_str()) else {
        return Err(ResolveFault::UnknownName(2));
    };
    if !is_domain_of(network.net(), w, domain.as_str()) {
        return Err(ResolveFault::UnknownName(1));
    }
    Ok((Ws(0), Cmd::SwitchMgr(w)))
}

/// The row of a line in the table.
#[tactic(auto, using(crate::proofs::Commands::rows_give), unfolding(crate::specs::Orders::due_order))]
fn row(
    alloc: Global,
    network: &Network,
    o: &Owners,
    me: Ws,
    line: &Line,
) -> Result<Order, ResolveFault>
    ensures answer { Gives result (due_order network.now (view_of o.now) me line.now) }
    ensures not_a_command { GivesNoCommand network.now (view_of o.now) me line.now
        → result ≡ Err fault.NotACommand }
{
    match line {
        Line::AddDep(object, dep) => add_dep(network, o, me, object, dep),
        Line::DelDep(object, dep) => del_dep(network, o, me, object, dep),
        Line::Release(object) => release(network, o, me, object),
        Line::AltPri(object, priority) => alt_pri(network, o, me, object, *priority),
        Line::Cancel(object) => cancel(network, o, me, object),
        Line::Confirm(job) => confirm(network, o, me, job),
        Line::Kill(job) => kill(network, o, me, job),
        Line::Rerun(job) => rerun(network, o, me, job),
        Line::Fence(ws, priority) => on_workstation(network, ws, Cmd::Fence(*priority)),
        Line::CpuLimit(ws, limit) => on_workstation(network, ws, Cmd::Limit(*limit)),
        Line::StreamLimit(stream, limit) => stream_limit(network, o, me, stream, *limit),
        Line::Resource(ws, name, units) => total(network, ws, name, *units),
        Line::ReplyGlobal(name, yes) => reply_global(network, name, *yes),
        Line::ReplyOwn(object, i, yes) => reply_own(network, o, me, object, *i, *yes),
        Line::Start(ws) => on_workstation(network, ws, Cmd::Start),
        Line::Stop(ws) => on_workstation(network, ws, Cmd::Stop),
        Line::Submit(ws, text, alias, priority) => {
            submit(alloc, network, ws, text, alias, *priority)
        }
        Line::SwitchMgr(domain, ws) => switch_mgr(network, domain, ws),
        Line::ShowJobs(_)
        | Line::ShowSchedules(_)
        | Line::ShowCpus(_)
        | Line::ShowPrompts(_)
        | Line::ShowResources(_)
        | Line::Link(_)
        | Line::Unlink(_)
        | Line::Shutdown
        | Line::JNextPlan(_) => Err(ResolveFault::NotACommand),
    }
}

/// The command that a line gives, and the workstation that it goes to, where it is typed at the workstation `me`, which
/// took these entries. Names are looked up in the network as it stands for it.
///
/// Unless memory runs out, the answer is exactly the one that is due; that a line gives no command is told without memory.
/// Of a line that was read, the command is one that an entry may have: its texts have at most 4,096 bytes each.
pub fn resolve(
    alloc: Global,
    network: &Network,
    o: &Owners,
    me: Ws,
    line: &Line,
) -> Result<(Ws, Cmd), ResolveFault>
    ensures answer { HadMemory result → result ≡ due_order network.now (view_of o.now) me line.now }
    ensures order { HadMemory result → (to : ℕ) (cmd : Cmds) →
        (result ≡ Ok (to, cmd)) ↔ IsOrder network.now (view_of o.now) me line.now to cmd }
    ensures unknown_name { HadMemory result → (n : ℕ) →
        IsErrOf result (fault.UnknownName n) ↔ HasUnknownName network.now (view_of o.now) me line.now n }
    ensures not_a_command { IsErrOf result fault.NotACommand
        ↔ GivesNoCommand network.now (view_of o.now) me line.now }
    ensures fit { (most : ℕ) → IsFitLine most line.now → IfOk result IsFitOrder }
{
    row(alloc, network, o, me, line)
}
