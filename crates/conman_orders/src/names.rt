//! What the names of a line stand for. No look-up takes memory, but for the text that a dependency brings along.
ghost use Rattle.std.specs.Prelude.{◌≡◌, ◌≤◌, ◌∷◌, ◌==◌, ℕ, List, IfOk, drop, false, length, option_map, Some};
ghost use Rattle.std.specs.Prelude.{slice_get};
ghost use Rattle.std.specs.Option.{IfSome, option_map_or, option_or};
ghost use Rattle.model.specs.Words.{has};
ghost use Rattle.model.specs.Network.{domain};
ghost use Rattle.model.specs.History.{view_of};
ghost use Rattle.conman_orders.specs.Names as spec;
ghost use Rattle.conman_orders.specs.Names.{last_that};
ghost use Rattle.conman_orders.specs.Latest.{last_by_index};

use crate::dependencies::is_same_text;
use base_types::{
    Copied, Dep, JobNo, Moment, Net, NoMemory, Obj, PromptRef, Resource, StreamDoc, StreamNo, Text,
    Ws,
};
use conman_syntax::{DepRef, JobRef, ObjRef, StreamRef};
use network_tree::Network;
use owner_fold::Owners;

/// The workstation of this name.
#[tactic(auto, using(network_tree::proofs::Sizes::few_nodes), unfolding(crate::specs::Names::workstation))]
pub fn workstation(network: &Network, name: &str) -> Option<Ws>
    ensures { result ≡ spec.workstation network.now name.now }
{
    let nodes = network.net().nodes.as_slice();
    for (i, node) in nodes.iter().enumerate() {
        if is_same_text(node.name.as_str(), name) {
            return Some(Ws(i as u16));
        }
    }
    None
}

/// The manager of a workstation's domain: the workstation itself where it is one, else its hop.
fn manager(net: &Net, w: Ws) -> Ws
    ensures { result ≡ domain net.now w }
{
    match net.nodes.get(usize::from(w.0)) {
        None => Ws(0),
        Some(node) if node.manager => w,
        Some(node) => match node.hop {
            None => Ws(0),
            Some(hop) => hop,
        },
    }
}

/// Whether the workstation's domain has this name, which is its manager's.
#[tactic(auto, unfolding(crate::specs::Names::is_domain_of))]
pub fn is_domain_of(net: &Net, w: Ws, name: &str) -> bool
    ensures { result ≡ spec.is_domain_of net.now w name.now }
{
    let manager = manager(net, w);
    match net.nodes.get(usize::from(manager.0)) {
        None => false,
        Some(node) => is_same_text(node.name.as_str(), name),
    }
}

/// The number, from 1, of the network's prompt of this name.
#[tactic(auto, using(network_tree::proofs::Sizes::few_prompts), unfolding(crate::specs::Names::prompt_named))]
pub fn prompt(network: &Network, name: &str) -> Option<u16>
    ensures { result ≡ spec.prompt_named network.now name.now }
{
    let prompts = network.net().prompts.as_slice();
    for (i, prompt) in prompts.iter().enumerate() {
        if is_same_text(prompt.name.as_str(), name) {
            return Some(i as u16 + 1);
        }
    }
    None
}

/// Whether the resource has this workstation and name.
fn is_resource(resource: &Resource, w: Ws, name: &str) -> bool
    ensures { result ≡ spec.is_resource w name.now resource.now }
{
    resource.ws.0 == w.0 && is_same_text(resource.name.as_str(), name)
}

/// The number, from 1, of the resource of this name on a workstation.
#[tactic(auto, using(network_tree::proofs::Sizes::few_resources), unfolding(crate::specs::Names::resource_on))]
fn resource_on(network: &Network, w: Ws, name: &str) -> Option<u16>
    ensures { result ≡ spec.resource_on network.now w name.now }
{
    let resources = network.net().resources.as_slice();
    for (i, resource) in resources.iter().enumerate() {
        if is_resource(resource, w, name) {
            return Some(i as u16 + 1);
        }
    }
    None
}

/// The workstation of the first name, and its resource of the second.
#[tactic(auto, unfolding(crate::specs::Names::resource_named))]
pub fn resource(network: &Network, ws: &str, name: &str) -> Option<(Ws, u16)>
    ensures { result ≡ spec.resource_named network.now ws.now name.now }
{
    let w = workstation(network, ws)?;
    let number = resource_on(network, w, name)?;
    Some((w, number))
}

/// Whether the stream has this workstation and name.
fn is_called(doc: &StreamDoc, w: Ws, name: &str) -> bool
    ensures { result ≡ spec.is_called w name.now doc.now }
{
    doc.ws.0 == w.0 && is_same_text(doc.name.as_str(), name)
}

/// Whether the stream of this number in the catalogue has this workstation and name.
fn is_called_at(o: &Owners, s: StreamNo, w: Ws, name: &str) -> bool
    ensures { result ≡ spec.is_called_at (view_of o.now) w name.now s }
{
    match o.stream(s) {
        None => false,
        Some(doc) => is_called(doc, w, name),
    }
}

/// Whether this number stands at an index.
fn is_at(numbers: &[StreamNo], i: usize, s: StreamNo) -> bool
    ensures { result ≡ option_map_or (λ n. n == s) (slice_get numbers.now i) false }
{
    match numbers.get(i) {
        None => false,
        Some(number) => number.0 == s.0,
    }
}

/// The index behind the last such number, from an index on. None where it does not stand there.
#[tactic(auto, using(crate::proofs::Latest::found_at, crate::proofs::Latest::absent_past))]
fn behind_last(numbers: &[StreamNo], from: usize, s: StreamNo) -> Option<usize>
    requires { from ≤ length numbers.now }
    ensures within { IfSome result (λ next. next ≤ length numbers.now) }
    ensures last { (others : List ℕ) → last_that (has (s ∷ others)) (drop from numbers.now)
        ≡ last_by_index others numbers.now from s result }
{
    for i in (from..numbers.len()).rev() {
        if is_at(numbers, i, s) {
            return Some(i + 1);
        }
    }
    None
}

/// What was found last among the members, and the index of the members behind it.
#[derive(Drop)]
struct Latest {
    found: Option<StreamNo>,
    next: usize,
}

/// What was found last, where this stream is looked for too.
fn looked_for(members: &[StreamNo], latest: &Latest, s: StreamNo) -> Latest
    requires { latest.now.next ≤ length members.now }
    ensures within { result.next ≤ length members.now }
    ensures last { (others : List ℕ) →
        option_or (last_that (has (s ∷ others)) (drop latest.now.next members.now)) latest.now.found
        ≡ option_or (last_that (has others) (drop result.next members.now)) result.found }
{
    match behind_last(members, latest.next, s) {
        None => Latest {
            found: latest.found,
            next: latest.next,
        },
        Some(next) => Latest {
            found: Some(s),
            next,
        },
    }
}

/// The last member of this workstation and name.
#[tactic(auto, using(crate::proofs::Latest::last_all, crate::proofs::Latest::last_end, crate::proofs::Latest::met))]
fn last_member(o: &Owners, w: Ws, name: &str) -> Option<StreamNo>
    ensures { result ≡ spec.last_member (view_of o.now) w name.now }
{
    let members = o.members().as_slice();
    let mut latest = Latest {
        found: None,
        next: 0,
    };
    for doc in o.streams() {
        if is_called(doc, w, name) {
            latest = looked_for(members, &latest, doc.no);
        }
    }
    latest.found
}

/// The stream of this name on a workstation, by its number or else the last member.
fn stream_on(o: &Owners, w: Ws, name: &str, no: Option<u32>) -> Option<StreamNo>
    ensures { result ≡ spec.stream_on (view_of o.now) w name.now no }
{
    match no {
        None => last_member(o, w, name),
        Some(n) => {
            if is_called_at(o, StreamNo(n), w, name) {
                Some(StreamNo(n))
            } else {
                None
            }
        }
    }
}

/// The workstation that is typed before a stream, or else the node's own.
fn workstation_or(network: &Network, me: Ws, name: &Option<Text>) -> Option<Ws>
    ensures { result ≡ spec.workstation_or network.now me name.now }
{
    match name {
        None => Some(me),
        Some(name) => workstation(network, name.as_str()),
    }
}

/// The stream that is typed so at the workstation `me`.
#[tactic(auto, unfolding(crate::specs::Names::stream_named))]
pub fn stream(network: &Network, o: &Owners, me: Ws, typed: &StreamRef) -> Option<StreamNo>
    ensures { result ≡ spec.stream_named network.now (view_of o.now) me typed.now }
{
    let w = workstation_or(network, me, &typed.ws)?;
    stream_on(o, w, typed.name.as_str(), typed.no)
}

/// The first job of this name in a stream.
#[tactic(auto, unfolding(crate::specs::Names::job_in, model::specs::Catalogue::jobs_of_stream))]
fn job_in(o: &Owners, s: StreamNo, name: &str) -> Option<JobNo>
    ensures { result ≡ spec.job_in (view_of o.now) s name.now }
{
    for (parent, doc) in o.jobs() {
        if parent.no.0 == s.0 && is_same_text(doc.name.as_str(), name) {
            return Some(doc.no);
        }
    }
    None
}

/// The job that is typed so at the workstation `me`.
#[tactic(auto, unfolding(crate::specs::Names::job_named))]
pub fn job(network: &Network, o: &Owners, me: Ws, typed: &JobRef) -> Option<JobNo>
    ensures { result ≡ spec.job_named network.now (view_of o.now) me typed.now }
{
    let s = stream(network, o, me, &typed.stream)?;
    job_in(o, s, typed.name.as_str())
}

/// The job or stream that is typed so at the workstation `me`.
#[tactic(auto, unfolding(crate::specs::Names::object_named))]
pub fn object(network: &Network, o: &Owners, me: Ws, typed: &ObjRef) -> Option<Obj>
    ensures { result ≡ spec.object_named network.now (view_of o.now) me typed.now }
{
    match typed {
        ObjRef::Job(typed) => match job(network, o, me, typed) {
            None => None,
            Some(j) => Some(Obj::Job(j)),
        },
        ObjRef::Stream(typed) => match stream(network, o, me, typed) {
            None => None,
            Some(s) => Some(Obj::Stream(s)),
        },
    }
}

/// A dependency on a job.
fn follows_job(network: &Network, o: &Owners, me: Ws, typed: &JobRef) -> Option<Dep>
    ensures { result ≡ option_map Dep.FollowsJob (spec.job_named network.now (view_of o.now) me typed.now) }
{
    match job(network, o, me, typed) {
        Some(j) => Some(Dep::FollowsJob(j)),
        None => None,
    }
}

/// A dependency on a stream.
fn follows_stream(network: &Network, o: &Owners, me: Ws, typed: &StreamRef) -> Option<Dep>
    ensures { result ≡ option_map Dep.FollowsStream (spec.stream_named network.now (view_of o.now) me typed.now) }
{
    match stream(network, o, me, typed) {
        Some(s) => Some(Dep::FollowsStream(s)),
        None => None,
    }
}

/// A dependency on units of a resource.
fn needs(network: &Network, units: u16, ws: &str, name: &str) -> Option<Dep>
    ensures { result ≡ option_map (λ q. Dep.Needs q.1 units) (spec.resource_named network.now ws.now name.now) }
{
    match resource(network, ws, name) {
        Some((_, number)) => Some(Dep::Needs(number, units)),
        None => None,
    }
}

/// A dependency on a prompt of the network.
fn asks(network: &Network, name: &str) -> Option<Dep>
    ensures { result ≡ option_map (λ p. Dep.Prompt (PromptRef.Global p)) (spec.prompt_named network.now name.now) }
{
    match prompt(network, name) {
        Some(number) => Some(Dep::Prompt(PromptRef::Global(number))),
        None => None,
    }
}

/// A dependency on a prompt of its own.
fn asks_own(text: &Text) -> Result<Option<Dep>, NoMemory>
    ensures { IfOk result (λ d. d ≡ Some (Dep.Prompt (PromptRef.Own text.now))) }
{
    match text.copy() {
        Ok(text) => Ok(Some(Dep::Prompt(PromptRef::Own(text)))),
        Err(error) => Err(error),
    }
}

/// The dependency that is typed so at the workstation `me`.
#[tactic(auto, unfolding(crate::specs::Names::dep_named))]
pub fn dep(network: &Network, o: &Owners, me: Ws, typed: &DepRef) -> Result<Option<Dep>, NoMemory>
    ensures { IfOk result (λ d. d ≡ spec.dep_named network.now (view_of o.now) me typed.now) }
{
    match typed {
        DepRef::FollowsJob(typed) => Ok(follows_job(network, o, me, typed)),
        DepRef::FollowsStream(typed) => Ok(follows_stream(network, o, me, typed)),
        DepRef::Needs(units, ws, name) => Ok(needs(network, *units, ws.as_str(), name.as_str())),
        DepRef::PromptName(name) => Ok(asks(network, name.as_str())),
        DepRef::PromptText(text) => asks_own(text),
        DepRef::At(moment) => Ok(Some(Dep::At(Moment(*moment)))),
        DepRef::Until(moment, mark) => Ok(Some(Dep::Until(Moment(*moment), *mark))),
    }
}
