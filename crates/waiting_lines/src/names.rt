//! Jobs, streams, resources and prompts by their names.
ghost use Rattle.std.specs.Prelude.{◌≡◌, ◌++◌, None, OnOk, Option, Some};
ghost use Rattle.std.specs.Option.{option_copied};
ghost use Rattle.model.specs.Catalogue.{job};
ghost use Rattle.model.specs.Dependencies.{dep};
ghost use Rattle.model.specs.History.{view_of};
ghost use Rattle.model.specs.Words.{nth};
ghost use Rattle.owner_fold.specs.DocPlaces.{stream_job};
ghost use Rattle.waiting_lines.specs.Names as spec;

use base_types::{Dep, JobDoc, JobNo, Obj, PromptDef, PromptRef, Resource, StreamDoc, StreamNo};
use network_tree::Network;
use owner_fold::Owners;
use report_text::name;
use std::io::{self, Write};
use symphony_view::{job_state, job_word};

/// Writes `W#STREAM`.
#[tactic(auto, unfolding(crate::specs::Names::stream_text))]
pub(crate) fn write_stream(out: &mut Vec<u8>, net: &Network, doc: &StreamDoc) -> io::Result<()>
    ensures { OnOk result (out.new.items ≡ out.old.items ++ spec.stream_text net.now doc.now) }
{
    let ws = name(net.net(), &doc.ws);
    write!(out, "{ws}#{}", doc.name.as_str())
}

/// Writes `W#STREAM.JOB`.
#[tactic(auto, unfolding(crate::specs::Names::job_text))]
pub(crate) fn write_job(
    out: &mut Vec<u8>,
    net: &Network,
    parent: &StreamDoc,
    doc: &JobDoc,
) -> io::Result<()>
    ensures { OnOk result (out.new.items ≡ out.old.items ++ spec.job_text net.now (stream_job parent.now doc.now)) }
{
    let ws = name(net.net(), &parent.ws);
    let stream = parent.name.as_str();
    write!(out, "{ws}#{stream}.{}", doc.name.as_str())
}

/// Writes the name of the stream of a number.
#[tactic(auto, unfolding(crate::specs::Names::stream_name))]
pub(crate) fn write_stream_name(
    out: &mut Vec<u8>,
    net: &Network,
    o: &Owners,
    s: &StreamNo,
) -> io::Result<()>
    ensures { OnOk result (out.new.items ≡ out.old.items ++ spec.stream_name net.now (view_of o.now) s.now) }
{
    match o.stream(*s) {
        None => Ok(()),
        Some(doc) => write_stream(out, net, doc),
    }
}

/// Writes the name of the job of a number.
#[tactic(auto, unfolding(crate::specs::Names::job_name))]
pub(crate) fn write_job_name(
    out: &mut Vec<u8>,
    net: &Network,
    o: &Owners,
    j: &JobNo,
) -> io::Result<()>
    ensures { OnOk result (out.new.items ≡ out.old.items ++ spec.job_name net.now (view_of o.now) j.now) }
{
    match o.planned_job(*j) {
        None => Ok(()),
        Some((parent, doc)) => write_job(out, net, parent, doc),
    }
}

/// The word of the state of the job of a number.
#[tactic(auto, unfolding(crate::specs::Names::state_of_job))]
pub(crate) fn state_word(net: &Network, o: &Owners, j: &JobNo) -> &'static str
    ensures { result.now ≡ spec.state_of_job net.now (view_of o.now) j.now }
{
    let number = *j;
    match o.planned_job(number) {
        None => "",
        Some(_) => job_word(job_state(net, o, *j)),
    }
}

/// The resource of a number.
fn resource_of(net: &Network, r: u16) -> Option<&Resource>
    ensures { option_copied result ≡ nth net.now.resources r }
{
    if r == 0 {
        return None;
    }
    net.net().resources.get(usize::from(r - 1))
}

/// Writes `W#RESOURCE`.
#[tactic(auto, unfolding(crate::specs::Names::resource_name))]
pub(crate) fn write_resource(out: &mut Vec<u8>, net: &Network, r: u16) -> io::Result<()>
    ensures { OnOk result (out.new.items ≡ out.old.items ++ spec.resource_name net.now r) }
{
    match resource_of(net, r) {
        None => Ok(()),
        Some(resource) => {
            let ws = name(net.net(), &resource.ws);
            write!(out, "{ws}#{}", resource.name.as_str())
        }
    }
}

/// The prompt of a number.
fn prompt_of(net: &Network, p: u16) -> Option<&PromptDef>
    ensures { option_copied result ≡ nth net.now.prompts p }
{
    if p == 0 {
        return None;
    }
    net.net().prompts.get(usize::from(p - 1))
}

/// Writes `NAME "TEXT"`.
#[tactic(auto, unfolding(crate::specs::Names::prompt_name))]
pub(crate) fn write_prompt(out: &mut Vec<u8>, net: &Network, p: u16) -> io::Result<()>
    ensures { OnOk result (out.new.items ≡ out.old.items ++ spec.prompt_name net.now p) }
{
    match prompt_of(net, p) {
        None => Ok(()),
        Some(prompt) => write!(out, "{} \"{}\"", prompt.name.as_str(), prompt.text.as_str()),
    }
}

/// What was replied.
pub(crate) fn reply_text(reply: Option<bool>) -> &'static str
    ensures { result.now ≡ spec.reply_text reply }
{
    match reply {
        None => "no reply",
        Some(true) => "the reply was yes",
        Some(false) => "the reply was no",
    }
}

/// The text of a prompt that an object holds.
pub(crate) fn text_of<'a>(o: &'a Owners, obj: &Obj, i: u16) -> &'a str
    ensures { result.now ≡ spec.text_in (dep (view_of o.now) obj.now i) }
{
    match o.dep(*obj, i) {
        Some(Dep::Prompt(PromptRef::Own(text))) => text.as_str(),
        _ => "",
    }
}

/// The path of a file that an object depends on.
pub(crate) fn path_of<'a>(o: &'a Owners, obj: &Obj, i: u16) -> &'a str
    ensures { result.now ≡ spec.path_in (dep (view_of o.now) obj.now i) }
{
    match o.dep(*obj, i) {
        Some(Dep::Outside(path)) => path.as_str(),
        _ => "",
    }
}
