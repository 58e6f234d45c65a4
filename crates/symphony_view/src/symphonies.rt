//! The bytes of Symphony.
ghost use Rattle.std.specs.Prelude.{◌≡◌, ◌++◌, ◌≤◌, IfOk, OnOk, codes, flat_map, length};
ghost use Rattle.std.specs.List.{enumerate_from};
ghost use Rattle.model.specs.Words.{below};
ghost use Rattle.model.specs.Network.{node_count};
ghost use Rattle.model.specs.History.{view_of};
ghost use Rattle.model.specs.Catalogue.{members};
ghost use Rattle.model.specs.Fields.{list_bytes, u32_bytes};
ghost use Rattle.model.specs.Fit.{AreFitEntries, IsFitStream};
ghost use Rattle.owner_fold.specs.DocPlaces.{stream_job};
ghost use Rattle.dependencies.specs.Planned.{IsPlannedJob, IsPlannedStream};
ghost use Rattle.symphony_view.specs.Symphonies as spec;

use crate::cpus::{Cpu, cpu_of};
use crate::lateness::{is_second, is_shown_late};
use crate::prompts::{prompt_number, prompt_state};
use crate::ranges::{prompts, resources};
use crate::states::{job_number, state_of_job, state_of_stream, stream_number};
use base_types::{
    Bytes, Items, JobDoc, NoMemory, Obj, PromptDef, Resource, StreamDoc, StreamNo, Ws,
};
use byte_fields::{put_u8, put_u16, put_u32, put_u64};
use dependencies::{job_priority, stream_priority};
use entry_codec::{put_flag, put_stream};
use network_tree::Network;
use owner_fold::Owners;
use std::alloc::Global;

/// The Symphony of the plan that the entries of `o` make.
///
/// It has version 2 where a document of a member has a DEADLINE, or a member or one of its jobs is late, and tells then
/// what is late. Every other plan has version 1.
///
/// `NoMemory` where memory runs out; a list of more than 4,294,967,295 members counts as such.
pub fn symphony(alloc: Global, net: &Network, o: &Owners) -> Result<Bytes, NoMemory>
    requires { AreFitEntries o.now }
    ensures { IfOk result (λ bytes. bytes ≡ spec.symphony_of net.now (view_of o.now)) }
{
    let mut out = Items::new(alloc);
    put_symphony(&mut out, net, o)?;
    Ok(out)
}

#[tactic(auto, unfolding(crate::specs::Symphonies::symphony_of))]
fn put_symphony(out: &mut Bytes, net: &Network, o: &Owners) -> Result<(), NoMemory>
    requires { AreFitEntries o.now }
    ensures { OnOk result (out.new ≡ out.old ++ spec.symphony_of net.now (view_of o.now)) }
{
    let second = is_second(o);
    put_mark(out)?;
    put_u16(out, version_of(second))?;
    put_u16(out, net.count())?;
    put_cpus(out, net, o)?;
    put_u32(out, o.run())?;
    put_members(out, second, net, o)?;
    put_resources(out, resources(net), o)?;
    put_prompts(out, prompts(net), o)
}

/// The four bytes at the beginning.
fn put_mark(out: &mut Bytes) -> Result<(), NoMemory>
    ensures { OnOk result (out.new ≡ out.old ++ codes "TWSY") }
{
    put_u8(out, b'T')?;
    put_u8(out, b'W')?;
    put_u8(out, b'S')?;
    put_u8(out, b'Y')
}

fn version_of(second: bool) -> u16
    ensures { result ≡ spec.version_of second }
{
    if second { 2 } else { 1 }
}

/// How many items a list has. More than 4,294,967,295, which no plan has, are answered as want of memory.
fn put_count(out: &mut Bytes, count: usize) -> Result<(), NoMemory>
    ensures { OnOk result (out.new ≡ out.old ++ u32_bytes count) }
{
    match u32::try_from(count) {
        Ok(count) => put_u32(out, count),
        Err(_) => Err(NoMemory),
    }
}

#[tactic(auto, using(crate::proofs::Belows::one_more))]
fn put_cpus(out: &mut Bytes, net: &Network, o: &Owners) -> Result<(), NoMemory>
    ensures { OnOk result (out.new ≡ out.old
        ++ flat_map (spec.cpu_bytes (view_of o.now)) (below (node_count net.now))) }
{
    for w in 0..net.count() {
        put_cpu(out, o, Ws(w))?;
    }
    Ok(())
}

#[tactic(auto, unfolding(crate::specs::Symphonies::cpu_bytes))]
fn put_cpu(out: &mut Bytes, o: &Owners, w: Ws) -> Result<(), NoMemory>
    ensures { OnOk result (out.new ≡ out.old ++ spec.cpu_bytes (view_of o.now) w) }
{
    put_fields(out, &cpu_of(o, w))
}

#[tactic(auto, unfolding(crate::specs::Symphonies::fields_of))]
fn put_fields(out: &mut Bytes, cpu: &Cpu) -> Result<(), NoMemory>
    ensures { OnOk result (out.new ≡ out.old ++ spec.fields_of cpu.now) }
{
    put_settings(out, cpu)?;
    put_clock(out, cpu)
}

#[tactic(auto, unfolding(crate::specs::Symphonies::settings_bytes))]
fn put_settings(out: &mut Bytes, cpu: &Cpu) -> Result<(), NoMemory>
    ensures { OnOk result (out.new ≡ out.old ++ spec.settings_bytes cpu.now) }
{
    put_u32(out, cpu.held)?;
    put_u8(out, cpu.fence)?;
    put_u16(out, cpu.limit)
}

#[tactic(auto, using(crate::proofs::Joins::joined), unfolding(crate::specs::Symphonies::clock_bytes))]
fn put_clock(out: &mut Bytes, cpu: &Cpu) -> Result<(), NoMemory>
    ensures { OnOk result (out.new ≡ out.old ++ spec.clock_bytes cpu.now) }
{
    put_u64(out, cpu.clock)?;
    put_flag(out, cpu.stopped)
}

fn put_members(out: &mut Bytes, second: bool, net: &Network, o: &Owners) -> Result<(), NoMemory>
    requires { AreFitEntries o.now }
    ensures { OnOk result (out.new ≡ out.old
        ++ list_bytes (spec.member_bytes second net.now (view_of o.now)) (members (view_of o.now))) }
{
    let streams = o.members().as_slice();
    put_count(out, streams.len())?;
    for s in streams {
        put_member(out, second, net, o, *s)?;
    }
    Ok(())
}

#[tactic(auto, unfolding(crate::specs::Symphonies::member_bytes))]
fn put_member(
    out: &mut Bytes,
    second: bool,
    net: &Network,
    o: &Owners,
    s: StreamNo,
) -> Result<(), NoMemory>
    requires { AreFitEntries o.now }
    ensures { OnOk result (out.new ≡ out.old ++ spec.member_bytes second net.now (view_of o.now) s) }
{
    match o.stream(s) {
        None => Ok(()),
        Some(doc) => put_planned(out, second, net, o, doc),
    }
}

#[tactic(auto, unfolding(crate::specs::Symphonies::stream_bytes))]
fn put_planned(
    out: &mut Bytes,
    second: bool,
    net: &Network,
    o: &Owners,
    doc: &StreamDoc,
) -> Result<(), NoMemory>
    requires planned { IsPlannedStream (view_of o.now) doc.now }
    requires fit { IsFitStream doc.now }
    ensures { OnOk result (out.new ≡ out.old ++ spec.stream_bytes second net.now (view_of o.now) doc.now) }
{
    put_stream(out, doc)?;
    put_u8(out, stream_number(state_of_stream(net, o, doc)))?;
    put_u8(out, stream_priority(o, doc))?;
    put_late(out, second, o, Obj::Stream(doc.no))?;
    for job in doc.jobs.as_slice() {
        put_numbered_job(out, second, net, o, job)?;
    }
    Ok(())
}

#[tactic(auto, unfolding(crate::specs::Symphonies::numbered_job_bytes))]
fn put_numbered_job(
    out: &mut Bytes,
    second: bool,
    net: &Network,
    o: &Owners,
    job: &JobDoc,
) -> Result<(), NoMemory>
    ensures { OnOk result (out.new ≡ out.old ++ spec.numbered_job_bytes second net.now (view_of o.now) job.now) }
{
    match o.planned_job(job.no) {
        None => Ok(()),
        Some((parent, doc)) => put_job(out, second, net, o, parent, doc),
    }
}

#[tactic(auto, unfolding(crate::specs::Symphonies::job_bytes))]
fn put_job(
    out: &mut Bytes,
    second: bool,
    net: &Network,
    o: &Owners,
    parent: &StreamDoc,
    doc: &JobDoc,
) -> Result<(), NoMemory>
    requires { IsPlannedJob (view_of o.now) (stream_job parent.now doc.now) }
    ensures { OnOk result (out.new ≡ out.old
        ++ spec.job_bytes second net.now (view_of o.now) (stream_job parent.now doc.now)) }
{
    put_u8(out, job_number(state_of_job(net, o, parent, doc)))?;
    put_u32(out, o.launches(doc.no))?;
    put_u8(out, job_priority(o, parent, doc))?;
    put_late(out, second, o, Obj::Job(doc.no))
}

/// Whether an object is late, in version 2.
#[tactic(auto, unfolding(crate::specs::Symphonies::late_bytes))]
fn put_late(out: &mut Bytes, second: bool, o: &Owners, object: Obj) -> Result<(), NoMemory>
    ensures { OnOk result (out.new ≡ out.old ++ spec.late_bytes second (view_of o.now) object) }
{
    if !second {
        return Ok(());
    }
    put_flag(out, is_shown_late(o, object))
}

#[tactic(auto, using(crate::proofs::Numbered::listed))]
fn put_resources(out: &mut Bytes, resources: &[Resource], o: &Owners) -> Result<(), NoMemory>
    requires { length resources.now ≤ 65535 }
    ensures { OnOk result (out.new ≡ out.old
        ++ list_bytes (spec.resource_bytes (view_of o.now)) (enumerate_from 1 resources.now)) }
{
    put_count(out, resources.len())?;
    put_each_resource(out, resources, o)
}

fn put_each_resource(out: &mut Bytes, resources: &[Resource], o: &Owners) -> Result<(), NoMemory>
    requires { length resources.now ≤ 65535 }
    ensures { OnOk result (out.new ≡ out.old
        ++ flat_map (spec.resource_bytes (view_of o.now)) (enumerate_from 1 resources.now)) }
{
    let mut number = 0;
    for resource in resources {
        number += 1;
        put_resource(out, o, number, resource)?;
    }
    Ok(())
}

#[tactic(auto, unfolding(crate::specs::Symphonies::resource_bytes))]
fn put_resource(
    out: &mut Bytes,
    o: &Owners,
    number: u16,
    resource: &Resource,
) -> Result<(), NoMemory>
    ensures { OnOk result (out.new ≡ out.old ++ spec.resource_bytes (view_of o.now) (number, resource.now)) }
{
    put_u64(out, o.used(resource.ws, number))?;
    put_u16(
        out,
        o.total_set(resource.ws, number).unwrap_or(resource.total),
    )
}

#[tactic(auto, using(crate::proofs::Numbered::listed))]
fn put_prompts(out: &mut Bytes, prompts: &[PromptDef], o: &Owners) -> Result<(), NoMemory>
    requires { length prompts.now ≤ 65535 }
    ensures { OnOk result (out.new ≡ out.old
        ++ list_bytes (spec.prompt_bytes (view_of o.now)) (enumerate_from 1 prompts.now)) }
{
    put_count(out, prompts.len())?;
    put_each_prompt(out, prompts, o)
}

fn put_each_prompt(out: &mut Bytes, prompts: &[PromptDef], o: &Owners) -> Result<(), NoMemory>
    requires { length prompts.now ≤ 65535 }
    ensures { OnOk result (out.new ≡ out.old
        ++ flat_map (spec.prompt_bytes (view_of o.now)) (enumerate_from 1 prompts.now)) }
{
    let mut number = 0;
    for prompt in prompts {
        number += 1;
        put_prompt(out, o, number, prompt)?;
    }
    Ok(())
}

#[tactic(auto, unfolding(crate::specs::Symphonies::prompt_bytes))]
fn put_prompt(out: &mut Bytes, o: &Owners, number: u16, prompt: &PromptDef) -> Result<(), NoMemory>
    ensures { OnOk result (out.new ≡ out.old ++ spec.prompt_bytes (view_of o.now) (number, prompt.now)) }
{
    put_u8(out, prompt_number(prompt_state(o, number, prompt)))
}
