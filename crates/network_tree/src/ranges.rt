//! The ranges of resources and prompts.
ghost use Rattle.std.specs.Prelude.{◌≡◌, ◌||◌, IfOk, nat_le, nat_lt};
ghost use Rattle.std.specs.List.{list_any};
ghost use Rattle.network_tree.specs.Repeats.{has_repeat};
ghost use Rattle.network_tree.specs.Faults as spec;
ghost use Rattle.network_tree.specs.Faults.{are_one_prompt, are_one_resource, is_bad_resource};

use base_types::{GREATEST_LIMIT, MOST_NUMBERED, Net, NoMemory, PromptDef, Resource, Text};
use indexmap::IndexSet;
use std::alloc::Global;

/// Whether a resource is of a workstation outside a net of `count` ones, or its total is too great.
fn is_bad(resource: &Resource, count: usize) -> bool
    ensures { result ≡ (nat_le count resource.now.ws || nat_lt 1024 resource.now.total) }
{
    count <= usize::from(resource.ws.0) || resource.total > GREATEST_LIMIT
}

fn has_bad_resource(net: &Net) -> bool
    ensures { result ≡ list_any (is_bad_resource net.now) net.now.resources }
{
    let count = net.nodes.len();
    net.resources
        .as_slice()
        .iter()
        .any(|resource| is_bad(resource, count))
}

/// By what two resources are one: the workstation and the name.
fn key(resource: &Resource) -> (u16, &Text)
    ensures ws { result.0 ≡ resource.now.ws }
    ensures name { result.1.now ≡ resource.now.name }
{
    (resource.ws.0, &resource.name)
}

/// Whether a resource of one workstation is named twice.
fn repeats_resource(alloc: Global, resources: &[Resource]) -> Result<bool, NoMemory>
    ensures { IfOk result (λ b. b ≡ has_repeat are_one_resource resources.now) }
{
    let mut seen = IndexSet::new(alloc);
    for resource in resources {
        match seen.insert(key(resource)) {
            Ok(true) => {}
            Ok(false) => return Ok(true),
            Err(_) => return Err(NoMemory),
        }
    }
    Ok(false)
}

/// The name of a prompt.
fn name(prompt: &PromptDef) -> &Text
    ensures { result.now ≡ prompt.now.name }
{
    &prompt.name
}

/// Whether a prompt is named twice.
fn repeats_prompt(alloc: Global, prompts: &[PromptDef]) -> Result<bool, NoMemory>
    ensures { IfOk result (λ b. b ≡ has_repeat are_one_prompt prompts.now) }
{
    let mut seen = IndexSet::new(alloc);
    for prompt in prompts {
        match seen.insert(name(prompt)) {
            Ok(true) => {}
            Ok(false) => return Ok(true),
            Err(_) => return Err(NoMemory),
        }
    }
    Ok(false)
}

/// Whether the resources or prompts are out of range.
pub fn is_out_of_range(alloc: Global, net: &Net) -> Result<bool, NoMemory>
    ensures { IfOk result (λ b. b ≡ spec.is_out_of_range net.now) }
{
    if net.resources.len() > MOST_NUMBERED || net.prompts.len() > MOST_NUMBERED {
        return Ok(true);
    }
    if has_bad_resource(net) {
        return Ok(true);
    }
    if repeats_resource(alloc, net.resources.as_slice())? {
        return Ok(true);
    }
    repeats_prompt(alloc, net.prompts.as_slice())
}
