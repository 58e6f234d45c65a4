//! The lines of a network.
ghost use Rattle.std.specs.Prelude.{◌≡◌, ◌++◌, OnOk, flat_map};
ghost use Rattle.plan_listing.specs.Networks as spec;

use base_types::{Carry, Net, Node, PromptDef, Resource};
use report_text::name;
use std::io::{self, Write};
use syntax::write_quoted;

/// Writes the workstations, resources, prompts and the option of a network: what differs from the defaults.
///
/// A workstation that the network lacks has no name, and nothing stands in its place. An error comes where memory runs
/// out, and `out` is of no use then.
#[tactic(auto, unfolding(crate::specs::Networks::network_text))]
pub fn write_network(out: &mut Vec<u8>, net: &Net) -> io::Result<()>
    ensures { OnOk result (out.new.items ≡ out.old.items ++ spec.network_text net.now) }
{
    write!(out, "$NETWORK\n")?;
    write_nodes(out, net, net.nodes.as_slice())?;
    write_resources(out, net, net.resources.as_slice())?;
    write_prompts(out, net.prompts.as_slice())?;
    write_carry(out, net.carry)
}

fn write_nodes(out: &mut Vec<u8>, net: &Net, nodes: &[Node]) -> io::Result<()>
    ensures { OnOk result (out.new.items ≡ out.old.items ++ flat_map (spec.node_line net.now) nodes.now) }
{
    for node in nodes {
        write_node(out, net, node)?;
    }
    Ok(())
}

#[tactic(auto, unfolding(crate::specs::Networks::node_line))]
fn write_node(out: &mut Vec<u8>, net: &Net, node: &Node) -> io::Result<()>
    ensures { OnOk result (out.new.items ≡ out.old.items ++ spec.node_line net.now node.now) }
{
    write!(out, "ws {}", node.name)?;
    write!(out, "{}", hop_gap(node))?;
    write!(out, "{}", hop_name(net, node))?;
    write!(out, "{}\n", mark(node))
}

/// What stands before the hop.
fn hop_gap(node: &Node) -> &'static str
    ensures { result.now ≡ spec.hop_gap node.now }
{
    match &node.hop {
        Some(_) => " ",
        None => "",
    }
}

fn hop_name<'a>(net: &'a Net, node: &Node) -> &'a str
    ensures { result.now ≡ spec.hop_name net.now node.now }
{
    match &node.hop {
        Some(hop) => name(net, hop),
        None => "",
    }
}

/// What stands behind the hop: whether the workstation manages a domain, or else has FULLSTATUS ON.
fn mark(node: &Node) -> &'static str
    ensures { result.now ≡ spec.mark node.now }
{
    if node.hop.is_none() {
        return "";
    }
    if node.manager {
        return " manager";
    }
    if node.full { " on" } else { "" }
}

fn write_resources(out: &mut Vec<u8>, net: &Net, resources: &[Resource]) -> io::Result<()>
    ensures { OnOk result (out.new.items ≡ out.old.items ++ flat_map (spec.resource_line net.now) resources.now) }
{
    for resource in resources {
        write_resource(out, net, resource)?;
    }
    Ok(())
}

#[tactic(auto, unfolding(crate::specs::Networks::resource_line))]
fn write_resource(out: &mut Vec<u8>, net: &Net, resource: &Resource) -> io::Result<()>
    ensures { OnOk result (out.new.items ≡ out.old.items ++ spec.resource_line net.now resource.now) }
{
    let ws = name(net, &resource.ws);
    write!(out, "res {ws} {} {}\n", resource.name, resource.total)
}

fn write_prompts(out: &mut Vec<u8>, prompts: &[PromptDef]) -> io::Result<()>
    ensures { OnOk result (out.new.items ≡ out.old.items ++ flat_map spec.prompt_line prompts.now) }
{
    for prompt in prompts {
        write_prompt(out, prompt)?;
    }
    Ok(())
}

#[tactic(auto, unfolding(crate::specs::Networks::prompt_line))]
fn write_prompt(out: &mut Vec<u8>, prompt: &PromptDef) -> io::Result<()>
    ensures { OnOk result (out.new.items ≡ out.old.items ++ spec.prompt_line prompt.now) }
{
    write!(out, "prompt {} ", prompt.name)?;
    write_quoted(out, &prompt.text)?;
    write!(out, "\n")
}

fn write_carry(out: &mut Vec<u8>, carry: Carry) -> io::Result<()>
    ensures { OnOk result (out.new.items ≡ out.old.items ++ spec.carry_line carry) }
{
    match carry {
        Carry::Yes => Ok(()),
        Carry::No => write!(out, "carryforward no\n"),
        Carry::All => write!(out, "carryforward all\n"),
    }
}
