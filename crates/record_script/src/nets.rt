//! The network of a record.
ghost use Rattle.std.specs.Prelude.{◌≡◌, IfOk, filter_map};
ghost use Rattle.model.specs.Types as types;
ghost use Rattle.record_script.specs.Networks as spec;

use crate::numbers::Numbers;
use crate::values::{text_within, within};
use base_types::{
    Carry, Copied, Items, Net, NoMemory, Node, Nodes, PromptDef, PromptDefs, Resource, Resources,
};
use record_rows::Row;
use std::alloc::Global;

/// The workstation that a row defines.
fn node<'a>(numbers: &Numbers<'a>, row: &'a Row) -> Result<Option<Node>, NoMemory>
    ensures { IfOk result (λ o. o ≡ spec.node_of numbers.now row.now) }
{
    match row {
        Row::Master(name) => Ok(Some(Node {
            name: name.copy()?,
            hop: None,
            manager: true,
            full: false,
        })),
        Row::Station(s) => Ok(Some(Node {
            name: s.name.copy()?,
            hop: Some(numbers.ws(&s.hop)),
            manager: s.manager,
            full: s.full,
        })),
        _ => Ok(None),
    }
}

fn nodes<'a>(alloc: Global, numbers: &Numbers<'a>, rows: &'a [Row]) -> Result<Nodes, NoMemory>
    ensures { IfOk result (λ l. l ≡ filter_map (spec.node_of numbers.now) rows.now) }
{
    let mut nodes = Items::new(alloc);
    for row in rows {
        if let Some(node) = node(numbers, row)? {
            nodes.push(node)?;
        }
    }
    Ok(nodes)
}

/// The resource that a row defines.
fn resource<'a>(numbers: &Numbers<'a>, row: &'a Row) -> Result<Option<Resource>, NoMemory>
    ensures { IfOk result (λ o. o ≡ spec.resource_def numbers.now row.now) }
{
    match row {
        Row::Resource(ws, name, total) => Ok(Some(Resource {
            ws: numbers.ws(ws),
            name: name.copy()?,
            total: within(0, total),
        })),
        _ => Ok(None),
    }
}

fn resources<'a>(
    alloc: Global,
    numbers: &Numbers<'a>,
    rows: &'a [Row],
) -> Result<Resources, NoMemory>
    ensures { IfOk result (λ l. l ≡ filter_map (spec.resource_def numbers.now) rows.now) }
{
    let mut resources = Items::new(alloc);
    for row in rows {
        if let Some(resource) = resource(numbers, row)? {
            resources.push(resource)?;
        }
    }
    Ok(resources)
}

/// The prompt that a row defines.
fn prompt(alloc: Global, row: &Row) -> Result<Option<PromptDef>, NoMemory>
    ensures { IfOk result (λ o. o ≡ spec.prompt_def row.now) }
{
    match row {
        Row::Prompt(name, text) => Ok(Some(PromptDef {
            name: name.copy()?,
            text: text_within(alloc, text)?,
        })),
        _ => Ok(None),
    }
}

fn prompts(alloc: Global, rows: &[Row]) -> Result<PromptDefs, NoMemory>
    ensures { IfOk result (λ l. l ≡ filter_map spec.prompt_def rows.now) }
{
    let mut prompts = Items::new(alloc);
    for row in rows {
        if let Some(prompt) = prompt(alloc, row)? {
            prompts.push(prompt)?;
        }
    }
    Ok(prompts)
}

/// Which unfinished streams a new plan carries.
fn carry(rows: &[Row]) -> Carry
    ensures { result ≡ spec.first_or types.Carry.Yes spec.carry_in rows.now }
{
    for row in rows {
        if let Row::CarryForward(carry) = row {
            return *carry;
        }
    }
    Carry::Yes
}

/// The network that rows define. The only error is that memory ran out.
#[tactic(auto, unfolding(crate::specs::Networks::net_with))]
pub(crate) fn net<'a>(
    alloc: Global,
    numbers: &Numbers<'a>,
    rows: &'a [Row],
) -> Result<Net, NoMemory>
    ensures { IfOk result (λ net. net ≡ spec.net_with numbers.now rows.now) }
{
    Ok(Net {
        nodes: nodes(alloc, numbers, rows)?,
        resources: resources(alloc, numbers, rows)?,
        prompts: prompts(alloc, rows)?,
        carry: carry(rows),
    })
}
