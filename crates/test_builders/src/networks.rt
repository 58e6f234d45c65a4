//! Networks.
use base_types::{
    Carry, Items, Net, NoMemory, Node, Nodes, PromptDef, PromptDefs, Resource, Resources, Text, Ws,
};
use std::alloc::Global;

/// A workstation: its name, the number of its hop, whether it manages a domain, and whether FULLSTATUS is ON for it.
pub type NodeRow<'a> = (&'a str, Option<u16>, bool, bool);

/// A resource: the number of its workstation, its name and its total.
pub type ResourceRow<'a> = (u16, &'a str, u16);

/// A global prompt: its name and its text.
pub type PromptRow<'a> = (&'a str, &'a str);

/// The master M alone.
pub const ALONE: [NodeRow; 1] = [("M", None, true, true)];

/// The master M with the agents P and Q.
pub const TWO_AGENTS: [NodeRow; 3] = [
    ("M", None, true, true),
    ("P", Some(0), false, true),
    ("Q", Some(0), false, true),
];

/// A workstation.
pub fn node(alloc: Global, row: &NodeRow) -> Result<Node, NoMemory> {
    let hop = match row.1 {
        Some(w) => Some(Ws(w)),
        None => None,
    };
    Ok(Node {
        name: Text::of(alloc, row.0)?,
        hop,
        manager: row.2,
        full: row.3,
    })
}

/// Workstations, in the order of their numbers.
pub fn nodes(alloc: Global, rows: &[NodeRow]) -> Result<Nodes, NoMemory> {
    let mut list = Items::new(alloc);
    for row in rows {
        list.push(node(alloc, row)?)?;
    }
    Ok(list)
}

fn resource(alloc: Global, row: &ResourceRow) -> Result<Resource, NoMemory> {
    Ok(Resource {
        ws: Ws(row.0),
        name: Text::of(alloc, row.1)?,
        total: row.2,
    })
}

/// Resources, in the order of their numbers.
pub fn resources(alloc: Global, rows: &[ResourceRow]) -> Result<Resources, NoMemory> {
    let mut list = Items::new(alloc);
    for row in rows {
        list.push(resource(alloc, row)?)?;
    }
    Ok(list)
}

fn prompt(alloc: Global, row: &PromptRow) -> Result<PromptDef, NoMemory> {
    let name = Text::of(alloc, row.0)?;
    let text = Text::of(alloc, row.1)?;
    Ok(PromptDef { name, text })
}

/// Global prompts, in the order of their numbers.
pub fn prompts(alloc: Global, rows: &[PromptRow]) -> Result<PromptDefs, NoMemory> {
    let mut list = Items::new(alloc);
    for row in rows {
        list.push(prompt(alloc, row)?)?;
    }
    Ok(list)
}

/// A network, which carries the marked streams.
pub fn net(
    alloc: Global,
    node_rows: &[NodeRow],
    resource_rows: &[ResourceRow],
    prompt_rows: &[PromptRow],
) -> Result<Net, NoMemory> {
    let resources = resources(alloc, resource_rows)?;
    let prompts = prompts(alloc, prompt_rows)?;
    let nodes = nodes(alloc, node_rows)?;
    Ok(Net {
        nodes,
        resources,
        prompts,
        carry: Carry::Yes,
    })
}

/// A network without resources and prompts, which carries the marked streams.
pub fn plain_net(alloc: Global, rows: &[NodeRow]) -> Result<Net, NoMemory> {
    let nodes = nodes(alloc, rows)?;
    Ok(Net {
        nodes,
        resources: Items::new(alloc),
        prompts: Items::new(alloc),
        carry: Carry::Yes,
    })
}
