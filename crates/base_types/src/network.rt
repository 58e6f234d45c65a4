//! The network's workstations, resources and prompts.
use crate::lists::Items;
use crate::numbers::Ws;
use crate::texts::Text;

/// The workstations in the order of their numbers. The first is the master.
pub type Nodes = Items<Node>;

pub type Peers = Items<Peer>;

/// The resources in the order of their numbers, which count from 1.
pub type Resources = Items<Resource>;

/// The global prompts in the order of their numbers, which count from 1.
pub type PromptDefs = Items<PromptDef>;

/// A workstation of the network.
#[derive(Drop)]
pub struct Node {
    pub name: Text,
    /// The neighbour on its way to the master, which alone has none.
    pub hop: Option<Ws>,
    /// Whether it manages a domain.
    pub manager: bool,
    /// Whether FULLSTATUS is ON for it.
    pub full: bool,
}

/// Where a workstation is reached.
#[derive(Drop)]
pub struct Peer {
    pub ws: Ws,
    pub host: Text,
    pub port: u16,
}

/// A resource of one workstation.
#[derive(Drop)]
pub struct Resource {
    pub ws: Ws,
    pub name: Text,
    /// Its units, from 0 to 1024.
    pub total: u16,
}

/// A global prompt. A text that begins with `:` asks nothing.
#[derive(Drop)]
pub struct PromptDef {
    pub name: Text,
    pub text: Text,
}

/// Which unfinished streams a new plan carries.
#[derive(Clone, Copy, Debug)]
pub enum Carry {
    /// Those that are marked to be carried.
    Yes,
    /// None.
    No,
    /// All.
    All,
}

/// A network as it is defined.
pub struct Net {
    pub nodes: Nodes,
    pub resources: Resources,
    pub prompts: PromptDefs,
    pub carry: Carry,
}

impl Drop for Net {
    fn drop(self) {
        let Net {
            nodes: _nodes,
            resources: _resources,
            prompts: _prompts,
            carry: _carry,
        } = self;
    }
}
