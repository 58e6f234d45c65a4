//! Commands that are typed at the node.
ghost use Rattle.std.specs.Prelude.{◌≡◌, ◌∷◌, nat_lt};
ghost use Rattle.std.specs.List.{list_all};
ghost use Rattle.model.specs.Types as types;
ghost use Rattle.model.specs.Types.{Orders};
ghost use Rattle.model.specs.Network.{node_count};
ghost use Rattle.model.specs.Workstations.{ws_in_cmd};
ghost use Rattle.agent_core.specs.Nodes.{present_in, view_in};
ghost use Rattle.agent_core.specs.Steps.{IsKept, IsOwnEntry, IsStep};

use crate::agents::Agent;
use crate::faults::{Step, StepFault};
use base_types::{Body, Cmd, Copied, Entry, Feed, Ws};
use entry_checks::is_cmd_inside;

impl Agent {
    /// Whether the node itself, the workstation `to` and those that a command names are in the network.
    fn has_command(&self, to: Ws, cmd: &Cmd) -> bool
        ensures { result ≡ list_all (λ w. nat_lt w (node_count (present_in self.now)))
            (self.now.me ∷ to ∷ ws_in_cmd cmd.now) }
    {
        let count = self.net().count();
        self.me().0 < count && to.0 < count && is_cmd_inside(count, cmd)
    }

    /// The next of the node's own orders to a workstation. It takes no memory.
    fn own_order(&self, to: Ws, body: Body) -> Result<Entry, StepFault>
        ensures { IsOwnEntry (view_in self.now) (Orders self.now.me to) body result }
    {
        let feed = Feed::Orders(self.me(), to);
        self.own_entry(&feed, body)
    }

    /// The entry that a typed command makes.
    fn order_entry(&self, to: Ws, cmd: &Cmd) -> Result<Entry, StepFault>
        ensures { IsKept self.now (types.Input.Local (types.Typed to cmd.now)) result }
    {
        if !self.has_command(to, cmd) {
            return Err(StepFault::NotInNetwork);
        }
        match cmd.copy() {
            Ok(order) => self.own_order(to, Body::Order(order)),
            Err(_) => Err(StepFault::NoMemory),
        }
    }

    /// A command for a workstation was typed.
    pub(crate) fn typed(&mut self, to: Ws, cmd: &Cmd) -> Result<Step, StepFault>
        ensures { IsStep self.old (types.Input.Local (types.Typed to cmd.now)) result self.new }
    {
        match self.order_entry(to, cmd) {
            Ok(entry) => self.keep_alone(entry),
            Err(fault) => Err(fault),
        }
    }
}
