//! The plan of a new day.
ghost use Rattle.std.specs.Prelude.{◌≡◌, ◌==◌, ◌∷◌, ◌+◌, flat_map, length, nat_lt};
ghost use Rattle.std.specs.List.{list_all};
ghost use Rattle.model.specs.Types as types;
ghost use Rattle.model.specs.Types.{Events};
ghost use Rattle.model.specs.Network.{node_count};
ghost use Rattle.model.specs.Workstations.{ws_in_draft};
ghost use Rattle.agent_core.specs.Nodes.{present_in, view_in};
ghost use Rattle.agent_core.specs.Steps.{IsCarried, IsDayPlan, IsKept, IsStep};

use crate::agents::Agent;
use crate::faults::{Step, StepFault};
use base_types::{Body, Entry, Feed, StreamDrafts};
use carry_forward::{CarryFault, next_plan};
use entry_checks::are_drafts_inside;

/// The fault of a step that has no plan.
fn no_plan(fault: CarryFault) -> StepFault
    ensures { IsCarried fault result }
{
    match fault {
        CarryFault::NoMemory => StepFault::NoMemory,
        CarryFault::RunsSpent => StepFault::Carry(CarryFault::RunsSpent),
        CarryFault::NumbersSpent => StepFault::Carry(CarryFault::NumbersSpent),
        CarryFault::PlanFull(most) => StepFault::Carry(CarryFault::PlanFull(most)),
    }
}

impl Agent {
    /// Whether the node itself and the workstations that drafts name are in the network.
    fn has_drafts(&self, drafts: &StreamDrafts) -> bool
        ensures { result ≡ list_all (λ w. nat_lt w (node_count (present_in self.now)))
            (self.now.me ∷ flat_map ws_in_draft drafts.now) }
    {
        let count = self.net().count();
        self.me().0 < count && are_drafts_inside(count, drafts)
    }

    /// Whether the node is the master.
    fn is_master(&self) -> bool
        ensures { result ≡ (self.now.me == 0) }
    {
        self.me().0 == 0
    }

    /// Whether the node's own events have no place more.
    fn is_spent(&self) -> bool
        ensures { result ≡ nat_lt 4294967295 (1 + length (view_in self.now (Events self.now.me))) }
    {
        self.holds(Feed::Events(self.me())) == u32::MAX
    }

    /// The plan of the next day.
    fn day_plan(&self, drafts: &StreamDrafts) -> Result<Body, CarryFault>
        ensures { IsDayPlan self.now drafts.now result }
    {
        next_plan(self.alloc, self.net(), self.owners(), drafts)
    }

    /// The entry that the end of the day makes.
    fn plan_entry(&self, drafts: &StreamDrafts) -> Result<Entry, StepFault>
        ensures { IsKept self.now (types.Input.Local (types.Next drafts.now)) result }
    {
        if !self.has_drafts(drafts) {
            return Err(StepFault::NotInNetwork);
        }
        if !self.is_master() {
            return Err(StepFault::NotMaster);
        }
        if self.is_spent() {
            return Err(StepFault::PlaceSpent);
        }
        match self.day_plan(drafts) {
            Ok(body) => self.own_event(body),
            Err(fault) => Err(no_plan(fault)),
        }
    }

    /// The plan of the next day is made of drafts.
    pub(crate) fn planned(&mut self, drafts: &StreamDrafts) -> Result<Step, StepFault>
        ensures { IsStep self.old (types.Input.Local (types.Next drafts.now)) result self.new }
    {
        match self.plan_entry(drafts) {
            Ok(entry) => self.keep_alone(entry),
            Err(fault) => Err(fault),
        }
    }
}
