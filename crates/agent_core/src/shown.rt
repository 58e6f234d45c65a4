//! What a node shows of its plan.
ghost use Rattle.std.specs.Prelude.{◌≡◌, IfOk};
ghost use Rattle.model.specs.Fit.{AreFitEntries};
ghost use Rattle.model.specs.Locality.{SameEvents};
ghost use Rattle.symphony_view.specs.Listings.{listing_of};
ghost use Rattle.symphony_view.specs.Symphonies.{symphony_of};
ghost use Rattle.agent_core.specs.Nodes.{NodeState, view_in};

use crate::agents::Agent;
use base_types::{Bytes, NoMemory};
use symphony_view::shows_events_alone;

impl Agent {
    /// The listing of the plan as the node holds it. `NoMemory` where memory runs out.
    pub fn listing(&self) -> Result<Bytes, NoMemory>
        ensures { IfOk result (λ bytes. bytes ≡ listing_of self.now.net (view_in self.now)) }
    {
        symphony_view::listing(self.alloc, self.defined(), self.owners())
    }

    /// The bytes of Symphony of the plan as the node holds it. `NoMemory` where memory runs out.
    pub fn symphony(&self) -> Result<Bytes, NoMemory>
        requires { AreFitEntries self.now.kept }
        ensures { IfOk result (λ bytes. bytes ≡ symphony_of self.now.net (view_in self.now)) }
    {
        symphony_view::symphony(self.alloc, self.defined(), self.owners())
    }
}

/// Nodes of one network that hold the same events have the same listing and the same Symphony, whatever else they hold.
pub fn equal_events_show_equal_plans()
    ensures listing { (a b : NodeState) → a.net ≡ b.net → SameEvents (view_in a) (view_in b)
        → listing_of a.net (view_in a) ≡ listing_of b.net (view_in b) }
    ensures symphony { (a b : NodeState) → a.net ≡ b.net → SameEvents (view_in a) (view_in b)
        → symphony_of a.net (view_in a) ≡ symphony_of b.net (view_in b) }
{
    shows_events_alone();
}
