//! Links that go up and down, and acknowledgements.
ghost use Rattle.std.specs.Prelude.{◌≡◌, ◌∷◌, ◌==◌, [], nat_lt, true, false, OnOk, OnErr};
ghost use Rattle.std.specs.List.{list_all};
ghost use Rattle.model.specs.Types as types;
ghost use Rattle.model.specs.Words.{with_at};
ghost use Rattle.model.specs.Network.{node_count};
ghost use Rattle.model.specs.Workstations.{ws_in_feed};
ghost use Rattle.model.specs.Sessions.{raise_acked};
ghost use Rattle.mailman_core.specs.Mails.{acked_by, is_up};
ghost use Rattle.agent_core.specs.Nodes.{present_in, view_in};
ghost use Rattle.agent_core.specs.Steps as spec;
ghost use Rattle.agent_core.specs.Steps.{DiffersInMail, IsStep};

use crate::agents::Agent;
use crate::faults::{Step, StepFault};
use base_types::{Feed, Items, NoMemory, Ws};

impl Agent {
    /// Whether the node itself and x are in the network.
    pub(crate) fn has(&self, x: Ws) -> bool
        ensures { result
            ≡ list_all (λ w. nat_lt w (node_count (present_in self.now))) (self.now.me ∷ x ∷ []) }
    {
        let count = self.net().count();
        self.me().0 < count && x.0 < count
    }

    /// Whether the node itself, x and the workstations of a feed are in the network.
    fn has_feed(&self, x: Ws, feed: &Feed) -> bool
        ensures { result ≡ list_all (λ w. nat_lt w (node_count (present_in self.now)))
            (self.now.me ∷ x ∷ ws_in_feed feed.now) }
    {
        let count = self.net().count();
        match feed {
            Feed::Events(w) => self.me().0 < count && x.0 < count && w.0 < count,
            Feed::Orders(a, w) => self.me().0 < count && x.0 < count && a.0 < count && w.0 < count,
        }
    }

    /// Whether x is the node itself.
    pub(crate) fn is_itself(&self, x: Ws) -> bool
        ensures { result ≡ (x == self.now.me) }
    {
        x.0 == self.me().0
    }

    /// Whether the own end of the link to x is up.
    pub(crate) fn is_linked(&self, x: Ws) -> bool
        ensures { result ≡ is_up self.now.mail x }
    {
        self.mail.is_up(x)
    }

    /// A step that keeps nothing and gives nothing out.
    fn quiet(&self) -> Step
        ensures { result ≡ spec.quiet }
    {
        Step {
            kept: None,
            outs: Items::new(self.alloc),
        }
    }

    fn link_up(&mut self, x: Ws) -> Result<(), NoMemory>
        ensures links { OnOk result (is_up self.new.mail ≡ with_at x true (is_up self.old.mail)) }
        ensures acked { acked_by self.new.mail ≡ acked_by self.old.mail }
        ensures same { DiffersInMail self.old self.new }
        ensures err { OnErr result (self.new ≡ self.old) }
    {
        self.mail.link(x)
    }

    fn link_down(&mut self, x: Ws)
        ensures links { is_up self.new.mail ≡ with_at x false (is_up self.old.mail) }
        ensures acked { acked_by self.new.mail ≡ acked_by self.old.mail }
        ensures same { DiffersInMail self.old self.new }
    {
        self.mail.unlink(x)
    }

    fn note_ack(&mut self, x: Ws, feed: &Feed, count: u32) -> Result<(), NoMemory>
        ensures acked { OnOk result (acked_by self.new.mail
            ≡ with_at x (raise_acked (acked_by self.old.mail x) (view_in self.old) feed.now count)
            (acked_by self.old.mail)) }
        ensures links { is_up self.new.mail ≡ is_up self.old.mail }
        ensures same { DiffersInMail self.old self.new }
        ensures err { OnErr result (self.new ≡ self.old) }
    {
        self.mail.acked(&self.owners, x, feed, count)
    }

    /// The own end of the link to x goes up.
    pub(crate) fn linked(&mut self, x: Ws) -> Result<Step, StepFault>
        ensures { IsStep self.old (types.Input.Local (types.Linked x)) result self.new }
    {
        if !self.has(x) {
            return Err(StepFault::NotInNetwork);
        }
        if self.is_itself(x) {
            return Err(StepFault::NotNeighbour);
        }
        self.link_up(x)?;
        Ok(self.quiet())
    }

    /// The own end of the link to x goes down.
    pub(crate) fn unlinked(&mut self, x: Ws) -> Result<Step, StepFault>
        ensures { IsStep self.old (types.Input.Local (types.Unlinked x)) result self.new }
    {
        if !self.has(x) {
            return Err(StepFault::NotInNetwork);
        }
        if self.is_itself(x) {
            return Err(StepFault::NotNeighbour);
        }
        self.link_down(x);
        Ok(self.quiet())
    }

    /// A neighbour tells how many entries of a feed it holds.
    pub(crate) fn told(&mut self, x: Ws, feed: &Feed, count: u32) -> Result<Step, StepFault>
        ensures { IsStep self.old (types.Input.Ack x feed.now count) result self.new }
    {
        if !self.has_feed(x, feed) {
            return Err(StepFault::NotInNetwork);
        }
        if self.is_itself(x) {
            return Err(StepFault::NotNeighbour);
        }
        self.note_ack(x, feed, count)?;
        Ok(self.quiet())
    }
}
