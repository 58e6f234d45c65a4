//! A node that is made anew from the entries that it kept.
ghost use Rattle.std.specs.Prelude.{◌≡◌, ◌<◌, ◌+◌, [], IfErr, IfOk, None, OnOk, Some, length, nat_lt, true};
ghost use Rattle.model.specs.Network.{node_count};
ghost use Rattle.model.specs.History.{list_of};
ghost use Rattle.model.specs.Sessions.{restarted};
ghost use Rattle.model.specs.Restore.{first_wrong, follows_on, restore_fault};
ghost use Rattle.agent_core.specs.Nodes.{session_in};
ghost use Rattle.agent_core.specs.Restoring.{IsEntryDue, IsNew, IsRestoreDue, restore_fault_of};
ghost use Rattle.agent_core.specs.declared.restores.RestoreFault.TheVariants.{NoMemory as NoRoom};

use crate::agents::Agent;
use crate::trackers::Tracker;
use base_types::{Copied, Entries, Entry, Items, NoMemory, Ws};
use entry_checks::is_entry_inside;
use mailman_core::Mail;
use network_tree::Network;
use owner_fold::Owners;
use std::alloc::Global;

/// Why no node is made of entries, in the order in which the causes are tested.
#[derive(Clone, Copy, Debug)]
pub enum RestoreFault {
    /// The workstation is outside the network.
    NotInNetwork,
    /// The first index, counted from 0, whose entry is not the next of its feed or names a workstation outside.
    NotNext(u32),
    /// Memory ran out, or that index is above 4,294,967,295.
    NoMemory,
}

impl From<NoMemory> for RestoreFault {
    ghost from_gives = { λ _ fault. fault ≡ NoRoom };

    fn from(_error: NoMemory) -> RestoreFault {
        RestoreFault::NoMemory
    }
}

/// Whether a workstation is in a network.
fn is_inside(net: &Network, me: Ws) -> bool
    ensures { result ≡ nat_lt me (node_count net.now) }
{
    me.0 < net.count()
}

/// The fault of the entry at an index.
fn not_next(i: usize) -> RestoreFault
    ensures { IsEntryDue (Some i) (restore_fault_of result) }
{
    match u32::try_from(i) {
        Ok(index) => RestoreFault::NotNext(index),
        Err(_) => RestoreFault::NoMemory,
    }
}

impl Agent {
    /// A node that holds nothing, and has no index yet.
    fn blank(alloc: Global, net: Network, me: Ws) -> Result<Agent, NoMemory>
        requires { me < node_count net }
        ensures { IfOk result (λ a. IsNew net me [] a) }
    {
        let present = net.copy()?;
        let owners = Owners::new(alloc);
        let tracker = Tracker::new();
        let mail = Mail::new(alloc);
        let live = Items::new(alloc);
        let listed = Items::new(alloc);
        Ok(Agent {
            alloc,
            net,
            present,
            me,
            owners,
            tracker,
            mail,
            live,
            listed,
            idle_until: None,
        })
    }

    /// Whether an entry is the next of its feed, and names workstations of the network alone.
    fn is_next(&self, e: &Entry) -> bool
        ensures value { result ≡ follows_on self.now.net self.now.kept e.now }
        ensures next { result ≡ true → e.now.place ≡ length (list_of self.now.kept e.now.feed) + 1 }
    {
        let held = u64::from(self.owners.count(e.feed));
        u64::from(e.place) == held + 1 && is_entry_inside(self.net.count(), e)
    }

    /// Takes entries one by one, up to the first that is not the next.
    fn take_all(&mut self, kept: &[Entry]) -> Result<(), RestoreFault>
        requires { IsNew self.old.net self.old.me [] self.old }
        ensures taken { OnOk result (IsNew self.old.net self.old.me kept.now self.new) }
        ensures accepted { OnOk result (first_wrong self.old.net kept.now ≡ None) }
        ensures refused { IfErr result (λ f. IsEntryDue (first_wrong self.old.net kept.now) (restore_fault_of f)) }
    {
        for i in 0..kept.len() {
            let entry = &kept[i];
            if !self.is_next(entry) {
                return Err(not_next(i));
            }
            self.hold(entry)?;
        }
        Ok(())
    }

    /// The node that holds these entries, with nothing live, linked or acknowledged.
    pub fn restore(
        alloc: Global,
        net: Network,
        me: Ws,
        kept: &Entries,
    ) -> Result<Agent, RestoreFault>
        ensures net { IfOk result (λ a. a.net ≡ net) }
        ensures me { IfOk result (λ a. a.me ≡ me) }
        ensures kept { IfOk result (λ a. a.kept ≡ kept.now) }
        ensures session { IfOk result (λ a. session_in a ≡ restarted) }
        ensures accepted { IfOk result (λ a. restore_fault net me kept.now ≡ None) }
        ensures refused { IfErr result (λ f. IsRestoreDue net me kept.now (restore_fault_of f)) }
    {
        if !is_inside(&net, me) {
            return Err(RestoreFault::NotInNetwork);
        }
        let mut agent = Agent::blank(alloc, net, me)?;
        match agent.take_all(kept.as_slice()) {
            Ok(()) => {
                agent.renew()?;
                Ok(agent)
            }
            Err(fault) => Err(fault),
        }
    }
}
