//! A node, and what it sent.
ghost use Rattle.std.specs.Prelude.{◌≡◌, ◌<◌, IfErr, IfOk, None, OnErr, false, length, option_map, slice_get, true};
ghost use Rattle.std.specs.Option.{option_copied};
ghost use Rattle.model.specs.Network.{node_count};
ghost use Rattle.model.specs.Restore.{restore_fault};
ghost use Rattle.network_world.specs.Lanes as spec;
ghost use Rattle.network_world.specs.Moves.{GoesOn, HasStopped, HasTaken, IsAgain, IsInputDue, IsMarkedTo, IsNew, IsRestorable};
ghost use Rattle.network_world.specs.Moves as moves;

use crate::copies::copied_entries;
use crate::lanes::{Lane, keep_room, make_room, mark_lane, put_sends};
use crate::laws::lanes_get_few;
use crate::refusals::{StepRefused, refusal};
use agent_core::{Agent, RestoreFault, Step};
use base_types::{Copied, Entry, Input, Items, NoMemory, Ws};
use network_tree::Network;
use std::alloc::Global;
use std::marker::Model;

/// A node, with a lane to each workstation of the network.
pub(crate) struct Station {
    pub(crate) node: Agent,
    pub(crate) lanes: Items<Lane>,
    /// Whether it is known that each lane has room for what a step may send.
    pub(crate) roomy: bool,
}

impl Model for Station {
    ghost use Rattle.std.specs.Prelude.{◌≡◌, map, true};
    ghost use Rattle.network_world.specs.Lanes.{HaveRoom, seen};
    ghost use Rattle.network_world.specs.Stations.{Station as Seen};

    ghost Value = { Seen };

    ghost view = { λ a. record { node = a.node; lanes = map seen a.lanes } };

    ghost invariant = { λ a. a.roomy ≡ true → HaveRoom 8 a.lanes };
}

/// Written out, so that dropping one is a call for whoever owns it.
impl Drop for Station {
    fn drop(self) {
        let Station {
            node: _node,
            lanes: _lanes,
            roomy: _roomy,
        } = self;
    }
}

/// So many lanes without packets.
fn new_lanes(alloc: Global, count: u16) -> Result<Items<Lane>, NoMemory>
    ensures { IfOk result (λ made. spec.AreNew count made) }
{
    let mut made = Items::new(alloc);
    for _lane in 0..count {
        made.push(Lane::new(alloc))?;
    }
    Ok(made)
}

/// A node of this network that holds these entries, with nothing live, linked or acknowledged. They are such as restore
/// a node, so want of memory is the only fault.
fn restored(alloc: Global, net: &Network, w: Ws, kept: &[Entry]) -> Result<Agent, NoMemory>
    requires { restore_fault net.now w kept.now ≡ None }
    ensures { IfOk result (λ a. IsAgain net.now w kept.now a) }
{
    let entries = copied_entries(alloc, kept)?;
    let own = net.copy()?;
    match Agent::restore(alloc, own, w, &entries) {
        Ok(agent) => Ok(agent),
        Err(RestoreFault::NotInNetwork) => unreachable!(),
        Err(RestoreFault::NotNext(_)) => unreachable!(),
        Err(RestoreFault::NoMemory) => Err(NoMemory),
    }
}

impl Station {
    /// That of a workstation of a network, which holds nothing and has sent nothing.
    pub(crate) fn new(alloc: Global, net: &Network, w: Ws) -> Result<Station, NoMemory>
        requires { w < node_count net.now }
        ensures { IfOk result (λ t. IsNew net.now w t) }
    {
        let node = restored(alloc, net, w, &[])?;
        let lanes = new_lanes(alloc, net.count())?;
        Ok(Station {
            node,
            lanes,
            roomy: false,
        })
    }

    /// What went to a workstation. None where there is no such workstation.
    pub(crate) fn lane(&self, to: Ws) -> Option<&Lane>
        ensures { option_map spec.seen (option_copied result) ≡ slice_get self.now.lanes to }
    {
        self.lanes.get(usize::from(to.0))
    }

    /// The node takes an input, and what it sends goes to the ends of the lanes.
    pub(crate) fn take(&mut self, input: &Input) -> Result<Step, StepRefused>
        ensures taken { IfOk result (λ s. HasTaken self.old input.now s self.new) }
        ensures refused { IfErr result (λ r. IsInputDue self.old input.now r) }
        ensures err { OnErr result (self.new ≡ self.old) }
    {
        lanes_get_few();
        let roomy = self.roomy;
        self.roomy = false;
        make_room(&mut self.lanes, roomy)?;
        match self.node.step(input) {
            Ok(step) => {
                put_sends(&mut self.lanes, step.outs.as_slice());
                self.roomy = keep_room(&mut self.lanes, step.outs.as_slice()).is_ok();
                Ok(step)
            }
            Err(fault) => Err(refusal(fault)),
        }
    }

    /// The node stops and begins again.
    pub(crate) fn restart(&mut self)
        ensures { GoesOn moves.stop self.old self.new }
    {
        self.node.restart();
    }

    /// The node that begins again from what it holds.
    fn again(&self, alloc: Global) -> Result<Agent, NoMemory>
        requires { IsRestorable self.now }
        ensures { IfOk result (λ a. IsAgain self.now.node.net self.now.node.me self.now.node.kept a) }
    {
        let node = &self.node;
        restored(
            alloc,
            node.defined(),
            node.me(),
            node.owners().kept().entries(),
        )
    }

    /// The node stops in the step on an input and begins again. Its entry is kept, and nothing goes out.
    fn stop_kept(&mut self, input: &Input) -> Result<Option<Entry>, StepRefused>
        ensures stopped { IfOk result (λ made. HasStopped self.old input.now true made self.new) }
        ensures refused { IfErr result (λ r. IsInputDue self.old input.now r) }
        ensures err { OnErr result (self.new ≡ self.old) }
    {
        match self.node.step(input) {
            Ok(step) => {
                self.node.restart();
                Ok(step.kept)
            }
            Err(fault) => Err(refusal(fault)),
        }
    }

    /// The node stops in the step on an input and begins again. Its entry is lost, and nothing goes out.
    fn stop_lost(&mut self, alloc: Global, input: &Input) -> Result<Option<Entry>, StepRefused>
        requires { IsRestorable self.old }
        ensures stopped { IfOk result (λ made. HasStopped self.old input.now false made self.new) }
        ensures refused { IfErr result (λ r. IsInputDue self.old input.now r) }
        ensures err { OnErr result (self.new ≡ self.old) }
    {
        let before = self.again(alloc)?;
        match self.node.step(input) {
            Ok(_taken) => {
                self.node = before;
                Ok(None)
            }
            Err(fault) => Err(refusal(fault)),
        }
    }

    /// The node stops in the step on an input and begins again, and nothing goes out. The answer is the entry of the
    /// step, where there is one and it is kept.
    pub(crate) fn stop_in(
        &mut self,
        alloc: Global,
        input: &Input,
        kept: bool,
    ) -> Result<Option<Entry>, StepRefused>
        requires { IsRestorable self.old }
        ensures stopped { IfOk result (λ made. HasStopped self.old input.now kept made self.new) }
        ensures refused { IfErr result (λ r. IsInputDue self.old input.now r) }
        ensures err { OnErr result (self.new ≡ self.old) }
    {
        if kept {
            self.stop_kept(input)
        } else {
            self.stop_lost(alloc, input)
        }
    }

    /// The packet of this number to a workstation was delivered.
    pub(crate) fn mark(&mut self, to: Ws, k: u32)
        requires { to < length self.old.lanes }
        ensures { IsMarkedTo self.old to k self.new }
    {
        mark_lane(&mut self.lanes, to, k);
    }
}
