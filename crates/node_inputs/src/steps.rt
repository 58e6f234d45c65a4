//! The step of an input, and its entry.
ghost use Rattle.std.specs.Prelude.{IfSome, OnOk};
ghost use Rattle.model.specs.Fit.{IsFitInput};
ghost use Rattle.agent_core.specs.Nodes.{NodeState};
ghost use Rattle.node_inputs.specs.Keeping.{IsReady};
ghost use Rattle.node_inputs.specs.Doings.{Does, end_of};
ghost use Rattle.node_inputs.specs.Inputs.{Keep, TakeQuietly};
ghost use Rattle.node_inputs.specs.Stepping.{AreKeepable, IsKeepable, IsStepped};
ghost use Rattle.node_inputs.specs.Tellings.{Told};

use crate::ends::NodeEnd;
use crate::keeping::keep;
use agent_core::{Agent, Step, StepFault};
use base_types::{Entry, Input, LimitName};
use outside::Keeper;
use std::alloc::Global;

/// The step of an input, or its fault where the input changes nothing and the run goes on. The run ends where a feed has
/// no place left, or memory runs out, and nothing changed then either.
pub(crate) fn step(agent: &mut Agent, input: &Input) -> Result<Result<Step, StepFault>, NodeEnd>
    ensures { IsStepped agent.old input.now result agent.new }
{
    match agent.step(input) {
        Ok(step) => Ok(Ok(step)),
        Err(StepFault::PlaceSpent) => Err(NodeEnd::Limit(LimitName::Places)),
        Err(StepFault::NoMemory) => Err(NodeEnd::NoMemory),
        Err(fault) => Ok(Err(fault)),
    }
}

/// Keeps the entry of a step, if it has one.
pub(crate) fn keep_entry<K: Keeper>(
    alloc: Global,
    keeper: &mut K,
    kept: &Option<Entry>,
) -> Result<(), NodeEnd>
    requires ready { IsReady K.kept K.spent K.may_leave keeper.old }
    requires keepable { IfSome kept.now IsKeepable }
    ensures does { (node : NodeState) (told : Told) →
        Does K.kept K.size K.faults K.moment K.may_leave K.left_since K.opens_since (Keep kept.now) node node
        keeper.old keeper.new told told (end_of result) }
    ensures ready { OnOk result (IsReady K.kept K.spent K.may_leave keeper.new) }
{
    match kept {
        None => Ok(()),
        Some(entry) => keep(alloc, keeper, entry),
    }
}

/// Takes an input whose step gives nothing out.
pub(crate) fn take_quietly<K: Keeper>(
    alloc: Global,
    agent: &mut Agent,
    keeper: &mut K,
    input: &Input,
) -> Result<(), NodeEnd>
    requires ready { IsReady K.kept K.spent K.may_leave keeper.old }
    requires keepable { AreKeepable agent.old.kept }
    requires fit { IsFitInput input.now }
    ensures does { (told : Told) →
        Does K.kept K.size K.faults K.moment K.may_leave K.left_since K.opens_since (TakeQuietly input.now)
        agent.old agent.new keeper.old keeper.new told told (end_of result) }
    ensures ready { OnOk result (IsReady K.kept K.spent K.may_leave keeper.new) }
    ensures keepable { OnOk result (AreKeepable agent.new.kept) }
{
    match step(agent, input)? {
        Ok(step) => keep_entry(alloc, keeper, &step.kept),
        Err(_) => Ok(()),
    }
}
