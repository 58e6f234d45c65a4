//! Steps of the world.
ghost use Rattle.std.specs.Prelude.{IfErr, IsTrue, OnOk};
ghost use Rattle.network_world.specs.Standing.{ws_in_step};
ghost use Rattle.record_runs.specs.Lines as spec;
ghost use Rattle.record_runs.specs.Lines.{are_inside};
ghost use Rattle.record_runs.specs.Runs.{take_steps};
ghost use Rattle.record_runs.specs.Taken.{HaltsFor, Leads};

use crate::stops::{Halt, refusal_halt};
use base_types::WorldStep;
use network_world::World;

/// The world takes a step.
pub(crate) fn take_step(world: &mut World, step: &WorldStep) -> Result<(), Halt>
    requires { IsTrue (are_inside world.old.net (ws_in_step step.now)) }
    ensures taken { OnOk result (Leads world.old (λ x. take_steps world.old.net x (spec.only step.now)) world.new) }
    ensures stopped { IfErr result (HaltsFor world.old (λ x. take_steps world.old.net x (spec.only step.now))) }
{
    match world.step(step) {
        Ok(()) => Ok(()),
        Err(refused) => Err(refusal_halt(refused)),
    }
}
