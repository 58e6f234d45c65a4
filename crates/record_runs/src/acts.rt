//! Steps of a record that are one step of the world.
ghost use Rattle.std.specs.Prelude.{◌≡◌, ◌<◌, IfErr, IfOk, IsTrue, OnOk, drop, false, if◌then◌else◌};
ghost use Rattle.model.specs.Types as types;
ghost use Rattle.model.specs.Network.{node_count};
ghost use Rattle.model.specs.World as model;
ghost use Rattle.network_world.specs.Standing.{ws_in_step};
ghost use Rattle.record_runs.specs.Lines as spec;
ghost use Rattle.record_runs.specs.Lines.{Day, are_inside, asks_day_in, takes_plan_in};
ghost use Rattle.record_script.specs.Inside.{ws_in_one};
ghost use Rattle.record_runs.specs.declared.acts.Act.TheVariants.{Own as Owned};
ghost use Rattle.record_runs.specs.Taken.{IsMade, IsNotMade, ws_in_act};

use crate::orders::typed;
use crate::plans::PlansLeft;
use crate::stops::Halt;
use base_types::{JobNo, Local, WorldStep, Ws};
use network_world::World;
use record_script::OneStep;
use std::alloc::Global;

/// What happens at a node by itself, or a delivery.
#[derive(Drop)]
pub(crate) enum Act {
    Own(Ws, Local),
    /// The sender, the receiver, and the number of the packet.
    Delivery(Ws, Ws, u32),
}

/// The master, which each network has.
fn master(world: &World) -> Ws
    ensures value { result ≡ 0 }
    ensures inside { 0 < node_count world.now.net }
{
    // A network has at least one workstation.
    let _count = world.net().count();
    Ws(0)
}

/// A job at w ended with a return code.
fn ended(w: &Ws, job: &JobNo, code: &i32) -> Act
    ensures { result ≡ Owned w.now (types.Local.Ended job.now code.now) }
{
    Act::Own(*w, Local::Ended(*job, *code))
}

/// What a step of a record is. A `next` takes its plan out of those that are left.
pub(crate) fn act_of(
    alloc: Global,
    world: &World,
    plans: &mut PlansLeft,
    one: &OneStep,
) -> Result<Act, Halt>
    requires inside { IsTrue (are_inside world.now.net (ws_in_one one.now)) }
    requires no_day { asks_day_in one.now ≡ false }
    ensures inside { IfOk result (λ a. IsTrue (are_inside world.now.net (ws_in_act a))) }
    ensures made { (day : Day) → IfOk result (IsMade world.now
        (λ (x : model.World). spec.act day world.now.net x plans.old one.now)) }
    ensures not_made { (day : Day) → IfErr result (IsNotMade world.now
        (λ (x : model.World). spec.act day world.now.net x plans.old one.now)) }
    ensures left { OnOk result (plans.new ≡ (if takes_plan_in one.now then drop 1 plans.old else plans.old)) }
{
    match one {
        OneStep::Next => Ok(Act::Own(master(world), Local::Next(plans.take()))),
        OneStep::NextDay(_) => unreachable!(),
        OneStep::Turn(w, time) => Ok(Act::Own(*w, Local::Turn(*time))),
        OneStep::Link(a, b) => Ok(Act::Own(*a, Local::Linked(*b))),
        OneStep::Unlink(a, b) => Ok(Act::Own(*a, Local::Unlinked(*b))),
        OneStep::Deliver(a, b, k) => Ok(Act::Delivery(*a, *b, *k)),
        OneStep::Started(w, job) => Ok(Act::Own(*w, Local::Started(*job))),
        OneStep::Failed(w, job) => Ok(Act::Own(*w, Local::StartFailed(*job))),
        OneStep::Ended(w, job, code) => Ok(ended(w, job, code)),
        OneStep::Typed(w, line) => typed(alloc, world, *w, line.line()),
        OneStep::Fulfil(w, object, i) => Ok(Act::Own(*w, Local::Fulfil(*object, *i))),
    }
}

/// The step in which it is taken whole.
pub(crate) fn whole(act: Act) -> WorldStep
    ensures value { result ≡ spec.whole act }
    ensures names { ws_in_step result ≡ ws_in_act act }
{
    match act {
        Act::Own(w, local) => WorldStep::Take(w, local),
        Act::Delivery(a, b, k) => WorldStep::Deliver(a, b, k),
    }
}

/// The step in which its node stops, with the entry of the step kept or not.
pub(crate) fn cut_short(act: Act, kept: bool) -> WorldStep
    ensures value { result ≡ spec.cut_short kept act }
    ensures names { ws_in_step result ≡ ws_in_act act }
{
    match act {
        Act::Own(w, local) => WorldStep::CrashTake(w, local, kept),
        Act::Delivery(a, b, k) => WorldStep::CrashDeliver(a, b, k, kept),
    }
}
