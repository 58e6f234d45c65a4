//! The lines of a record.
ghost use Rattle.std.specs.Prelude.{◌≡◌, ◌∷◌, ◌<◌, [], IfErr, IfOk, IsTrue, Ok, OnOk, false, map};
ghost use Rattle.model.specs.Types.{Deliver, Ended, LiveJob, Take};
ghost use Rattle.model.specs.Types as types;
ghost use Rattle.model.specs.Words.{ascending, insert_once};
ghost use Rattle.model.specs.Network.{node_count};
ghost use Rattle.model.specs.World as model;
ghost use Rattle.model.specs.World.{view_at};
ghost use Rattle.network_world.specs.Standing.{StandsFor, ws_in_step};
ghost use Rattle.recovery_watch.specs.Advice as advices;
ghost use Rattle.record_runs.specs.Lines as spec;
ghost use Rattle.record_runs.specs.Lines.{Day, are_inside, asks_day, asks_day_in, left_after, takes_plan_in};
ghost use Rattle.record_script.specs.Inside.{ws_in, ws_in_one};
ghost use Rattle.record_runs.specs.Runs as runs;
ghost use Rattle.record_runs.specs.Runs.{take_steps};
ghost use Rattle.record_runs.specs.Taken.{HaltsFor, Leads};

use crate::acts::{act_of, cut_short, whole};
use crate::orders::advised;
use crate::plans::PlansLeft;
use crate::steps::take_step;
use crate::stops::Halt;
use base_types::{Items, JobNo, Live, Local, NoMemory, WorldStep, Ws};
use network_world::World;
use record_script::{OneStep, StepForm};
use std::alloc::Global;
use std::collections::BTreeSet;

/// A step that is one step of the world.
fn take_one(
    alloc: Global,
    world: &mut World,
    plans: &mut PlansLeft,
    one: &OneStep,
) -> Result<(), Halt>
    requires inside { IsTrue (are_inside world.old.net (ws_in_one one.now)) }
    requires no_day { asks_day_in one.now ≡ false }
    ensures taken { (day : Day) → OnOk result (Leads world.old
        (runs.take_line day world.old.net plans.old (StepForm.One one.now)) world.new) }
    ensures stopped { (day : Day) → IfErr result (HaltsFor world.old
        (runs.take_line day world.old.net plans.old (StepForm.One one.now))) }
    ensures left { OnOk result (plans.new ≡ left_after plans.old (StepForm.One one.now)) }
{
    let act = act_of(alloc, world, plans, one)?;
    take_step(world, &whole(act))
}

/// A workstation stops in a step.
fn stop_in(
    alloc: Global,
    world: &mut World,
    plans: &mut PlansLeft,
    w: Ws,
    kept: bool,
    one: &OneStep,
) -> Result<(), Halt>
    requires inside { IsTrue (are_inside world.old.net (ws_in_one one.now)) }
    requires no_day { asks_day_in one.now ≡ false }
    ensures taken { (day : Day) → OnOk result (Leads world.old
        (runs.take_line day world.old.net plans.old (StepForm.CrashIn w kept one.now)) world.new) }
    ensures stopped { (day : Day) → IfErr result (HaltsFor world.old
        (runs.take_line day world.old.net plans.old (StepForm.CrashIn w kept one.now))) }
    ensures left { OnOk result (plans.new ≡ left_after plans.old (StepForm.CrashIn w kept one.now)) }
{
    let act = act_of(alloc, world, plans, one)?;
    take_step(world, &cut_short(act, kept))
}

/// The packets behind the greatest that was delivered are delivered, up to the last that was sent before.
fn flow(world: &mut World, a: Ws, b: Ws) -> Result<(), Halt>
    requires from { a < node_count world.old.net }
    requires to { b < node_count world.old.net }
    ensures taken { OnOk result (Leads world.old
        (λ x. take_steps world.old.net x (map (λ k. types.Deliver a b k) (spec.undelivered x a b))) world.new) }
    ensures stopped { IfErr result (HaltsFor world.old
        (λ x. take_steps world.old.net x (map (λ k. types.Deliver a b k) (spec.undelivered x a b)))) }
{
    let sent = world.packets(a, b);
    for k in world.reached(a, b)..sent {
        let step = WorldStep::Deliver(a, b, k + 1);
        take_step(world, &step)?;
    }
    Ok(())
}

/// Puts a job among others, where it is not there already.
fn add_job(jobs: &mut BTreeSet<u32>, job: JobNo) -> Result<(), NoMemory>
    ensures { OnOk result (jobs.new.keys ≡ insert_once job jobs.old.keys) }
{
    jobs.insert(job.0)?;
    Ok(())
}

/// The jobs of launches, in ascending order.
#[tactic(auto, using(batchman_core::proofs::Gatherings::all_gathered))]
fn jobs_of(alloc: Global, live: &Live) -> Result<BTreeSet<u32>, NoMemory>
    ensures { IfOk result (λ jobs. jobs.keys ≡ ascending (map (λ (l : LiveJob). l.job) live.now)) }
{
    let mut jobs = BTreeSet::new(alloc);
    for launch in live.as_slice() {
        add_job(&mut jobs, launch.job)?;
    }
    Ok(jobs)
}

/// The numbers of a set, in ascending order.
fn listed(alloc: Global, numbers: &BTreeSet<u32>) -> Result<Items<u32>, NoMemory>
    ensures { IfOk result (λ list. list ≡ numbers.now.keys) }
{
    let mut list = Items::new(alloc);
    for number in numbers {
        list.push(*number)?;
    }
    Ok(list)
}

/// The jobs that live at w, in ascending order.
fn live_jobs(alloc: Global, world: &World, w: Ws) -> Result<Items<u32>, NoMemory>
    requires { w < node_count world.now.net }
    ensures { IfOk result (λ jobs. (x : model.World) → StandsFor world.now x → jobs ≡ spec.live_jobs x w) }
{
    let node = world.node(w);
    let jobs = jobs_of(alloc, node.live())?;
    let list = listed(alloc, &jobs)?;
    Ok(list)
}

/// A job at w ends with a return code.
fn ended(w: Ws, job: u32, code: &i32) -> WorldStep
    ensures value { result ≡ types.Take w (types.Local.Ended job code.now) }
    ensures names { ws_in_step result ≡ w ∷ [] }
{
    WorldStep::Take(w, Local::Ended(JobNo(job), *code))
}

/// Jobs at w end with a return code, one after the other.
fn end_jobs(world: &mut World, w: Ws, code: &i32, jobs: &[u32]) -> Result<(), Halt>
    requires { w < node_count world.old.net }
    ensures taken { OnOk result (Leads world.old
        (λ x. take_steps world.old.net x (map (λ j. types.Take w (types.Local.Ended j code.now)) jobs.now))
        world.new) }
    ensures stopped { IfErr result (HaltsFor world.old
        (λ x. take_steps world.old.net x (map (λ j. types.Take w (types.Local.Ended j code.now)) jobs.now))) }
{
    for job in jobs {
        let step = ended(w, *job, code);
        take_step(world, &step)?;
    }
    Ok(())
}

/// The jobs that live at w end with a return code, the lowest first.
fn reap(alloc: Global, world: &mut World, w: Ws, code: &i32) -> Result<(), Halt>
    requires { w < node_count world.old.net }
    ensures taken { OnOk result (Leads world.old
        (λ x. take_steps world.old.net x (map (λ j. types.Take w (types.Local.Ended j code.now)) (spec.live_jobs x w)))
        world.new) }
    ensures stopped { IfErr result (HaltsFor world.old
        (λ x. take_steps world.old.net x (map (λ j. types.Take w (types.Local.Ended j code.now)) (spec.live_jobs x w)))) }
{
    let jobs = live_jobs(alloc, world, w)?;
    end_jobs(world, w, code, jobs.as_slice())
}

/// A workstation types its advice for itself, if there is one.
fn recover(world: &mut World, w: Ws) -> Result<(), Halt>
    requires { w < node_count world.old.net }
    ensures taken { OnOk result (Leads world.old
        (λ x. take_steps world.old.net x (spec.advised w (advices.advice (view_at x w) w))) world.new) }
    ensures stopped { IfErr result (HaltsFor world.old
        (λ x. take_steps world.old.net x (spec.advised w (advices.advice (view_at x w) w)))) }
{
    match advised(world, w) {
        None => Ok(()),
        Some(command) => take_step(world, &WorldStep::Take(w, Local::Typed(w, command))),
    }
}

/// A line of a record.
pub(crate) fn take_line(
    alloc: Global,
    world: &mut World,
    plans: &mut PlansLeft,
    form: &StepForm,
) -> Result<(), Halt>
    requires inside { IsTrue (are_inside world.old.net (ws_in form.now)) }
    requires no_day { asks_day form.now ≡ false }
    ensures taken { (day : Day) → OnOk result (Leads world.old
        (runs.take_line day world.old.net plans.old form.now) world.new) }
    ensures stopped { (day : Day) → IfErr result (HaltsFor world.old
        (runs.take_line day world.old.net plans.old form.now)) }
    ensures left { OnOk result (plans.new ≡ left_after plans.old form.now) }
{
    match form {
        StepForm::One(one) => take_one(alloc, world, plans, one),
        StepForm::Flow(a, b) => flow(world, *a, *b),
        StepForm::Reap(w, code) => reap(alloc, world, *w, code),
        StepForm::Crash(w) => take_step(world, &WorldStep::Crash(*w)),
        StepForm::CrashIn(w, kept, one) => stop_in(alloc, world, plans, *w, *kept, one),
        StepForm::Recover(w) => recover(world, *w),
    }
}
