//! The run of a record.
ghost use Rattle.std.specs.List.{AllByRecursion};
ghost use Rattle.std.specs.Prelude.{◌≡◌, IfOk, IfSome, None, Some};
ghost use Rattle.model.specs.World.{empty_world};
ghost use Rattle.network_tree.specs.Faults.{net_fault};
ghost use Rattle.network_world.specs.Standing.{StandsFor};
ghost use Rattle.record_runs.specs.Days.{IsPlanOf};
ghost use Rattle.record_runs.specs.Lines.{Day};
ghost use Rattle.record_runs.specs.Ends.{AreLinesInside, AskNoDay, IsEnd, IsOver};
ghost use Rattle.record_runs.specs.Never.{ArePlansFor, IsPlanFor, StopsOtherwise};
ghost use Rattle.record_runs.specs.Taken.{IsStopIn, LeadsAll, StopsIn};

use crate::days::{DayPlans, NoDays, take_any_line};
use crate::plans::PlansLeft;
use crate::stops::{Halt, Stop};
use base_types::{Net, NoMemory};
use network_tree::{NetFault, Network};
use network_world::World;
use record_script::{Script, ScriptStep};
use std::alloc::Global;

/// How the run of a record ends.
#[derive(Drop)]
pub enum RunEnd {
    /// All lines were taken, and made this world.
    Done(World),
    /// The line of this number, from 1, cannot be taken.
    Stopped(u32, Stop),
}

/// The world of a network in which nothing has happened yet.
fn begun(alloc: Global, net: Net) -> Result<World, NoMemory>
    requires { net_fault net ≡ None }
    ensures net { IfOk result (λ w. w.net ≡ net) }
    ensures empty { IfOk result (λ w. StandsFor w empty_world) }
{
    match Network::new(alloc, net) {
        Ok(network) => World::new(alloc, network),
        Err(NetFault::NoMemory) => Err(NoMemory),
        Err(_) => unreachable!(),
    }
}

/// The line of this number and what is told of it, or that memory ran out.
fn stopped_in(line: u32, halt: Halt) -> Result<Option<(u32, Stop)>, NoMemory>
    ensures { IsStopIn line halt result }
{
    match halt {
        Halt::NoMemory => Err(NoMemory),
        Halt::At(stop) => Ok(Some((line, stop))),
    }
}

/// Takes lines up to the first that cannot be taken, and tells its number and why.
fn take_lines<D: DayPlans>(
    alloc: Global,
    world: &mut World,
    plans: &mut PlansLeft,
    days: &D,
    lines: &[ScriptStep],
) -> Result<Option<(u32, Stop)>, NoMemory>
    requires { AreLinesInside world.old.net lines.now }
    ensures net { IfOk result (λ at. at ≡ None → world.new.net ≡ world.old.net) }
    ensures all { (day : Day) → IsPlanOf (D.gives days.now) day → IfOk result (λ at. at ≡ None
        → LeadsAll world.old day world.old.net plans.old lines.now world.new) }
    ensures stopped { (day : Day) → IsPlanOf (D.gives days.now) day → IfOk result (λ at. IfSome at
        (StopsIn world.old day world.old.net plans.old lines.now)) }
{
    for line in lines {
        match take_any_line(alloc, world, plans, days, &line.form) {
            Ok(()) => {}
            Err(halt) => return stopped_in(line.line, halt),
        }
    }
    Ok(None)
}

/// Takes the lines of a record, whose days have these plans. `Done` comes exactly where the run takes all lines, with a
/// world that stands for the one which it reaches, and `Stopped` exactly where a line cannot be taken. `NoMemory` where
/// memory runs out. Where the plans are for the network, no line names a workstation outside it, none but the master takes
/// a plan, and no place is spent.
pub fn run_days<D: DayPlans>(alloc: Global, script: Script, days: &D) -> Result<RunEnd, NoMemory>
    requires accepted { net_fault script.net ≡ None }
    requires inside { AreLinesInside script.net script.steps }
    ensures end { (day : Day) → IsPlanOf (D.gives days.now) day → IfOk result (IsEnd day script) }
    ensures net { IfOk result (IsOver script.net) }
    ensures otherwise { (day : Day) → IsPlanOf (D.gives days.now) day → ArePlansFor script day
        → IfOk result StopsOtherwise }
{
    let (net, plans, steps) = script.into_parts();
    let mut world = begun(alloc, net)?;
    let mut left = PlansLeft::new(alloc, plans);
    match take_lines(alloc, &mut world, &mut left, days, steps.as_slice())? {
        None => Ok(RunEnd::Done(world)),
        Some((line, stop)) => Ok(RunEnd::Stopped(line, stop)),
    }
}

/// Takes the lines of a record, of which none asks for the drafts of a day. `Done` comes exactly where the run takes all
/// lines, with a world that stands for the one which it reaches, and `Stopped` exactly where a line cannot be taken.
/// `NoMemory` where memory runs out. Where the plans are for the network, no line names a workstation outside it, none but
/// the master takes a plan, and no place is spent.
pub fn run_script(alloc: Global, script: Script) -> Result<RunEnd, NoMemory>
    requires accepted { net_fault script.net ≡ None }
    requires inside { AreLinesInside script.net script.steps }
    requires no_day { AskNoDay script.steps }
    ensures end { (day : Day) → IfOk result (IsEnd day script) }
    ensures net { IfOk result (IsOver script.net) }
    ensures otherwise { AllByRecursion (IsPlanFor script.net) script.plans → IfOk result StopsOtherwise }
{
    run_days(alloc, script, &NoDays)
}
