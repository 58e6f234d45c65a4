//! What is told of the processes of launches.
ghost use Rattle.std.specs.Prelude.{◌≡◌, ◌<◌, IfOk, map};
ghost use Rattle.model.specs.Types as types;
ghost use Rattle.model.specs.Network.{node_count};
ghost use Rattle.model.specs.Sessions.{live_launch, mark_started, without_job};
ghost use Rattle.model.specs.NewEntry as entries;
ghost use Rattle.agent_core.specs.Nodes.{present_in, view_in};
ghost use Rattle.agent_core.specs.Steps.{IsKept, IsStep};

use crate::agents::Agent;
use crate::faults::{Step, StepFault};
use base_types::{Body, Entry, JobNo, Live, LiveJob, NoMemory};
use rc_conditions::holds;

/// The live launch of a job.
fn live_launch_in(live: &[LiveJob], j: JobNo) -> Option<LiveJob>
    ensures { result ≡ live_launch live.now j }
{
    for launch in live {
        if launch.job.0 == j.0 {
            return Some(*launch);
        }
    }
    None
}

/// A launch, marked as started where it is one of the job.
fn marked(launch: &LiveJob, j: JobNo) -> LiveJob
    ensures { result ≡ mark_started j launch.now }
{
    if launch.job.0 == j.0 {
        return LiveJob {
            job: launch.job,
            number: launch.number,
            started: true,
        };
    }
    *launch
}

/// The live launches with the start of a job's told.
fn with_start(live: &Live, j: JobNo) -> Result<Live, NoMemory>
    ensures { IfOk result (λ l. l ≡ map (mark_started j) live.now) }
{
    let mut told = live.empty();
    for launch in live.as_slice() {
        told.push(marked(launch, j))?;
    }
    Ok(told)
}

/// The live launches of other jobs.
fn without(live: &Live, j: JobNo) -> Result<Live, NoMemory>
    ensures { IfOk result (λ l. l ≡ without_job j live.now) }
{
    let mut others = live.empty();
    for launch in live.as_slice() {
        if launch.job.0 != j.0 {
            others.push(*launch)?;
        }
    }
    Ok(others)
}

impl Agent {
    /// The live launch of a job.
    fn live_launch(&self, j: JobNo) -> Option<LiveJob>
        ensures value { result ≡ live_launch self.now.live j }
        ensures inside { self.now.me < node_count (present_in self.now) }
    {
        // The workstation of the node is in its network.
        let _net = self.net();
        live_launch_in(self.live().as_slice(), j)
    }

    /// Whether the condition of a job of the catalogue holds for a return code.
    #[tactic(auto, unfolding(model::specs::NewEntry::ends_well))]
    fn ends_well(&self, j: JobNo, rc: i32) -> bool
        ensures { result ≡ entries.ends_well (view_in self.now) j rc }
    {
        match self.owners().planned_job(j) {
            None => false,
            Some((_parent, doc)) => holds(&doc.cond, rc),
        }
    }

    /// The entry that the start of a process makes.
    fn start_entry(&self, j: JobNo) -> Result<Entry, StepFault>
        ensures { IsKept self.now (types.Input.Local (types.Local.Started j)) result }
    {
        let Some(launch) = self.live_launch(j) else {
            return Err(StepFault::NoProcess);
        };
        if launch.started {
            return Err(StepFault::NoProcess);
        }
        self.own_event(Body::Started(j, launch.number))
    }

    /// The entry that a launch makes whose process could not be started.
    fn fail_entry(&self, j: JobNo) -> Result<Entry, StepFault>
        ensures { IsKept self.now (types.Input.Local (types.StartFailed j)) result }
    {
        let Some(launch) = self.live_launch(j) else {
            return Err(StepFault::NoProcess);
        };
        if launch.started {
            return Err(StepFault::NoProcess);
        }
        self.own_event(Body::Failed(j, launch.number))
    }

    /// The entry that the end of a process makes.
    fn end_entry(&self, j: JobNo, rc: i32) -> Result<Entry, StepFault>
        ensures { IsKept self.now (types.Input.Local (types.Local.Ended j rc)) result }
    {
        let Some(launch) = self.live_launch(j) else {
            return Err(StepFault::NoProcess);
        };
        let good = self.ends_well(j, rc);
        self.own_event(Body::Ended(j, launch.number, rc, good))
    }

    /// The process of a launch was started.
    pub(crate) fn started(&mut self, j: JobNo) -> Result<Step, StepFault>
        ensures { IsStep self.old (types.Input.Local (types.Local.Started j)) result self.new }
    {
        let entry = match self.start_entry(j) {
            Ok(entry) => entry,
            Err(fault) => return Err(fault),
        };
        let live = with_start(self.live(), j)?;
        self.keep(entry, live)
    }

    /// The process of a launch could not be started.
    pub(crate) fn start_failed(&mut self, j: JobNo) -> Result<Step, StepFault>
        ensures { IsStep self.old (types.Input.Local (types.StartFailed j)) result self.new }
    {
        let entry = match self.fail_entry(j) {
            Ok(entry) => entry,
            Err(fault) => return Err(fault),
        };
        let live = without(self.live(), j)?;
        self.keep(entry, live)
    }

    /// The process of a launch ended with a return code.
    pub(crate) fn ended(&mut self, j: JobNo, rc: i32) -> Result<Step, StepFault>
        ensures { IsStep self.old (types.Input.Local (types.Local.Ended j rc)) result self.new }
    {
        let entry = match self.end_entry(j, rc) {
            Ok(entry) => entry,
            Err(fault) => return Err(fault),
        };
        let live = without(self.live(), j)?;
        self.keep(entry, live)
    }
}
