//! Records as they are read: a network, plans, and steps with their lines.
ghost use Rattle.std.specs.Prelude.{◌≡◌};

use base_types::{Items, JobNo, Moment, Net, Obj, StreamDrafts, Ws};
use record_rows::SharedLine;

/// The sections of plans, in order.
pub type Plans = Items<StreamDrafts>;

/// The steps of a record, in order.
pub type ScriptSteps = Items<ScriptStep>;

/// A step that is one step of the world.
pub enum OneStep {
    /// The master takes the next plan.
    Next,
    /// The master takes the plan of a day, counted from 01/01/1970 as 0.
    NextDay(u32),
    /// The workstation takes a turn with this reading.
    Turn(Ws, Moment),
    /// The own end of the link to the second goes up.
    Link(Ws, Ws),
    /// The own end of the link to the second goes down.
    Unlink(Ws, Ws),
    /// The packet of this number, from the first to the second.
    Deliver(Ws, Ws, u32),
    Started(Ws, JobNo),
    Failed(Ws, JobNo),
    /// A job, and its return code.
    Ended(Ws, JobNo, i32),
    /// An operator's line, which gives a command.
    Typed(Ws, SharedLine),
    /// The object, and the number of its dependency.
    Fulfil(Ws, Obj, u16),
}

impl Drop for OneStep {
    fn drop(self) {
        match self {
            OneStep::Next => {}
            OneStep::NextDay(_a) => {}
            OneStep::Turn(_a, _b) => {}
            OneStep::Link(_a, _b) => {}
            OneStep::Unlink(_a, _b) => {}
            OneStep::Deliver(_a, _b, _c) => {}
            OneStep::Started(_a, _b) => {}
            OneStep::Failed(_a, _b) => {}
            OneStep::Ended(_a, _b, _c) => {}
            OneStep::Typed(_a, _b) => {}
            OneStep::Fulfil(_a, _b, _c) => {}
        }
    }
}

/// A step of a record.
pub enum StepForm {
    One(OneStep),
    /// All packets behind the greatest number delivered.
    Flow(Ws, Ws),
    /// The end of each live launch, with this return code.
    Reap(Ws, i32),
    Crash(Ws),
    /// The workstation stops in the step. The flag says whether its entry is kept.
    CrashIn(Ws, bool, OneStep),
    /// The workstation types its advice for itself, if there is one.
    Recover(Ws),
}

impl Drop for StepForm {
    fn drop(self) {
        match self {
            StepForm::One(_a) => {}
            StepForm::Flow(_a, _b) => {}
            StepForm::Reap(_a, _b) => {}
            StepForm::Crash(_a) => {}
            StepForm::CrashIn(_a, _b, _c) => {}
            StepForm::Recover(_a) => {}
        }
    }
}

/// A step with its line, from 1.
pub struct ScriptStep {
    pub line: u32,
    pub form: StepForm,
}

impl Drop for ScriptStep {
    fn drop(self) {
        let ScriptStep {
            line: _line,
            form: _form,
        } = self;
    }
}

/// A record.
pub struct Script {
    pub net: Net,
    pub plans: Plans,
    pub steps: ScriptSteps,
}

impl Drop for Script {
    fn drop(self) {
        let Script {
            net: _net,
            plans: _plans,
            steps: _steps,
        } = self;
    }
}

impl Script {
    /// The network, the plans and the steps, each by itself.
    pub fn into_parts(self) -> (Net, Plans, ScriptSteps)
        ensures net { result.0 ≡ self.net }
        ensures plans { result.1 ≡ self.plans }
        ensures steps { result.2 ≡ self.steps }
    {
        let Script { net, plans, steps } = self;
        (net, plans, steps)
    }
}
