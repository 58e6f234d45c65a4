//! A step of a node on whatever input.
ghost use Rattle.std.specs.Prelude.{◌≡◌, ◌++◌, IfOk, IfErr, Ok, OnErr};
ghost use Rattle.std.specs.Option.{option_to_list};
ghost use Rattle.model.specs.Types.{Local as Here};
ghost use Rattle.model.specs.Types as types;
ghost use Rattle.agent_core.specs.Steps.{IsDue, IsStep, effect_in, step_at};

use crate::agents::Agent;
use crate::faults::{Step, StepFault};
use base_types::{Input, Local};

impl Agent {
    /// A step on what happens at the node itself, by what it owes as a whole.
    fn step_here(&mut self, input: &Local) -> Result<Step, StepFault>
        ensures { IsStep self.old (types.Input.Local input.now) result self.new }
    {
        match input {
            Local::Turn(t) => self.turned(*t),
            Local::Linked(x) => self.linked(*x),
            Local::Unlinked(x) => self.unlinked(*x),
            Local::Typed(to, cmd) => self.typed(*to, cmd),
            Local::Started(j) => self.started(*j),
            Local::StartFailed(j) => self.start_failed(*j),
            Local::Ended(j, rc) => self.ended(*j, *rc),
            Local::Fulfil(object, i) => self.fulfilled(object, *i),
            Local::Next(drafts) => self.planned(drafts),
        }
    }

    /// The step, by what it owes as a whole.
    fn step_whole(&mut self, input: &Input) -> Result<Step, StepFault>
        ensures { IsStep self.old input.now result self.new }
    {
        match input {
            Input::Local(local) => self.step_here(local),
            Input::Mail(from, entry) => self.mailed(*from, entry),
            Input::Ack(from, feed, count) => self.told(*from, feed, *count),
        }
    }

    /// Takes an input. The step is that of the definitions: the entry that the node keeps, what it gives out, and its
    /// session after it; or the first fault that applies, and then the agent is as before. It takes all its memory
    /// before it changes anything, but for that of the index of the best job, which is made anew at the next step where
    /// there is none, and for that of the feeds that may go to neighbours, which a turn lists where they are not known.
    pub fn step(&mut self, input: &Input) -> Result<Step, StepFault>
        ensures taken { IfOk result (λ s. step_at self.old input.now ≡ Ok (effect_in s self.new)) }
        ensures kept { IfOk result (λ s. self.new.kept ≡ self.old.kept ++ option_to_list s.kept) }
        ensures refused { IfErr result (λ f. IsDue self.old input.now f) }
        ensures err { OnErr result (self.new ≡ self.old) }
        ensures net { self.new.net ≡ self.old.net }
        ensures me { self.new.me ≡ self.old.me }
    {
        self.renew()?;
        self.step_whole(input)
    }
}
