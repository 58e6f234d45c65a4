//! Files that were waited for.
ghost use Rattle.std.specs.Prelude.{◌≡◌, false};
ghost use Rattle.std.specs.Option.{option_map_or};
ghost use Rattle.model.specs.Types as types;
ghost use Rattle.model.specs.Types.{Events};
ghost use Rattle.model.specs.Equalities.{obj_among};
ghost use Rattle.model.specs.Facts.{is_fulfilled};
ghost use Rattle.model.specs.Dependencies.{dep};
ghost use Rattle.model.specs.OwnMembers.{own_objects};
ghost use Rattle.model.specs.StepFaults as spec;
ghost use Rattle.agent_core.specs.Nodes.{view_in};
ghost use Rattle.agent_core.specs.Owning.{is_own_job, is_own_stream};
ghost use Rattle.agent_core.specs.Steps.{IsKept, IsStep};

use crate::agents::Agent;
use crate::faults::{Step, StepFault};
use base_types::{Body, Dep, Entry, JobNo, Obj, StreamNo};

impl Agent {
    /// Whether a stream is an own member.
    fn is_own_stream(&self, s: StreamNo) -> bool
        ensures { result ≡ is_own_stream (view_in self.now) self.now.me s }
    {
        match self.owners().stream(s) {
            None => false,
            Some(doc) => doc.ws == self.me() && self.owners().is_member(doc.no),
        }
    }

    /// Whether a job is an own member's.
    fn is_own_job(&self, j: JobNo) -> bool
        ensures { result ≡ is_own_job (view_in self.now) self.now.me j }
    {
        match self.owners().planned_job(j) {
            None => false,
            Some((parent, doc)) => doc.ws == self.me() && self.owners().is_member(parent.no),
        }
    }

    /// Whether an object is an own member, or an own member's job.
    #[tactic(auto, using(crate::proofs::Owning::own_job, crate::proofs::Owning::own_stream))]
    fn is_own(&self, object: &Obj) -> bool
        ensures { result ≡ obj_among (own_objects (view_in self.now) self.now.me) object.now }
    {
        match object {
            Obj::Stream(s) => self.is_own_stream(*s),
            Obj::Job(j) => self.is_own_job(*j),
        }
    }

    /// Whether an object waits for a file by the dependency of this number.
    fn waits_for_file(&self, object: &Obj, i: u16) -> bool
        ensures { result ≡ option_map_or spec.is_outside (dep (view_in self.now) object.now i) false }
    {
        match self.owners().dep(*object, i) {
            Some(Dep::Outside(_)) => true,
            _ => false,
        }
    }

    /// Whether the file of the dependency of this number was seen.
    fn has_file(&self, object: &Obj, i: u16) -> bool
        ensures { result ≡ is_fulfilled object.now i (view_in self.now (Events self.now.me)) }
    {
        self.owners().kept().is_fulfilled_at(self.me(), object, i)
    }

    /// Whether an object waits for no file by the dependency of this number, or not any more.
    fn lacks_dep(&self, object: &Obj, i: u16) -> bool
        ensures { result
            ≡ spec.lacks_dep self.now.me (view_in self.now) (types.Input.Local (types.Fulfil object.now i)) }
    {
        if !self.is_own(object) {
            return true;
        }
        if !self.waits_for_file(object, i) {
            return true;
        }
        self.has_file(object, i)
    }

    /// The entry that a file makes that is there.
    fn file_entry(&self, object: &Obj, i: u16) -> Result<Entry, StepFault>
        ensures { IsKept self.now (types.Input.Local (types.Fulfil object.now i)) result }
    {
        // The workstation of the node is in its network.
        let _net = self.net();
        if self.lacks_dep(object, i) {
            return Err(StepFault::NoDep);
        }
        self.own_event(Body::Fulfilled(*object, i))
    }

    /// The file of the dependency of this number, from 1, is there.
    pub(crate) fn fulfilled(&mut self, object: &Obj, i: u16) -> Result<Step, StepFault>
        ensures { IsStep self.old (types.Input.Local (types.Fulfil object.now i)) result self.new }
    {
        match self.file_entry(object, i) {
            Ok(entry) => self.keep_alone(entry),
            Err(fault) => Err(fault),
        }
    }
}
