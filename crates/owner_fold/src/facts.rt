//! What its owner tells of an object: the fact in the list of the object's workstation.
ghost use Rattle.std.specs.Prelude.{◌≡◌, ℕ, Option, false, unwrap_or};
ghost use Rattle.std.specs.Option.{option_or};
ghost use Rattle.model.specs.Types.{Job, Stream};
ghost use Rattle.model.specs.History.{view_of};
ghost use Rattle.model.specs.Catalogue.{told_by_owner};
ghost use Rattle.model.specs.Facts.{launches, reruns, open_launch, is_started, is_last_started, last_outcome, is_due};
ghost use Rattle.model.specs.Facts.{is_late, is_ever_late, last_end};
ghost use Rattle.model.specs.Facts.{is_good, is_released, is_ended, is_cancelled, is_fulfilled, is_until_recorded};
ghost use Rattle.model.specs.Facts.{own_reply, priority, stream_limit};
ghost use Rattle.owner_rows.specs.Outcomes.{told_outcome};

use crate::holdings::Owners;
use base_types::{JobNo, Obj, StreamNo};
use owner_rows::Outcome;

impl Owners {
    /// How often a job was launched. 0 outside the catalogue.
    pub fn launches(&self, j: JobNo) -> u32
        ensures { result ≡ told_by_owner 0 (launches j) (view_of self.now) (Job j) }
    {
        let o = Obj::Job(j);
        match self.owner_of(&o) {
            None => 0,
            Some(w) => self.kept().launches_at(w, j),
        }
    }

    /// How often a job was rerun by a command. 0 outside the catalogue.
    pub fn reruns(&self, j: JobNo) -> u32
        ensures { result ≡ told_by_owner 0 (reruns j) (view_of self.now) (Job j) }
    {
        let o = Obj::Job(j);
        match self.owner_of(&o) {
            None => 0,
            Some(w) => self.kept().reruns_at(w, j),
        }
    }

    /// The number of a job's last launch where it has no end. None where no launch is open, and outside the catalogue.
    pub fn open_launch(&self, j: JobNo) -> Option<u32>
        ensures { result ≡ told_by_owner None (open_launch j) (view_of self.now) (Job j) }
    {
        let o = Obj::Job(j);
        match self.owner_of(&o) {
            None => None,
            Some(w) => self.kept().open_launch_at(w, j),
        }
    }

    /// Whether this launch of a job was told as started. False outside the catalogue.
    pub fn is_started(&self, j: JobNo, number: u32) -> bool
        ensures { result ≡ told_by_owner false (is_started j number) (view_of self.now) (Job j) }
    {
        let o = Obj::Job(j);
        match self.owner_of(&o) {
            None => false,
            Some(w) => self.kept().is_started_at(w, j, number),
        }
    }

    /// Whether the start of a job's last launch was told after that launch. False outside the catalogue.
    pub fn is_last_started(&self, j: JobNo) -> bool
        ensures { result ≡ told_by_owner false (is_last_started j) (view_of self.now) (Job j) }
    {
        let o = Obj::Job(j);
        match self.owner_of(&o) {
            None => false,
            Some(w) => self.kept().is_last_started_at(w, j),
        }
    }

    /// How a job's last launch ended. None without a launch, with an open one, and outside the catalogue.
    pub fn last_outcome(&self, j: JobNo) -> Option<Outcome>
        ensures { told_outcome result ≡ told_by_owner None (last_outcome j) (view_of self.now) (Job j) }
    {
        let o = Obj::Job(j);
        match self.owner_of(&o) {
            None => None,
            Some(w) => self.kept().last_outcome_at(w, j),
        }
    }

    /// Whether a job has fewer launches than 1 plus its reruns. False outside the catalogue.
    pub fn is_due(&self, j: JobNo) -> bool
        ensures { result ≡ told_by_owner false (is_due j) (view_of self.now) (Job j) }
    {
        let o = Obj::Job(j);
        match self.owner_of(&o) {
            None => false,
            Some(w) => self.kept().is_due_at(w, j),
        }
    }

    /// Whether a job is not due, has no open launch, and its last launch ended well or was confirmed after it. False
    /// outside the catalogue.
    pub fn is_good(&self, j: JobNo) -> bool
        ensures { result ≡ told_by_owner false (is_good j) (view_of self.now) (Job j) }
    {
        let o = Obj::Job(j);
        match self.owner_of(&o) {
            None => false,
            Some(w) => self.kept().is_good_at(w, j),
        }
    }

    /// Whether a stream was released. False outside the catalogue.
    pub fn is_released(&self, s: StreamNo) -> bool
        ensures { result ≡ told_by_owner false (is_released s) (view_of self.now) (Stream s) }
    {
        let o = Obj::Stream(s);
        match self.owner_of(&o) {
            None => false,
            Some(w) => self.kept().is_released_at(w, s),
        }
    }

    /// Whether a stream was ended. False outside the catalogue.
    pub fn is_ended(&self, s: StreamNo) -> bool
        ensures { result ≡ told_by_owner false (is_ended s) (view_of self.now) (Stream s) }
    {
        let o = Obj::Stream(s);
        match self.owner_of(&o) {
            None => false,
            Some(w) => self.kept().is_ended_at(w, s),
        }
    }

    /// The limit of open launches that was set last for a stream. None where it is the document's, and outside the
    /// catalogue.
    pub fn stream_limit_set(&self, s: StreamNo) -> Option<u16>
        ensures { (written : Option ℕ) →
            option_or result written ≡ told_by_owner written (stream_limit s written) (view_of self.now) (Stream s) }
    {
        let o = Obj::Stream(s);
        match self.owner_of(&o) {
            None => None,
            Some(w) => self.kept().stream_limit_set_at(w, s),
        }
    }

    /// Whether the file of a dependency, by its number from 1, was told. False outside the catalogue.
    pub fn is_fulfilled(&self, o: Obj, i: u16) -> bool
        ensures { result ≡ told_by_owner false (is_fulfilled o i) (view_of self.now) o }
    {
        match self.owner_of(&o) {
            None => false,
            Some(w) => self.kept().is_fulfilled_at(w, &o, i),
        }
    }

    /// Whether an object was recorded as late by its DEADLINE of this number, from 1. False outside the catalogue.
    pub fn is_late(&self, o: Obj, i: u16) -> bool
        ensures { result ≡ told_by_owner false (is_late o i) (view_of self.now) o }
    {
        match self.owner_of(&o) {
            None => false,
            Some(w) => self.kept().is_late_at(w, &o, i),
        }
    }

    /// Whether an object was recorded as late by whichever DEADLINE. False outside the catalogue.
    pub fn is_ever_late(&self, o: Obj) -> bool
        ensures { result ≡ told_by_owner false (is_ever_late o) (view_of self.now) o }
    {
        match self.owner_of(&o) {
            None => false,
            Some(w) => self.kept().is_ever_late_at(w, &o),
        }
    }

    /// The return code with which a job's last launch ended. None where it has none, and outside the catalogue.
    pub fn last_end(&self, j: JobNo) -> Option<i32>
        ensures { result ≡ told_by_owner None (last_end j) (view_of self.now) (Job j) }
    {
        let o = Obj::Job(j);
        match self.owner_of(&o) {
            None => None,
            Some(w) => self.kept().last_end_at(w, j),
        }
    }

    /// Whether it was recorded that the UNTIL of this number, from 1, has passed. False outside the catalogue.
    pub fn is_until_recorded(&self, o: Obj, i: u16) -> bool
        ensures { result ≡ told_by_owner false (is_until_recorded o i) (view_of self.now) o }
    {
        match self.owner_of(&o) {
            None => false,
            Some(w) => self.kept().is_until_recorded_at(w, &o, i),
        }
    }

    /// The last reply to an object's own prompt, the dependency of this number from 1. None without one, and outside
    /// the catalogue.
    pub fn own_reply(&self, o: Obj, i: u16) -> Option<bool>
        ensures { result ≡ told_by_owner None (own_reply o i) (view_of self.now) o }
    {
        match self.owner_of(&o) {
            None => None,
            Some(w) => self.kept().own_reply_at(w, &o, i),
        }
    }

    /// Whether an object was cancelled, by a command or by an UNTIL. False outside the catalogue.
    pub fn is_cancelled(&self, o: Obj) -> bool
        ensures { result ≡ told_by_owner false (is_cancelled o) (view_of self.now) o }
    {
        match self.owner_of(&o) {
            None => false,
            Some(w) => self.kept().is_cancelled_at(w, &o),
        }
    }

    /// The priority that was set last for an object, from 0 to 101. None where it is the document's, and outside the
    /// catalogue.
    pub fn priority_set(&self, o: Obj) -> Option<u8>
        ensures { (written : ℕ) →
            unwrap_or result written ≡ told_by_owner written (priority o written) (view_of self.now) o }
    {
        match self.owner_of(&o) {
            None => None,
            Some(w) => self.kept().priority_set_at(w, &o),
        }
    }
}
