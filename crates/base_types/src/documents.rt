//! Job streams, their jobs and what these depend on.
//!
//! A *draft* is what a plan is made of: it has no numbers yet, and follows others by their names. A *document* is a
//! draft with its numbers, as it stands in the plan.
ghost use Rattle.std.specs.Prelude.{◌≡◌, IfOk};

use crate::lists::{Items, NoMemory};
use crate::numbers::{JobNo, Moment, StreamNo, Ws};
use crate::texts::Text;
use std::alloc::Global;
use std::marker::Model;
use std::rc::Rc;

/// A condition on a return code, in postfix order. The empty one asks for the return code 0.
pub type Cond = Items<CondOp>;

pub type Deps = Items<Dep>;

pub type DraftDeps = Items<DraftDep>;

pub type Jobs = Items<JobDoc>;

pub type JobDrafts = Items<JobDraft>;

pub type StreamNos = Items<StreamNo>;

pub type StreamDocs = Items<StreamDoc>;

pub type StreamDrafts = Items<StreamDraft>;

/// A job or a job stream.
#[derive(Clone, Copy, Debug, PartialEq)]
pub enum Obj {
    Job(JobNo),
    Stream(StreamNo),
}

/// What comes when the time of an UNTIL has passed before its object began.
#[derive(Clone, Copy, Debug)]
pub enum OnUntil {
    /// The object begins no more.
    Suppr,
    /// The object may begin all the same.
    Cont,
    /// The object is cancelled.
    Canc,
}

/// The prompt that a dependency asks.
#[derive(Drop)]
pub enum PromptRef {
    /// A prompt of the network, by its number from 1.
    Global(u16),
    /// A text of the dependency's own.
    Own(Text),
}

/// What a job or a stream depends on.
pub enum Dep {
    FollowsJob(JobNo),
    FollowsStream(StreamNo),
    /// A resource, by its number from 1, and the units that are needed of it.
    Needs(u16, u16),
    Prompt(PromptRef),
    At(Moment),
    Until(Moment, OnUntil),
    /// A file that has to be there, by its path.
    Outside(Text),
    /// From this moment on the object is late where it is not done.
    Deadline(Moment),
}

impl Drop for Dep {
    fn drop(self) {
        match self {
            Dep::FollowsJob(_a) => {}
            Dep::FollowsStream(_a) => {}
            Dep::Needs(_a, _b) => {}
            Dep::Prompt(_a) => {}
            Dep::At(_a) => {}
            Dep::Until(_a, _b) => {}
            Dep::Outside(_a) => {}
            Dep::Deadline(_a) => {}
        }
    }
}

/// What a draft depends on.
pub enum DraftDep {
    /// A stream by its workstation and name, or a job of it by its name.
    Follows(Ws, Text, Option<Text>),
    /// A dependency that names no stream and no job.
    Plain(Dep),
}

impl Drop for DraftDep {
    fn drop(self) {
        match self {
            DraftDep::Follows(_a, _b, _c) => {}
            DraftDep::Plain(_a) => {}
        }
    }
}

/// What a job runs.
#[derive(Drop)]
pub enum Work {
    Command(Text),
    Script(Text),
}

/// What comes after a job that ended badly.
#[derive(Clone, Copy, Debug)]
pub enum Recovery {
    Stop,
    Continue,
    Rerun,
}

/// How a return code is compared.
#[derive(Clone, Copy, Debug)]
pub enum Rel {
    Eq,
    Ne,
    Lt,
    Le,
    Gt,
    Ge,
}

/// An operation of a condition in postfix order.
#[derive(Clone, Copy, Debug)]
pub enum CondOp {
    /// The return code compared with this number.
    Cmp(Rel, i32),
    And,
    Or,
    Not,
}

/// A job of a plan.
pub struct JobDoc {
    /// From 1, over the life of the network.
    pub no: JobNo,
    pub ws: Ws,
    pub name: Text,
    /// From 0 to 101. 100 is HI and 101 is GO.
    pub priority: u8,
    pub work: Work,
    /// The user that the definitions name. It is kept and printed.
    pub logon: Text,
    /// When an end is a good one.
    pub cond: Cond,
    pub recovery: Recovery,
    pub deps: Deps,
}

impl Drop for JobDoc {
    fn drop(self) {
        let JobDoc {
            no: _no,
            ws: _ws,
            name: _name,
            priority: _priority,
            work: _work,
            logon: _logon,
            cond: _cond,
            recovery: _recovery,
            deps: _deps,
        } = self;
    }
}

/// A job stream of a plan.
pub struct StreamDoc {
    /// From 1, over the life of the network.
    pub no: StreamNo,
    pub ws: Ws,
    pub name: Text,
    /// From 0 to 101. 100 is HI and 101 is GO.
    pub priority: u8,
    /// How many of its jobs may have an open launch at once, if that is bounded.
    pub limit: Option<u16>,
    /// Whether an unfinished stream is carried into the next plan.
    pub carry: bool,
    pub deps: Deps,
    pub jobs: Jobs,
}

impl Drop for StreamDoc {
    fn drop(self) {
        let StreamDoc {
            no: _no,
            ws: _ws,
            name: _name,
            priority: _priority,
            limit: _limit,
            carry: _carry,
            deps: _deps,
            jobs: _jobs,
        } = self;
    }
}

/// A job before it is planned.
pub struct JobDraft {
    pub ws: Ws,
    pub name: Text,
    /// From 0 to 101. 100 is HI and 101 is GO.
    pub priority: u8,
    pub work: Work,
    /// The user that the definitions name. It is kept and printed.
    pub logon: Text,
    /// When an end is a good one.
    pub cond: Cond,
    pub recovery: Recovery,
    pub deps: DraftDeps,
}

impl Drop for JobDraft {
    fn drop(self) {
        let JobDraft {
            ws: _ws,
            name: _name,
            priority: _priority,
            work: _work,
            logon: _logon,
            cond: _cond,
            recovery: _recovery,
            deps: _deps,
        } = self;
    }
}

/// A job stream before it is planned.
pub struct StreamDraft {
    pub ws: Ws,
    pub name: Text,
    /// From 0 to 101. 100 is HI and 101 is GO.
    pub priority: u8,
    /// How many of its jobs may have an open launch at once, if that is bounded.
    pub limit: Option<u16>,
    /// Whether an unfinished stream is carried into the next plan.
    pub carry: bool,
    pub deps: DraftDeps,
    pub jobs: JobDrafts,
}

impl Drop for StreamDraft {
    fn drop(self) {
        let StreamDraft {
            ws: _ws,
            name: _name,
            priority: _priority,
            limit: _limit,
            carry: _carry,
            deps: _deps,
            jobs: _jobs,
        } = self;
    }
}

/// The documents of a plan, which every copy of the plan shares. A contract sees it as the list of the documents.
pub struct SharedDocs {
    docs: Rc<StreamDocs>,
}

/// Written out, so that dropping one is a call for whoever owns it.
impl Drop for SharedDocs {
    fn drop(self) {
        let SharedDocs { docs: _docs } = self;
    }
}

impl Model for SharedDocs {
    ghost use Rattle.std.specs.Prelude.{List};
    ghost use Rattle.base_types.specs.declared.documents.StreamDoc.{StreamDoc as Doc};

    ghost Value = { List Doc };

    ghost view = { λ s. s.docs.value };
}

impl SharedDocs {
    /// Takes the documents, which nobody can change from then on.
    pub fn of(alloc: Global, docs: StreamDocs) -> Result<SharedDocs, NoMemory>
        ensures { IfOk result (λ s. s ≡ docs) }
    {
        match Rc::new(alloc, docs) {
            Ok(docs) => Ok(SharedDocs { docs }),
            Err(_) => Err(NoMemory),
        }
    }

    /// The documents.
    pub fn docs(&self) -> &StreamDocs
        ensures { result.now ≡ self.now }
    {
        self.docs.as_ref()
    }

    /// The documents, in order.
    pub fn as_slice(&self) -> &[StreamDoc]
        ensures { result.now ≡ self.now }
    {
        self.docs.as_ref().as_slice()
    }

    /// The same documents once more. None of them is copied.
    pub fn shared(&self) -> Result<SharedDocs, NoMemory>
        ensures { IfOk result (λ s. s ≡ self.now) }
    {
        match self.docs.clone() {
            Ok(docs) => Ok(SharedDocs { docs }),
            Err(_) => Err(NoMemory),
        }
    }
}
