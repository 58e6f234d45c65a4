//! The lines that an operator may type, with their parts.
use base_types::{OnUntil, Text};

/// A job stream as it is typed. Its names are in upper case.
pub struct StreamRef {
    /// The workstation. None means that of the node at which the line is typed.
    pub ws: Option<Text>,
    pub name: Text,
    /// The stream's number in the catalogue. None means the last member of that name.
    pub no: Option<u32>,
}

impl Drop for StreamRef {
    fn drop(self) {
        let StreamRef {
            ws: _ws,
            name: _name,
            no: _no,
        } = self;
    }
}

/// A job as it is typed, in its stream. Its names are in upper case.
pub struct JobRef {
    pub stream: StreamRef,
    pub name: Text,
}

impl Drop for JobRef {
    fn drop(self) {
        let JobRef {
            stream: _stream,
            name: _name,
        } = self;
    }
}

/// A job or a job stream as it is typed.
#[derive(Drop)]
pub enum ObjRef {
    Job(JobRef),
    Stream(StreamRef),
}

/// A dependency as it is typed. Times are seconds since 1970, UTC.
pub enum DepRef {
    FollowsJob(JobRef),
    FollowsStream(StreamRef),
    /// The units, the resource's workstation and its name.
    Needs(u16, Text, Text),
    /// A prompt of the network.
    PromptName(Text),
    /// A text of the dependency's own, in the case in which it is typed.
    PromptText(Text),
    At(u64),
    /// The time, and what comes when it has passed, `Suppr` where that is left out.
    Until(u64, OnUntil),
}

impl Drop for DepRef {
    fn drop(self) {
        match self {
            DepRef::FollowsJob(_a) => {}
            DepRef::FollowsStream(_a) => {}
            DepRef::Needs(_a, _b, _c) => {}
            DepRef::PromptName(_a) => {}
            DepRef::PromptText(_a) => {}
            DepRef::At(_a) => {}
            DepRef::Until(_a, _b) => {}
        }
    }
}

/// A line with its parts, in the order in which they are typed. Names are in upper case; numbers may be any of their
/// type, whether or not the command is then declined.
pub enum Line {
    AddDep(ObjRef, DepRef),
    DelDep(ObjRef, DepRef),
    Release(ObjRef),
    /// The priority; `hi` is 100 and `go` is 101.
    AltPri(ObjRef, u8),
    Cancel(ObjRef),
    Confirm(JobRef),
    Kill(JobRef),
    Rerun(JobRef),
    /// A workstation, and the priority above which its jobs launch.
    Fence(Text, u8),
    /// A workstation, and how many launches may be open there.
    CpuLimit(Text, u16),
    StreamLimit(StreamRef, u16),
    /// A resource's workstation, its name and its units.
    Resource(Text, Text, u16),
    /// A prompt of the network, and the answer yes.
    ReplyGlobal(Text, bool),
    /// The number of the object's dependency, and the answer yes.
    ReplyOwn(ObjRef, u16, bool),
    Start(Text),
    Stop(Text),
    /// The workstation, the text that is to run, the name, and the job's priority.
    Submit(Text, Text, Option<Text>, Option<u8>),
    /// A domain, and the workstation that is to manage it.
    SwitchMgr(Text, Text),
    /// The pattern that names have to match, in upper case.
    ShowJobs(Option<Text>),
    ShowSchedules(Option<Text>),
    ShowCpus(Option<Text>),
    ShowPrompts(Option<Text>),
    ShowResources(Option<Text>),
    Link(Text),
    Unlink(Text),
    Shutdown,
    /// A day, counted from 01/01/1970 as 0.
    JNextPlan(u32),
}

impl Drop for Line {
    fn drop(self) {
        match self {
            Line::AddDep(_a, _b) | Line::DelDep(_a, _b) => {}
            Line::Release(_a) | Line::Cancel(_a) | Line::AltPri(_a, _) => {}
            Line::ReplyOwn(_a, _, _) => {}
            Line::Confirm(_a) | Line::Kill(_a) | Line::Rerun(_a) => {}
            Line::Start(_a)
            | Line::Stop(_a)
            | Line::Link(_a)
            | Line::Unlink(_a)
            | Line::Fence(_a, _)
            | Line::CpuLimit(_a, _)
            | Line::ReplyGlobal(_a, _) => {}
            Line::StreamLimit(_a, _) => {}
            Line::Resource(_a, _b, _) | Line::SwitchMgr(_a, _b) => {}
            Line::Submit(_a, _b, _c, _) => {}
            Line::ShowJobs(_a)
            | Line::ShowSchedules(_a)
            | Line::ShowCpus(_a)
            | Line::ShowPrompts(_a)
            | Line::ShowResources(_a) => {}
            Line::Shutdown | Line::JNextPlan(_) => {}
        }
    }
}
