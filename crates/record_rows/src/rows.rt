//! Lines as rows. Names are in upper case.
use crate::shared_lines::SharedLine;
use base_types::{Carry, JobNo, Moment, OnUntil, Recovery, StreamNo, Text};

/// A number or a text that a line gives.
#[derive(Drop)]
pub enum Ranged<T> {
    Within(T),
    /// It has its form, and lies outside its range.
    OutOfRange,
}

/// A workstation that has a hop: `ws NAME HOP [manager] [on]`.
pub struct StationRow {
    pub name: Text,
    pub hop: Text,
    pub manager: bool,
    /// FULLSTATUS is ON.
    pub full: bool,
}

impl Drop for StationRow {
    fn drop(self) {
        let StationRow {
            name: _name,
            hop: _hop,
            manager: _manager,
            full: _full,
        } = self;
    }
}

/// A job stream: `stream WS NAME [prio N] [limit N] [carry]`.
pub struct StreamRow {
    pub ws: Text,
    pub name: Text,
    /// From 0 to 101; 10 where it is left out.
    pub priority: Ranged<u8>,
    /// From 0 to 1024, or none.
    pub limit: Ranged<Option<u16>>,
    pub carry: bool,
}

impl Drop for StreamRow {
    fn drop(self) {
        let StreamRow {
            ws: _ws,
            name: _name,
            priority: _priority,
            limit: _limit,
            carry: _carry,
        } = self;
    }
}

/// A job: `job WS NAME [prio N]`.
pub struct JobRow {
    pub ws: Text,
    pub name: Text,
    /// From 0 to 101; 10 where it is left out.
    pub priority: Ranged<u8>,
}

impl Drop for JobRow {
    fn drop(self) {
        let JobRow {
            ws: _ws,
            name: _name,
            priority: _priority,
        } = self;
    }
}

/// A part of the job above. Texts have at most 4,096 bytes.
pub enum PartRow {
    /// `do "TEXT"`
    Command(Ranged<Text>),
    /// `script "TEXT"`
    Script(Ranged<Text>),
    /// `logon "TEXT"`
    Logon(Ranged<Text>),
    /// `succ "COND"`, whose text is not read yet.
    Cond(Ranged<Text>),
    /// `recovery continue`, `recovery rerun`
    Recovery(Recovery),
}

impl Drop for PartRow {
    fn drop(self) {
        match self {
            PartRow::Command(_a) => {}
            PartRow::Script(_a) => {}
            PartRow::Logon(_a) => {}
            PartRow::Cond(_a) => {}
            PartRow::Recovery(_a) => {}
        }
    }
}

/// A dependency of the object above. Times are seconds since 1970, UTC; texts have at most 4,096 bytes.
pub enum DepRow {
    /// `at T`
    At(Ranged<Moment>),
    /// `until T suppr`, `until T cont`, `until T canc`
    Until(Ranged<Moment>, OnUntil),
    /// `deadline T`
    Deadline(Ranged<Moment>),
    /// `follows WS#STREAM`
    FollowsStream(Text, Text),
    /// `follows WS#STREAM.JOB`
    FollowsJob(Text, Text, Text),
    /// `follows JOB`, a job of the same stream.
    FollowsOwn(Text),
    /// `needs N RES`, with 0 to 1024 units.
    Needs(Ranged<u16>, Text),
    /// `ask NAME`
    AskGlobal(Text),
    /// `ask "TEXT"`
    AskOwn(Ranged<Text>),
    /// `opens "TEXT"`
    Opens(Ranged<Text>),
}

impl Drop for DepRow {
    fn drop(self) {
        match self {
            DepRow::At(_a) => {}
            DepRow::Until(_a, _b) => {}
            DepRow::Deadline(_a) => {}
            DepRow::FollowsStream(_a, _b) => {}
            DepRow::FollowsJob(_a, _b, _c) => {}
            DepRow::FollowsOwn(_a) => {}
            DepRow::Needs(_a, _b) => {}
            DepRow::AskGlobal(_a) => {}
            DepRow::AskOwn(_a) => {}
            DepRow::Opens(_a) => {}
        }
    }
}

/// A job or a stream by its number.
#[derive(Drop)]
pub enum ObjRow {
    Job(Ranged<JobNo>),
    Stream(Ranged<StreamNo>),
}

/// What a workstation does or is told, without that workstation.
pub enum OwnRow {
    /// `turn W T`
    Turn(Ranged<Moment>),
    /// `started W J`
    Started(Ranged<JobNo>),
    /// `failed W J`
    Failed(Ranged<JobNo>),
    /// `ended W J RC`
    Ended(Ranged<JobNo>, Ranged<i32>),
    /// `type W LINE`, with a line that gives a command.
    Typed(SharedLine),
}

impl Drop for OwnRow {
    fn drop(self) {
        match self {
            OwnRow::Turn(_a) => {}
            OwnRow::Started(_a) => {}
            OwnRow::Failed(_a) => {}
            OwnRow::Ended(_a, _b) => {}
            OwnRow::Typed(_a) => {}
        }
    }
}

/// A step in which a workstation may stop, without that workstation.
pub enum CutRow {
    /// `next`, which is a step of the master.
    Next,
    /// `next MM/DD/YYYY`, a day counted from 01/01/1970 as 0; a step of the master.
    NextDay(u32),
    Own(OwnRow),
    /// `deliver A W K`: the sender, and the packet's number.
    Deliver(Text, Ranged<u32>),
}

impl Drop for CutRow {
    fn drop(self) {
        match self {
            CutRow::Next => {}
            CutRow::NextDay(_a) => {}
            CutRow::Own(_a) => {}
            CutRow::Deliver(_a, _b) => {}
        }
    }
}

/// A line of the steps.
pub enum StepRow {
    /// `next`
    Next,
    /// `next MM/DD/YYYY`, a day counted from 01/01/1970 as 0.
    NextDay(u32),
    /// The workstation, and what it does.
    Own(Text, OwnRow),
    /// `link A B`
    Link(Text, Text),
    /// `unlink A B`
    Unlink(Text, Text),
    /// `deliver A B K`
    Deliver(Text, Text, Ranged<u32>),
    /// `flow A B`
    Flow(Text, Text),
    /// `reap W RC`
    Reap(Text, Ranged<i32>),
    /// `crash W`
    Crash(Text),
    /// `crash W kept STEP`, `crash W lost STEP`: the workstation, whether the entry is kept, and the step, which is one
    /// of that workstation, or `next`.
    CrashIn(Text, bool, CutRow),
    /// `fulfil W job J I`, `fulfil W stream S I`: the workstation, the object, and the number of its dependency.
    Fulfil(Text, ObjRow, Ranged<u16>),
    /// `recover W`
    Recover(Text),
}

impl Drop for StepRow {
    fn drop(self) {
        match self {
            StepRow::Next => {}
            StepRow::NextDay(_a) => {}
            StepRow::Own(_a, _b) => {}
            StepRow::Link(_a, _b) => {}
            StepRow::Unlink(_a, _b) => {}
            StepRow::Deliver(_a, _b, _c) => {}
            StepRow::Flow(_a, _b) => {}
            StepRow::Reap(_a, _b) => {}
            StepRow::Crash(_a) => {}
            StepRow::CrashIn(_a, _b, _c) => {}
            StepRow::Fulfil(_a, _b, _c) => {}
            StepRow::Recover(_a) => {}
        }
    }
}

/// What a line is.
pub enum Row {
    /// An empty line or a comment.
    Skipped,
    /// No line of a record.
    NoForm,
    /// `$NETWORK`
    Network,
    /// `$DEFINITIONS`
    Definitions,
    /// `$PLAN`
    Plan,
    /// `$STEPS`
    Steps,
    /// `ws NAME`
    Master(Text),
    Station(StationRow),
    /// `res WS NAME TOTAL`, with a total from 0 to 1024.
    Resource(Text, Text, Ranged<u16>),
    /// `prompt NAME "TEXT"`, with a text of at most 4,096 bytes.
    Prompt(Text, Ranged<Text>),
    /// `carryforward yes`, `carryforward no`, `carryforward all`
    CarryForward(Carry),
    Stream(StreamRow),
    Job(JobRow),
    Part(PartRow),
    Dep(DepRow),
    Step(StepRow),
}

impl Drop for Row {
    fn drop(self) {
        match self {
            Row::Skipped => {}
            Row::NoForm => {}
            Row::Network => {}
            Row::Definitions => {}
            Row::Plan => {}
            Row::Steps => {}
            Row::Master(_a) => {}
            Row::Station(_a) => {}
            Row::Resource(_a, _b, _c) => {}
            Row::Prompt(_a, _b) => {}
            Row::CarryForward(_a) => {}
            Row::Stream(_a) => {}
            Row::Job(_a) => {}
            Row::Part(_a) => {}
            Row::Dep(_a) => {}
            Row::Step(_a) => {}
        }
    }
}
