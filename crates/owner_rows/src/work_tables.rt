//! The tables of jobs, streams and their dependencies.
ghost use Rattle.std.specs.Prelude.{◌≡◌, ◌+◌, ◌<◌, ◌^◌, ◌++◌, [], ◌∷◌, List, Option, OnOk, length};
ghost use Rattle.model.specs.Types.{Entry as Taken};
ghost use Rattle.model.specs.History.{list_of};
ghost use Rattle.owner_rows.specs.Subjects as subject;
ghost use Rattle.owner_rows.specs.Told.{IsWorkReady, IsWorkTold};
ghost use Rattle.owner_rows.specs.Tables.{pair_row_in, row_in};

use crate::deps::{DepRow, tell_dep};
use crate::jobs::{JobRow, tell_job};
use crate::objects::{ObjectRow, tell_object};
use crate::starts::tell_start;
use crate::streams::{StreamRow, tell_stream};
use crate::subjects::{dep_key, job_key, object_key, object_number, start_key, stream_key};
use crate::tables::{PairTable, Table};
use base_types::{Entry, JobNo, NoMemory, Obj, StreamNo, Ws};
use std::alloc::Global;

/// What the entries tell of jobs, streams and their dependencies.
pub(crate) struct WorkTables {
    pub(crate) jobs: Table<JobRow>,
    /// By workstation, job and launch.
    pub(crate) starts: PairTable<bool>,
    pub(crate) streams: Table<StreamRow>,
    pub(crate) objects: Table<ObjectRow>,
    /// By workstation, object and dependency.
    pub(crate) deps: PairTable<DepRow>,
}

/// Written out, so that dropping one is a call for whoever owns it.
impl Drop for WorkTables {
    fn drop(self) {
        let WorkTables {
            jobs: _jobs,
            starts: _starts,
            streams: _streams,
            objects: _objects,
            deps: _deps,
        } = self;
    }
}

impl WorkTables {
    /// The tables of no entries, which takes no memory yet.
    pub(crate) fn new(alloc: Global) -> WorkTables
        ensures { IsWorkTold [] result }
    {
        WorkTables {
            jobs: Table::new(alloc, JobRow::blank()),
            starts: PairTable::new(alloc, false),
            streams: Table::new(alloc, StreamRow::blank()),
            objects: Table::new(alloc, ObjectRow::blank()),
            deps: PairTable::new(alloc, DepRow::blank()),
        }
    }

    /// The row of a job in the events of w.
    pub(crate) fn job(&self, w: Ws, j: JobNo) -> JobRow
        ensures { result ≡ row_in self.now.jobs (w, j) }
    {
        self.jobs.row(w.0, u64::from(j.0))
    }

    /// The row of a launch in the events of w.
    pub(crate) fn start(&self, w: Ws, j: JobNo, number: u32) -> bool
        ensures { result ≡ pair_row_in self.now.starts (w, (j, number)) }
    {
        self.starts.row(w.0, u64::from(j.0), number)
    }

    /// The row of a stream in the events of w.
    pub(crate) fn stream(&self, w: Ws, s: StreamNo) -> StreamRow
        ensures { result ≡ row_in self.now.streams (w, s) }
    {
        self.streams.row(w.0, u64::from(s.0))
    }

    /// The row of an object in the events of w.
    pub(crate) fn object(&self, w: Ws, o: &Obj) -> ObjectRow
        ensures { result ≡ row_in self.now.objects (w, subject.object_number o.now) }
    {
        self.objects.row(w.0, object_number(o))
    }

    /// The row of a dependency of an object, in the events of w.
    pub(crate) fn dep(&self, w: Ws, o: &Obj, i: u16) -> DepRow
        ensures { result ≡ pair_row_in self.now.deps (w, (subject.object_number o.now, i)) }
    {
        self.deps.row(w.0, object_number(o), u32::from(i))
    }

    /// Takes the memory for an entry, and changes nothing of what is told.
    pub(crate) fn prepare(&mut self, e: &Entry) -> Result<(), NoMemory>
        ensures same { (kept : List Taken) → IsWorkTold kept self.old → IsWorkTold kept self.new }
        ensures ready { OnOk result (IsWorkReady self.new e.now) }
    {
        self.jobs.prepare(job_key(e))?;
        self.starts.prepare(start_key(e))?;
        self.streams.prepare(stream_key(e))?;
        self.objects.prepare(object_key(e))?;
        self.deps.prepare(dep_key(e))?;
        Ok(())
    }

    /// Tells the tables an entry for which the memory is there.
    pub(crate) fn tell(&mut self, e: &Entry)
        requires { IsWorkReady self.old e.now }
        ensures { (kept : List Taken) → length (list_of kept e.now.feed) + 1 < 2 ^ 32 → IsWorkTold kept self.old
            → IsWorkTold (kept ++ e.now ∷ []) self.new }
    {
        tell_job(&mut self.jobs, e);
        tell_start(&mut self.starts, e);
        tell_stream(&mut self.streams, e);
        tell_object(&mut self.objects, e);
        tell_dep(&mut self.deps, e);
    }
}
