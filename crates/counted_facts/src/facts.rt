//! Facts at any count.
ghost use Rattle.std.specs.Prelude.{◌≡◌, ◌+◌, ◌++◌, ◌∷◌, ◌≤◌, ◌||◌, ℕ, [], List, Option, OnOk, length, take};
ghost use Rattle.std.specs.List.{list_any};
ghost use Rattle.std.specs.Option.{option_or};
ghost use Rattle.model.specs.Types.{Entry as Taken, Events, Job, Stream};
ghost use Rattle.model.specs.Words.{is_yes};
ghost use Rattle.model.specs.History.{list_of};
ghost use Rattle.model.specs.Facts as facts;
ghost use Rattle.counted_facts.specs.Facts as spec;
ghost use Rattle.counted_facts.specs.Subjects.{brings};
ghost use Rattle.counted_facts.specs.Told.{AreCountedFacts};

use crate::jobs::tell_job;
use crate::masters::MasterFacts;
use crate::streams::{StreamTold, tell_stream};
use crate::timelines::Timelines;
use base_types::{Entry, JobNo, NoMemory, StreamNo, Ws};
use owner_rows::Kept;
use std::alloc::Global;

/// What the entries of a history tell at each count of a workstation's events.
pub struct CountedFacts {
    jobs: Timelines<bool>,
    streams: Timelines<StreamTold>,
    master: MasterFacts,
}

/// Written out, so that dropping them is a call for whoever owns them.
impl Drop for CountedFacts {
    fn drop(self) {
        let CountedFacts {
            jobs: _jobs,
            streams: _streams,
            master: _master,
        } = self;
    }
}

impl CountedFacts {
    /// Those of no entries, which takes no memory yet.
    pub fn new(alloc: Global) -> CountedFacts
        ensures { AreCountedFacts [] result }
    {
        CountedFacts {
            jobs: Timelines::new(alloc, false),
            streams: Timelines::new(alloc, StreamTold::blank()),
            master: MasterFacts::new(alloc),
        }
    }

    /// Tells them the entry that was taken last. Where memory runs out it may be told in part, and they are not to be
    /// asked again.
    pub fn tell(&mut self, kept: &Kept, e: &Entry) -> Result<(), NoMemory>
        ensures { OnOk result ((before : List Taken) → kept.now ≡ before ++ e.now ∷ []
            → e.now.place ≡ length (list_of before e.now.feed) + 1 → AreCountedFacts before self.old
            → AreCountedFacts kept.now self.new) }
    {
        tell_job(&mut self.jobs, kept, e)?;
        tell_stream(&mut self.streams, kept, e)?;
        self.master.tell(e)
    }

    /// Whether a job is good or cancelled by the first so many events of w.
    pub fn is_done(&self, w: Ws, j: JobNo, count: u32) -> bool
        ensures { (G : List Taken) → AreCountedFacts G self.now → count ≤ length (list_of G (Events w))
            → result ≡ spec.is_done j (take count (list_of G (Events w))) }
    {
        self.jobs.at(w.0, u64::from(j.0), count)
    }

    /// What the first so many events of w tell of a stream.
    fn stream(&self, w: Ws, s: StreamNo, count: u32) -> StreamTold
        ensures { (G : List Taken) → AreCountedFacts G self.now → count ≤ length (list_of G (Events w))
            → result ≡ spec.stream_told s (take count (list_of G (Events w))) }
    {
        self.streams.at(w.0, u64::from(s.0), count)
    }

    /// Whether a stream is released by the first so many events of w.
    pub fn is_released(&self, w: Ws, s: StreamNo, count: u32) -> bool
        ensures { (G : List Taken) → AreCountedFacts G self.now → count ≤ length (list_of G (Events w))
            → result ≡ facts.is_released s (take count (list_of G (Events w))) }
    {
        self.stream(w, s, count).released
    }

    /// Whether a stream is ended by the first so many events of w.
    pub fn is_ended(&self, w: Ws, s: StreamNo, count: u32) -> bool
        ensures { (G : List Taken) → AreCountedFacts G self.now → count ≤ length (list_of G (Events w))
            → result ≡ facts.is_ended s (take count (list_of G (Events w))) }
    {
        self.stream(w, s, count).ended
    }

    /// Whether a stream is cancelled by the first so many events of w.
    pub fn is_cancelled(&self, w: Ws, s: StreamNo, count: u32) -> bool
        ensures { (G : List Taken) → AreCountedFacts G self.now → count ≤ length (list_of G (Events w))
            → result ≡ facts.is_cancelled (Stream s) (take count (list_of G (Events w))) }
    {
        self.stream(w, s, count).cancelled
    }

    /// The limit that the first so many events of w set last for a stream. None where it is the document's.
    pub fn stream_limit_set(&self, w: Ws, s: StreamNo, count: u32) -> Option<u16>
        ensures { (G : List Taken) → AreCountedFacts G self.now → count ≤ length (list_of G (Events w))
            → (written : Option ℕ)
            → option_or result written ≡ facts.stream_limit s written (take count (list_of G (Events w))) }
    {
        self.stream(w, s, count).limit
    }

    /// Whether the first so many events of workstation 0 bring the document of a stream.
    pub fn is_brought(&self, s: StreamNo, count: u32) -> bool
        ensures { (G : List Taken) → AreCountedFacts G self.now → count ≤ length (list_of G (Events 0))
            → result ≡ list_any (brings s) (take count (list_of G (Events 0))) }
    {
        self.master.is_brought(s.0, count)
    }

    /// Whether the last plan among them, or an added stream after it, names a stream.
    pub fn is_named(&self, s: StreamNo, count: u32) -> bool
        ensures { (G : List Taken) → AreCountedFacts G self.now → count ≤ length (list_of G (Events 0))
            → result ≡ spec.is_named s (take count (list_of G (Events 0))) }
    {
        self.master.is_named(s.0, count)
    }

    /// Whether the last reply to a prompt of the network since the last plan among them is yes.
    pub fn is_answered(&self, p: u16, count: u32) -> bool
        ensures { (G : List Taken) → AreCountedFacts G self.now → count ≤ length (list_of G (Events 0))
            → result ≡ is_yes (facts.global_reply p (take count (list_of G (Events 0)))) }
    {
        self.master.is_answered(p, count)
    }
}
