//! Sets of the catalogue's streams and jobs, by their places in it.
ghost use Rattle.std.specs.Prelude.{◌≡◌, ◌++◌, [], ◌∷◌, List, Some, ℕ, true, IfOk, OnOk, map, slice_get};
ghost use Rattle.model.specs.Types.{Events, StreamDoc as Doc};
ghost use Rattle.model.specs.Words.{has};
ghost use Rattle.model.specs.History.{list_of};
ghost use Rattle.model.specs.Catalogue.{StreamJob};
ghost use Rattle.owner_fold.specs.Numbers.{ArePlaces};
ghost use Rattle.owner_fold.specs.Sets as spec;
ghost use Rattle.owner_fold.specs.Sets.{AreSetsAmong, AreSetsOf, Begins, Covers, HasPlace, Prepared};
ghost use Rattle.owner_fold.specs.DocPlaces.{AreJobPlaces, AreStreamPlaces};

use crate::changes::Change;
use crate::doc_places::DocPlaces;
use crate::fills::{by_stream_of, jobs_of, streams_of};
use crate::given::Kind;
use crate::given_objects::GivenObjects;
use crate::numbers::{Index, Numbers};
use crate::searches::{JobTest, StreamTest};
use base_types::{Entry, JobNo, NoMemory, Obj, StreamNo, Ws};
use grouped_places::Groups;
use owner_rows::Kept;
use std::alloc::Global;

/// The stream is neither released nor cancelled at w.
pub(crate) fn is_waiting(kept: &Kept, w: Ws, s: StreamNo) -> bool
    ensures { result ≡ spec.is_waiting s (list_of kept.now (Events w)) }
{
    let o = Obj::Stream(s);
    !kept.is_released_at(w, s) && !kept.is_cancelled_at(w, &o)
}

/// The stream is released at w, and neither ended nor cancelled.
pub(crate) fn is_begun(kept: &Kept, w: Ws, s: StreamNo) -> bool
    ensures { result ≡ spec.is_begun s (list_of kept.now (Events w)) }
{
    let o = Obj::Stream(s);
    kept.is_released_at(w, s) && (!kept.is_ended_at(w, s) && !kept.is_cancelled_at(w, &o))
}

/// Puts in the place, if there is one.
pub(crate) fn include(groups: &mut Groups, w: u16, place: Option<usize>) -> Result<(), NoMemory>
    ensures keeps { (c : ℕ) → has groups.old c ≡ true → has groups.new c ≡ true }
    ensures there { OnOk result (HasPlace w place groups.new) }
{
    match place {
        None => Ok(()),
        Some(i) => {
            groups.add(u32::from(w), i)?;
            Ok(())
        }
    }
}

/// Takes out the place of a stream of w, unless it waits.
fn settle_waiting(groups: &mut Groups, kept: &Kept, w: Ws, s: StreamNo, place: usize)
    ensures { (streams : List Doc) → ((d : Doc) → slice_get streams place ≡ Some d → d.no ≡ s)
        → Covers spec.station_of (spec.waits_by kept.now) streams groups.old
        → Covers spec.station_of (spec.waits_by kept.now) streams groups.new }
{
    if is_waiting(kept, w, s) {
        return;
    }
    groups.remove(u32::from(w.0), place);
}

/// Takes out the place of a stream of w, unless it is begun.
fn settle_begun(groups: &mut Groups, kept: &Kept, w: Ws, s: StreamNo, place: usize)
    ensures { (streams : List Doc) → ((d : Doc) → slice_get streams place ≡ Some d → d.no ≡ s)
        → Covers spec.station_of (spec.began_by kept.now) streams groups.old
        → Covers spec.station_of (spec.began_by kept.now) streams groups.new }
{
    if is_begun(kept, w, s) {
        return;
    }
    groups.remove(u32::from(w.0), place);
}

/// Takes out the place of a job of w, unless it has an open launch.
fn settle_opened(groups: &mut Groups, kept: &Kept, w: Ws, j: JobNo, place: usize)
    ensures { (placed : List StreamJob) → ((p : StreamJob) → slice_get placed place ≡ Some p → p.doc.no ≡ j)
        → Covers spec.job_station_of (spec.opened_by kept.now) placed groups.old
        → Covers spec.job_station_of (spec.opened_by kept.now) placed groups.new }
{
    if kept.is_open_at(w, j) {
        return;
    }
    groups.remove(u32::from(w.0), place);
}

/// Places of streams and jobs in the catalogue. A set has the place of each that counts, and may have others; so who
/// asks a set tests each that it has.
pub(crate) struct Sets {
    /// The streams that are neither released nor cancelled, by their workstations.
    pub(crate) waiting: Groups,
    /// Those that are released, and neither ended nor cancelled.
    pub(crate) begun: Groups,
    /// The jobs with an open launch, by their workstations.
    pub(crate) opened: Groups,
    /// The jobs, by their streams.
    pub(crate) by_stream: Groups,
    /// The members, and members' jobs, with a time.
    pub(crate) timed: GivenObjects,
    /// Those with a dependency on a file.
    pub(crate) filed: GivenObjects,
}

/// Written out, so that dropping one is a call for whoever owns it.
impl Drop for Sets {
    fn drop(self) {
        let Sets {
            waiting: _waiting,
            begun: _begun,
            opened: _opened,
            by_stream: _by_stream,
            timed: _timed,
            filed: _filed,
        } = self;
    }
}

impl Sets {
    /// The sets of no entries, which takes no memory yet.
    pub(crate) fn new(alloc: Global) -> Sets
        ensures { AreSetsOf [] result }
    {
        Sets {
            waiting: Groups::new(alloc),
            begun: Groups::new(alloc),
            opened: Groups::new(alloc),
            by_stream: Groups::new(alloc),
            timed: GivenObjects::new(alloc),
            filed: GivenObjects::new(alloc),
        }
    }

    /// The sets of what stands at these places, where this entry comes after those, by what was told before it, where the
    /// plan has these members.
    pub(crate) fn anew(
        &self,
        kept: &Kept,
        e: &Entry,
        doc_places: &DocPlaces,
        members: &Numbers,
    ) -> Result<Sets, NoMemory>
        ensures { IfOk result (λ sets. (ms : List ℕ) (streams : List Doc) (placed : List StreamJob)
            → ArePlaces ms members.now
            → AreStreamPlaces (kept.now ++ e.now ∷ []) doc_places.now.streams streams
            → AreJobPlaces (kept.now ++ e.now ∷ []) doc_places.now.jobs placed
            → AreSetsAmong kept.now ms streams placed sets) }
    {
        let waiting = self.waiting.empty();
        let waiting = streams_of(StreamTest::Waits, waiting, kept, e, doc_places, members)?;
        let begun = self.begun.empty();
        let begun = streams_of(StreamTest::Begun, begun, kept, e, doc_places, members)?;
        let opened = self.opened.empty();
        let opened = jobs_of(JobTest::Opened, opened, kept, e, doc_places, members)?;
        let by_stream = by_stream_of(self.by_stream.empty(), kept, e, doc_places)?;
        let timed = self.timed.anew(Kind::Time, kept, e, doc_places, members)?;
        let filed = self.filed.anew(Kind::File, kept, e, doc_places, members)?;
        Ok(Sets {
            waiting,
            begun,
            opened,
            by_stream,
            timed,
            filed,
        })
    }

    /// Puts in what the change may begin. Where memory runs out the sets still have all that counts.
    pub(crate) fn prepare(&mut self, index: &Index, change: &Change) -> Result<(), NoMemory>
        ensures keeps { Prepared self.old self.new }
        ensures begins { OnOk result (Begins index.now change.now self.new) }
    {
        match change {
            Change::StreamChange(w, s, begins) => {
                if *begins {
                    include(&mut self.begun, *w, index.streams.place(*s))
                } else {
                    Ok(())
                }
            }
            Change::JobChange(w, j, begins) => {
                if *begins {
                    include(&mut self.opened, *w, index.jobs.place(*j))
                } else {
                    Ok(())
                }
            }
            Change::TimeGiven(w, o) => self.timed.include(index, *w, o),
            Change::FileGiven(w, o) => self.filed.include(index, *w, o),
            Change::NoChange => Ok(()),
        }
    }

    /// Takes out what the change has ended.
    pub(crate) fn settle(&mut self, kept: &Kept, index: &Index, change: &Change)
        ensures { (ms : List ℕ) (streams : List Doc) (placed : List StreamJob)
            → ArePlaces (map (λ d. d.no) streams) index.now.streams
            → ArePlaces (map (λ p. p.doc.no) placed) index.now.jobs
            → AreSetsAmong kept.now ms streams placed self.old → AreSetsAmong kept.now ms streams placed self.new }
    {
        match change {
            Change::StreamChange(w, s, _) => {
                if let Some(place) = index.streams.place(*s) {
                    settle_waiting(&mut self.waiting, kept, Ws(*w), StreamNo(*s), place);
                    settle_begun(&mut self.begun, kept, Ws(*w), StreamNo(*s), place);
                }
            }
            Change::JobChange(w, j, _) => {
                if let Some(place) = index.jobs.place(*j) {
                    settle_opened(&mut self.opened, kept, Ws(*w), JobNo(*j), place);
                }
            }
            Change::TimeGiven(_, _) | Change::FileGiven(_, _) | Change::NoChange => {}
        }
    }
}
