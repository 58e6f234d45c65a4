//! The sets of a plan that comes: each made anew, in one walk over what stands in the catalogue.
ghost use Rattle.std.specs.Prelude.{◌≡◌, ◌++◌, [], ◌∷◌, List, ℕ, true, IfOk, OnOk, option_map, slice_get};
ghost use Rattle.std.specs.Option.{option_copied};
ghost use Rattle.model.specs.Types.{StreamDoc as Doc};
ghost use Rattle.model.specs.Catalogue.{StreamJob};
ghost use Rattle.owner_fold.specs.Given.{given_job_by, given_stream_by, is_of};
ghost use Rattle.owner_fold.specs.Numbers.{ArePlaces};
ghost use Rattle.owner_fold.specs.Searches.{job_counts, stream_counts};
ghost use Rattle.owner_fold.specs.Sets as spec;
ghost use Rattle.owner_fold.specs.Sets.{Covers, Further};
ghost use Rattle.owner_fold.specs.DocPlaces.{AreJobPlaces, AreStreamPlaces, doc_at, job_at, stream_job};

use crate::doc_places::{DocPlaces, JobPlace, StreamPlace, docs_of};
use crate::given::{Kind, is_given};
use crate::numbers::Numbers;
use crate::searches::{JobTest, StreamTest};
use crate::sets::{is_begun, is_waiting};
use base_types::{Entry, JobDoc, NoMemory, Obj, StreamDoc};
use grouped_places::Groups;
use owner_rows::Kept;

/// The entry at a place, where `e` comes after the others.
fn entry_with<'a>(entries: &'a [Entry], e: &'a Entry, place: usize) -> Option<&'a Entry>
    ensures { option_copied result ≡ slice_get (entries.now ++ e.now ∷ []) place }
{
    if place == entries.len() {
        return Some(e);
    }
    entries.get(place)
}

/// The document that stands there then.
pub(crate) fn stream_with<'a>(
    entries: &'a [Entry],
    e: &'a Entry,
    doc_place: &StreamPlace,
) -> Option<&'a StreamDoc>
    ensures { option_copied result ≡ doc_at (entries.now ++ e.now ∷ []) doc_place.now }
{
    match entry_with(entries, e, doc_place.entry) {
        None => None,
        Some(entry) => docs_of(&entry.body).get(doc_place.doc),
    }
}

/// The job that stands there then, with its stream.
pub(crate) fn job_with<'a>(
    entries: &'a [Entry],
    e: &'a Entry,
    doc_place: &JobPlace,
) -> Option<(&'a StreamDoc, &'a JobDoc)>
    ensures { option_map (λ p. stream_job p.0.now p.1.now) result ≡ job_at (entries.now ++ e.now ∷ []) doc_place.now }
{
    match stream_with(entries, e, &doc_place.stream) {
        None => None,
        Some(doc) => match doc.jobs.get(doc_place.job) {
            None => None,
            Some(job) => Some((doc, job)),
        },
    }
}

/// Puts in the job at this place.
fn put_by_stream(
    groups: &mut Groups,
    kept: &Kept,
    e: &Entry,
    place: usize,
    doc_place: &JobPlace,
) -> Result<(), NoMemory>
    ensures { OnOk result (Further spec.job_stream_of (λ p. true) place
        (job_at (kept.now ++ e.now ∷ []) doc_place.now) groups.old groups.new) }
{
    match job_with(kept.entries(), e, doc_place) {
        None => Ok(()),
        Some((parent, _)) => {
            groups.add(parent.no.0, place)?;
            Ok(())
        }
    }
}

/// The stream is one of the members, and was given a dependency of the kind.
fn is_given_member(kind: Kind, kept: &Kept, members: &Numbers, doc: &StreamDoc) -> bool
    ensures { (ms : List ℕ) → ArePlaces ms members.now
        → result ≡ given_stream_by (is_of kind) ms kept.now doc.now }
{
    let o = Obj::Stream(doc.no);
    members.has(doc.no.0) && is_given(kind, kept, doc.ws, &o, doc.deps.as_slice())
}

/// The job is one of a member, and was given such a dependency.
fn is_given_members_job(
    kind: Kind,
    kept: &Kept,
    members: &Numbers,
    parent: &StreamDoc,
    doc: &JobDoc,
) -> bool
    ensures { (ms : List ℕ) → ArePlaces ms members.now
        → result ≡ given_job_by (is_of kind) ms kept.now (stream_job parent.now doc.now) }
{
    let o = Obj::Job(doc.no);
    members.has(parent.no.0) && is_given(kind, kept, doc.ws, &o, doc.deps.as_slice())
}

/// The stream passes the test by what its workstation tells.
fn stream_counts(test: StreamTest, kept: &Kept, members: &Numbers, doc: &StreamDoc) -> bool
    ensures { (ms : List ℕ) → ArePlaces ms members.now
        → result ≡ stream_counts test ms kept.now doc.now }
{
    match test {
        StreamTest::Waits => is_waiting(kept, doc.ws, doc.no),
        StreamTest::Begun => is_begun(kept, doc.ws, doc.no),
        StreamTest::Given(kind) => is_given_member(kind, kept, members, doc),
    }
}

/// The job does.
fn job_counts(
    test: JobTest,
    kept: &Kept,
    members: &Numbers,
    parent: &StreamDoc,
    doc: &JobDoc,
) -> bool
    ensures { (ms : List ℕ) → ArePlaces ms members.now
        → result ≡ job_counts test ms kept.now (stream_job parent.now doc.now) }
{
    match test {
        JobTest::Opened => kept.is_open_at(doc.ws, doc.no),
        JobTest::Given(kind) => is_given_members_job(kind, kept, members, parent, doc),
    }
}

/// Puts in the stream at this place, where it passes the test.
fn put_stream(
    test: StreamTest,
    groups: &mut Groups,
    kept: &Kept,
    e: &Entry,
    members: &Numbers,
    place: usize,
    doc_place: &StreamPlace,
) -> Result<(), NoMemory>
    ensures { OnOk result ((ms : List ℕ) → ArePlaces ms members.now
        → Further spec.station_of (stream_counts test ms kept.now) place
        (doc_at (kept.now ++ e.now ∷ []) doc_place.now) groups.old groups.new) }
{
    match stream_with(kept.entries(), e, doc_place) {
        None => Ok(()),
        Some(doc) => {
            if stream_counts(test, kept, members, doc) {
                groups.add(u32::from(doc.ws.0), place)?;
                Ok(())
            } else {
                Ok(())
            }
        }
    }
}

/// Puts in the job at this place, where it passes the test.
fn put_job(
    test: JobTest,
    groups: &mut Groups,
    kept: &Kept,
    e: &Entry,
    members: &Numbers,
    place: usize,
    doc_place: &JobPlace,
) -> Result<(), NoMemory>
    ensures { OnOk result ((ms : List ℕ) → ArePlaces ms members.now
        → Further spec.job_station_of (job_counts test ms kept.now) place
        (job_at (kept.now ++ e.now ∷ []) doc_place.now) groups.old groups.new) }
{
    match job_with(kept.entries(), e, doc_place) {
        None => Ok(()),
        Some((parent, doc)) => {
            if job_counts(test, kept, members, parent, doc) {
                groups.add(u32::from(doc.ws.0), place)?;
                Ok(())
            } else {
                Ok(())
            }
        }
    }
}

/// The jobs of each stream.
pub(crate) fn by_stream_of(
    mut groups: Groups,
    kept: &Kept,
    e: &Entry,
    doc_places: &DocPlaces,
) -> Result<Groups, NoMemory>
    ensures { IfOk result (λ codes. (placed : List StreamJob)
        → AreJobPlaces (kept.now ++ e.now ∷ []) doc_places.now.jobs placed
        → Covers spec.job_stream_of (λ p. true) placed codes) }
{
    for (i, doc_place) in doc_places.jobs.as_slice().iter().enumerate() {
        put_by_stream(&mut groups, kept, e, i, doc_place)?;
    }
    Ok(groups)
}

/// The streams that pass the test.
pub(crate) fn streams_of(
    test: StreamTest,
    mut groups: Groups,
    kept: &Kept,
    e: &Entry,
    doc_places: &DocPlaces,
    members: &Numbers,
) -> Result<Groups, NoMemory>
    ensures { IfOk result (λ codes. (ms : List ℕ) (docs : List Doc) → ArePlaces ms members.now
        → AreStreamPlaces (kept.now ++ e.now ∷ []) doc_places.now.streams docs
        → Covers spec.station_of (stream_counts test ms kept.now) docs codes) }
{
    for (i, doc_place) in doc_places.streams.as_slice().iter().enumerate() {
        put_stream(test, &mut groups, kept, e, members, i, doc_place)?;
    }
    Ok(groups)
}

/// The jobs that pass the test.
pub(crate) fn jobs_of(
    test: JobTest,
    mut groups: Groups,
    kept: &Kept,
    e: &Entry,
    doc_places: &DocPlaces,
    members: &Numbers,
) -> Result<Groups, NoMemory>
    ensures { IfOk result (λ codes. (ms : List ℕ) (placed : List StreamJob) → ArePlaces ms members.now
        → AreJobPlaces (kept.now ++ e.now ∷ []) doc_places.now.jobs placed
        → Covers spec.job_station_of (job_counts test ms kept.now) placed codes) }
{
    for (i, doc_place) in doc_places.jobs.as_slice().iter().enumerate() {
        put_job(test, &mut groups, kept, e, members, i, doc_place)?;
    }
    Ok(groups)
}
