//! Which streams of a plan are meant by their names, and which of them an object is or belongs to.
ghost use Rattle.std.specs.Prelude.{◌≡◌, ◌&&◌, ◌==◌, false, filter_map, true};
ghost use Rattle.std.specs.Option.{option_map_or};
ghost use Rattle.std.specs.List.{list_any};
ghost use Rattle.model.specs.Types.{StreamDoc as Stream};
ghost use Rattle.model.specs.History.{view_of};
ghost use Rattle.model.specs.Catalogue.{stream};
ghost use Rattle.model.specs.Sound as sound;
ghost use Rattle.event_audit.specs.Meanings as spec;

use crate::names::{first_called, last_called};
use base_types::{JobDoc, JobNo, Obj, StreamDoc, StreamNo};
use owner_fold::Owners;

/// Whether a stream's own workstation and name mean it: it is the first fresh one of that name, or the last carried
/// one where no fresh one has it.
fn is_meant(owners: &Owners, docs: &[StreamDoc], carried: &[StreamNo], doc: &StreamDoc) -> bool
    ensures { result ≡
        sound.is_meant docs.now (filter_map (stream (view_of owners.now)) carried.now) doc.now }
{
    match first_called(docs, doc.ws, &doc.name) {
        Some(fresh) => fresh.no.0 == doc.no.0,
        None => match last_called(owners, carried, doc.ws, &doc.name) {
            Some(earlier) => earlier.no.0 == doc.no.0,
            None => false,
        },
    }
}

/// Whether one of these jobs has this number.
fn is_among(jobs: &[JobDoc], j: JobNo) -> bool
    ensures { result ≡ list_any (λ k. k.no == j) jobs.now }
{
    for job in jobs {
        if job.no.0 == j.0 {
            return true;
        }
    }
    false
}

/// Whether the object is this stream or one of its jobs.
fn has_object(doc: &StreamDoc, o: &Obj) -> bool
    ensures { result ≡ spec.has_object o.now doc.now }
{
    match o {
        Obj::Stream(s) => doc.no.0 == s.0,
        Obj::Job(j) => is_among(doc.jobs.as_slice(), *j),
    }
}

/// Whether a stream is meant by its name, and is the object or has it among its jobs.
fn means(
    owners: &Owners,
    docs: &[StreamDoc],
    carried: &[StreamNo],
    o: &Obj,
    doc: &StreamDoc,
) -> bool
    ensures { result ≡
        spec.means docs.now (filter_map (stream (view_of owners.now)) carried.now) o.now doc.now }
{
    has_object(doc, o) && is_meant(owners, docs, carried, doc)
}

/// Whether a fresh stream that is meant by its name is the object or has it among its jobs.
fn is_in_fresh(owners: &Owners, docs: &[StreamDoc], carried: &[StreamNo], o: &Obj) -> bool
    ensures { let known = filter_map (stream (view_of owners.now)) carried.now in
        result ≡ list_any (spec.means docs.now known o.now) docs.now }
{
    for doc in docs {
        if means(owners, docs, carried, o, doc) {
            return true;
        }
    }
    false
}

/// Whether the catalogue has a stream of this number that is meant by its name, and is the object or has it among its
/// jobs.
fn known_means(
    owners: &Owners,
    docs: &[StreamDoc],
    carried: &[StreamNo],
    o: &Obj,
    number: StreamNo,
) -> bool
    ensures { let V = view_of owners.now in
        result ≡ option_map_or (spec.means docs.now (filter_map (stream V) carried.now) o.now) (stream V number) false }
{
    match owners.stream(number) {
        None => false,
        Some(doc) => means(owners, docs, carried, o, doc),
    }
}

/// Whether a carried stream that is meant by its name is the object or has it among its jobs.
fn is_in_carried(owners: &Owners, docs: &[StreamDoc], carried: &[StreamNo], o: &Obj) -> bool
    ensures { let known = filter_map (stream (view_of owners.now)) carried.now in
        result ≡ list_any (spec.means docs.now known o.now) known }
{
    for number in carried {
        if known_means(owners, docs, carried, o, *number) {
            return true;
        }
    }
    false
}

/// Whether a job stands among these where it does if their numbers go on one by one.
fn is_in_order(jobs: &[JobDoc], j: JobNo) -> bool
    ensures { result ≡ true → list_any (λ k. k.no == j) jobs.now ≡ true }
{
    let Some(first) = jobs.first() else {
        return false;
    };
    if j.0 < first.no.0 {
        return false;
    }
    match jobs.get((j.0 - first.no.0) as usize) {
        Some(job) => job.no.0 == j.0,
        None => false,
    }
}

/// Whether the object is this stream, or one of its jobs that stands in order.
fn has_in_order(doc: &StreamDoc, o: &Obj) -> bool
    ensures { result ≡ true → spec.has_object o.now doc.now ≡ true }
{
    match o {
        Obj::Stream(s) => doc.no.0 == s.0,
        Obj::Job(j) => is_in_order(doc.jobs.as_slice(), *j),
    }
}

/// Whether a stream is meant by its name, and is the object or has it in order among its jobs.
fn means_in_order(
    owners: &Owners,
    docs: &[StreamDoc],
    carried: &[StreamNo],
    o: &Obj,
    doc: &StreamDoc,
) -> bool
    ensures { let known = filter_map (stream (view_of owners.now)) carried.now in
        result ≡ true → spec.means docs.now known o.now doc.now ≡ true }
{
    has_in_order(doc, o) && is_meant(owners, docs, carried, doc)
}

/// Whether this holds of a fresh stream.
fn is_fresh_in_order(owners: &Owners, docs: &[StreamDoc], carried: &[StreamNo], o: &Obj) -> bool
    ensures { let known = filter_map (stream (view_of owners.now)) carried.now in
        result ≡ true → list_any (spec.means docs.now known o.now) docs.now ≡ true }
{
    for doc in docs {
        if means_in_order(owners, docs, carried, o, doc) {
            return true;
        }
    }
    false
}

/// Whether it holds of the stream of this number in the catalogue.
fn known_in_order(
    owners: &Owners,
    docs: &[StreamDoc],
    carried: &[StreamNo],
    o: &Obj,
    number: StreamNo,
) -> bool
    ensures { let V = view_of owners.now in result ≡ true
        → option_map_or (spec.means docs.now (filter_map (stream V) carried.now) o.now) (stream V number) false ≡ true }
{
    match owners.stream(number) {
        None => false,
        Some(doc) => means_in_order(owners, docs, carried, o, doc),
    }
}

/// Whether it holds of a carried stream.
fn is_carried_in_order(owners: &Owners, docs: &[StreamDoc], carried: &[StreamNo], o: &Obj) -> bool
    ensures { let known = filter_map (stream (view_of owners.now)) carried.now in
        result ≡ true → list_any (spec.means docs.now known o.now) known ≡ true }
{
    for number in carried {
        if known_in_order(owners, docs, carried, o, *number) {
            return true;
        }
    }
    false
}

/// Whether a stream of a plan that is meant by its name is the object or has it among its jobs. Where the numbers of
/// its jobs go on one by one no jobs are walked but for an object of which it does not hold.
pub(crate) fn is_followed_as_meant(
    owners: &Owners,
    docs: &[StreamDoc],
    carried: &[StreamNo],
    o: &Obj,
) -> bool
    ensures { result ≡
        spec.is_in_meant docs.now (filter_map (stream (view_of owners.now)) carried.now) o.now }
{
    is_fresh_in_order(owners, docs, carried, o)
        || is_carried_in_order(owners, docs, carried, o)
        || is_in_fresh(owners, docs, carried, o)
        || is_in_carried(owners, docs, carried, o)
}
