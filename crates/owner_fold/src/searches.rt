//! The next stream or job, at the codes of a workstation, that passes a test.
ghost use Rattle.std.specs.Prelude.{◌≡◌, option_map};
ghost use Rattle.std.specs.Option.{option_copied};
ghost use Rattle.std.specs.Iterator.{YieldsFirstBy, YieldsFirstRef};
ghost use Rattle.owner_fold.specs.DocPlaces.{stream_job};
ghost use Rattle.owner_fold.specs.Sets as spec;
ghost use Rattle.owner_fold.specs.Searches.{job_passes, jobs_passing, stream_passes, streams_passing};

use crate::given::Kind;
use crate::holdings::Owners;
use crate::stages::{is_under_way_at, is_waiting_at};
use crate::timed::{is_given_job, is_given_stream};
use crate::units::is_open_job;
use base_types::{JobDoc, StreamDoc, Ws};

/// What is asked of a stream of a workstation.
#[derive(Clone, Copy)]
pub(crate) enum StreamTest {
    /// That it waits.
    Waits,
    /// That it is under way.
    Begun,
    /// That it is a member that was given a dependency of the kind.
    Given(Kind),
}

/// What is asked of a job of a workstation.
#[derive(Clone, Copy)]
pub(crate) enum JobTest {
    /// That it has an open launch.
    Opened,
    /// That it is a member's that was given a dependency of the kind.
    Given(Kind),
}

/// The stream at the place of a code of w.
fn stream_coded(owners: &Owners, w: Ws, code: u64) -> Option<&StreamDoc>
    ensures { option_copied result ≡ spec.stream_coded owners.now w code }
{
    owners.stream_coded(u32::from(w.0), code)
}

/// The job at the place of a code of w, with its stream.
fn job_coded(owners: &Owners, w: Ws, code: u64) -> Option<(&StreamDoc, &JobDoc)>
    ensures { option_map (λ p. stream_job p.0.now p.1.now) result ≡ spec.job_coded owners.now w code }
{
    owners.job_coded(u32::from(w.0), code)
}

/// The stream is one of w, and passes the test.
fn stream_passes(test: StreamTest, owners: &Owners, w: Ws, doc: &StreamDoc) -> bool
    ensures { result ≡ stream_passes test owners.now w doc.now }
{
    match test {
        StreamTest::Waits => is_waiting_at(owners, w, doc),
        StreamTest::Begun => is_under_way_at(owners, w, doc),
        StreamTest::Given(kind) => is_given_stream(kind, owners, w, doc),
    }
}

/// The job is one of w, and passes the test.
fn job_passes(test: JobTest, owners: &Owners, w: Ws, parent: &StreamDoc, doc: &JobDoc) -> bool
    ensures { result ≡ job_passes test owners.now w (stream_job parent.now doc.now) }
{
    match test {
        JobTest::Opened => is_open_job(owners, w, doc),
        JobTest::Given(kind) => is_given_job(kind, owners, w, parent, doc),
    }
}

/// The first stream at the codes that passes the test, and the codes behind it.
pub(crate) fn next_stream<'a>(
    test: StreamTest,
    owners: &'a Owners,
    w: Ws,
    codes: &'a [u64],
) -> (Option<&'a StreamDoc>, &'a [u64])
    ensures { YieldsFirstRef (streams_passing test owners.now w) codes.now result.0 result.1.now }
{
    for (i, code) in codes.iter().enumerate() {
        if let Some(doc) = stream_coded(owners, w, *code) {
            if stream_passes(test, owners, w, doc) {
                return (Some(doc), &codes[i + 1..]);
            }
        }
    }
    (None, &[])
}

/// The first job at the codes that passes the test, with its stream, and the codes behind it.
pub(crate) fn next_job<'a>(
    test: JobTest,
    owners: &'a Owners,
    w: Ws,
    codes: &'a [u64],
) -> (Option<(&'a StreamDoc, &'a JobDoc)>, &'a [u64])
    ensures { YieldsFirstBy (λ p. stream_job p.0.now p.1.now) (jobs_passing test owners.now w)
        codes.now result.0 result.1.now }
{
    for (i, code) in codes.iter().enumerate() {
        if let Some((parent, doc)) = job_coded(owners, w, *code) {
            if job_passes(test, owners, w, parent, doc) {
                return (Some((parent, doc)), &codes[i + 1..]);
            }
        }
    }
    (None, &[])
}
