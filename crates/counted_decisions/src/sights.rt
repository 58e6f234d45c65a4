//! What a decision sees of the plan, and of what others tell.
ghost use Rattle.std.specs.Prelude.{◌≡◌, ◌||◌, ℕ, Option, option_map};
ghost use Rattle.std.specs.List.{list_any};
ghost use Rattle.std.specs.Option.{option_copied, option_or};
ghost use Rattle.model.specs.Types.{Events, Job, Stream};
ghost use Rattle.model.specs.History.{count_in};
ghost use Rattle.model.specs.Catalogue as catalogue;
ghost use Rattle.model.specs.Facts as facts;
ghost use Rattle.model.specs.Words.{is_yes};
ghost use Rattle.counted_facts.specs.Facts as spec;
ghost use Rattle.counted_facts.specs.Subjects.{brings};
ghost use Rattle.counted_decisions.specs.Sights.{IsSight, seen_in};
ghost use Rattle.owner_fold.specs.DocPlaces.{stream_job};

use base_types::{JobDoc, JobNo, Seen, StreamDoc, StreamNo, Ws};
use counted_facts::CountedFacts;
use owner_fold::Owners;

/// What a decision sees: of the entries that were taken those that its counts take in.
#[derive(Drop)]
pub struct Sight<'a> {
    /// The entries that were taken.
    pub owners: &'a Owners,
    /// What they tell at any count.
    pub facts: &'a CountedFacts,
    /// The counts.
    pub seen: &'a Seen,
}

/// How many events of v are counted.
fn count(sight: &Sight<'_>, v: Ws) -> u32
    ensures { result ≡ count_in sight.now.seen.now v }
{
    sight.seen.count(v)
}

/// Whether the document of a stream is brought.
pub(crate) fn is_brought(sight: &Sight<'_>, s: StreamNo) -> bool
    requires { IsSight sight.now }
    ensures { result ≡ list_any (brings s) (seen_in sight.now (Events 0)) }
{
    sight.facts.is_brought(s, count(sight, Ws(0)))
}

/// The document of a stream. None outside the catalogue.
pub(crate) fn stream<'a>(sight: &Sight<'a>, s: StreamNo) -> Option<&'a StreamDoc>
    requires { IsSight sight.now }
    ensures { option_copied result ≡ catalogue.stream (seen_in sight.now) s }
{
    match sight.owners.stream(s) {
        None => None,
        Some(doc) => {
            if is_brought(sight, s) {
                Some(doc)
            } else {
                None
            }
        }
    }
}

/// A job with its stream. None outside the catalogue.
pub(crate) fn planned_job<'a>(sight: &Sight<'a>, j: JobNo) -> Option<(&'a StreamDoc, &'a JobDoc)>
    requires { IsSight sight.now }
    ensures { option_map (λ p. stream_job p.0.now p.1.now) result ≡ catalogue.job (seen_in sight.now) j }
{
    match sight.owners.planned_job(j) {
        None => None,
        Some((parent, doc)) => {
            if is_brought(sight, parent.no) {
                Some((parent, doc))
            } else {
                None
            }
        }
    }
}

/// Whether a stream is a member of the plan.
pub(crate) fn is_member(sight: &Sight<'_>, s: StreamNo) -> bool
    requires { IsSight sight.now }
    ensures { result ≡ catalogue.is_member (seen_in sight.now) s }
{
    is_brought(sight, s) && is_named(sight, s)
}

/// Whether the last plan, or an added stream after it, names a stream.
fn is_named(sight: &Sight<'_>, s: StreamNo) -> bool
    requires { IsSight sight.now }
    ensures { result ≡ spec.is_named s (seen_in sight.now (Events 0)) }
{
    sight.facts.is_named(s, count(sight, Ws(0)))
}

/// Whether w tells a job as good or cancelled.
pub(crate) fn is_done(sight: &Sight<'_>, w: Ws, j: JobNo) -> bool
    requires { IsSight sight.now }
    ensures { let told = seen_in sight.now (Events w) in
        result ≡ (facts.is_good j told || facts.is_cancelled (Job j) told) }
{
    sight.facts.is_done(w, j, count(sight, w))
}

/// Whether w tells a stream as released.
pub(crate) fn is_released(sight: &Sight<'_>, w: Ws, s: StreamNo) -> bool
    requires { IsSight sight.now }
    ensures { result ≡ facts.is_released s (seen_in sight.now (Events w)) }
{
    sight.facts.is_released(w, s, count(sight, w))
}

/// Whether w tells a stream as ended.
pub(crate) fn is_ended(sight: &Sight<'_>, w: Ws, s: StreamNo) -> bool
    requires { IsSight sight.now }
    ensures { result ≡ facts.is_ended s (seen_in sight.now (Events w)) }
{
    sight.facts.is_ended(w, s, count(sight, w))
}

/// Whether w tells a stream as cancelled.
pub(crate) fn is_cancelled(sight: &Sight<'_>, w: Ws, s: StreamNo) -> bool
    requires { IsSight sight.now }
    ensures { result ≡ facts.is_cancelled (Stream s) (seen_in sight.now (Events w)) }
{
    sight.facts.is_cancelled(w, s, count(sight, w))
}

/// The limit that w set last for a stream. None where it is the document's.
pub(crate) fn stream_limit_set(sight: &Sight<'_>, w: Ws, s: StreamNo) -> Option<u16>
    requires { IsSight sight.now }
    ensures { (written : Option ℕ) →
        option_or result written ≡ facts.stream_limit s written (seen_in sight.now (Events w)) }
{
    sight.facts.stream_limit_set(w, s, count(sight, w))
}

/// Whether the last reply to a prompt of the network since the last plan is yes.
pub(crate) fn is_answered(sight: &Sight<'_>, p: u16) -> bool
    requires { IsSight sight.now }
    ensures { result ≡ is_yes (facts.global_reply p (seen_in sight.now (Events 0))) }
{
    sight.facts.is_answered(p, count(sight, Ws(0)))
}
