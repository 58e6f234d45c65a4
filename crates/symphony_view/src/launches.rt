//! What a job's own workstation tells of its launches.
ghost use Rattle.std.specs.Prelude.{◌≡◌};
ghost use Rattle.model.specs.Types.{Events};
ghost use Rattle.model.specs.History.{view_of};
ghost use Rattle.model.specs.Facts as facts;
ghost use Rattle.owner_fold.specs.Outcomes.{told_outcome};

use base_types::JobDoc;
use owner_fold::{Outcome, Owners};

/// Whether the job has an open launch.
pub(crate) fn is_open(o: &Owners, doc: &JobDoc) -> bool
    ensures { result ≡ facts.is_open doc.now.no (view_of o.now (Events doc.now.ws)) }
{
    o.kept().is_open_at(doc.ws, doc.no)
}

/// Whether the start of its last launch was told.
pub(crate) fn is_last_started(o: &Owners, doc: &JobDoc) -> bool
    ensures { result ≡ facts.is_last_started doc.now.no (view_of o.now (Events doc.now.ws)) }
{
    o.kept().is_last_started_at(doc.ws, doc.no)
}

/// Whether it is good.
pub(crate) fn is_good(o: &Owners, doc: &JobDoc) -> bool
    ensures { result ≡ facts.is_good doc.now.no (view_of o.now (Events doc.now.ws)) }
{
    o.kept().is_good_at(doc.ws, doc.no)
}

/// Whether it is due.
pub(crate) fn is_due(o: &Owners, doc: &JobDoc) -> bool
    ensures { result ≡ facts.is_due doc.now.no (view_of o.now (Events doc.now.ws)) }
{
    o.kept().is_due_at(doc.ws, doc.no)
}

/// How its last launch ended.
pub(crate) fn last_outcome(o: &Owners, doc: &JobDoc) -> Option<Outcome>
    ensures { told_outcome result ≡ facts.last_outcome doc.now.no (view_of o.now (Events doc.now.ws)) }
{
    o.kept().last_outcome_at(doc.ws, doc.no)
}

/// How often it was launched.
pub(crate) fn launches(o: &Owners, doc: &JobDoc) -> u32
    ensures { result ≡ facts.launches doc.now.no (view_of o.now (Events doc.now.ws)) }
{
    o.kept().launches_at(doc.ws, doc.no)
}
