//! What a launch waits for at one job: that another is done with, and that the fence lets it through.
ghost use Rattle.std.specs.Prelude.{◌≡◌, ◌||◌, nat_lt, Some};
ghost use Rattle.model.specs.Types.{Events, Job};
ghost use Rattle.model.specs.History.{view_of};
ghost use Rattle.model.specs.Catalogue.{owner};
ghost use Rattle.model.specs.Facts as facts;

use base_types::{JobNo, Obj, Ws};
use owner_fold::Owners;

/// Whether a job of w is good or cancelled.
pub fn is_good_or_cancelled(o: &Owners, w: Ws, j: JobNo) -> bool
    requires { owner (view_of o.now) (Job j) ≡ Some w }
    ensures { let told = view_of o.now (Events w) in
        result ≡ (facts.is_good j told || facts.is_cancelled (Job j) told) }
{
    o.is_good(j) || o.is_cancelled(Obj::Job(j))
}

/// Whether a priority is above the fence of w.
pub fn passes_fence(o: &Owners, w: Ws, priority: u8) -> bool
    ensures { result ≡ nat_lt (facts.fence (view_of o.now (Events w))) priority }
{
    priority > o.fence(w)
}
