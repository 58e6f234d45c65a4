//! Whether there are as many events as counts say.
ghost use Rattle.std.specs.Prelude.{◌≡◌, ◌&&◌, ◌==◌, length};
ghost use Rattle.model.specs.Types.{Events};
ghost use Rattle.model.specs.History.{count_in, list_of};
ghost use Rattle.event_audit.specs.Prefixes.{are_there};

use base_types::{Feed, Seen, Ws};
use owner_fold::Owners;

/// Whether w's count is that of all its events, and of the others there are as many as counted.
pub(crate) fn has_the_counts(owners: &Owners, w: Ws, seen: &Seen) -> bool
    ensures { result ≡ ((count_in seen.now w == length (list_of owners.now (Events w)))
        && are_there owners.now seen.now seen.now) }
{
    seen.count(w) == owners.count(Feed::Events(w)) && are_counts_there(owners, seen)
}

/// Whether there are as many events of each workstation as counted.
fn are_counts_there(owners: &Owners, seen: &Seen) -> bool
    ensures { result ≡ are_there owners.now seen.now seen.now }
{
    for (v, _) in seen.as_slice() {
        if seen.count(*v) > owners.count(Feed::Events(*v)) {
            return false;
        }
    }
    true
}
