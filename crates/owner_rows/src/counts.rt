//! How many entries of each feed were taken.
ghost use Rattle.std.specs.Prelude.{◌≡◌, ◌+◌, ◌<◌, ◌^◌, ◌++◌, [], ◌∷◌, List, IsSome, length};
ghost use Rattle.model.specs.Types.{Entry as Taken};
ghost use Rattle.model.specs.History.{list_of};
ghost use Rattle.owner_rows.specs.Counts as spec;
ghost use Rattle.owner_rows.specs.Counts.{AreCounts};
ghost use Rattle.owner_rows.specs.Tables.{has_row};

use crate::jobs::counted;
use crate::tables::Table;
use base_types::{Entry, Feed};

/// The key of a feed.
pub(crate) fn feed_key(f: &Feed) -> (u16, u64)
    ensures { result ≡ spec.feed_key f.now }
{
    match f {
        Feed::Events(w) => (w.0, 0),
        Feed::Orders(a, w) => (w.0, u64::from(a.0) + 1),
    }
}

/// The counts after one more entry, for whose row the memory is there.
pub(crate) fn tell_count(counts: &mut Table<u32>, e: &Entry)
    requires { IsSome (has_row counts.old (spec.feed_key e.now.feed)) }
    ensures { (kept : List Taken) → length (list_of kept e.now.feed) + 1 < 2 ^ 32 → AreCounts kept counts.old
        → AreCounts (kept ++ e.now ∷ []) counts.new }
{
    let (w, n) = feed_key(&e.feed);
    let count = counts.row(w, n);
    counts.put(w, n, counted(count, true));
}
