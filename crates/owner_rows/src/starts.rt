//! Which launches were told as started.
ghost use Rattle.std.specs.Prelude.{◌≡◌, ◌+◌, ◌<◌, ◌^◌, ◌++◌, [], ◌∷◌, List, IfSome, IsSome, length};
ghost use Rattle.model.specs.Types.{Entry as Taken};
ghost use Rattle.model.specs.History.{list_of};
ghost use Rattle.owner_rows.specs.Starts.{IsStartRow};
ghost use Rattle.owner_rows.specs.Subjects.{key_in, start_in};
ghost use Rattle.owner_rows.specs.Tables.{ArePairRows, has_pair_row};

use crate::subjects::start_key;
use crate::tables::PairTable;
use base_types::Entry;

/// The launches after one more entry, for whose row the memory is there.
pub(crate) fn tell_start(starts: &mut PairTable<bool>, e: &Entry)
    requires { IfSome (key_in start_in e.now) (λ k. IsSome (has_pair_row starts.old k)) }
    ensures { (kept : List Taken) → length (list_of kept e.now.feed) + 1 < 2 ^ 32
        → ArePairRows IsStartRow kept starts.old → ArePairRows IsStartRow (kept ++ e.now ∷ []) starts.new }
{
    if let Some((w, (j, number))) = start_key(e) {
        starts.put(w, j, number, true);
    }
}
