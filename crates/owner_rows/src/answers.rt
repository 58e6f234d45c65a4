//! How many orders of each issuer a workstation answered.
ghost use Rattle.std.specs.Prelude.{◌≡◌, ◌+◌, ◌<◌, ◌^◌, ◌++◌, [], ◌∷◌, List, ℕ, IfSome, IsSome, length};
ghost use Rattle.model.specs.Types.{Entry as Taken};
ghost use Rattle.model.specs.History.{list_of};
ghost use Rattle.owner_rows.specs.Answers.{IsAnswerRow};
ghost use Rattle.owner_rows.specs.Subjects.{issuer_in, key_in};
ghost use Rattle.owner_rows.specs.Tables.{AreRows, has_row};

use crate::body_facts::is_answer;
use crate::jobs::counted;
use crate::subjects::issuer_key;
use crate::tables::Table;
use base_types::Entry;

/// The counts after one more entry, for whose row the memory is there.
pub(crate) fn tell_answer(answers: &mut Table<u32>, e: &Entry)
    requires { IfSome (key_in issuer_in e.now) (λ k. IsSome (has_row answers.old k)) }
    ensures { (kept : List Taken) → length (list_of kept e.now.feed) + 1 < 2 ^ 32
        → AreRows IsAnswerRow kept answers.old → AreRows IsAnswerRow (kept ++ e.now ∷ []) answers.new }
{
    if let Some((w, a)) = issuer_key(e) {
        let count = answers.row(w, a);
        answers.put(w, a, counted(count, is_answer(a, &e.body)));
    }
}
