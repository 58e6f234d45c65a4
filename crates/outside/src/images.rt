// The laws of what a stop leaves.
ghost use Rattle.std.specs.Prelude.{ℕ, List, ◌+◌, ◌++◌, length, take, drop};
ghost use Rattle.outside.specs.Files.{Torn};
ghost use Rattle.outside.specs.Images.{Change, AreWithin, MayRemain, Remains};

/// What a stop may leave after any calls since the last sync is the same whether it is told by the clauses of the calls,
/// one after the other, or at once: a length from the least to the greatest since then, any bytes where one of the
/// calls wrote and behind the least length, and all others as they were.
///
/// In particular any front of a piece that is written may be left.
pub fn stops_leave_exactly_these()
    ensures nothing_else { (synced : List ℕ) (calls : List Change) (file : List ℕ) →
        Remains synced calls file → MayRemain synced calls file }
    ensures each_of_them { (synced : List ℕ) (calls : List Change) (file : List ℕ) →
        AreWithin (length synced) calls → MayRemain synced calls file → Remains synced calls file }
    ensures any_front { (place k : ℕ) (piece old : List ℕ) →
        Torn place (length piece) old (take place old ++ take k piece ++ drop (place + length (take k piece)) old) }
{}
