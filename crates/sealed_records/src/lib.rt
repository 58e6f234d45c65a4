//! Records of one direction of a connection under a key: each is counted, and has a code under the key and its number.
//!
//! What one end takes is a front of what the other end put, where what was accepted with each number is the record that the
//! other end put with it (`AreMade`). That this is so is the matter of the hash, and no clause claims it.
#![tactic(auto)]

ghost use Rattle.std.specs.Prelude.{◌≡◌, ◌++◌, ℕ, List};
ghost use Rattle.sealed_records.specs.Records.{AreMade, AreMadeAnywhere, Accepts, AreShort, Direction, IsNext, IsUnfinished, IsWrong, wire};

mod queues;
mod seals;

pub use queues::Queue;
pub use seals::{MOST_IN_RECORD, Seal, Taken, Unput};

/// What was taken of any front of the wire is a front of what the other end put, where all that was accepted was made by it.
pub fn records_come_in_order()
    ensures { (from : Direction) (put taken : List (List ℕ)) (come later rest : List ℕ)
        → AreMade from put (come ++ later) → Accepts from come taken rest
        → (more : List (List ℕ)) × (put ≡ taken ++ more) }
{}

/// Where only what the other end put with a number is accepted with it at any place of the wire, so it is where records end.
pub fn places_of_records_are_places()
    ensures { (from : Direction) (put : List (List ℕ)) (come : List ℕ)
        → AreMadeAnywhere from put come → AreMade from put come }
{}

/// Where any front has come of the wire that the other end put, all that is accepted was made by it.
pub fn honest_wires_bring_what_was_made()
    ensures { (from : Direction) (put : List (List ℕ)) (come later : List ℕ)
        → AreShort put → wire from put ≡ come ++ later → AreMade from put come }
{}

/// No two of the answers of `Seal::take` fit what has come.
pub fn one_answer_fits()
    ensures whole { (d : Direction) (come bytes rest : List ℕ) → IsNext d come bytes rest → IsUnfinished d come → ⊥ }
    ensures right { (d : Direction) (come bytes rest : List ℕ) → IsNext d come bytes rest → IsWrong d come → ⊥ }
    ensures apart { (d : Direction) (come : List ℕ) → IsUnfinished d come → IsWrong d come → ⊥ }
{}
