//! What holds of all records.
ghost use Rattle.std.specs.Prelude.{◌≡◌, ℕ, List, Option, Result};
ghost use Rattle.composer_parser.specs.declared.Defs.{Defs as Definitions};
ghost use Rattle.night_records.specs.Days.{ArePlans};
ghost use Rattle.night_records.specs.Readings.{At, IsRead};
ghost use Rattle.night_records.specs.declared.records.Record.{Record as Records};
ghost use Rattle.record_runs.specs.Lines.{Day};

/// No text is read to two answers.
pub fn texts_have_one_answer()
    ensures { (text : List ℕ) → (a b : Result Records At) → IsRead text a → IsRead text b → a ≡ b }
{}

/// Each record has plans for its days.
pub fn days_have_plans()
    ensures { (workload : Option Definitions) → (day : Day) × ArePlans workload day }
{}
