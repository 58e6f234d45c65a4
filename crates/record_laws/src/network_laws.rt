//! What holds of all records.
ghost use Rattle.std.specs.Prelude.{ℕ, List, Ok};
ghost use Rattle.definition_texts.specs.Refusals.{IsText};
ghost use Rattle.history_laws.specs.Printables.{IsPrintable};
ghost use Rattle.night_records.specs.Readings.{IsRead};
ghost use Rattle.night_records.specs.declared.Record.{Record as Records};

/// The network of a record of either kind is one whose lines are read back, where the record is a text.
pub fn records_have_printable_networks()
    ensures { (text : List ℕ) → (r : Records) → IsText text → IsRead text (Ok r) → IsPrintable r.script.net }
{}
