//! What follows for entries from how they are read.
ghost use Rattle.std.specs.Prelude.{◌≡◌};
ghost use Rattle.model.specs.Types.{Entry};
ghost use Rattle.model.specs.Fit.{IsFit};
ghost use Rattle.model.specs.Ranges.{InRange};
ghost use Rattle.model.specs.Spelling.{entry_bytes};

/// No two entries that are fit, with numbers that their fields hold, have the same bytes.
pub fn entries_have_one_spelling()
    ensures { (d e : Entry) → IsFit d → IsFit e → InRange d → InRange e → entry_bytes d ≡ entry_bytes e → d ≡ e }
{}
