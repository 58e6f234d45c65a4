//! What holds of the drafts of all days.
ghost use Rattle.std.specs.Prelude.{◌<◌, ◌^◌, ℕ, List, length};
ghost use Rattle.composer_parser.specs.declared.Defs.{Defs as Definitions};
ghost use Rattle.definition_texts.specs.Refusals.{AreChecked};
ghost use Rattle.model.specs.Fit.{AreFit, IsFitDraft};
ghost use Rattle.model.specs.Types.{StreamDraft};
ghost use Rattle.plan_builder.specs.Drafts.{AreDrafts};

/// The drafts that checked definitions of a text below 2 ^ 32 bytes give for a day are fit.
pub fn drafts_are_fit()
    ensures { (text : List ℕ) → (d : Definitions) → (day : ℕ) → (drafts : List StreamDraft) → length text < 2 ^ 32
        → AreChecked text d → AreDrafts d day drafts → AreFit IsFitDraft drafts }
{}
