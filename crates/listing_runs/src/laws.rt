//! What holds of the listings of all days.
ghost use Rattle.std.specs.Prelude.{◌≡◌, ℕ, List, None};
ghost use Rattle.calendars.specs.Dates.{IsDay};
ghost use Rattle.composer_parser.specs.declared.Defs.{Defs as Definitions};
ghost use Rattle.definition_texts.specs.Refusals.{AreChecked};
ghost use Rattle.listing_runs.specs.Listings.{MakesItsPlan};
ghost use Rattle.model.specs.Types.{StreamDraft};
ghost use Rattle.plan_builder.specs.Drafts.{AreDrafts};
ghost use Rattle.plan_builder.specs.Limits.{plan_fault};

/// The listing of the drafts that checked definitions give for a day is, with `$STEPS` and `next` behind it, a record of
/// their network, but for FULLSTATUS of managers, with these drafts as its one plan. Its run reaches a world exactly where a
/// record does which has the definitions and takes the plan of that day.
pub fn listings_make_their_plan()
    ensures { (bytes : List ℕ) → (d : Definitions) → (day : ℕ) → (drafts : List StreamDraft) → AreChecked bytes d
        → IsDay day → plan_fault d day ≡ None → AreDrafts d day drafts → MakesItsPlan d day drafts }
{}
