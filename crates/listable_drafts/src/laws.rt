//! What holds of the drafts of all days.
ghost use Rattle.std.specs.Prelude.{ℕ, List};
ghost use Rattle.composer_laws.specs.Written.{AreDefs};
ghost use Rattle.composer_parser.specs.declared.Defs.{Defs as Definitions};
ghost use Rattle.definition_faults.specs.Faults.{IsFaultless};
ghost use Rattle.listing_laws.specs.Listables.{AreListable};
ghost use Rattle.model.specs.Types.{StreamDraft};
ghost use Rattle.plan_builder.specs.Drafts.{AreDrafts};
ghost use Rattle.workload_defs.specs.Nets.{net_of};

/// The drafts that definitions without a fault give for a day, where a reader gave the definitions, have what a listing that
/// is read back asks for.
pub fn drafts_are_listable()
    ensures { (d : Definitions) → AreDefs d → IsFaultless d → (day : ℕ) → (drafts : List StreamDraft)
        → AreDrafts d day drafts → AreListable (net_of d) drafts }
{}
