//! What holds of all definitions with one normal form.
ghost use Rattle.std.specs.Prelude.{◌≡◌, ℕ, List, None, length};
ghost use Rattle.composer_parser.specs.declared.Defs.{Defs as Definitions};
ghost use Rattle.composer_print.specs.Normal.{normal};
ghost use Rattle.composer_print.specs.Printed.{printed};
ghost use Rattle.composer_laws.specs.Lines.{without_lines};
ghost use Rattle.composer_laws.specs.Written.{AreDefs};
ghost use Rattle.definition_faults.specs.Faults.{IsFaultless};
ghost use Rattle.definition_texts.specs.Refusals.{AreDefinitions};
ghost use Rattle.model.specs.Types.{StreamDraft};
ghost use Rattle.plan_builder.specs.Drafts.{AreDrafts};
ghost use Rattle.plan_builder.specs.Limits.{limit_fault, time_fault};
ghost use Rattle.run_cycles.specs.Runs.{runs};
ghost use Rattle.workload_defs.specs.Days.{free_of};
ghost use Rattle.workload_defs.specs.Nets.{net_of, peers_of};

/// Definitions with the normal form of definitions without a fault have none. Nor has the normal form itself, nor have
/// definitions that differ in their lines alone, or that are read from a canonical text.
pub fn one_form_is_faultless()
    ensures together { (d : Definitions) → (e : Definitions) → normal d ≡ normal e → IsFaultless d → IsFaultless e }
    ensures form { (d : Definitions) → IsFaultless d → IsFaultless (normal d) }
    ensures lines { (d : Definitions) → (e : Definitions) → without_lines d ≡ without_lines e → IsFaultless d
        → IsFaultless e }
    ensures back { (d : Definitions) → (e : Definitions) → without_lines e ≡ normal d → IsFaultless d → IsFaultless e }
{}

/// Definitions with one normal form have one canonical text, and give the same network, the same addresses, as many
/// streams, and for each stream the same free days and the same days on which it runs. A day is refused for the same
/// limit, and has a time without a moment in both or in none.
pub fn one_form_gives_the_same()
    ensures text { (d : Definitions) → (e : Definitions) → normal d ≡ normal e → printed d ≡ printed e }
    ensures net { (d : Definitions) → (e : Definitions) → normal d ≡ normal e → net_of d ≡ net_of e }
    ensures peers { (d : Definitions) → (e : Definitions) → normal d ≡ normal e → peers_of d ≡ peers_of e }
    ensures streams { (d : Definitions) → (e : Definitions) → normal d ≡ normal e
        → length d.schedules ≡ length e.schedules }
    ensures free { (d : Definitions) → (e : Definitions) → normal d ≡ normal e → (n : ℕ) → free_of d n ≡ free_of e n }
    ensures days { (d : Definitions) → (e : Definitions) → normal d ≡ normal e → (n : ℕ) → (day : ℕ)
        → runs d n day ≡ runs e n day }
    ensures limit { (d : Definitions) → (e : Definitions) → normal d ≡ normal e → (day : ℕ)
        → limit_fault d day ≡ limit_fault e day }
    ensures time { (d : Definitions) → (e : Definitions) → normal d ≡ normal e → (day : ℕ) → time_fault d day ≡ None
        → time_fault e day ≡ None }
{}

/// Definitions that were read, with one normal form, have the same drafts on each day.
pub fn one_form_has_the_same_drafts()
    ensures { (d : Definitions) → (e : Definitions) → AreDefs d → AreDefs e → normal d ≡ normal e → (day : ℕ)
        → (drafts : List StreamDraft) → AreDrafts d day drafts → AreDrafts e day drafts }
{}

/// Definitions that were read from a text are as a reader gives them, and their canonical text is read too. What is
/// read from it has the same normal form, as have definitions that differ in their lines alone. So it has the same
/// canonical text, and a fault where they have one, and gives the same network, addresses, streams, free days, run
/// dates and limits. A day has a time without a moment in both or in none, and has the same drafts.
pub fn canonical_texts_mean_the_same()
    ensures written { (text : List ℕ) → (d : Definitions) → AreDefinitions text d → AreDefs d }
    ensures read { (text : List ℕ) → (d : Definitions) → AreDefinitions text d
        → (e : Definitions) × AreDefinitions (printed d) e }
    ensures back { (text : List ℕ) → (d : Definitions) → (e : Definitions) → AreDefinitions text d
        → AreDefinitions (printed d) e → normal d ≡ normal e }
    ensures lines { (d : Definitions) → (e : Definitions) → without_lines d ≡ without_lines e → normal d ≡ normal e }
    ensures text { (text : List ℕ) → (d : Definitions) → (e : Definitions) → AreDefinitions text d
        → AreDefinitions (printed d) e → printed d ≡ printed e }
    ensures faultless { (text : List ℕ) → (d : Definitions) → (e : Definitions) → AreDefinitions text d
        → AreDefinitions (printed d) e → (IsFaultless d → IsFaultless e) × (IsFaultless e → IsFaultless d) }
    ensures net { (text : List ℕ) → (d : Definitions) → (e : Definitions) → AreDefinitions text d
        → AreDefinitions (printed d) e → net_of d ≡ net_of e }
    ensures peers { (text : List ℕ) → (d : Definitions) → (e : Definitions) → AreDefinitions text d
        → AreDefinitions (printed d) e → peers_of d ≡ peers_of e }
    ensures streams { (text : List ℕ) → (d : Definitions) → (e : Definitions) → AreDefinitions text d
        → AreDefinitions (printed d) e → length d.schedules ≡ length e.schedules }
    ensures free { (text : List ℕ) → (d : Definitions) → (e : Definitions) → AreDefinitions text d
        → AreDefinitions (printed d) e → (n : ℕ) → free_of d n ≡ free_of e n }
    ensures days { (text : List ℕ) → (d : Definitions) → (e : Definitions) → AreDefinitions text d
        → AreDefinitions (printed d) e → (n : ℕ) → (day : ℕ) → runs d n day ≡ runs e n day }
    ensures limit { (text : List ℕ) → (d : Definitions) → (e : Definitions) → AreDefinitions text d
        → AreDefinitions (printed d) e → (day : ℕ) → limit_fault d day ≡ limit_fault e day }
    ensures time { (text : List ℕ) → (d : Definitions) → (e : Definitions) → AreDefinitions text d
        → AreDefinitions (printed d) e → (day : ℕ)
        → (time_fault d day ≡ None → time_fault e day ≡ None)
        × (time_fault e day ≡ None → time_fault d day ≡ None) }
    ensures drafts { (text : List ℕ) → (d : Definitions) → (e : Definitions) → AreDefinitions text d
        → AreDefinitions (printed d) e → (day : ℕ) → (drafts : List StreamDraft)
        → (AreDrafts d day drafts → AreDrafts e day drafts) × (AreDrafts e day drafts → AreDrafts d day drafts) }
{}
