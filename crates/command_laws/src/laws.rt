//! What holds of all texts that commands wrote.
ghost use Rattle.std.specs.Prelude.{◌≤◌, ℕ, List, length};
ghost use Rattle.composer_parser.specs.declared.Defs.{Defs as Definitions};
ghost use Rattle.composer_print.specs.Printed.{printed};
ghost use Rattle.definition_texts.specs.Refusals.{AreChecked};
ghost use Rattle.command_laws.specs.Canonical.{CompilesToItself, PlansAsBefore};

/// The canonical text of checked definitions is compiled to itself, and has their plan on each day.
pub fn canonical_texts_call_for_the_same()
    ensures itself { (bytes : List ℕ) → (d : Definitions) → AreChecked bytes d → CompilesToItself (printed d) }
    ensures plans { (bytes : List ℕ) → (d : Definitions) → AreChecked bytes d → length bytes ≤ 16777216
        → PlansAsBefore bytes (printed d) }
{}
