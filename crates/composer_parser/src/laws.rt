//! What holds of all token lists.
ghost use Rattle.std.specs.Prelude.{◌≡◌, ℕ, List};
ghost use Rattle.composer_parser.specs.declared.definitions.Defs.{Defs as Definitions};
ghost use Rattle.composer_parser.specs.Kinds.{Spelled};
ghost use Rattle.composer_parser.specs.Grammars.{Spells};
ghost use Rattle.composer_parser.specs.Composer.{defs};

/// No tokens are two definitions.
pub fn tokens_have_one_reading()
    ensures { (last : ℕ) → (ts : List Spelled) → (a b : Definitions) → Spells (defs last) ts a → Spells (defs last) ts b → a ≡ b }
{}
