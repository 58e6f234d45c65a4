//! What holds of all texts.
ghost use Rattle.std.specs.Prelude.{◌≡◌, ℕ, List, Ok};
ghost use Rattle.base_types.specs.declared.reports.Token.{Token as TokenOf};
ghost use Rattle.composer_lexer.specs.Tokens.{tokens_of};
ghost use Rattle.composer_parser.specs.declared.definitions.Defs.{Defs as Definitions};
ghost use Rattle.composer_parser.specs.Grammars.{Spells};
ghost use Rattle.composer_parser.specs.Composer.{defs};
ghost use Rattle.composer_parser.specs.Tokens.{all_spelled};
ghost use Rattle.composer_laws.specs.Returns.{IsReadBack};

/// Where the tokens of a text are definitions, the canonical text of these is read back to their normal form, but for its
/// lines.
pub fn definitions_are_read_back()
    ensures { (text : List ℕ) → (ts : List TokenOf) → (last : ℕ) → (d : Definitions) → tokens_of text ≡ Ok ts →
        Spells (defs last) (all_spelled text ts) d → IsReadBack d }
{}
