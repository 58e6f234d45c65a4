//! What is read by its type, for lists of it.
ghost use Rattle.std.specs.Prelude.{◌≡◌};
ghost use Rattle.composer_parser.specs.Grammars.{Grammar};
ghost use Rattle.composer_parser.specs.Reading.{read, begins, tries};
ghost use Rattle.composer_parser.specs.Tokens.{all_spelled, Gives};

use crate::stops::Stop;
use base_types::Token;
use std::alloc::Global;

/// What is read by its type.
pub(crate) trait Piece: Sized + Drop {
    ghost grammar: { Grammar Self };

    fn read<'a>(alloc: Global, text: &str, rest: &'a [Token]) -> Result<(Self, &'a [Token]), Stop>
        ensures { Gives (λ x. x.0) (λ x. x.1.now) text.now result (read grammar (all_spelled text.now rest.now)) };
}

/// A piece of which the next token tells whether one begins.
pub(crate) trait Begins: Piece {
    fn begins(text: &str, rest: &[Token]) -> bool
        ensures { result ≡ begins (tries Self.grammar) (all_spelled text.now rest.now) };
}
