//! Pieces one behind the other, as far as they go.
ghost use Rattle.std.specs.Prelude.{◌≡◌, true, false, OnOk};
ghost use Rattle.composer_parser.specs.Grammars.{Grammar, many};
ghost use Rattle.composer_parser.specs.Kinds.{Spelled};
ghost use Rattle.composer_parser.specs.Reading.{read, begins_piece, decided, empty};
ghost use Rattle.composer_parser.specs.Tokens.{all_spelled, Gives};

use crate::stops::Stop;
use base_types::{NoMemory, Token};
use std::alloc::Global;

/// What the pieces so far led to.
pub(crate) trait Gathers: Sized + Drop {
    ghost use Rattle.std.specs.Prelude.{Bool};

    /// What a piece is read to.
    type Part;

    /// As what a piece is read, where a further one leads, and with which tokens it may begin.
    ghost part_grammar: { Grammar Self.Part };

    ghost next_state: { Self → Self.Part → Self };

    ghost may_begin: { Self → Spelled → Bool };

    /// Whether the next token begins a further piece.
    fn goes_on(&self, text: &str, rest: &[Token]) -> bool
        ensures { result ≡ begins_piece may_begin part_grammar self.now (all_spelled text.now rest.now) };

    /// A piece.
    fn read_part<'a>(
        alloc: Global,
        text: &str,
        rest: &'a [Token],
    ) -> Result<(Self::Part, &'a [Token]), Stop>
        ensures { Gives (λ x. x.0) (λ x. x.1.now) text.now result (read part_grammar (all_spelled text.now rest.now)) };

    /// Takes a piece.
    fn take(&mut self, part: Self::Part) -> Result<(), NoMemory>
        ensures { OnOk result (self.new ≡ next_state self.old part) };
}

/// What this and all pieces that stand here lead to. The next token decides what a piece is, and no piece is empty.
pub(crate) fn gather<'a, S: Gathers>(
    alloc: Global,
    text: &str,
    rest: &'a [Token],
    start: S,
) -> Result<(S, &'a [Token]), Stop>
    requires decided { decided S.part_grammar ≡ true }
    requires some { empty S.part_grammar ≡ false }
    ensures { Gives (λ x. x.0) (λ x. x.1.now) text.now result (read (many start S.next_state S.may_begin S.part_grammar (λ s. s)) (all_spelled text.now rest.now)) }
{
    let mut state = start;
    let mut left = rest;
    'pieces: while state.goes_on(text, left) {
        let (part, behind) = S::read_part(alloc, text, left)?;
        state.take(part)?;
        left = behind;
    }
    Ok((state, left))
}
