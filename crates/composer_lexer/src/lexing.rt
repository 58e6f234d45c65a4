//! The tokens of a whole text.
ghost use Rattle.std.specs.Prelude.{◌≡◌, ◌⊎◌, ◌<◌, ◌^◌, ◌+◌, ℕ, length, Err, IfOk};
ghost use Rattle.composer_lexer.specs.declared.faults.LexFault.TheVariants.{NoMemory as NoRoom};
ghost use Rattle.composer_lexer.specs.declared.faults.LexFault.TheVariants as fault;
ghost use Rattle.composer_lexer.specs.declared.fronts.Trouble.TheVariants as trouble;
ghost use Rattle.composer_lexer.specs.Tokens.{tokens_of};
ghost use Rattle.composer_lexer.specs.Places.{AreTokens, Begins};

use crate::faults::{LexFault, fault_at};
use crate::fronts::{Front, from, front_of};
use base_types::{Items, Token, Tokens};
use std::alloc::Global;

/// The tokens of a text, in order. A text has none where it has a fault, and the first from the left is answered. The
/// bytes of a text are counted in 32 bits, and one of 4,294,967,295 bytes or more is answered as want of memory.
pub fn tokens(alloc: Global, text: &str) -> Result<Tokens, LexFault>
    ensures answer { (result ≡ tokens_of text.now) ⊎ (result ≡ Err NoRoom) }
    ensures slices { IfOk result (λ found. AreTokens text.now 0 found) }
    ensures bad_char { (line : ℕ) → result ≡ Err (fault.BadChar line) → Begins trouble.Char text.now line }
    ensures open_text { (line : ℕ) → result ≡ Err (fault.OpenText line) → Begins trouble.Open text.now line }
    ensures too_long { (line : ℕ) → result ≡ Err (fault.TooLong line) → Begins trouble.Long text.now line }
{
    let bytes = text.as_bytes();
    if bytes.len() >= u32::MAX as usize {
        return Err(LexFault::NoMemory);
    }
    lex(alloc, bytes)
}

fn lex(alloc: Global, bytes: &[u8]) -> Result<Tokens, LexFault>
    requires { length bytes.now + 1 < 2 ^ 32 }
    ensures { (result ≡ tokens_of bytes.now) ⊎ (result ≡ Err NoRoom) }
{
    let mut found: Tokens = Items::new(alloc);
    let mut at: usize = 0;
    let mut line: u32 = 1;
    let mut first = true;
    while at < bytes.len() {
        let rest = from(bytes, at);
        match front_of(first, rest) {
            Front::LineEnd => {
                at += 1;
                line += 1;
                first = true;
                continue;
            }
            Front::Space(width) => {
                at += width;
                first = false;
                continue;
            }
            Front::Piece(kind, width) => {
                let start = at as u32;
                let end = (at + width) as u32;
                found.push(Token {
                    kind,
                    line,
                    start,
                    end,
                })?;
                at += width;
                first = false;
                continue;
            }
            Front::Bad(trouble) => return Err(fault_at(trouble, line)),
        }
    }
    Ok(found)
}
