//! Whether a text is of a pattern.
ghost use Rattle.std.specs.Prelude.{◌≡◌, ◌<◌, ◌&&◌, ◌||◌, ◌==◌, if◌then◌else◌, IfOk, [], drop, length};
ghost use Rattle.node_replies.specs.Patterns as spec;
ghost use Rattle.node_replies.specs.Patterns.{matches_of_rests};

use base_types::NoMemory;
use std::alloc::Global;

/// Stands in a pattern for any characters, none among them.
const ANY: u8 = b'@';

/// Whether a text is of a pattern. `NoMemory` where there is none for an answer for each rest of the text.
///
/// The pattern is gone through from its end, and each of its bytes goes once over these answers.
pub fn matches(alloc: Global, pattern: &[u8], text: &[u8]) -> Result<bool, NoMemory>
    ensures { IfOk result (λ yes. yes ≡ spec.matches pattern.now text.now) }
{
    let mut answers = of_no_pattern(alloc, text)?;
    for passed in 0..pattern.len() {
        let rest = &pattern[pattern.len() - 1 - passed..];
        add_first(rest, text, answers.as_mut_slice());
    }
    Ok(answers[0])
}

/// The answers of the empty pattern: the last rest alone, which is empty, is of it.
fn of_no_pattern(alloc: Global, text: &[u8]) -> Result<Vec<bool>, NoMemory>
    ensures { IfOk result (λ v. v.items ≡ matches_of_rests [] text.now) }
{
    let mut answers = vec![in alloc; false; text.len() + 1]?;
    answers[text.len()] = true;
    Ok(answers)
}

/// Turns the answers of the pattern behind a first byte into those of the pattern with it, from the last rest to the
/// first.
fn add_first(pattern: &[u8], text: &[u8], answers: &mut [bool])
    requires some { 0 < length pattern.now }
    requires behind { answers.old ≡ matches_of_rests (drop 1 pattern.now) text.now }
    ensures { answers.new ≡ matches_of_rests pattern.now text.now }
{
    let first = pattern[0];
    let end = text.len();
    let mut next = answers[end];
    answers[end] = answer_at_end(first, next);
    for passed in 0..text.len() {
        let place = text.len() - 1 - passed;
        let here = answers[place];
        let after = answers[place + 1];
        answers[place] = answer(first, text[place], here, next, after);
        next = here;
    }
}

/// The answer of a pattern for the empty rest, by that of the pattern behind its first byte.
fn answer_at_end(first: u8, here: bool) -> bool
    ensures { result ≡ (first == 64) && here }
{
    first == ANY && here
}

/// The answer of a pattern for a rest, by the first bytes of both, by the answers of the pattern behind its first byte
/// for this rest and for the next, and by its own answer for the next, which is `after`.
fn answer(first: u8, byte: u8, here: bool, next: bool, after: bool) -> bool
    ensures { result ≡ (if first == 64 then here || after else (first == byte) && next) }
{
    if first == ANY {
        here || after
    } else {
        first == byte && next
    }
}
