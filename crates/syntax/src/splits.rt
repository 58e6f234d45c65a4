//! A text's lines, and a line's words.
ghost use Rattle.std.specs.Prelude.{◌≡◌, map, IfOk};
ghost use Rattle.std.specs.Str.{bytes_eq};
ghost use Rattle.syntax.specs.Splits as spec;
ghost use Rattle.syntax.specs.Splits.{lines_of, words_of, after_word};

use base_types::NoMemory;
use std::alloc::Global;

/// The lines of a text, each without its line feed. A line feed belongs to the line that it ends, and the last line
/// may lack it. A carriage return is a character of its line.
#[tactic(auto, unfolding(crate::specs::Splits::lines_of))]
pub fn lines(alloc: Global, text: &str) -> Result<Vec<&str>, NoMemory>
    ensures { IfOk result (λ v. map (λ x. x.now) v.items ≡ lines_of text.now) }
{
    if text.is_empty() {
        return Ok(Vec::new(alloc));
    }
    Ok(without_last_feed(text).split('\n').collect(alloc)?)
}

fn without_last_feed(text: &str) -> &str
    ensures { result.now ≡ spec.without_last_feed text.now }
{
    match text.strip_suffix('\n') {
        Some(body) => body,
        None => text,
    }
}

/// The words of a line, which single spaces separate. There is always one, and words beside a further space are empty.
pub fn words(alloc: Global, line: &str) -> Result<Vec<&str>, NoMemory>
    ensures { IfOk result (λ v. map (λ x. x.now) v.items ≡ words_of line.now) }
{
    Ok(line.split(' ').collect(alloc)?)
}

/// The first word of a line, and what follows the space behind it. Where there is no space nothing follows.
pub fn first_word(line: &str) -> (&str, &str)
    ensures first { result.0.now ≡ spec.first_word line.now }
    ensures rest { result.1.now ≡ after_word line.now }
{
    match line.split_once(' ') {
        Some((first, rest)) => (first, rest),
        None => (line, ""),
    }
}

/// Whether a word is spelled so. A chain of these is proved in half the time of one that compares the texts itself.
pub fn is(word: &str, spelling: &str) -> bool
    ensures { result ≡ bytes_eq word.now spelling.now }
{
    word == spelling
}
