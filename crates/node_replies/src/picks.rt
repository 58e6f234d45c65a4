//! The lines of a listing that a line asks for.
ghost use Rattle.std.specs.Prelude.{◌≡◌, [], IfOk, map, slice_get, unwrap_or};
ghost use Rattle.std.specs.String.{string_bytes};
ghost use Rattle.std.specs.Option.{option_copied};
ghost use Rattle.node_replies.specs.Shown as spec;

use crate::patterns::matches;
use base_types::{NoMemory, Text};
use std::alloc::Global;
use syntax::{lines, words};

/// Which lines of a listing are asked for.
#[derive(Clone, Copy)]
pub enum Shows {
    Jobs,
    Schedules,
    Cpus,
    Prompts,
    Resources,
}

/// The lines of this kind of a listing whose name is of the pattern, each with its line feed; all of the kind where
/// there is no pattern. The name is the whole word that the line has, for a job `W#STREAM.JOB`. An `@` of the pattern
/// stands for any characters, none among them, and any other byte for itself: a letter in lower case is another one.
pub fn shown(
    alloc: Global,
    kind: Shows,
    pattern: Option<&Text>,
    listing: &str,
) -> Result<Text, NoMemory>
    ensures { IfOk result (λ t. t ≡ spec.shown_lines kind (option_copied pattern.entry) listing.now) }
{
    let texts = lines(alloc, listing)?;
    let out = pick(alloc, kind, pattern, texts.as_slice())?;
    Ok(Text::from_string(out))
}

/// Those of these lines that are of this kind, and whose name is of the pattern.
#[tactic(auto, unfolding(crate::specs::Shown::picked))]
fn pick(
    alloc: Global,
    kind: Shows,
    pattern: Option<&Text>,
    texts: &[&str],
) -> Result<String, NoMemory>
    ensures { IfOk result (λ s. string_bytes s ≡ spec.picked kind (option_copied pattern.entry) (map (λ x. x.now) texts.now)) }
{
    let mut out = String::new(alloc);
    for line in texts {
        if is_shown(alloc, kind, pattern, *line)? {
            out.push_str(*line)?;
            out.push('\n')?;
        }
    }
    Ok(out)
}

/// Whether a line is of this kind, and its name of the pattern.
fn is_shown(
    alloc: Global,
    kind: Shows,
    pattern: Option<&Text>,
    line: &str,
) -> Result<bool, NoMemory>
    ensures { IfOk result (λ yes. yes ≡ spec.is_shown kind (option_copied pattern.entry) line.now) }
{
    let words = words(alloc, line)?;
    if word_at(&words, 0) != first_word(kind) {
        return Ok(false);
    }
    match pattern {
        None => Ok(true),
        Some(pattern) => matches(
            alloc,
            pattern.as_str().as_bytes(),
            word_at(&words, name_place(kind)).as_bytes(),
        ),
    }
}

/// The word with this number, from 0, or the empty text.
fn word_at<'a>(words: &[&'a str], n: usize) -> &'a str
    ensures { result.now ≡ unwrap_or (slice_get (map (λ x. x.now) words.now) n) [] }
{
    match words.get(n) {
        Some(word) => *word,
        None => "",
    }
}

fn first_word(kind: Shows) -> &'static str
    ensures { result.now ≡ spec.first_word kind }
{
    match kind {
        Shows::Jobs => "job",
        Shows::Schedules => "stream",
        Shows::Cpus => "cpu",
        Shows::Prompts => "prompt",
        Shows::Resources => "resource",
    }
}

/// The place of the name among the words of a line, from 0: behind the number of a job or a stream.
fn name_place(kind: Shows) -> usize
    ensures { result ≡ spec.name_place kind }
{
    match kind {
        Shows::Jobs | Shows::Schedules => 2,
        Shows::Cpus | Shows::Prompts | Shows::Resources => 1,
    }
}
