//! The composer text of a record.
ghost use Rattle.std.specs.Prelude.{◌≡◌, ◌==◌, ◌++◌, IfOk, OnOk, map};
ghost use Rattle.std.specs.List.{slice_split};
ghost use Rattle.std.specs.String.{string_bytes};
ghost use Rattle.night_records.specs.Composers as spec;

use base_types::NoMemory;
use std::alloc::Global;
use syntax::lines;

/// An empty line or a comment.
fn is_skipped(line: &str) -> bool
    ensures { result ≡ spec.is_skipped line.now }
{
    line.is_empty() || line.as_bytes()[0] == b'#'
}

/// The place, among the lines that line feeds separate, of the first that is not skipped, where it is `$DEFINITIONS`. No
/// line behind it is looked at.
fn place_between_feeds(text: &str) -> Option<usize>
    ensures { result ≡ spec.definitions_from 0 (slice_split (λ b. b == 10) text.now) }
{
    let mut place = 0;
    for line in text.split('\n') {
        if !is_skipped(line) {
            return if line == "$DEFINITIONS" {
                Some(place)
            } else {
                None
            };
        }
        place += 1;
    }
    None
}

/// The place of the line `$DEFINITIONS` among the lines of a text, from 0, where the text begins with it but for empty
/// lines and comments. It takes no memory.
#[tactic(auto, unfolding(crate::specs::Composers::definitions_place, syntax::specs::Splits::lines_of))]
pub(crate) fn find_definitions(text: &str) -> Option<usize>
    ensures { result ≡ spec.definitions_place text.now }
{
    if text.is_empty() {
        return None;
    }
    match text.strip_suffix('\n') {
        Some(body) => place_between_feeds(body),
        None => place_between_feeds(text),
    }
}

/// Puts a line with its line feed behind others.
fn put_line(composer: &mut String, line: &str) -> Result<(), NoMemory>
    ensures { OnOk result (string_bytes composer.new ≡ string_bytes composer.old ++ spec.ended line.now) }
{
    composer.push_str(line)?;
    composer.push('\n')?;
    Ok(())
}

/// The lines before the first that is `$STEPS`, each with a line feed.
fn before_steps(alloc: Global, texts: &[&str]) -> Result<String, NoMemory>
    ensures { IfOk result (λ s. string_bytes s ≡ spec.text_before_steps (map (λ x. x.now) texts.now)) }
{
    let mut composer = String::new(alloc);
    for line in texts {
        if *line == "$STEPS" {
            return Ok(composer);
        }
        put_line(&mut composer, line)?;
    }
    Ok(composer)
}

/// The composer text behind the line at a place, from 0, up to the first line that is exactly `$STEPS`.
#[tactic(auto, unfolding(crate::specs::Composers::composer_text))]
pub(crate) fn composer_text(alloc: Global, text: &str, place: usize) -> Result<String, NoMemory>
    ensures { IfOk result (λ s. string_bytes s ≡ spec.composer_text text.now place) }
{
    let texts = lines(alloc, text)?;
    if place >= texts.len() {
        return Ok(String::new(alloc));
    }
    before_steps(alloc, &texts[place + 1..])
}
