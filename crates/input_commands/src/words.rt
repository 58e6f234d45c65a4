//! What the words of the program ask for.
ghost use Rattle.std.specs.Prelude.{◌≡◌, IfSome};
ghost use Rattle.input_commands.specs.Words as spec;

use crate::Wish;
use base_types::Text;
use calendars::read_date;
use syntax::number_u32;

/// What is told of a night.
#[derive(Clone, Copy)]
pub enum Telling {
    /// All of it.
    Report,
    /// How many entries, starts, streams and jobs there are.
    Summary,
    /// Its network, its entries and its starts, as a text that can be audited.
    History,
}

/// What is wanted of an input.
#[derive(Clone, Copy)]
pub enum Wanted {
    /// To read a record, to take its steps, and to tell what happened.
    Night(Telling),
    /// To read definitions, and to write what is wished of them.
    Definitions(Wish),
    /// To read a history, and to say whether it is sound.
    Audit,
}

/// What words ask for.
#[derive(Clone, Copy)]
pub enum Asked {
    /// To read the input, and to do this with it.
    Input(Wanted),
    /// A sample with so many jobs, 1 to 2000, and this seed.
    Sample(u32, u32),
}

/// What words ask for. None where they have no form.
#[tactic(auto, unfolding(crate::specs::Words::asked_of))]
pub(crate) fn read_words(words: &[Text]) -> Option<Asked>
    ensures form { result ≡ spec.asked_of words.now }
    ensures fits { IfSome result spec.Fits }
{
    match words {
        [word] => alone(word.as_str()),
        [word, date] => plan(word.as_str(), date.as_str()),
        [word, jobs, seed] => sample(word.as_str(), jobs.as_str(), seed.as_str()),
        _ => None,
    }
}

#[tactic(auto, unfolding(crate::specs::Words::alone_of))]
fn alone(word: &str) -> Option<Asked>
    ensures form { result ≡ spec.alone_of word.now }
    ensures fits { IfSome result spec.Fits }
{
    if word == "replay" {
        return Some(Asked::Input(Wanted::Night(Telling::Report)));
    }
    if word == "summary" {
        return Some(Asked::Input(Wanted::Night(Telling::Summary)));
    }
    if word == "history" {
        return Some(Asked::Input(Wanted::Night(Telling::History)));
    }
    if word == "compile" {
        return Some(Asked::Input(Wanted::Definitions(Wish::CanonicalText)));
    }
    if word == "audit" {
        return Some(Asked::Input(Wanted::Audit));
    }
    None
}

#[tactic(auto, unfolding(crate::specs::Words::plan_of_words))]
fn plan(word: &str, date: &str) -> Option<Asked>
    ensures form { result ≡ spec.plan_of_words word.now date.now }
    ensures fits { IfSome result spec.Fits }
{
    if word != "plan" {
        return None;
    }
    match read_date(date) {
        Some(day) => Some(Asked::Input(Wanted::Definitions(Wish::Plan(day)))),
        None => None,
    }
}

#[tactic(auto, unfolding(crate::specs::Words::sample_of_words))]
fn sample(word: &str, jobs: &str, seed: &str) -> Option<Asked>
    ensures form { result ≡ spec.sample_of_words word.now jobs.now seed.now }
    ensures fits { IfSome result spec.Fits }
{
    if word != "sample" {
        return None;
    }
    sized(number_u32(jobs), number_u32(seed))
}

#[tactic(auto, unfolding(crate::specs::Words::sized))]
fn sized(jobs: Option<u32>, seed: Option<u32>) -> Option<Asked>
    ensures form { result ≡ spec.sized jobs seed }
    ensures fits { IfSome result spec.Fits }
{
    let Some(jobs) = jobs else { return None };
    let Some(seed) = seed else { return None };
    if jobs < 1 {
        return None;
    }
    if jobs > 2000 {
        return None;
    }
    Some(Asked::Sample(jobs, seed))
}
