//! The parts of a rule, and what each is worth.
ghost use Rattle.std.specs.Prelude.{◌≡◌, find, option_map};
ghost use Rattle.composer_parser.specs.Rules as rules;
ghost use Rattle.composer_parser.specs.Words.{before, behind};
ghost use Rattle.run_rules.specs.Parts as spec;

use syntax::number_u32;

/// How often a rule runs.
#[derive(Clone, Copy)]
pub enum Frequency {
    Daily,
    Weekly,
    Monthly,
}

/// What stands behind the `=` of the rule's first part of this name, and nothing where no part has the name.
#[tactic(auto, unfolding(crate::specs::Parts::value_of))]
pub(crate) fn value_of<'a>(rule: &'a str, name: &str) -> &'a str
    ensures { result.now ≡ spec.value_of name.now rule.now }
{
    match part_of(rule, name) {
        Some(part) => behind_mark(part),
        None => "",
    }
}

/// The rule's first part of this name.
fn part_of<'a>(rule: &'a str, name: &str) -> Option<&'a str>
    ensures { option_map (λ p. p.now) result ≡ find (rules.is_named name.now) (rules.parts_of rule.now) }
{
    without_last(rule)
        .split(';')
        .find(|part| is_named(part, name))
}

/// The rule without the semicolon that may stand at its end.
fn without_last(rule: &str) -> &str
    ensures { result.now ≡ rules.without_last rule.now }
{
    match rule.strip_suffix(';') {
        Some(body) => body,
        None => rule,
    }
}

#[tactic(auto, unfolding(composer_parser::specs::Rules::is_named))]
fn is_named(part: &str, name: &str) -> bool
    ensures { result ≡ rules.is_named name.now part.now }
{
    before_mark(part).eq_ignore_ascii_case(name)
}

/// What stands before the `=`, and all where there is none.
fn before_mark(part: &str) -> &str
    ensures { result.now ≡ before 61 part.now }
{
    match part.split_once('=') {
        Some((name, _)) => name,
        None => part,
    }
}

/// What stands behind the `=`, and nothing where there is none.
fn behind_mark(part: &str) -> &str
    ensures { result.now ≡ behind 61 part.now }
{
    match part.split_once('=') {
        Some((_, value)) => value,
        None => "",
    }
}

/// How often the rule runs: monthly where it says neither daily nor weekly.
#[tactic(auto, unfolding(crate::specs::Parts::frequency_of))]
pub(crate) fn frequency_of(rule: &str) -> Frequency
    ensures { result ≡ spec.frequency_of rule.now }
{
    let word = value_of(rule, "FREQ");
    if word.eq_ignore_ascii_case("DAILY") {
        return Frequency::Daily;
    }
    if word.eq_ignore_ascii_case("WEEKLY") {
        return Frequency::Weekly;
    }
    Frequency::Monthly
}

/// The interval, which is 1 where the rule has none. None for a number above 32 bits.
#[tactic(auto, unfolding(crate::specs::Parts::interval_of))]
pub(crate) fn interval_of(rule: &str) -> Option<u32>
    ensures { result ≡ spec.interval_of rule.now }
{
    let word = value_of(rule, "INTERVAL");
    if word.is_empty() {
        return Some(1);
    }
    number_u32(word)
}

/// The day of the week, 0 for MO to 6 for SU, that a word of two letters says.
#[tactic(auto, unfolding(crate::specs::Parts::weekday_of))]
pub(crate) fn weekday_of(word: &str) -> Option<u32>
    ensures { result ≡ spec.weekday_of word.now }
{
    if word.eq_ignore_ascii_case("MO") {
        return Some(0);
    }
    if word.eq_ignore_ascii_case("TU") {
        return Some(1);
    }
    if word.eq_ignore_ascii_case("WE") {
        return Some(2);
    }
    later_weekday_of(word)
}

fn later_weekday_of(word: &str) -> Option<u32>
    ensures { result ≡ spec.later_weekday_of word.now }
{
    if word.eq_ignore_ascii_case("TH") {
        return Some(3);
    }
    if word.eq_ignore_ascii_case("FR") {
        return Some(4);
    }
    if word.eq_ignore_ascii_case("SA") {
        return Some(5);
    }
    if word.eq_ignore_ascii_case("SU") {
        return Some(6);
    }
    None
}
