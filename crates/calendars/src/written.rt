//! Dates as they are written.
ghost use Rattle.std.specs.Prelude.{◌≡◌, IfSome};
ghost use Rattle.std.specs.List.{list_all};
ghost use Rattle.std.specs.Char.{is_ascii_digit};
ghost use Rattle.calendars.specs.Dates.{IsDay};
ghost use Rattle.calendars.specs.Written.{digits_of, date_of, before_slash, behind_slash};

use crate::dates::day_of;

/// The day of a date MM/DD/YYYY. None where the word has not that form, and where there is no such date from 1970 to
/// 9999.
#[tactic(auto, unfolding(crate::specs::Written::date_of))]
pub fn read_date(word: &str) -> Option<u32>
    ensures value { result ≡ date_of word.now }
    ensures small { IfSome result IsDay }
{
    let (month, rest) = cut_at_slash(word);
    let (day, year) = cut_at_slash(rest);
    let month = two_digits(month)?;
    let day = two_digits(day)?;
    let year = four_digits(year)?;
    day_of(year, month, day)
}

/// What stands before the first `/` and behind it. Where there is none, that is all and nothing.
fn cut_at_slash(word: &str) -> (&str, &str)
    ensures before { result.0.now ≡ before_slash word.now }
    ensures behind { result.1.now ≡ behind_slash word.now }
{
    match word.split_once('/') {
        Some((before, behind)) => (before, behind),
        None => (word, ""),
    }
}

/// The number of exactly two digits.
fn two_digits(word: &str) -> Option<u8>
    ensures { result ≡ digits_of 2 word.now }
{
    if word.len() != 2 || !are_digits(word.as_bytes()) {
        return None;
    }
    word.parse::<u8>().ok()
}

/// The number of exactly four digits.
fn four_digits(word: &str) -> Option<u16>
    ensures { result ≡ digits_of 4 word.now }
{
    if word.len() != 4 || !are_digits(word.as_bytes()) {
        return None;
    }
    word.parse::<u16>().ok()
}

fn are_digits(bytes: &[u8]) -> bool
    ensures { result ≡ list_all is_ascii_digit bytes.now }
{
    bytes.iter().all(|b| b.is_ascii_digit())
}
