//! The days of a rule.
ghost use Rattle.std.specs.Prelude.{◌≡◌, ◌==◌, ◌<◌, ◌^◌};
ghost use Rattle.std.specs.List.{list_any, slice_split};
ghost use Rattle.calendars.specs.Dates.{weekday};
ghost use Rattle.run_rules.specs.Days as spec;

use crate::months::{MonthPlace, is_kth, place_of};
use crate::parts::{Frequency, frequency_of, interval_of, value_of, weekday_of};
use syntax::number_i32;

/// Whether a rule has a day, where it counts from this first day on. Without a first day it counts from 01/01/1970, which
/// tells nothing apart where its interval is 1.
#[tactic(auto, unfolding(crate::specs::Days::rule_has))]
pub fn rule_has(rule: &str, first: Option<u32>, day: u32) -> bool
    ensures { result ≡ spec.rule_has rule.now first day }
{
    let from = first.unwrap_or(0);
    let Some(n) = interval_of(rule) else {
        return false;
    };
    match frequency_of(rule) {
        Frequency::Daily => is_counted(n, from, day),
        Frequency::Weekly => is_counted(n, week_of(from), week_of(day))
            && has_weekday(value_of(rule, "BYDAY"), day),
        Frequency::Monthly => has_in_month(n, value_of(rule, "BYMONTHDAY"), from, day),
    }
}

/// Whether a number is every nth one from another on.
fn is_counted(n: u32, from: u32, to: u32) -> bool
    ensures { result ≡ spec.is_counted n from to }
{
    n > 0 && from <= to && (to - from) % n == 0
}

/// The week of a day, which begins on a Monday.
fn week_of(day: u32) -> u32
    ensures value { result ≡ spec.week_of day }
    ensures small { result < 2 ^ 32 }
{
    ((u64::from(day) + 3) / 7) as u32
}

/// Whether the day is one of these days of the week.
fn has_weekday(list: &str, day: u32) -> bool
    ensures { result ≡ spec.has_weekday (slice_split (λ b. b == 44) list.now) day }
{
    let weekday = ((u64::from(day) + 3) % 7) as u32;
    names_weekday(list, weekday)
}

fn names_weekday(list: &str, weekday: u32) -> bool
    ensures { result ≡ list_any (spec.is_weekday weekday) (slice_split (λ b. b == 44) list.now) }
{
    list.split(',').any(|word| is_weekday(word, weekday))
}

fn is_weekday(word: &str, weekday: u32) -> bool
    ensures { result ≡ spec.is_weekday weekday word.now }
{
    weekday_of(word) == Some(weekday)
}

/// Whether the day is one of these days of a month that counts.
#[tactic(auto, using(crate::proofs::Places::in_month, crate::proofs::Places::no_first, crate::proofs::Places::no_month))]
fn has_in_month(n: u32, list: &str, from: u32, day: u32) -> bool
    ensures { result ≡ spec.has_in_month n (slice_split (λ b. b == 44) list.now) from day }
{
    let Some(first) = place_of(from) else {
        return false;
    };
    let Some(place) = place_of(day) else {
        return false;
    };
    is_counted(n, first.month, place.month) && names_place(list, &place)
}

fn names_place(list: &str, place: &MonthPlace) -> bool
    ensures { result ≡ list_any (spec.is_place place.now) (slice_split (λ b. b == 44) list.now) }
{
    list.split(',').any(|word| is_place(word, place))
}

fn is_place(word: &str, place: &MonthPlace) -> bool
    ensures { result ≡ spec.is_place place.now word.now }
{
    match number_i32(word) {
        Some(k) => is_kth(place, k),
        None => false,
    }
}
