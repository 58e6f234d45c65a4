//! Dates, sets of days, free days, the nth day of a kind, and the moments of times. A day that is marked is an `X`.
use crate::arguments::{halves, low, numbers};
use crate::outs::Out;
use base_types::NoMemory;
use calendars::{DayKind, DaySet, FreeDays, LAST_DAY, day_of, is_free, is_workday, nth_day};
use plan_times::moment;
use syntax::{first_word, number_i32, number_u32};

fn least_byte(number: u32) -> u8 {
    (number & 0xff) as u8
}

/// `day_of YEAR MONTH DAY`
pub fn put_day_of(out: &mut Out, numbers: &[u32]) {
    if let [year, month, day] = numbers {
        let found = day_of(low(*year), least_byte(*month), least_byte(*day));
        out.debug("", &found)
    }
}

fn mark(is_marked: bool) -> &'static str {
    if is_marked { "X" } else { "." }
}

/// Marks the days of a set among so many from a first one on.
pub fn put_set(out: &mut Out, set: &DaySet, first: u32, count: u32) {
    for i in 0..count {
        out.word(mark(set.has(first.wrapping_add(i))));
    }
}

fn freedom(free: &FreeDays, day: u32) -> &'static str {
    if is_free(free, day) == is_workday(free, day) {
        "both"
    } else {
        mark(is_free(free, day))
    }
}

/// Marks the free days among so many from a first one on.
pub fn put_free(out: &mut Out, free: &FreeDays, first: u32, count: u32) {
    for i in 0..count {
        out.word(freedom(free, first.wrapping_add(i)));
    }
}

fn set_of(out: &mut Out, text: &str) -> Result<DaySet, NoMemory> {
    let days = numbers(out, text);
    DaySet::of(out.alloc, days.as_slice())
}

/// `days FIRST COUNT / DAYS`: the days of a set among others.
pub fn put_days(out: &mut Out, text: &str) {
    let (asked, days) = halves(text);
    let asked = numbers(out, asked);
    match set_of(out, days) {
        Ok(set) => {
            if let [first, count] = asked.as_slice() {
                put_set(out, &set, *first, *count);
            }
        }
        Err(NoMemory) => out.unknown(),
    }
}

/// Whether Saturdays are free and Sundays are, each 1 or 0, and the dates that are free.
fn free_days(out: &mut Out, text: &str) -> Result<FreeDays, NoMemory> {
    let (sa, rest) = first_word(text);
    let (su, dates) = first_word(rest);
    let sa = sa == "1";
    let su = su == "1";
    match set_of(out, dates) {
        Ok(dates) => Ok(FreeDays { dates, sa, su }),
        Err(NoMemory) => Err(NoMemory),
    }
}

/// `free_days FIRST COUNT / SA SU DATES`: the free days among others.
pub fn put_free_days(out: &mut Out, text: &str) {
    let (asked, rest) = halves(text);
    let asked = numbers(out, asked);
    match free_days(out, rest) {
        Ok(free) => {
            if let [first, count] = asked.as_slice() {
                put_free(out, &free, *first, *count);
            }
        }
        Err(NoMemory) => out.unknown(),
    }
}

fn kind_of(word: &str) -> DayKind {
    match word {
        "days" => DayKind::Days,
        "weekdays" => DayKind::Weekdays,
        _ => DayKind::Workdays,
    }
}

/// `nth_day KIND DAY N / SA SU DATES`
pub fn put_nth_day(out: &mut Out, text: &str) {
    let (front, rest) = halves(text);
    let (kind, asked) = first_word(front);
    let (day, n) = first_word(asked);
    let day = number_u32(day).unwrap_or(0);
    let n = number_i32(n).unwrap_or(0);
    match free_days(out, rest) {
        Ok(free) => out.debug("", &nth_day(&free, day, n, kind_of(kind))),
        Err(NoMemory) => out.unknown(),
    }
}

fn put_moment_at(out: &mut Out, numbers: &[u32], east: i16) {
    match numbers {
        [day, minute, plus, start] if *day <= LAST_DAY => {
            match moment(*day, low(*minute), low(*plus), low(*start), east) {
                Ok(found) => out.show("", &found.0),
                Err(fault) => out.debug("", &fault),
            }
        }
        _ => out.unknown(),
    }
}

/// `moment EAST DAY MINUTE PLUS START`
pub fn put_moment(out: &mut Out, text: &str) {
    let (east, rest) = first_word(text);
    let numbers = numbers(out, rest);
    match i16::try_from(number_i32(east).unwrap_or(0)) {
        Ok(east) => put_moment_at(out, numbers.as_slice(), east),
        Err(_) => out.unknown(),
    }
}
