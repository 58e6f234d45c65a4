//! Days of the calendar, free days, and the nth day of a kind.
//!
//! A day is the number of days since 01/01/1970, to the end of 9999. Which day a date is stands in `specs/Dates`, and
//! how it is written in `specs/Written`; the dates themselves are those of `jiff`. Which days are free is said in
//! `specs/Free`, and the nth day, the nth of the days of its kind, in `specs/Nth`. All answers but the making of a set
//! take no memory.
#![tactic(auto)]

mod dates;
mod day_sets;
mod free_days;
mod nth_days;
mod written;

pub use dates::{LAST_DAY, day_of};
pub use day_sets::DaySet;
pub use free_days::{FreeDays, is_free, is_workday};
pub use nth_days::{DayKind, nth_day};
pub use written::read_date;
