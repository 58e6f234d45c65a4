//! Rules of run cycles: whether their numbers are in range, and on which days they run.
//!
//! A rule is the text that the definitions have, as `FREQ=WEEKLY;INTERVAL=2;BYDAY=MO,WE`. Its parts and numbers stand in
//! `specs/Parts`, their ranges in `specs/Ranges`, and its days in `specs/Days`: a day, a week or a month counts where it
//! is the nth one from the beginning on. All calls take no memory.
#![tactic(auto)]

mod days;
mod months;
mod parts;
mod ranges;

pub use days::rule_has;
pub use ranges::is_in_range;
