//! How many days of a kind stand before a day, and which dates have their nth day in a range.
//!
//! `calendars` defines free days and the nth day of a kind. Its answers walk from day to day; those of this crate take a
//! time that grows with the logarithm of the dates. A count is a sum of whole weeks and of the dates that no weekend
//! has, which are kept in ascending order. The nth day after a date stands in a range exactly where the count at the
//! date lies between the counts at the ends of the range (`specs/Counts`, `proofs/Nths`), so it is found among sorted
//! dates by halving. All answers but the making of tables take no memory.
#![tactic(auto)]

mod counted_days;
mod free_runs;
mod sorted_days;
mod weeks;

pub use counted_days::{CountedDays, Step};
pub use sorted_days::SortedDays;
pub use weeks::has_weekday;
