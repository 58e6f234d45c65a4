//! The days on which a stream runs.
//!
//! `specs/Runs` has them as sets of days: what each ON and EXCEPT gives, shifted, and then all of the ONs without all of
//! the EXCEPTs. `runs_on` asks about one day, and `dates` gives the days between two.
#![tactic(auto)]

mod cycles;
mod items;
mod shifts;

pub use cycles::{dates, runs_on};
