//! The moments of the times in the plan of a day, and the offset from UTC at which they are read.
//!
//! `moment` gives a time of day its date and its seconds since 1970; `specs/Moments` says which these are. Times are
//! read at one fixed offset from UTC. `east_of` reads it from the text of TIMEZONE, as minutes east of Greenwich; which
//! texts there are, and what each means, stands in `specs/Zones`. Neither takes memory.
#![tactic(auto)]

mod moments;
mod zones;

pub use moments::{TimeFault, moment};
pub use zones::east_of;
