//! What the objects of the real outside of one node have in common: the log, the count of faults, and how busy the node is.
//!
//! The log is a file of lines, one for each event: the time by UTC to the millisecond, a word, and fields `name=value`.
//! Nothing is proved of what stands there. What is proved is that no call fails or stops for the log's sake, and that
//! faults are counted as the traits say.
#![tactic(auto)]

mod commons;
mod faults;
mod logs;

pub use commons::{Commons, Wait};
pub use faults::{counted, counted_alone};
pub use logs::{Field, Topic, Value, cause_of};
