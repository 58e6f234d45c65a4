//! What a node answers an operator's line, as text.
//!
//! Each answer is a line with a line feed at its end; `shown` gives the lines of a listing that were asked for, which may
//! be none. The texts of the others are `specs/Replies`, which lines are shown is `specs/Shown`, and which names a
//! pattern stands for is `specs/Patterns`. Each call answers `NoMemory` where memory runs out.
#![tactic(auto)]

mod patterns;
mod picks;
mod replies;

pub use patterns::matches;
pub use picks::{Shows, shown};
pub use replies::{Refusal, kept, link_asked, planned, refused, shutdown, unlink_asked};
