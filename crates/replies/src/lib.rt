//! How a call of the program ends: its status, the lines of refusals, and how a text is said with a status.
//!
//! The numbers of the statuses are `specs/Statuses`, the lines `specs/Texts`. What saying a text is, where the sink may
//! fail, is `specs/Sayings`.
#![tactic(auto)]

mod says;
mod statuses;
mod texts;

pub use says::say;
pub use statuses::Status;
pub use texts::{limit_text, refusal_text};
