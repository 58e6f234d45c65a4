//! Whether two values are one: dependencies, drafts and commands.
//!
//! Each test is true exactly where the two values are the same. A value that an entry repeats is found so, without a
//! copy of it. No test takes memory.
#![tactic(auto)]

mod commands;
mod conditions;
mod deps;
mod draft_deps;
mod drafts;
mod objects;
mod texts;

pub use commands::is_same_command;
pub use conditions::{is_same_cond, is_same_recovery, is_same_work};
pub use deps::is_same_dep;
pub use drafts::is_same_draft;
pub use objects::{is_same_mark, is_same_object};
pub use texts::is_same_text;
