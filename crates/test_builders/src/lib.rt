//! Builders that the test crates and the programs of `bench` share: short lists, networks, and plans with their drafts and
//! documents. Each but the lists is made from a row of numbers and names, so that a test is a table of rows.
//!
//! Workstations, streams and jobs are plain numbers in rows, so that a table of rows can be a static. A constant is built
//! anew in each function that names it, and makes the proof of that function long. What a row does not say is the plainest
//! that there is; the fields of what was built are public, and a test changes the one that it is about. Nobody stands on
//! this crate but those. Each function answers `NoMemory` where memory runs out, and nothing else.
#![tactic(auto)]

mod dependencies;
mod documents;
mod draft_rows;
mod lists;
mod networks;

pub use dependencies::Waits;
pub use documents::{job, stream};
pub use draft_rows::{DraftWaits, JobDraftRow, StreamDraftRow, draft, drafts};
pub use lists::{first_wrong, listed, one};
pub use networks::{ALONE, NodeRow, PromptRow, ResourceRow, TWO_AGENTS, net, node, plain_net};
