//! The report that a replay prints and its summary, as text, made from their parts.
//!
//! The parts of a report are the entries, the launches that were started, the counts of packets, and what each
//! workstation holds with the listing of its plan. `print_report` gives exactly the bytes that `specs/Reports.antt`
//! defines, over the files that stand before it: a line for each part, with each kind of entry, command and dependency.
//! `print_summary` gives those of `specs/Summaries.antt`. `name` is how a workstation is called in all texts, and
//! `stream_word` and `job_word` are how the states are.
#![tactic(auto)]

mod bodies;
mod commands;
mod dependencies;
mod lists;
mod names;
mod reports;
mod states;
mod summaries;
mod words;

pub use names::name;
pub use reports::print_report;
pub use states::{job_word, stream_word};
pub use summaries::print_summary;
