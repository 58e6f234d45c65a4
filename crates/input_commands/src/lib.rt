//! The commands that are answered by the input alone: what they read, what they write, and the exit status.
//!
//! `answer_words` does what its words ask for, and `specs/Dues` is the table of what is due: one row for each cause, in the
//! order in which causes count, with the status and the text. Each form of words has a part of its own: of the input
//! (`inputs`), records of nights of either kind (`records`) are reported or summed up, and definitions (`definitions`) are
//! printed or planned, and histories (`audits`) are judged; samples (`samples`) are made. The world of a night is handed
//! back with its report or its summary, as the nodes made it, and its history is sound.
//!
//! `reply` reads bytes as definitions and answers what is wished of them. `specs/Replies` has the answers: a refusal with
//! its line and kind where the bytes are no checked definitions or a time of the day has no moment, a limit of the plan
//! that the day passes, and else the text.
#![tactic(auto)]

mod answers;
mod audits;
mod definitions;
mod inputs;
mod lines;
mod records;
mod replying;
mod samples;
mod says;
mod unsaid_replies;
mod wishes;
mod words;

pub use answers::answer_words;
pub use replying::reply;
pub use says::Done;
pub use wishes::{Outcome, Wish};
