//! The lines of a client, and what a running node answers.
//!
//! A command is typed at the node, a show line is answered from the node's listing, `link` and `unlink` ask the link,
//! `jnextplan` makes the plan of a day, and `shutdown` ends the run behind its reply. What each line does is an action of
//! the run, `specs/Lines`; the texts of the replies are those of `node_replies`.
#![tactic(auto)]

mod lines;
mod orders;
mod replies;

pub use lines::listen;
