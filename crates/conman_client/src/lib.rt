//! A client asks one node one command line and waits for its reply.
//!
//! `ask` begins a link as a client, sends the line in one frame, and polls until a reply is whole, 600 times at most.
//! Which reply is the first, by what came over the link, is `specs/Replies`. The calls that an ask makes of a link, and
//! what it answers by them, is `specs/Asks`: its calls fix its answer, but for want of memory.
#![tactic(auto)]

mod asks;
mod ends;
mod laws;
mod listening;

pub use asks::ask;
pub use ends::AskEnd;
pub use laws::one_answer;
