//! A running node: what it keeps, starts, sends and answers, turn by turn.
//!
//! What a run is, is `specs/Runs`, over one trace of what was kept and of all calls of the outside; what a frame of a
//! workstation is to the node is `specs/Frames`, a client's line is told by `node_lines`. One input, and what a stretch of a run
//! does, is told by `node_inputs`.
//!
//! Each workstation from which bytes come has a stream of its own, with a decoder, which begins anew with its link. What
//! was heard of whom is `specs/Heard`.
#![tactic(auto)]

mod arrivals;
mod streams;
mod turns;

pub use node_inputs::NodeEnd;
pub use turns::run_node;
