//! What holds of every run of a real node.
//!
//! A run is what `node_loop`'s `Run` says of one trace of events. Each law speaks of that trace alone: of what it kept, in
//! what order, and of the calls of the outside between. They hold of every end, also where an entry was refused or memory
//! ran out. What a node held at a moment is `specs/Held`; the words on launches, files and orders stand in `specs`.
#![tactic(auto)]

mod laws;

pub use laws::{
    advice_reruns_once, ends_have_their_refusals, files_follow_probes, launches_are_ready,
    launches_are_started_once, nodes_hold_what_they_kept, nothing_follows_a_refusal,
    what_goes_out_was_kept,
};
