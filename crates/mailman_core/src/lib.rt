//! What a node keeps of its neighbours, which mail it takes, and what it sends.
//!
//! A `Mail` has the counts that each neighbour acknowledged and the neighbours whose own end of the link is up.
//! Contracts see it as `specs/Mails` has it, and as the session of `model::specs::Sessions` by `acked_by` and `is_up`.
//! `accepts` and `to_send` are those of `model::specs::NewEntry` and `Forwarding`.
//!
//! What that costs: a count that was acknowledged is found in a tree. What is to be sent to a neighbour is found by one
//! walk over the feeds of the network, which ends at eight and passes over each issuer of whom no order is held. One that
//! manages no domain looks at its own events alone. A few look-ups tell of most other feeds that they do not go to this
//! neighbour. Of the rest the entries held are counted, and a feed of events is asked for its way only where something
//! of it is not acknowledged. Or the feeds of events that may go to each neighbour are listed once, and then those that
//! are listed for it are looked at alone.
#![tactic(auto)]

mod listed;
mod mails;
mod sends;
mod tables;

pub use listed::{ListedFeeds, forget_feeds, listed_feeds};
pub use mail_rules::{accepts, acknowledgement};
pub use mails::Mail;
