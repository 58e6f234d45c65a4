//! A network and the drafts of a day, as the text of a record.
//!
//! `listing_of` prints what differs from the defaults, line by line; the text is defined in `specs/Listings`, with the
//! lines of streams and jobs in `specs/Streams` and those of dependencies in `specs/Dependencies`. A condition is printed
//! in its canonical form, by `specs/Conditions`.
#![tactic(auto)]

mod conditions;
mod dependencies;
mod jobs;
mod listings;
mod networks;
mod streams;

pub use listings::listing_of;
pub use networks::write_network;
