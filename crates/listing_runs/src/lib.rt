//! The listing of a day makes the plan that its definitions make.
//!
//! With `$STEPS` and `next` behind it, it is a record of the drafts of that day. The run of this record reaches a world
//! exactly where a record does which has the definitions and takes the plan of the day (`specs/Listings.antt`).
//! `listing_laws` has why it is read so. The first plan of a world reads of a network how many workstations it has and what
//! it carries, and nothing of FULLSTATUS, which is on no line (`proofs/Replays.antt`).
#![tactic(auto)]

mod laws;

pub use laws::listings_make_their_plan;
