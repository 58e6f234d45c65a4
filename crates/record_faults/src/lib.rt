//! What is wrong with a record, by its rows.
//!
//! Each line of a record is one row (`record_rows`). Where a row may stand is the table `specs/Places`: a row that may not
//! stand where it does becomes a line of no form, which defines nothing, and what stands between `$DEFINITIONS` and
//! `$STEPS` is skipped, since another reads it. The faults of a row, in the order in which they are tested, are the table
//! `specs/Faults`; it goes by what stands above the row and by what the record names (`specs/Known`). The fault that is
//! told is the first of the lowest faulty line.
#![tactic(auto)]

mod above;
mod conditions;
mod counts;
mod hops;
mod keys;
mod kinds;
mod lookups;
mod names;
mod picks;
mod places;
mod placing;
mod stations;
mod tests;
mod walking;

pub use kinds::ScriptKind;
pub use lookups::Named;
pub use picks::{begins_stream, is_object, prompt_of, resource_of, station_name};
pub use places::{JobPlace, Place};
pub use placing::place_rows;
pub use walking::{first_fault, record_fault};
