//! Canonical text of composer definitions.
//!
//! Definitions have a normal form, `specs/Normal.antt`: each name has its workstation, clauses stand once and in one
//! order, and no default is given. Their canonical text is that of the normal form, `specs/Printed.antt` with the files
//! that it cites, a line a statement. `print_defs` writes exactly this text.
#![tactic(auto)]

mod clauses;
mod days;
mod groups;
mod jobs;
mod joined;
mod kinds;
mod laws;
mod leads;
mod masters;
mod ons;
mod options;
mod printing;
mod scopes;
mod stations;
mod streams;
mod works;

pub use laws::{
    dates_are_read_back, normal_form_is_normal, numbers_are_read_back, texts_are_read_back,
    times_are_read_back,
};
pub use printing::print_defs;
