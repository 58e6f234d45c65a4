//! Records of either kind: those that have a network and plans, and those that begin with definitions.
//!
//! `read_record` gives what a text means, or its lowest faulty line with the first kind of its faults. A record that does
//! not begin with definitions is that of `record_script`. In one that does, the lines between `$DEFINITIONS` and the first
//! `$STEPS` are composer text (`definition_texts`), whose first fault counts as one, at its line of the record; the
//! network is that of the definitions, and so are the plans of days. Which text is read to what is said in
//! `specs/Readings`, and what of a text is composer text in `specs/Composers`.
//!
//! `run_record` takes the lines of either kind. What a day gives is said in `specs/Days`: the drafts of the definitions for
//! it, or why there are none, which is told at the line that asks for them.
#![tactic(auto)]

mod composers;
mod days;
mod kinds;
mod laws;
mod reading;
mod records;
mod runs;

pub use laws::{days_have_plans, texts_have_one_answer};
pub use reading::read_record;
pub use records::Record;
pub use runs::run_record;
