//! The lines of a record, each read by itself.
//!
//! A record's text is a row for each of its lines: what kind of line it is, with its names, numbers, texts and
//! commands. Which row a line is, the table `specs/Rows` says, by the line's own bytes alone; its parts stand in
//! `specs/Plans` and `specs/Steps`, and the words that lines are made of in `specs/Words`. Where a line may stand, and
//! which of its names must be known, is asked by those who read the record from its rows.
//!
//! Of the faults of a record two are seen here: a line of no form is the row `NoForm`, and a number or a text outside its
//! range stands in its row as `OutOfRange`, so that the line still defines its names. `is_in_range` tells the rows
//! without the second fault.
#![tactic(auto)]

mod dependency_rows;
mod network_rows;
mod pairs;
mod plan_rows;
mod quotes;
mod ranges;
mod reading;
mod rows;
mod shared_lines;
mod spellings;
mod step_rows;
mod words;

pub use ranges::is_in_range;
pub use reading::read_rows;
pub use rows::{
    CutRow, DepRow, JobRow, ObjRow, OwnRow, PartRow, Ranged, Row, StationRow, StepRow, StreamRow,
};
pub use shared_lines::SharedLine;
