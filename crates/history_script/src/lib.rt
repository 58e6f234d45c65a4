//! Histories as texts: a network, the entries that were made over it, and the launches that were started.
//!
//! Such a text has the lines of a network as a record has them, the line `$HISTORY`, a line `entry HEX` for each entry
//! with its bytes as digits in base 16, and a line `start W JOB NUMBER` for each launch that was started. `print_history`
//! writes exactly the text of `specs/Printed`.
//!
//! `read_history` gives what a text means, or its lowest faulty line with the first kind of its faults; both answers are
//! the definition `specs/Histories::read_of`. The network and its faults are those of the record that has the same lines up
//! to `$HISTORY`, and `$STEPS` in its place (`specs/Fronts`). Which row a line behind `$HISTORY` is, the table `specs/Rows`
//! says, and how digits are read, `specs/Digits`.
#![tactic(auto)]

mod digits;
mod found;
mod fronts;
mod histories;
mod laws;
mod printing;
mod reading;
mod rows;

pub use histories::{HistoryFault, HistoryKind, HistoryText};
pub use laws::digits_are_read_back;
pub use printing::print_history;
pub use reading::read_history;
