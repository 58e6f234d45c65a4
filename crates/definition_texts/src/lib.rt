//! Definitions read whole: from composer text to checked definitions, or to the line and kind of the first fault.
//!
//! What bytes are is said in `specs/Refusals`: definitions without a fault, or bytes that are refused, for the first of
//! these causes: a byte that is no part of UTF-8, a fault of the tokens, a fault of the grammar, a fault of the
//! definitions. `read_definitions` answers exactly that, and so does `read_definition_text` of what is a text already.
#![tactic(auto)]

mod kinds;
mod reading;
mod refusals;

pub use kinds::RefusalKind;
pub use reading::{line_at, read_definition_text, read_definitions};
pub use refusals::{NotRead, Refusal};
