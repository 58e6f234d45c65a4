//! Lines, words, names, numbers and quoted texts, each read exactly; quoted texts are written too.
//!
//! Each call says what its text holds by one definition on bytes. What allocates answers `NoMemory` where memory runs
//! out, and for no other cause.
#![tactic(auto)]

mod names;
mod numbers;
mod quotes;
mod splits;

pub use names::name;
pub use numbers::{number_i32, number_u32, number_u64};
pub use quotes::{quoted, write_quoted};
pub use splits::{first_word, is, lines, words};
