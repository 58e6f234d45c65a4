//! Conditions on return codes: reading, printing, and asking one of a return code.
//!
//! A condition compares `RC` with numbers, joined by NOT, AND and OR; its value is its operations in postfix order, at
//! most 64. Reading accepts exactly the texts of the grammar in `specs/Grammar.antt`, and a fault has the place where
//! the text stops being one. What is printed, by `specs/Printing.antt`, is read back to the same condition. `holds` is
//! `model::specs::Conditions::meets`.
#![tactic(auto)]

mod laws;
mod printing;
mod readers;
mod reading;
mod results;
mod tokens;

pub use laws::{
    conditions_hold_where_they_are_met, other_lists_hold_of_nothing, printed_texts_are_read_back,
    texts_have_one_reading,
};
pub use printing::print_cond;
pub use reading::read_cond;
pub use results::holds;

/// The greatest number of operations of a condition.
const MOST: usize = 64;

/// Why a text was not read.
#[derive(Clone, Copy, Debug)]
pub enum CondFault {
    /// No condition goes on at this place, in bytes from 0.
    Bad(u32),
    /// The condition has more than 64 operations.
    TooLong,
    /// There was no memory.
    NoMemory,
}
