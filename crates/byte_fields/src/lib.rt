//! Numbers and texts as the bytes of a record's fields, written and read.
//!
//! The bytes of each field are those of `model::specs::Fields`. A field that was put is taken again, and the bytes of a
//! field that was taken are those that putting it writes.
#![tactic(auto)]

mod puts;
mod takes;

pub use puts::{put_i32, put_text, put_u8, put_u16, put_u32, put_u64};
pub use takes::{take_i32, take_text, take_u8, take_u16, take_u32, take_u64};

/// Why a field was not taken.
#[derive(Clone, Copy, Debug)]
pub enum FieldFault {
    /// Too few bytes are left.
    Short,
    /// The text has more than 4,096 bytes, or is not UTF-8.
    BadText,
    /// There was no memory for the text.
    NoMemory,
}
