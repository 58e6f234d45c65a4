//! What is wished of definitions, and what comes of it.
use base_types::Bytes;
use definition_texts::Refusal;

/// What is wished of definitions.
#[derive(Clone, Copy)]
pub enum Wish {
    /// Their canonical text.
    CanonicalText,
    /// The listing of the plan of a day, counted from 01/01/1970 as 0.
    Plan(u32),
}

/// What comes of it.
#[derive(Drop)]
pub enum Outcome {
    /// The text that was wished.
    Text(Bytes),
    /// The definitions are refused, or a time of the day has no moment.
    Refused(Refusal),
    /// More streams run on the day than this, 4,096, or they have more jobs than this, 16,384.
    TooMany(u32),
}
