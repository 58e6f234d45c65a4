//! A piece more at the end of a file whose last byte is a closed gate, on a disk that may stop at any moment.
//!
//! The piece is written behind the closed gate and synced, and then the gate is opened by a write of its own and synced.
//! So each stop leaves the file as it was with anything behind it, or with the whole piece behind its gate, closed or
//! open; `specs/Steps.antt` says what that is.
#![tactic(auto)]

mod puts;

pub use puts::put;
