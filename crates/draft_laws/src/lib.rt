//! That the drafts of a day are fit to be printed: every name, text, condition and list of them is within its bounds.
//!
//! The definitions are those of a text that was read and checked. Each name and text of theirs is one of its tokens, which
//! are short, and each item of a list has a token of its own, so that no list has more items than the text has bytes.
//! `drafts_are_fit` is the law.
#![tactic(auto)]

mod laws;

pub use laws::drafts_are_fit;
