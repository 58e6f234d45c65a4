//! What is told, as text.
use std::alloc::Global;

/// A text that grows at its end. What there is no memory for is left out, and then it is not whole.
#[derive(Drop)]
pub struct Told {
    text: String,
    whole: bool,
}

impl Told {
    /// Nothing is told yet.
    pub fn new(alloc: Global) -> Self {
        Told {
            text: String::new(alloc),
            whole: true,
        }
    }

    /// Appends a text.
    pub fn put(&mut self, text: &str) {
        if self.text.push_str(text).is_err() {
            self.whole = false;
        }
    }

    /// Appends a character.
    pub fn put_char(&mut self, character: char) {
        if self.text.push(character).is_err() {
            self.whole = false;
        }
    }

    /// Appends a number.
    pub fn put_number(&mut self, number: u64) {
        if write!(self.text, "{number}").is_err() {
            self.whole = false;
        }
    }

    /// What is told so far.
    pub fn as_str(&self) -> &str {
        self.text.as_str()
    }

    /// Whether there was memory for all of it.
    pub fn is_whole(&self) -> bool {
        self.whole
    }
}
