//! A line that is written. It notes where memory ran out, so whoever writes it has no exits by errors, which make a
//! function long to prove.
use base_types::NoMemory;
use std::alloc::{AllocError, Global};
use std::fmt::{Debug, Display, Write};

/// A line that is written.
#[derive(Drop)]
pub struct Out {
    /// The allocator of the line.
    pub alloc: Global,
    text: String,
    is_whole: bool,
}

impl Out {
    /// A line with nothing on it.
    pub fn new(alloc: Global) -> Out {
        Out {
            alloc,
            text: String::new(alloc),
            is_whole: true,
        }
    }

    /// The line, or that memory ran out.
    pub fn text(&self) -> &str {
        if self.is_whole {
            self.text.as_str()
        } else {
            "no memory"
        }
    }

    fn note(&mut self, done: Result<(), AllocError>) {
        if done.is_err() {
            self.is_whole = false;
        }
    }

    /// What a call gave, and nothing where memory ran out.
    pub fn kept<T>(&mut self, found: Result<T, NoMemory>) -> Option<T> {
        match found {
            Ok(value) => Some(value),
            Err(NoMemory) => {
                self.is_whole = false;
                None
            }
        }
    }

    /// Notes where a call had no memory.
    pub fn done(&mut self, done: Result<(), NoMemory>) {
        if done.is_err() {
            self.is_whole = false;
        }
    }

    /// Appends a text.
    pub fn word(&mut self, text: &str) {
        let done = self.text.push_str(text);
        self.note(done);
    }

    /// Appends a character, with `\n`, `\r` and `\\` for these.
    fn put_char(&mut self, c: char) {
        match c {
            '\n' => self.word("\\n"),
            '\r' => self.word("\\r"),
            '\\' => self.word("\\\\"),
            _ => {
                let done = self.text.push(c);
                self.note(done);
            }
        }
    }

    /// Appends a text on one line.
    pub fn escaped(&mut self, text: &str) {
        for c in text.chars() {
            self.put_char(c);
        }
    }

    /// Appends a text and a value.
    pub fn show<T: Display>(&mut self, before: &str, value: &T) {
        let done = write!(self.text, "{before}{value}");
        self.note(done);
    }

    /// Appends a text and a value between `<` and `>`.
    pub fn quote<T: Display>(&mut self, before: &str, value: &T) {
        let done = write!(self.text, "{before}<{value}>");
        self.note(done);
    }

    /// Appends a text and a value as Rust writes it.
    pub fn debug<T: Debug>(&mut self, before: &str, value: &T) {
        let done = write!(self.text, "{before}{value:?}");
        self.note(done);
    }

    /// Appends two values, each behind a text.
    pub fn two<A: Display, B: Display>(
        &mut self,
        before: &str,
        first: &A,
        between: &str,
        second: &B,
    ) {
        let done = write!(self.text, "{before}{first}{between}{second}");
        self.note(done);
    }

    /// Tells that a question is not understood.
    pub fn unknown(&mut self) {
        self.word("no such question");
    }
}
