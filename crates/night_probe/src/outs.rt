//! What is answered. It notes where memory ran out, so whoever writes it has no exits by errors, which make a function
//! long to prove.
use base_types::{Items, NoMemory};
use std::alloc::{AllocError, Global};
use std::fmt::{Debug, Display, Write};

/// What is answered.
#[derive(Drop)]
pub struct Out {
    /// The allocator of the answers.
    pub alloc: Global,
    text: String,
    is_whole: bool,
}

impl Out {
    /// Nothing is answered yet.
    pub fn new(alloc: Global) -> Out {
        Out {
            alloc,
            text: String::new(alloc),
            is_whole: true,
        }
    }

    /// What is answered, or that memory ran out.
    pub fn text(&self) -> &str {
        if self.is_whole {
            self.text.as_str()
        } else {
            "no memory\n"
        }
    }

    /// How many bytes were written.
    pub fn len(&self) -> usize {
        self.text.len()
    }

    /// Notes that memory ran out.
    pub fn no_memory(&mut self) {
        self.is_whole = false;
    }

    /// Notes where a text had no memory to grow.
    pub fn note(&mut self, done: Result<(), AllocError>) {
        if done.is_err() {
            self.is_whole = false;
        }
    }

    /// Notes where a call had no memory.
    pub fn done(&mut self, done: Result<(), NoMemory>) {
        if done.is_err() {
            self.is_whole = false;
        }
    }

    /// What a call gave, and nothing where memory ran out.
    pub fn kept<T>(&mut self, found: Result<T, NoMemory>) -> Option<T> {
        match found {
            Ok(value) => Some(value),
            Err(NoMemory) => {
                self.is_whole = false;
                None
            }
        }
    }

    /// Appends a text.
    pub fn word(&mut self, text: &str) {
        let done = self.text.push_str(text);
        self.note(done);
    }

    /// Appends a byte as two digits in base 16.
    pub fn hex(&mut self, byte: u8) {
        let done = write!(self.text, "{byte:02x}");
        self.note(done);
    }

    /// Appends a text and a value.
    pub fn show<T: Display>(&mut self, before: &str, value: &T) {
        let done = write!(self.text, "{before}{value}");
        self.note(done);
    }

    /// Appends a text and a value as Rust writes it.
    pub fn debug<T: Debug>(&mut self, before: &str, value: &T) {
        let done = write!(self.text, "{before}{value:?}");
        self.note(done);
    }

    /// Appends two values, each behind a text.
    pub fn two<A: Display, B: Display>(
        &mut self,
        before: &str,
        first: &A,
        between: &str,
        second: &B,
    ) {
        let done = write!(self.text, "{before}{first}{between}{second}");
        self.note(done);
    }
}

/// Numbers that are listed. They note where memory ran out, in the same way.
#[derive(Drop)]
pub struct Numbers {
    items: Items<u32>,
    is_whole: bool,
}

impl Numbers {
    pub fn new(alloc: Global) -> Numbers {
        Numbers {
            items: Items::new(alloc),
            is_whole: true,
        }
    }

    /// Adds a number at the end.
    pub fn add(&mut self, number: u32) {
        if self.items.push(number).is_err() {
            self.is_whole = false;
        }
    }

    pub fn as_slice(&self) -> &[u32] {
        self.items.as_slice()
    }

    /// Whether there was memory for each number.
    pub fn is_whole(&self) -> bool {
        self.is_whole
    }
}
