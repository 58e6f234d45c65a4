//! The log of a node: one line for each event, in a file of its own.

use jiff::Timestamp;
use std::alloc::{AllocError, Global};
use std::fs::{File, Files, OpenOptions};
use std::io::{ErrorKind, Write};
use std::net::SocketAddr;
use std::os::unix::fs::OpenOptionsExt;
use std::time::Clock;
use std::{fs, io};

/// How many bytes a log has at most when a further line is put; then it gets its other name, and a new one begins.
const MOST_BYTES: u64 = 16_777_216;

/// How many bytes it has at most when a further line is put where it cannot get its other name.
const MOST_OF_ALL: u64 = 33_554_432;

/// What stands in a field of a line.
#[derive(Clone, Copy)]
pub enum Value<'a> {
    Number(u64),
    Code(i32),
    Word(&'static str),
    Text(&'a str),
    /// The kind of a failure of the system, and its number where it has one.
    Cause(ErrorKind, Option<i32>),
    Address(SocketAddr),
}

/// A field of a line, by its name.
pub type Field<'a> = (&'static str, Value<'a>);

/// The field that tells why a call failed.
pub fn cause_of(error: &io::Error) -> Field<'static> {
    ("cause", Value::Cause(error.kind(), error.raw_os_error()))
}

/// What is told at most once in a second.
#[derive(Drop)]
pub enum Topic {
    /// Callers that were not let in.
    Refused,
    /// Callers that could not be let in.
    Unaccepted,
    /// Workstations that were called and did not prove that they know the key.
    Unproved,
    /// Pieces that were not taken, since too much waits.
    Full,
    /// Files that could not be looked for.
    Looked,
}

/// When a topic was told last, and how often since then it was not told.
#[derive(Clone, Copy)]
struct Rare {
    second: i64,
    passed: u64,
}

impl Rare {
    /// Whether it is told in this second, with how many were passed over before. One that is not is counted.
    fn admits(&mut self, second: i64) -> Option<u64> {
        if second == self.second {
            self.passed = self.passed.saturating_add(1);
            return None;
        }
        let passed = self.passed;
        self.second = second;
        self.passed = 0;
        Some(passed)
    }
}

const NEVER: Rare = Rare {
    second: 0,
    passed: 0,
};

/// The log `NAME.log` in the current folder, which is made for the node's user alone. It touches no file before it is
/// opened. What cannot be written is passed over, and costs nothing else.
#[derive(Drop)]
pub struct Log<R> {
    rt: R,
    path: String,
    older: String,
    /// Whether lines are written.
    open: bool,
    file: Option<File>,
    /// How many bytes the file has.
    bytes: u64,
    /// Whether the last line was written in part.
    torn: bool,
    /// The line that is being made.
    line: String,
    refused: Rare,
    unaccepted: Rare,
    unproved: Rare,
    full: Rare,
    looked: Rare,
}

impl<R: Files<File = File> + Clock + Drop> Log<R> {
    /// The log of the workstation with this name.
    pub fn new(alloc: Global, rt: R, name: &str) -> Result<Self, AllocError> {
        let mut path = String::from_str(alloc, name)?;
        path.push_str(".log")?;
        let mut older = String::from_str(alloc, path.as_str())?;
        older.push_str(".1")?;
        Ok(Log {
            rt,
            path,
            older,
            open: false,
            file: None,
            bytes: 0,
            torn: false,
            line: String::new(alloc),
            refused: NEVER,
            unaccepted: NEVER,
            unproved: NEVER,
            full: NEVER,
            looked: NEVER,
        })
    }

    /// From now on lines are written.
    pub fn open(&mut self) {
        self.open = true;
    }

    /// Writes a line: the time, the word, and the fields of both lists.
    pub fn tell(&mut self, word: &str, fields: &[Field<'_>], more: &[Field<'_>]) {
        if self.open
            && let Some(now) = self.now()
            && self.spell(now, word, fields, more).is_ok()
        {
            self.put();
        }
    }

    /// Writes a line of a topic, where none of it was written in this second, with how many were not.
    pub fn tell_rarely(&mut self, topic: Topic, word: &str, fields: &[Field<'_>]) {
        if !self.open {
            return;
        }
        let Some(now) = self.now() else {
            return;
        };
        let rare = match topic {
            Topic::Refused => &mut self.refused,
            Topic::Unaccepted => &mut self.unaccepted,
            Topic::Unproved => &mut self.unproved,
            Topic::Full => &mut self.full,
            Topic::Looked => &mut self.looked,
        };
        let Some(passed) = rare.admits(now.as_second()) else {
            return;
        };
        let more = [("passed", Value::Number(passed))];
        if self.spell(now, word, fields, &more).is_ok() {
            self.put();
        }
    }

    /// The time by the system's clock, where it can be read.
    fn now(&self) -> Option<Timestamp> {
        let Ok(now) = self.rt.since_1970() else {
            return None;
        };
        let Ok(milliseconds) = i64::try_from(now.as_millis()) else {
            return None;
        };
        Timestamp::from_millisecond(milliseconds).ok()
    }

    /// Makes the line.
    fn spell(
        &mut self,
        now: Timestamp,
        word: &str,
        fields: &[Field<'_>],
        more: &[Field<'_>],
    ) -> Result<(), AllocError> {
        self.line.clear();
        if self.torn {
            self.line.push('\n')?;
        }
        write!(self.line, "{:.3} {}", now, word)?;
        spell_fields(&mut self.line, fields)?;
        spell_fields(&mut self.line, more)?;
        self.line.push('\n')
    }

    /// Writes the line that was made. Where the log is full and cannot get its other name, nothing is written.
    fn put(&mut self) {
        if self.file.is_none() {
            self.reopen();
        }
        if self.bytes >= MOST_BYTES {
            self.turn();
        }
        if self.bytes >= MOST_OF_ALL {
            return;
        }
        let Some(file) = &mut self.file else {
            return;
        };
        match file.write(self.line.as_bytes()) {
            Ok(0) => {}
            Ok(count) => {
                self.bytes = self.bytes.saturating_add(count as u64);
                self.torn = count < self.line.len();
            }
            Err(_) => self.file = None,
        }
    }

    /// Gives the log its other name, and begins a new one. Where it cannot get that name it goes on.
    fn turn(&mut self) {
        if fs::rename(&self.rt, self.path.as_str(), self.older.as_str()).is_ok() {
            self.file = None;
            self.bytes = 0;
            self.torn = false;
            self.reopen();
        }
    }

    /// Opens the file behind its end, and makes it where it is not there.
    fn reopen(&mut self) {
        let mut options = OpenOptions::new();
        options.append(true).create(true).mode(0o600);
        if let Ok(file) = options.open(&self.rt, self.path.as_str())
            && let Ok(about) = file.metadata()
        {
            self.bytes = about.len();
            self.file = Some(file);
        }
    }
}

/// Writes fields, each behind a blank.
fn spell_fields(line: &mut String, fields: &[Field<'_>]) -> Result<(), AllocError> {
    for (name, value) in fields.iter() {
        write!(line, " {}=", name)?;
        spell_value(line, value)?;
    }
    Ok(())
}

/// Writes a value so that it has no blank and stays in its line.
fn spell_value(line: &mut String, value: &Value<'_>) -> Result<(), AllocError> {
    match value {
        Value::Number(number) => write!(line, "{}", number),
        Value::Code(code) => write!(line, "{}", code),
        Value::Address(address) => write!(line, "{}", address),
        Value::Cause(kind, number) => spell_cause(line, *kind, *number),
        Value::Word(word) => write!(line, "{}", word),
        Value::Text(text) => spell_text(line, text),
    }
}

fn spell_cause(line: &mut String, kind: ErrorKind, number: Option<i32>) -> Result<(), AllocError> {
    write!(line, "{:?}", kind)?;
    match number {
        Some(number) => write!(line, " error={}", number),
        None => Ok(()),
    }
}

/// Writes a text. Each blank of any kind, and what is no sign, is written as a question mark.
fn spell_text(line: &mut String, text: &str) -> Result<(), AllocError> {
    for sign in text.chars() {
        let shown = if sign.is_control() || sign.is_whitespace() {
            '?'
        } else {
            sign
        };
        line.push(shown)?;
    }
    Ok(())
}
