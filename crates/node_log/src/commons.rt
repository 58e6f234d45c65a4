//! What the objects of one node have in common: its log, and how busy it is.

use crate::logs::{Field, Log, Topic};
use base_types::NoMemory;
use std::alloc::Global;
use std::cell::{Cell, RefCell};
use std::fs::{File, Files};
use std::rc::Rc;
use std::time::Clock;

/// How many milliseconds a poll waits at least and at most while jobs run, and how many jobs make it one longer.
const LEAST_WAIT: u64 = 4;

const MOST_WAIT: u64 = 50;

const JOBS_A_MILLISECOND: u64 = 20;

/// How long a poll of the links may wait.
#[derive(Drop)]
pub enum Wait {
    /// Not at all: the node did something since the last poll.
    Not,
    /// So many milliseconds: jobs run, which may end.
    Short(u64),
    Long,
}

#[derive(Drop)]
struct Inside<R> {
    /// Whether the node did something since the last poll.
    busy: Cell<bool>,
    /// How many jobs run.
    running: Cell<usize>,
    log: RefCell<Log<R>>,
}

/// What the disk, the links, the spawner and the prober of one node have in common: its log, and how busy it is.
///
/// The log is the file `NAME.log` in the current folder. It is touched once the node's message file is asked for or its
/// links begin, so a client has none.
#[derive(Drop)]
pub struct Commons<R> {
    inside: Rc<Inside<R>>,
}

impl<R: Files<File = File> + Clock + Drop> Commons<R> {
    /// Those of the workstation with this name.
    pub fn new(alloc: Global, rt: R, name: &str) -> Result<Self, NoMemory> {
        let inside = Inside {
            busy: Cell::new(false),
            running: Cell::new(0),
            log: RefCell::new(Log::new(alloc, rt, name)?),
        };
        match Rc::new(alloc, inside) {
            Ok(inside) => Ok(Commons { inside }),
            Err(_) => Err(NoMemory),
        }
    }

    /// The same once more, for a further object.
    pub fn share(&self) -> Result<Self, NoMemory> {
        Ok(Commons {
            inside: self.inside.clone()?,
        })
    }

    /// The node did something, after which its next turn may have something to do.
    pub fn note_work(&self) {
        self.inside.busy.set(true);
    }

    /// How many jobs run from now on.
    pub fn note_running(&self, count: usize) {
        self.inside.running.set(count);
    }

    /// How long the next poll may wait. What was done before is then done with. The more jobs run the longer it is, since
    /// each of them is asked in each turn whether it has ended.
    pub fn wait(&self) -> Wait {
        if self.inside.busy.replace(false) {
            return Wait::Not;
        }
        let count = self.inside.running.get() as u64;
        if count == 0 {
            Wait::Long
        } else {
            Wait::Short((count / JOBS_A_MILLISECOND).max(LEAST_WAIT).min(MOST_WAIT))
        }
    }

    /// From now on the log is written.
    pub fn open_log(&self) {
        if let Ok(mut log) = self.inside.log.try_borrow_mut() {
            log.open();
        }
    }

    /// Writes a line of the log.
    pub fn tell(&self, word: &str, fields: &[Field<'_>]) {
        self.tell_both(word, fields, &[]);
    }

    /// Writes a line of the log with the fields of both lists.
    pub fn tell_both(&self, word: &str, fields: &[Field<'_>], more: &[Field<'_>]) {
        if let Ok(mut log) = self.inside.log.try_borrow_mut() {
            log.tell(word, fields, more);
        }
    }

    /// Writes a line of the log, where none of its topic was written in this second.
    pub fn tell_rarely(&self, topic: Topic, word: &str, fields: &[Field<'_>]) {
        if let Ok(mut log) = self.inside.log.try_borrow_mut() {
            log.tell_rarely(topic, word, fields);
        }
    }
}
