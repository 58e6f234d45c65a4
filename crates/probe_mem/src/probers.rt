//! A prober in memory.
ghost use Rattle.std.specs.Prelude.{◌≡◌, ◌≤◌, ◌||◌, [], IfOk, Ok, Some, is_err, length, not};
ghost use Rattle.outside.specs.Calls.{AddsOrEnds};
ghost use Rattle.outside.specs.Causes.{HasCause, one_more};
ghost use Rattle.outside_mem.specs.Rooms.{fits, nothing_in};
ghost use Rattle.probe_mem.specs.Probers.{after_call, asked_by, answer_of};

use base_types::{Items, NoMemory, Text};
use file_watch::Prober;
use outside::Failed;
use outside_mem::Rows;
use std::alloc::Global;
use std::marker::Model;

/// A prober whose calls give these answers in turn, and then that no file is there.
///
/// A call that passes the room fails, and the prober then tells no more what it was asked.
pub struct MemProber {
    answers: Items<Result<bool, Failed>>,
    at: usize,
    asked: Rows<Result<bool, Failed>>,
    faults: u64,
}

impl Drop for MemProber {
    fn drop(self) {
        let MemProber {
            answers: _answers,
            at: _at,
            asked: _asked,
            faults: _faults,
        } = self;
    }
}

impl Model for MemProber {
    ghost use Rattle.probe_mem.specs.Probers.{ProberState};

    ghost Value = { ProberState };

    ghost view = { λ p. record {
      answers = p.answers;
      at = p.at;
      asked = p.asked;
      faults = p.faults;
    } };
}

impl MemProber {
    /// A prober with room for so many calls, and for as many bytes in all their paths. `NoMemory` where there is none.
    pub fn new(
        alloc: Global,
        answers: Items<Result<bool, Failed>>,
        room: u32,
    ) -> Result<Self, NoMemory>
        ensures value { IfOk result (λ p. p ≡ record { answers = answers; at = 0; asked = nothing_in room; faults = 0 }) }
        ensures told { IfOk result (λ p. ⟦<MemProber as Prober>⟧.asked p ≡ Some []) }
        ensures faults { IfOk result (λ p. ⟦<MemProber as Prober>⟧.faults p ≡ 0) }
    {
        Ok(MemProber {
            answers,
            at: 0,
            asked: Rows::new(alloc, room)?,
            faults: 0,
        })
    }

    /// The calls that are kept: the path of each, and its answer.
    pub fn asked(&self) -> &Rows<Result<bool, Failed>>
        ensures { result.now ≡ self.now.asked }
    {
        &self.asked
    }

    /// The answer that comes next.
    fn next_answer(&self) -> Result<bool, Failed>
        ensures { result ≡ answer_of self.now }
    {
        match self.answers.get(self.at) {
            Some(answer) => *answer,
            None => Ok(false),
        }
    }

    /// Counts a call that fails.
    fn fail(&mut self) -> Failed
        ensures counted { self.new ≡ record self.old { faults = one_more self.old.faults } }
        ensures later { self.old.faults ≤ self.new.faults }
    {
        self.faults = self.faults.saturating_add(1);
        Failed
    }
}

impl Prober for MemProber {
    ghost asked = { asked_by };

    ghost faults = { λ p. p.faults };

    /// It fails exactly where the next answer is that, or the call would pass the room.
    fn seen(&mut self, path: &Text) -> Result<bool, Failed>
        ensures asked { AddsOrEnds (record { path = path.now; answer = result }) (asked_by self.old) (asked_by self.new) }
        ensures cause { HasCause self.old.faults self.new.faults result }

        // Past the trait's clauses: when the call fails, which answer it gives, and what it leaves.
        ensures listed { is_err result ≡ (is_err (answer_of self.old) || not (fits (length path.now) self.old.asked)) }
        ensures answer { IfOk result (λ there. answer_of self.old ≡ Ok there) }
        ensures after { self.new ≡ after_call path.now self.old }
    {
        if !self.asked.has_room(path.len()) {
            self.asked.miss();
            return Err(self.fail());
        }
        let answer = self.next_answer();
        if self.at < self.answers.len() {
            self.at += 1;
        }
        self.asked.add(answer, path.as_str().as_bytes());
        if answer.is_err() {
            return Err(self.fail());
        }
        answer
    }
}
