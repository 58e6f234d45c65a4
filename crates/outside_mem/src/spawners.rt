// A spawner in memory.
ghost use Rattle.std.specs.Prelude.{◌≡◌, ◌||◌, not, length, IfOk, is_ok, is_err, slice_get};
ghost use Rattle.std.specs.Option.{option_flatten};
ghost use Rattle.outside.specs.Causes.{HasCause};
ghost use Rattle.outside.specs.Calls.{Starts, Reports, Kills};
ghost use Rattle.outside_mem.specs.Memory as spec;
ghost use Rattle.outside_mem.specs.Rooms.{nothing_in, no_items, fits};
ghost use Rattle.outside_mem.specs.Spawners.{calls_of, text_of, after_start, answer_of, after_poll, after_kill};

use crate::calls::Calls;
use crate::logs::Log;
use crate::rooms::Rows;
use base_types::{Items, JobNo, NoMemory, Work};
use outside::{End, Failed, Spawner};
use std::alloc::Global;
use std::marker::Model;

/// A start that was asked for; the text of its work stands beside it.
#[derive(Clone, Copy, PartialEq)]
pub struct Started {
    pub job: JobNo,
    pub number: u32,
    /// Whether its work is a script.
    pub script: bool,
    /// Whether the call succeeded.
    pub ok: bool,
}

/// A launch that was to be killed.
#[derive(Clone, Copy, PartialEq)]
pub struct Killed {
    pub job: JobNo,
    pub number: u32,
}

/// A spawner that starts nothing, and whose polls give these answers in turn and then none.
///
/// The starts and polls whose numbers are listed, from 1, fail, as does a start that passes the room; it then tells
/// what was started no more. It tells kills and reports as long as there is room.
pub struct MemSpawner {
    answers: Items<Option<End>>,
    at: usize,
    started: Rows<Started>,
    killed: Log<Killed>,
    reported: Log<Result<Option<End>, Failed>>,
    calls: Calls,
}

impl Drop for MemSpawner {
    fn drop(self) {
        let MemSpawner {
            answers: _answers,
            at: _at,
            started: _started,
            killed: _killed,
            reported: _reported,
            calls: _calls,
        } = self;
    }
}

impl Model for MemSpawner {
    ghost use Rattle.outside_mem.specs.Spawners.{SpawnerState};

    ghost Value = { SpawnerState };

    ghost view = { λ s. record {
      answers = s.answers;
      at = s.at;
      started = s.started;
      killed = s.killed;
      reported = s.reported;
      calls = s.calls;
    } };
}

impl MemSpawner {
    /// A spawner with room for so many calls of each kind, and for as many bytes in the texts of all work. `NoMemory`
    /// where there is none.
    pub fn new(
        alloc: Global,
        answers: Items<Option<End>>,
        fails: Items<u32>,
        room: u32,
    ) -> Result<Self, NoMemory>
        ensures value { IfOk result (λ s. s ≡ record {
          answers = answers;
          at = 0;
          calls = spec.no_calls fails;
          started = nothing_in room;
          killed = no_items room;
          reported = no_items room;
        }) }
        ensures faults { IfOk result (λ s. ⟦<MemSpawner as Spawner>⟧.faults s ≡ 0) }
    {
        let started = Rows::new(alloc, room)?;
        let killed = Log::new(alloc, room)?;
        Ok(MemSpawner {
            answers,
            at: 0,
            started,
            killed,
            reported: Log::new(alloc, room)?,
            calls: Calls::new(fails),
        })
    }

    /// The starts that are kept, each with the text of its work.
    pub fn started(&self) -> &Rows<Started>
        ensures { result.now ≡ self.now.started }
    {
        &self.started
    }

    /// The launches that were to be killed, and are kept.
    pub fn killed(&self) -> &[Killed]
        ensures { result.now ≡ self.now.killed.items }
    {
        self.killed.items()
    }
}

/// The answer with this number, counted from 0, or none.
fn answer_at(answers: &[Option<End>], at: usize) -> Option<End>
    ensures { result ≡ option_flatten (slice_get answers.now at) }
{
    match answers.get(at) {
        Some(answer) => *answer,
        None => None,
    }
}

impl Spawner for MemSpawner {
    ghost calls = { calls_of };

    ghost faults = { λ s. s.calls.faults };

    /// It fails exactly where the call is listed or would pass the room.
    fn start(&mut self, job: JobNo, number: u32, work: &Work) -> Result<(), Failed>
        ensures calls { Starts (record { job = job; number = number; work = work.now; ok = is_ok result }) (calls_of self.old) (calls_of self.new) }
        ensures cause { HasCause self.old.calls.faults self.new.calls.faults result }

        // Past the trait's clauses: when the call fails, and what it leaves.
        ensures listed { is_err result ≡ (spec.is_next_listed self.old.calls || not (fits (length (text_of work.now)) self.old.started)) }
        ensures after { self.new ≡ after_start job number work.now self.old }
    {
        let (script, text) = match work {
            Work::Command(text) => (false, text.as_str()),
            Work::Script(text) => (true, text.as_str()),
        };
        if !self.started.has_room(text.len()) {
            self.started.miss();
            return Err(self.calls.fail());
        }
        let ok = !self.calls.next_is_listed();
        self.started.add(
            Started {
                job,
                number,
                script,
                ok,
            },
            text.as_bytes(),
        );
        if !ok {
            return Err(self.calls.fail());
        }
        self.calls.succeed();
        Ok(())
    }

    /// It fails exactly where the call is listed.
    fn poll(&mut self) -> Result<Option<End>, Failed>
        ensures calls { Reports result (calls_of self.old) (calls_of self.new) }
        ensures cause { HasCause self.old.calls.faults self.new.calls.faults result }

        // Past the trait's clauses: when the call fails, and what it gives and leaves.
        ensures listed { is_err result ≡ spec.is_next_listed self.old.calls }
        ensures answer { IfOk result (λ answer. answer ≡ answer_of self.old) }
        ensures after { self.new ≡ after_poll result self.old }
    {
        if self.calls.next_is_listed() {
            self.reported.note(Err(Failed));
            return Err(self.calls.fail());
        }
        let answer = answer_at(self.answers.as_slice(), self.at);
        if self.at < self.answers.len() {
            self.at += 1;
        }
        let copy = answer;
        self.reported.note(Ok(copy));
        self.calls.succeed();
        Ok(answer)
    }

    fn kill(&mut self, job: JobNo, number: u32)
        ensures calls { Kills job number (calls_of self.old) (calls_of self.new) }
        ensures same { self.new.calls.faults ≡ self.old.calls.faults }

        // Past the trait's clauses: what it leaves.
        ensures after { self.new ≡ after_kill job number self.old }
    {
        self.killed.note(Killed { job, number });
    }
}
