//! What stands above a row, as far as its faults go by it.
ghost use Rattle.std.specs.Prelude.{◌≡◌, ◌<◌, ◌+◌, ◌&&◌, ◌||◌, ◌^◌, ◌-◌, not, ℕ, List, [], OnOk, option_map};
ghost use Rattle.record_faults.specs.Known as known;
ghost use Rattle.record_faults.specs.Known.{Key, has_key, has_name};
ghost use Rattle.record_faults.specs.Faults as faults;
ghost use Rattle.record_faults.specs.Noted as spec;
ghost use Rattle.record_faults.specs.Noted.{is_key, is_name, IsNoted};

use crate::counts::Counts;
use crate::keys::Keys;
use crate::names::Names;
use crate::picks::{
    begins_stream, is_carry, is_next, is_plan, job_of, object_ws, prompt_of, resource_of,
    station_name, stream_of,
};
use base_types::{NoMemory, Text};
use record_rows::Row;
use std::alloc::Global;
use std::marker::Model;

/// What stands above a row, as far as its faults go by it.
pub(crate) struct Above<'a> {
    stations: Names<'a>,
    resources: Keys<'a>,
    prompts: Names<'a>,
    carry: bool,
    /// Of this section.
    streams: Keys<'a>,
    /// Of this stream.
    jobs: Names<'a>,
    /// Of the last object.
    ws: Option<&'a Text>,
    counts: Counts,
}

impl<'a> Drop for Above<'a> {
    fn drop(self) {
        let Above {
            stations: _stations,
            resources: _resources,
            prompts: _prompts,
            carry: _carry,
            streams: _streams,
            jobs: _jobs,
            ws: _ws,
            counts: _counts,
        } = self;
    }
}

impl<'a> Model for Above<'a> {
    ghost use Rattle.std.specs.Prelude.{option_map};
    ghost use Rattle.record_faults.specs.Known as known;

    ghost Value = { known.Above };

    ghost view = { λ a. record {
      rows = a.counts.rows;
      stations = a.stations;
      resources = a.resources;
      prompts = a.prompts;
      ws_lines = a.counts.ws_lines;
      resource_lines = a.counts.resource_lines;
      prompt_lines = a.counts.prompt_lines;
      carry = a.carry;
      streams = a.streams;
      jobs = a.jobs;
      ws = option_map (λ t. t.now) a.ws;
      deps = a.counts.deps;
      plans = a.counts.plans;
      taken = a.counts.taken;
    } };
}

/// The streams of the section behind the row.
fn note_stream<'a>(alloc: Global, streams: &mut Keys<'a>, row: &'a Row) -> Result<(), NoMemory>
    ensures { OnOk result ((k : Key) → has_key streams.new k
        ≡ (not (known.is_plan row.now) && (has_key streams.old k || is_key (known.stream_of row.now) k))) }
{
    if is_plan(row) {
        *streams = Keys::new(alloc);
        return Ok(());
    }
    streams.note(stream_of(row))
}

/// The jobs of the stream behind the row.
fn note_job<'a>(alloc: Global, jobs: &mut Names<'a>, row: &'a Row) -> Result<(), NoMemory>
    ensures { OnOk result ((n : List ℕ) → has_name jobs.new n
        ≡ (not (known.begins_stream row.now) && (has_name jobs.old n || is_name (known.job_of row.now) n))) }
{
    if begins_stream(row) {
        *jobs = Names::new(alloc);
        return Ok(());
    }
    jobs.note(job_of(row))
}

/// The workstation of the last object behind the row.
fn ws_behind<'a>(old: Option<&'a Text>, row: &'a Row) -> Option<&'a Text>
    ensures { option_map (λ t. t.now) result
        ≡ spec.ws_behind (option_map (λ t. t.now) old.entry) (known.object_ws row.now) }
{
    match object_ws(row) {
        Some(ws) => Some(ws),
        None => old,
    }
}

impl<'a> Above<'a> {
    /// Above the first row.
    #[tactic(auto, unfolding(crate::specs::Known::above_of))]
    pub(crate) fn nothing(alloc: Global) -> Above<'a>
        ensures { result ≡ known.above_of [] }
    {
        Above {
            stations: Names::new(alloc),
            resources: Keys::new(alloc),
            prompts: Names::new(alloc),
            carry: false,
            streams: Keys::new(alloc),
            jobs: Names::new(alloc),
            ws: None,
            counts: Counts::none(),
        }
    }

    /// Takes the row with what it defines, so that it stands above.
    fn note_all(&mut self, alloc: Global, row: &'a Row) -> Result<(), NoMemory>
        requires { self.old.rows < 2 ^ 64 - 1 }
        ensures { OnOk result (IsNoted self.old row.now self.new) }
    {
        self.stations.note(station_name(row))?;
        self.resources.note(resource_of(row))?;
        self.prompts.note(prompt_of(row))?;
        note_stream(alloc, &mut self.streams, row)?;
        note_job(alloc, &mut self.jobs, row)?;
        self.carry = self.carry || is_carry(row);
        self.ws = ws_behind(self.ws, row);
        self.counts = self.counts.with(row);
        Ok(())
    }

    /// Takes the row, so that it stands above. The only error is that memory ran out; the value is of no use then. A step
    /// defines nothing, and most rows of a long record are steps.
    #[tactic(auto, using(lemmas::proofs::Booleans::or_false))]
    pub(crate) fn note(&mut self, alloc: Global, row: &'a Row) -> Result<(), NoMemory>
        requires { self.old.rows < 2 ^ 64 - 1 }
        ensures { OnOk result (IsNoted self.old row.now self.new) }
    {
        if let Row::Step(_) = row {
            self.counts = self.counts.with(row);
            return Ok(());
        }
        self.note_all(alloc, row)
    }

    /// The workstation of the last object.
    pub(crate) fn ws(&self) -> Option<&'a Text>
        ensures { option_map (λ t. t.now) result ≡ self.now.ws }
    {
        self.ws
    }

    /// The name stands above.
    #[tactic(auto, unfolding(crate::specs::Faults::is_duplicate))]
    pub(crate) fn is_duplicate(&self, row: &'a Row) -> bool
        ensures { result ≡ faults.is_duplicate self.now row.now }
    {
        match row {
            Row::Station(s) => self.stations.has(&s.name),
            Row::Resource(ws, name, _) => self.resources.has(ws, name),
            Row::Prompt(name, _) => self.prompts.has(name),
            Row::CarryForward(_) => self.carry,
            Row::Stream(s) => self.streams.has(&s.ws, &s.name),
            Row::Job(j) => self.jobs.has(&j.name),
            _ => false,
        }
    }

    /// The 257th workstation, the 65,536th resource or prompt, or the 65th dependency of an object.
    #[tactic(auto, unfolding(crate::specs::Faults::is_beyond))]
    pub(crate) fn is_beyond(&self, row: &Row) -> bool
        ensures { result ≡ faults.is_beyond self.now row.now }
    {
        match row {
            Row::Station(_) => self.counts.ws_lines >= 256,
            Row::Resource(_, _, _) => self.counts.resource_lines >= 65535,
            Row::Prompt(_, _) => self.counts.prompt_lines >= 65535,
            Row::Dep(_) => self.counts.deps >= 64,
            _ => false,
        }
    }

    /// Each section of a plan was taken above.
    pub(crate) fn has_no_plan(&self, row: &Row) -> bool
        ensures { result ≡ faults.has_no_plan self.now row.now }
    {
        is_next(row) && self.counts.plans <= self.counts.taken
    }
}
