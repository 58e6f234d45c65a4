//! The names of definitions, looked up.
ghost use Rattle.std.specs.Prelude.{◌≡◌, IfOk};
ghost use Rattle.std.specs.Option.{option_copied};
ghost use Rattle.definition_names.specs.Stations as stations;
ghost use Rattle.definition_names.specs.Names as spec;
ghost use Rattle.definition_names.specs.Streams as streams;
ghost use Rattle.definition_names.specs.Targets as targets;

use crate::kinds::{NameTables, PairTables, name_tables, pair_tables};
use crate::streams::{EntryIndex, StreamIndex, entry_index, stream_ws};
use crate::targets::Target;
use base_types::{NoMemory, Text};
use composer_parser::{Defs, DomainDef, EntryDef, Lined, Pred, PredPart, ScheduleDef};
use std::alloc::Global;
use std::marker::Model;

/// Definitions with the tables of their names.
pub struct Names<'a> {
    defs: &'a Defs,
    master: Option<&'a Text>,
    alone: NameTables<'a>,
    placed: PairTables<'a>,
    streams: StreamIndex<'a>,
    entries: EntryIndex<'a>,
}

/// Written out, so that dropping one is a call for whoever owns it.
impl<'a> Drop for Names<'a> {
    fn drop(self) {
        let Names {
            defs: _defs,
            master: _master,
            alone: _alone,
            placed: _placed,
            streams: _streams,
            entries: _entries,
        } = self;
    }
}

impl<'a> Model for Names<'a> {
    ghost use Rattle.std.specs.Option.{option_copied};
    ghost use Rattle.composer_parser.specs.declared.Defs.{Defs as Definitions};
    ghost use Rattle.definition_names.specs.Indexes.{AreTables};

    ghost Value = { Definitions };

    ghost view = { λ n. n.defs.now };

    ghost invariant = { λ n. AreTables n.defs.now (option_copied n.master) n.alone n.placed n.streams n.entries.entries };
}

/// The manager of the one domain without a parent. None where there is no such domain or several.
fn master_of(domains: &[Lined<DomainDef>]) -> Option<&Text>
    ensures { option_copied result ≡ stations.master_among domains.now }
{
    let mut found = None;
    for domain in domains {
        if domain.item.parent.is_none() {
            if found.is_some() {
                return None;
            }
            found = Some(&domain.item.manager);
        }
    }
    found
}

impl<'a> Names<'a> {
    /// The names of these definitions.
    pub fn of(alloc: Global, defs: &'a Defs) -> Result<Names<'a>, NoMemory>
        ensures { IfOk result (λ names. names ≡ defs.now) }
    {
        let master = master_of(defs.domains.as_slice());
        let alone = name_tables(alloc, defs)?;
        let placed = pair_tables(alloc, defs)?;
        let streams = StreamIndex::of(alloc, defs.schedules.as_slice(), master)?;
        let entries = entry_index(alloc, defs.schedules.as_slice())?;
        Ok(Names {
            defs,
            master,
            alone,
            placed,
            streams,
            entries,
        })
    }

    /// The definitions.
    pub fn defs(&self) -> &'a Defs
        ensures { result.now ≡ self.now }
    {
        self.defs
    }

    /// The name of the master: the manager of the one domain without a parent. None where there is no such domain or
    /// several.
    pub fn master(&self) -> Option<&'a Text>
        ensures { option_copied result ≡ stations.master_of self.now }
    {
        self.master
    }

    /// The place of the workstation of this name, counted from 0.
    pub fn cpu(&self, name: &'a Text) -> Option<usize>
        ensures { result ≡ spec.cpu_at self.now name.now }
    {
        self.alone.cpus.get(&name).copied()
    }

    /// The place of the domain of this name.
    pub fn domain(&self, name: &'a Text) -> Option<usize>
        ensures { result ≡ spec.domain_at self.now name.now }
    {
        self.alone.domains.get(&name).copied()
    }

    /// The place of the calendar of this name.
    pub fn calendar(&self, name: &'a Text) -> Option<usize>
        ensures { result ≡ spec.calendar_at self.now name.now }
    {
        self.alone.calendars.get(&name).copied()
    }

    /// The place of the prompt of this name.
    pub fn prompt(&self, name: &'a Text) -> Option<usize>
        ensures { result ≡ spec.prompt_at self.now name.now }
    {
        self.alone.prompts.get(&name).copied()
    }

    /// The place of the resource of this name on a workstation.
    pub fn resource(&self, ws: &'a Text, name: &'a Text) -> Option<usize>
        ensures { result ≡ spec.resource_at self.now ws.now name.now }
    {
        self.placed.resources.get(&(ws, name)).copied()
    }

    /// The place of the job of this name on a workstation, among those of `$JOBS`.
    pub fn job(&self, ws: &'a Text, name: &'a Text) -> Option<usize>
        ensures { result ≡ spec.job_at self.now ws.now name.now }
    {
        self.placed.jobs.get(&(ws, name)).copied()
    }

    /// The workstation of a stream: the one that is written, or the master. None where there is no one master.
    pub fn ws_of_stream(&self, schedule: &'a ScheduleDef) -> Option<&'a Text>
        ensures { option_copied result ≡ stations.ws_of_stream self.now schedule.now }
    {
        stream_ws(schedule, self.master)
    }

    /// The workstation of an entry of a stream: the one that is written, or that of the stream.
    pub fn ws_of_entry(&self, schedule: &'a ScheduleDef, entry: &'a EntryDef) -> Option<&'a Text>
        ensures { option_copied result ≡ stations.ws_of_entry self.now schedule.now entry.now }
    {
        match &entry.ws {
            Some(ws) => Some(ws),
            None => self.ws_of_stream(schedule),
        }
    }

    /// The place of the stream of this workstation and name. Streams without a workstation are together on a nameless
    /// one where there is no one master.
    pub fn stream(&self, ws: Option<&'a Text>, name: &'a Text) -> Option<usize>
        ensures { result ≡ streams.stream_at self.now (option_copied ws.entry) name.now }
    {
        self.streams.at(ws, name)
    }

    /// The place, in its stream, of the entry of this name in the stream at a place.
    pub fn entry(&self, stream: usize, name: &'a Text) -> Option<usize>
        ensures { result ≡ streams.entry_of self.now stream name.now }
    {
        self.entries.get(&(stream, name)).copied()
    }

    /// What a FOLLOWS means in the stream at a place: in one of its entries where `inside`, and else in its header. None
    /// where it stands for nothing.
    pub fn target(&self, stream: usize, inside: bool, pred: &'a Pred) -> Option<Target>
        ensures { result ≡ targets.target_of self.now stream inside pred.now }
    {
        if inside && is_bare(pred) {
            if let Some(entry) = self.entry(stream, &pred.name) {
                return Some(Target::Job(stream, entry));
            }
        }
        let followed = self.stream(self.ws_of_pred(stream, pred), &pred.name)?;
        match &pred.part {
            PredPart::Plain | PredPart::All => Some(Target::Stream(followed)),
            PredPart::Job(name) => {
                let entry = self.entry(followed, name)?;
                Some(Target::Job(followed, entry))
            }
        }
    }

    /// The workstation of what a FOLLOWS names: the one that is written, or that of the stream in which it stands.
    pub fn ws_of_pred(&self, stream: usize, pred: &'a Pred) -> Option<&'a Text>
        ensures { option_copied result ≡ targets.ws_of_pred self.now stream pred.now }
    {
        if let Some(ws) = &pred.ws {
            return Some(ws);
        }
        match self.defs.schedules.get(stream) {
            Some(schedule) => self.ws_of_stream(&schedule.item),
            None => self.master,
        }
    }
}

/// Whether the FOLLOWS is one name alone.
fn is_bare(pred: &Pred) -> bool
    ensures { result ≡ targets.is_bare pred.now }
{
    pred.ws.is_none() && matches!(pred.part, PredPart::Plain)
}
