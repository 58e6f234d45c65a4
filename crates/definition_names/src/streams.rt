//! Streams by workstation and name, and entries by stream and name.
ghost use Rattle.std.specs.Prelude.{◌≡◌, ◌==◌, ◌&&◌, ℕ, false, List, Option, IfOk, OnOk, if◌then◌else◌};
ghost use Rattle.std.specs.Option.{option_copied, option_or};
ghost use Rattle.std.specs.Str.{bytes_eq};
ghost use Rattle.composer_parser.specs.declared.Lined.{Lined as LinedOf};
ghost use Rattle.composer_parser.specs.declared.ScheduleDef.{ScheduleDef as Schedule};
ghost use Rattle.definition_names.specs.Streams.{stream_among, entry_at, is_one_ws};
ghost use Rattle.definition_names.specs.Indexes.{IsStreamIndex, IsEntryIndex, entry_in, stream_in};

use crate::firsts::{NameIndex, PairIndex, put_name, put_pair};
use base_types::{NoMemory, Text};
use composer_parser::{Lined, ScheduleDef};
use indexmap::IndexMap;
use std::alloc::Global;

/// Streams by workstation and name. Those without a workstation are together on a nameless one.
pub(crate) struct StreamIndex<'a> {
    placed: PairIndex<'a>,
    nameless: NameIndex<'a>,
}

/// Written out, so that dropping one is a call for whoever owns it.
impl<'a> Drop for StreamIndex<'a> {
    fn drop(self) {
        let StreamIndex {
            placed: _placed,
            nameless: _nameless,
        } = self;
    }
}

/// Entries by the number of their stream and their name.
pub(crate) type EntryIndex<'a> = IndexMap<(usize, &'a Text), usize>;

/// The workstation of a stream: the one that is written, or the master.
pub(crate) fn stream_ws<'a>(schedule: &'a ScheduleDef, master: Option<&'a Text>) -> Option<&'a Text>
    ensures { option_copied result ≡ option_or schedule.now.ws (option_copied master.entry) }
{
    match &schedule.ws {
        Some(ws) => Some(ws),
        None => master,
    }
}

impl<'a> StreamIndex<'a> {
    /// The place of the first stream of each workstation and name.
    pub(crate) fn of(
        alloc: Global,
        schedules: &'a [Lined<ScheduleDef>],
        master: Option<&'a Text>,
    ) -> Result<StreamIndex<'a>, NoMemory>
        ensures { IfOk result (λ index. IsStreamIndex index schedules.now (option_copied master.entry)) }
    {
        let mut index = StreamIndex {
            placed: IndexMap::new(alloc),
            nameless: IndexMap::new(alloc),
        };
        // From the last on, so that the first of a name stays.
        for i in (0..schedules.len()).rev() {
            let schedule = &schedules[i].item;
            index.put(stream_ws(schedule, master), &schedule.name, i)?;
        }
        Ok(index)
    }

    /// Puts a stream before the others: it takes the place of one of its workstation and name.
    fn put(&mut self, ws: Option<&'a Text>, name: &'a Text, place: usize) -> Result<(), NoMemory>
        ensures { OnOk result ((place_of : Option (List ℕ)) (n : List ℕ) →
            stream_in self.new place_of n ≡ (if is_one_ws place_of (option_copied ws.entry) && bytes_eq n name.now then Some place
            else stream_in self.old place_of n)) }
    {
        match ws {
            Some(ws) => put_pair(&mut self.placed, ws, name, place),
            None => put_name(&mut self.nameless, name, place),
        }
    }

    /// The place of the first stream of this workstation and name.
    pub(crate) fn at(&self, ws: Option<&'a Text>, name: &'a Text) -> Option<usize>
        ensures { (schedules : List (LinedOf Schedule)) (master : Option (List ℕ)) →
            IsStreamIndex self.now schedules master →
            result ≡ stream_among schedules master (option_copied ws.entry) name.now }
    {
        match ws {
            Some(ws) => self.placed.get(&(ws, name)).copied(),
            None => self.nameless.get(&name).copied(),
        }
    }
}

/// The place of the first entry of each name in its stream.
pub(crate) fn entry_index<'a>(
    alloc: Global,
    schedules: &'a [Lined<ScheduleDef>],
) -> Result<EntryIndex<'a>, NoMemory>
    ensures { IfOk result (λ index. IsEntryIndex index.entries schedules.now) }
{
    let mut index = IndexMap::new(alloc);
    for (n, schedule) in schedules.iter().enumerate() {
        put_entries(&mut index, n, &schedule.item)?;
    }
    Ok(index)
}

/// Puts the entries of a stream that has none there yet.
fn put_entries<'a>(
    index: &mut EntryIndex<'a>,
    n: usize,
    schedule: &'a ScheduleDef,
) -> Result<(), NoMemory>
    ensures others { OnOk result ((m : ℕ) (name : List ℕ) → m == n ≡ false →
        entry_in index.new.entries m name ≡ entry_in index.old.entries m name) }
    ensures own { OnOk result ((name : List ℕ) → entry_in index.old.entries n name ≡ None →
        entry_in index.new.entries n name ≡ entry_at schedule.now name) }
{
    let entries = schedule.entries.as_slice();
    for i in (0..entries.len()).rev() {
        put_entry(index, n, &entries[i].item.name, i)?;
    }
    Ok(())
}

/// Puts an entry of the stream at a place before the others: it takes the place of one of its name.
fn put_entry<'a>(
    index: &mut EntryIndex<'a>,
    n: usize,
    name: &'a Text,
    place: usize,
) -> Result<(), NoMemory>
    ensures { OnOk result ((m : ℕ) (other : List ℕ) → entry_in index.new.entries m other
        ≡ (if (m == n) && bytes_eq other name.now then Some place else entry_in index.old.entries m other)) }
{
    match index.insert((n, name), place) {
        Ok(_) => Ok(()),
        Err(_) => Err(NoMemory),
    }
}
