//! Histories as they are read, and why a text is none.
ghost use Rattle.std.specs.Prelude.{◌≡◌};
ghost use Rattle.history_script.specs.declared.histories.HistoryFault.TheVariants.{NoMemory as NoRoom};

use base_types::{Entries, Net, NoMemory, Starts};
use record_faults::ScriptKind;

/// A network, the entries that were made over it, and the launches that were started, each in order.
pub struct HistoryText {
    pub net: Net,
    pub entries: Entries,
    pub starts: Starts,
}

impl Drop for HistoryText {
    fn drop(self) {
        let HistoryText {
            net: _net,
            entries: _entries,
            starts: _starts,
        } = self;
    }
}

impl HistoryText {
    /// The network, the entries and the starts, each by itself.
    pub fn into_parts(self) -> (Net, Entries, Starts)
        ensures net { result.0 ≡ self.net }
        ensures entries { result.1 ≡ self.entries }
        ensures starts { result.2 ≡ self.starts }
    {
        let HistoryText {
            net,
            entries,
            starts,
        } = self;
        (net, entries, starts)
    }
}

/// What is wrong with a line of a history.
#[derive(Clone, Copy, Debug)]
pub enum HistoryKind {
    /// What is wrong with lines of records too: of the network any kind that its lines have there, and behind it
    /// `BadLine`, `UnknownName` or `OutOfRange`.
    OfRecord(ScriptKind),
    /// The digits are no entry's bytes, or the entry names a workstation outside the network.
    BadEntry,
}

/// Why a text is no history.
#[derive(Clone, Copy, Debug)]
pub enum HistoryFault {
    /// The lowest faulty line, from 1, and the first kind of its faults.
    At(u32, HistoryKind),
    /// Memory ran out.
    NoMemory,
}

impl From<NoMemory> for HistoryFault {
    ghost from_gives = { λ _ fault. fault ≡ NoRoom };

    fn from(_error: NoMemory) -> HistoryFault {
        HistoryFault::NoMemory
    }
}
