//! Streams, as a text has them. Their drops are written out, so that dropping one is a call for whoever owns it.
use crate::clauses::Clause;
use crate::definitions::{Lined, WorkDef};
use base_types::{Items, Text};

/// The free days of a stream.
pub struct FreeDef {
    pub name: Text,
    pub minus_sa: bool,
    pub minus_su: bool,
}

impl Drop for FreeDef {
    fn drop(self) {
        let FreeDef {
            name: _name,
            minus_sa: _minus_sa,
            minus_su: _minus_su,
        } = self;
    }
}

/// A run cycle, between its first day and its last.
pub struct CycleDef {
    pub name: Text,
    pub first: Option<u32>,
    pub last: Option<u32>,
}

impl Drop for CycleDef {
    fn drop(self) {
        let CycleDef {
            name: _name,
            first: _first,
            last: _last,
        } = self;
    }
}

/// Which days an offset counts.
#[derive(Clone, Copy)]
pub enum OffsetUnit {
    Days,
    Weekdays,
    Workdays,
}

/// So many days behind a date, or before it.
#[derive(Clone, Copy)]
pub struct Offset {
    pub plus: bool,
    pub n: u32,
    pub unit: OffsetUnit,
}

/// Days on which a stream runs.
pub enum OnItem {
    /// 0 is MO and 6 is SU.
    Weekday(u8),
    EveryDay,
    Weekdays,
    Workdays,
    FreeDays,
    Request,
    Date(u32),
    /// A rule, as it is written.
    Rule(Text),
    Calendar(Text, Option<Offset>),
}

impl Drop for OnItem {
    fn drop(self) {
        match self {
            OnItem::Weekday(_a) => {}
            OnItem::EveryDay => {}
            OnItem::Weekdays => {}
            OnItem::Workdays => {}
            OnItem::FreeDays => {}
            OnItem::Request => {}
            OnItem::Date(_a) => {}
            OnItem::Rule(_a) => {}
            OnItem::Calendar(_a, _b) => {}
        }
    }
}

/// What becomes of a free day.
#[derive(Clone, Copy)]
pub enum Shift {
    /// It is dropped.
    Ignore,
    /// The next workday comes in its place.
    Next,
    /// The last workday before it does.
    Prev,
}

/// An ON, or an EXCEPT.
pub struct OnDef {
    pub except: bool,
    pub cycle: Option<CycleDef>,
    pub items: Items<OnItem>,
    pub shift: Option<Shift>,
}

impl Drop for OnDef {
    fn drop(self) {
        let OnDef {
            except: _except,
            cycle: _cycle,
            items: _items,
            shift: _shift,
        } = self;
    }
}

/// A job of a stream, which is one of `$JOBS` where it has no work of its own.
pub struct EntryDef {
    pub ws: Option<Text>,
    pub name: Text,
    pub work: Option<WorkDef>,
    pub clauses: Items<Lined<Clause>>,
}

impl Drop for EntryDef {
    fn drop(self) {
        let EntryDef {
            ws: _ws,
            name: _name,
            work: _work,
            clauses: _clauses,
        } = self;
    }
}

/// A stream.
pub struct ScheduleDef {
    pub ws: Option<Text>,
    pub name: Text,
    pub free: Option<FreeDef>,
    pub ons: Items<Lined<OnDef>>,
    pub clauses: Items<Lined<Clause>>,
    pub entries: Items<Lined<EntryDef>>,
}

impl Drop for ScheduleDef {
    fn drop(self) {
        let ScheduleDef {
            ws: _ws,
            name: _name,
            free: _free,
            ons: _ons,
            clauses: _clauses,
            entries: _entries,
        } = self;
    }
}
