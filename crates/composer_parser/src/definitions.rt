//! Definitions, as a text has them. Their drops are written out, so that dropping one is a call for whoever owns it.
use crate::schedules::ScheduleDef;
use base_types::{Carry, Items, PromptDef, Recovery, Text, Work};

/// An item, and the line of its first token.
pub struct Lined<T> {
    pub line: u32,
    pub item: T,
}

impl<T: Drop> Drop for Lined<T> {
    fn drop(self) {
        let Lined {
            line: _line,
            item: _item,
        } = self;
    }
}

/// The definitions of a text, each kind in the order of the text.
pub struct Defs {
    /// The line that has the text's last byte, and 1 for the empty text.
    pub last_line: u32,
    /// When a day begins, in minutes after 0000.
    pub start: Option<Lined<u16>>,
    pub zone: Option<Lined<Text>>,
    pub carry: Option<Lined<Carry>>,
    pub cpus: Items<Lined<CpuDef>>,
    pub domains: Items<Lined<DomainDef>>,
    pub calendars: Items<Lined<CalendarDef>>,
    pub prompts: Items<Lined<PromptDef>>,
    pub resources: Items<Lined<ResourceDef>>,
    pub jobs: Items<Lined<JobDef>>,
    pub schedules: Items<Lined<ScheduleDef>>,
}

impl Drop for Defs {
    fn drop(self) {
        let Defs {
            last_line: _last_line,
            start: _start,
            zone: _zone,
            carry: _carry,
            cpus: _cpus,
            domains: _domains,
            calendars: _calendars,
            prompts: _prompts,
            resources: _resources,
            jobs: _jobs,
            schedules: _schedules,
        } = self;
    }
}

/// A workstation.
pub struct CpuDef {
    pub name: Text,
    pub os: Text,
    pub host: Text,
    /// A number above 4,294,967,295 is kept as that.
    pub port: Option<u32>,
    pub domain: Text,
    /// Whether its type is MANAGER.
    pub manager: bool,
    pub autolink: Option<bool>,
    pub full: Option<bool>,
}

impl Drop for CpuDef {
    fn drop(self) {
        let CpuDef {
            name: _name,
            os: _os,
            host: _host,
            port: _port,
            domain: _domain,
            manager: _manager,
            autolink: _autolink,
            full: _full,
        } = self;
    }
}

/// A domain. The one without a parent is the master domain.
pub struct DomainDef {
    pub name: Text,
    pub manager: Text,
    pub parent: Option<Text>,
}

impl Drop for DomainDef {
    fn drop(self) {
        let DomainDef {
            name: _name,
            manager: _manager,
            parent: _parent,
        } = self;
    }
}

/// A calendar, with the numbers of its days, counted from 01/01/1970 as 0.
pub struct CalendarDef {
    pub name: Text,
    pub text: Option<Text>,
    pub days: Items<u32>,
}

impl Drop for CalendarDef {
    fn drop(self) {
        let CalendarDef {
            name: _name,
            text: _text,
            days: _days,
        } = self;
    }
}

/// A resource of one workstation.
pub struct ResourceDef {
    pub ws: Text,
    pub name: Text,
    /// A number above 4,294,967,295 is kept as that.
    pub total: u32,
    pub text: Option<Text>,
}

impl Drop for ResourceDef {
    fn drop(self) {
        let ResourceDef {
            ws: _ws,
            name: _name,
            total: _total,
            text: _text,
        } = self;
    }
}

/// What a job runs.
pub struct WorkDef {
    pub work: Work,
    pub logon: Option<Text>,
    pub cond: Option<Text>,
    pub recovery: Recovery,
}

impl Drop for WorkDef {
    fn drop(self) {
        let WorkDef {
            work: _work,
            logon: _logon,
            cond: _cond,
            recovery: _recovery,
        } = self;
    }
}

/// A job of one workstation.
pub struct JobDef {
    pub ws: Text,
    pub name: Text,
    pub work: WorkDef,
}

impl Drop for JobDef {
    fn drop(self) {
        let JobDef {
            ws: _ws,
            name: _name,
            work: _work,
        } = self;
    }
}
