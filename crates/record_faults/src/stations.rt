//! The workstations that rows define.
ghost use Rattle.std.specs.Prelude.{◌≡◌, ◌++◌, [], IfOk, OnOk, bytes_eq, is_none, map, option_map};
ghost use Rattle.std.specs.List.{cons_option};
ghost use Rattle.std.specs.Option.{option_copied};
ghost use Rattle.record_faults.specs.Known as spec;

use base_types::{NoMemory, Text};
use record_rows::Row;
use std::alloc::Global;
use std::marker::Model;

/// A workstation as its row has it.
#[derive(Drop)]
pub struct Found<'a> {
    name: &'a Text,
    /// None for the master.
    hop: Option<&'a Text>,
    manager: bool,
}

impl<'a> Model for Found<'a> {
    ghost use Rattle.std.specs.Prelude.{option_map};
    ghost use Rattle.record_faults.specs.Known.{Station};

    ghost Value = { Station };

    ghost view = { λ f. record { name = f.name.now; hop = option_map (λ h. h.now) f.hop; manager = f.manager } };
}

impl<'a> Found<'a> {
    pub(crate) fn name(&self) -> &'a Text
        ensures { result.now ≡ self.now.name }
    {
        self.name
    }

    pub(crate) fn hop(&self) -> Option<&'a Text>
        ensures { option_map (λ h. h.now) result ≡ self.now.hop }
    {
        self.hop
    }

    /// Whether it is the master, which has no hop.
    pub(crate) fn is_top(&self) -> bool
        ensures { result ≡ is_none self.now.hop }
    {
        match self.hop {
            Some(_) => false,
            None => true,
        }
    }

    pub(crate) fn is_called(&self, name: &Text) -> bool
        ensures { result ≡ bytes_eq self.now.name name.now }
    {
        self.name == name
    }
}

/// The workstation that a row defines.
fn station_of<'a>(row: &'a Row) -> Option<Found<'a>>
    ensures { result ≡ spec.station_of row.now }
{
    match row {
        Row::Master(name) => Some(Found {
            name,
            hop: None,
            manager: true,
        }),
        Row::Station(s) => Some(Found {
            name: &s.name,
            hop: Some(&s.hop),
            manager: s.manager,
        }),
        _ => None,
    }
}

/// Puts the workstation that a row defines behind others.
pub(crate) fn add_station<'a>(all: &mut Vec<Found<'a>>, row: &'a Row) -> Result<(), NoMemory>
    ensures { OnOk result (all.new.items ≡ all.old.items ++ cons_option (spec.station_of row.now) []) }
{
    match station_of(row) {
        Some(found) => Ok(all.push(found)?),
        None => Ok(()),
    }
}

/// Workstations with these names, of whose hops nothing is known.
pub(crate) fn unlinked<'a>(alloc: Global, names: &'a [Text]) -> Result<Vec<Found<'a>>, NoMemory>
    ensures { IfOk result (λ v. v.items ≡ map spec.unlinked names.now) }
{
    let mut all = Vec::new(alloc);
    for name in names {
        all.push(Found {
            name,
            hop: None,
            manager: false,
        })?;
    }
    Ok(all)
}

/// Whether a workstation has the name.
pub(crate) fn is_station(all: &[Found<'_>], name: &Text) -> bool
    ensures { result ≡ spec.is_station all.now name.now }
{
    all.iter().any(|s| s.name == name)
}

/// The first workstation of the name.
fn station_at<'s, 'a>(all: &'s [Found<'a>], name: &Text) -> Option<&'s Found<'a>>
    ensures { option_copied result ≡ spec.station_at all.now name.now }
{
    for s in all {
        if s.name == name {
            return Some(s);
        }
    }
    None
}

/// Whether the first workstation of the name is a manager.
pub(crate) fn is_manager(all: &[Found<'_>], name: &Text) -> bool
    ensures { result ≡ spec.is_manager all.now name.now }
{
    match station_at(all, name) {
        Some(s) => s.manager,
        None => false,
    }
}

/// Whether the name is that of the master.
pub(crate) fn is_master(all: &[Found<'_>], name: &Text) -> bool
    ensures { result ≡ spec.is_master all.now name.now }
{
    match all {
        [master, ..] => master.name == name,
        [] => false,
    }
}
