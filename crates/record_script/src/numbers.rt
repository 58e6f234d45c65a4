//! The numbers of what a record names.
ghost use Rattle.std.specs.Prelude.{◌≡◌, IfOk, bytes_eq};
ghost use Rattle.record_script.specs.Numbers as spec;
ghost use Rattle.record_script.specs.Counted.{AreNew, AreNumbers};

use crate::names::{Keys, Names};
use base_types::{NoMemory, Text, Ws};
use record_faults::{prompt_of, resource_of, station_name};
use record_rows::Row;
use std::alloc::Global;
use std::marker::Model;

/// The workstations, resources and prompts of a record, by their numbers.
pub(crate) struct Numbers<'a> {
    stations: Names<'a>,
    resources: Keys<'a>,
    prompts: Names<'a>,
}

impl<'a> Drop for Numbers<'a> {
    fn drop(self) {
        let Numbers {
            stations: _stations,
            resources: _resources,
            prompts: _prompts,
        } = self;
    }
}

impl<'a> Model for Numbers<'a> {
    ghost use Rattle.record_script.specs.Numbers.{Numbered};

    ghost Value = { Numbered };

    ghost view = { λ n. record { stations = n.stations; resources = n.resources; prompts = n.prompts } };
}

/// Workstations that are defined elsewhere.
fn listed<'a>(alloc: Global, list: &'a [Text]) -> Result<Names<'a>, NoMemory>
    requires { AreNew bytes_eq list.now }
    ensures { IfOk result (λ names. names ≡ list.now) }
{
    let mut names = Names::new(alloc);
    for name in list {
        names.add(name)?;
    }
    Ok(names)
}

impl<'a> Numbers<'a> {
    /// The numbers of what rows name, in one pass over them. The only error is that memory ran out.
    pub(crate) fn of_rows(alloc: Global, rows: &'a [Row]) -> Result<Numbers<'a>, NoMemory>
        requires { AreNumbers rows.now }
        ensures { IfOk result (λ n. n ≡ spec.numbered rows.now) }
    {
        let mut stations = Names::new(alloc);
        let mut resources = Keys::new(alloc);
        let mut prompts = Names::new(alloc);
        for row in rows {
            stations.add_some(station_name(row))?;
            resources.add_some(resource_of(row))?;
            prompts.add_some(prompt_of(row))?;
        }
        Ok(Numbers {
            stations,
            resources,
            prompts,
        })
    }

    /// The numbers of workstations that are defined elsewhere, in the order of their names, without resources and prompts.
    /// The only error is that memory ran out.
    pub(crate) fn of_names(alloc: Global, names: &'a [Text]) -> Result<Numbers<'a>, NoMemory>
        requires { AreNew bytes_eq names.now }
        ensures { IfOk result (λ n. n ≡ spec.numbered_by names.now) }
    {
        let stations = listed(alloc, names)?;
        Ok(Numbers {
            stations,
            resources: Keys::new(alloc),
            prompts: Names::new(alloc),
        })
    }

    /// The number of a workstation, from 0.
    pub(crate) fn ws(&self, name: &'a Text) -> Ws
        ensures { result ≡ spec.ws_no self.now name.now }
    {
        Ws(self.stations.place(name))
    }

    /// The number of a resource, from 1.
    pub(crate) fn resource(&self, ws: &'a Text, name: &'a Text) -> u16
        ensures { result ≡ spec.resource_no self.now (ws.now, name.now) }
    {
        self.resources.place(ws, name) + 1
    }

    /// The number of a prompt, from 1.
    pub(crate) fn prompt(&self, name: &'a Text) -> u16
        ensures { result ≡ spec.prompt_no self.now name.now }
    {
        self.prompts.place(name) + 1
    }
}
