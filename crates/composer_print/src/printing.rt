//! The canonical text of definitions.
ghost use Rattle.std.specs.Prelude.{◌≡◌, ◌++◌, IfOk, OnOk};
ghost use Rattle.composer_print.specs.Normal.{master_of, normal};
ghost use Rattle.composer_print.specs.Printed as spec;

use crate::groups::{write_calendars, write_jobs, write_prompts, write_resources};
use crate::masters::master;
use crate::options::write_options;
use crate::stations::{write_cpus, write_domains};
use crate::streams::write_schedules;
use base_types::{Bytes, Items, NoMemory, Text};
use composer_parser::Defs;
use std::alloc::Global;
use std::io;

/// The canonical text of definitions, that of their normal form. A name whose workstation they do not determine is
/// printed as it stands. `NoMemory` where memory runs out.
pub fn print_defs(alloc: Global, defs: &Defs) -> Result<Bytes, NoMemory>
    ensures { IfOk result (λ bytes. bytes ≡ spec.printed defs.now) }
{
    let master = master(defs.domains.as_slice())?;
    let mut out = Vec::new(alloc);
    match write_defs(&mut out, alloc, &master, defs) {
        Ok(()) => Ok(Items::of_vec(out)),
        Err(_) => Err(NoMemory),
    }
}

/// Writes the options, the workstations and the domains.
#[tactic(auto, unfolding(crate::specs::Printed::network_text, crate::specs::Normal::normal))]
fn write_network(out: &mut Vec<u8>, defs: &Defs) -> io::Result<()>
    ensures { OnOk result (out.new.items ≡ out.old.items ++ spec.network_text (normal defs.now)) }
{
    write_options(out, defs)?;
    write_cpus(out, defs.cpus.as_slice())?;
    write_domains(out, defs.domains.as_slice())
}

/// Writes the groups.
#[tactic(auto, unfolding(crate::specs::Printed::groups_text, crate::specs::Normal::normal))]
fn write_groups(out: &mut Vec<u8>, defs: &Defs) -> io::Result<()>
    ensures { OnOk result (out.new.items ≡ out.old.items ++ spec.groups_text (normal defs.now)) }
{
    write_calendars(out, defs.calendars.as_slice())?;
    write_prompts(out, defs.prompts.as_slice())?;
    write_resources(out, defs.resources.as_slice())?;
    write_jobs(out, defs.jobs.as_slice())
}

/// Writes the definitions, of which this is the master workstation.
#[tactic(auto, unfolding(crate::specs::Printed::printed, crate::specs::Printed::text_of, crate::specs::Normal::normal))]
fn write_defs(
    out: &mut Vec<u8>,
    alloc: Global,
    master: &Option<Text>,
    defs: &Defs,
) -> io::Result<()>
    requires { master.now ≡ master_of defs.now.domains }
    ensures { OnOk result (out.new.items ≡ out.old.items ++ spec.printed defs.now) }
{
    write_network(out, defs)?;
    write_groups(out, defs)?;
    write_schedules(out, alloc, master, defs.schedules.as_slice())
}
