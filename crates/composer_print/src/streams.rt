//! Streams and their entries.
ghost use Rattle.std.specs.Prelude.{◌≡◌, ◌++◌, [], OnOk, map, flat_map};
ghost use Rattle.composer_print.specs.Clauses.{clauses_text};
ghost use Rattle.composer_print.specs.Scopes.{normal_clauses};
ghost use Rattle.composer_print.specs.Normal.{all_unlined, normal_entry, normal_schedule};
ghost use Rattle.composer_print.specs.Streams as spec;
ghost use Rattle.composer_print.specs.Streams.{items};

use crate::clauses::write_clauses;
use crate::jobs::Jobs;
use crate::ons::write_ons;
use crate::scopes::{or_home, write_name};
use crate::works::write_work;
use base_types::Text;
use composer_parser::{Clause, EntryDef, FreeDef, Lined, ScheduleDef, WorkDef};
use std::alloc::Global;
use std::io::{self, Write};

fn write_flag(out: &mut Vec<u8>, stands: bool, text: &str) -> io::Result<()>
    ensures { OnOk result (out.new.items ≡ out.old.items ++ spec.flag_text stands text.now) }
{
    if stands {
        return write!(out, "{text}");
    }
    Ok(())
}

#[tactic(auto, unfolding(crate::specs::Streams::free_text))]
fn write_free(out: &mut Vec<u8>, free: &Option<FreeDef>) -> io::Result<()>
    ensures { OnOk result (out.new.items ≡ out.old.items ++ spec.free_text free.now) }
{
    match free {
        None => Ok(()),
        Some(found) => {
            write!(out, " FREEDAYS {}", found.name.as_str())?;
            write_flag(out, found.minus_sa, " -SA")?;
            write_flag(out, found.minus_su, " -SU")
        }
    }
}

#[tactic(auto, unfolding(crate::specs::Streams::own_work_text))]
fn write_own_work(out: &mut Vec<u8>, work: &Option<WorkDef>) -> io::Result<()>
    ensures { OnOk result (out.new.items ≡ out.old.items ++ spec.own_work_text work.now) }
{
    match work {
        None => Ok(()),
        Some(found) => write_work(out, found),
    }
}

/// Writes an entry of a stream with these jobs and this workstation.
#[tactic(auto, unfolding(crate::specs::Streams::entry_line, crate::specs::Normal::normal_entry))]
fn write_entry<'a>(
    out: &mut Vec<u8>,
    jobs: &Jobs<'a>,
    home: &'a Option<Text>,
    entry: &'a Lined<EntryDef>,
) -> io::Result<()>
    ensures { OnOk result (out.new.items ≡ out.old.items ++ spec.entry_line (normal_entry jobs.now home.now entry.now).item) }
{
    let own = or_home(&entry.item.ws, home);
    write_name(out, own, &entry.item.name)?;
    write_own_work(out, &entry.item.work)?;
    write_clauses(out, jobs, home, own, entry.item.clauses.as_slice())?;
    write!(out, "\n")
}

fn write_entries<'a>(
    out: &mut Vec<u8>,
    jobs: &Jobs<'a>,
    home: &'a Option<Text>,
    entries: &'a [Lined<EntryDef>],
) -> io::Result<()>
    ensures { OnOk result (out.new.items ≡ out.old.items
        ++ flat_map spec.entry_line (items (map (normal_entry jobs.now home.now) entries.now))) }
{
    for entry in entries {
        write_entry(out, jobs, home, entry)?;
    }
    Ok(())
}

/// Writes the clauses of a stream's header, in which one name alone is never a job.
fn write_own_clauses<'a>(
    out: &mut Vec<u8>,
    alloc: Global,
    home: &'a Option<Text>,
    clauses: &'a [Lined<Clause>],
) -> io::Result<()>
    ensures { OnOk result (out.new.items ≡ out.old.items
        ++ clauses_text (items (all_unlined (normal_clauses [] home.now home.now (items clauses.now))))) }
{
    let none = Jobs::of(alloc, &[])?;
    write_clauses(out, &none, home, home, clauses)
}

/// Writes the header of a stream, which is on the master where it has no workstation.
#[tactic(auto, unfolding(crate::specs::Streams::header_line, crate::specs::Normal::normal_schedule))]
fn write_header<'a>(
    out: &mut Vec<u8>,
    alloc: Global,
    master: &'a Option<Text>,
    schedule: &'a Lined<ScheduleDef>,
) -> io::Result<()>
    ensures { OnOk result (out.new.items ≡ out.old.items ++ spec.header_line (normal_schedule master.now schedule.now).item) }
{
    let item = &schedule.item;
    let home = or_home(&item.ws, master);
    write!(out, "SCHEDULE ")?;
    write_name(out, home, &item.name)?;
    write_free(out, &item.free)?;
    write_ons(out, item.ons.as_slice())?;
    write_own_clauses(out, alloc, home, item.clauses.as_slice())?;
    write!(out, " :\n")
}

/// Writes the entries of a stream, and its end.
#[tactic(auto, unfolding(crate::specs::Streams::entry_lines, crate::specs::Normal::normal_schedule))]
fn write_body<'a>(
    out: &mut Vec<u8>,
    alloc: Global,
    master: &'a Option<Text>,
    schedule: &'a Lined<ScheduleDef>,
) -> io::Result<()>
    ensures { OnOk result (out.new.items ≡ out.old.items
        ++ spec.entry_lines (items (normal_schedule master.now schedule.now).item.entries)) }
{
    let item = &schedule.item;
    let home = or_home(&item.ws, master);
    let jobs = Jobs::of(alloc, item.entries.as_slice())?;
    write_entries(out, &jobs, home, item.entries.as_slice())?;
    write!(out, "END\n")
}

/// Writes a stream, which is on the master where it has no workstation.
#[tactic(auto, unfolding(crate::specs::Streams::schedule_lines))]
fn write_schedule<'a>(
    out: &mut Vec<u8>,
    alloc: Global,
    master: &'a Option<Text>,
    schedule: &'a Lined<ScheduleDef>,
) -> io::Result<()>
    ensures { OnOk result (out.new.items ≡ out.old.items ++ spec.schedule_lines (normal_schedule master.now schedule.now).item) }
{
    write_header(out, alloc, master, schedule)?;
    write_body(out, alloc, master, schedule)
}

/// Writes the streams.
pub(crate) fn write_schedules<'a>(
    out: &mut Vec<u8>,
    alloc: Global,
    master: &'a Option<Text>,
    schedules: &'a [Lined<ScheduleDef>],
) -> io::Result<()>
    ensures { OnOk result (out.new.items ≡ out.old.items
        ++ flat_map (λ s. spec.schedule_lines s.item) (map (normal_schedule master.now) schedules.now)) }
{
    for schedule in schedules {
        write_schedule(out, alloc, master, schedule)?;
    }
    Ok(())
}
