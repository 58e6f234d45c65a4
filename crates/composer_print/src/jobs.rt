//! The names of a stream's jobs.
ghost use Rattle.std.specs.Prelude.{◌≡◌, ◌||◌, [], IfOk, OnOk, List, ℕ};
ghost use Rattle.std.specs.Str.{bytes_eq};
ghost use Rattle.composer_print.specs.Normal.{entry_names};
ghost use Rattle.composer_print.specs.Scopes.{has_name};
ghost use Rattle.composer_print.specs.Steps.{has_key};

use base_types::Text;
use composer_parser::{EntryDef, Lined};
use indexmap::IndexSet;
use std::alloc::{AllocError, Global};
use std::marker::Model;

/// The names of a stream's jobs, which contracts see as their list.
#[derive(Drop)]
pub(crate) struct Jobs<'a> {
    entries: &'a [Lined<EntryDef>],
    names: IndexSet<&'a Text>,
}

impl<'a> Model for Jobs<'a> {
    ghost use Rattle.std.specs.Prelude.{◌≡◌, List, ℕ};
    ghost use Rattle.composer_print.specs.Normal.{entry_names};
    ghost use Rattle.composer_print.specs.Scopes.{has_name};
    ghost use Rattle.composer_print.specs.Steps.{has_key};

    ghost Value = { List (List ℕ) };

    ghost view = { λ jobs. entry_names jobs.entries.now };

    ghost invariant = { λ jobs. (n : List ℕ) → has_key jobs.names.keys n ≡ has_name (entry_names jobs.entries.now) n };
}

impl<'a> Jobs<'a> {
    /// The jobs of these entries.
    pub(crate) fn of(alloc: Global, entries: &'a [Lined<EntryDef>]) -> Result<Jobs<'a>, AllocError>
        ensures { IfOk result (λ jobs. jobs ≡ entry_names entries.now) }
    {
        let names = names_of(alloc, entries)?;
        Ok(Jobs { entries, names })
    }

    /// Whether one of the jobs has this name.
    pub(crate) fn has(&self, name: &'a Text) -> bool
        ensures { result ≡ has_name self.now name.now }
    {
        self.names.contains(&name)
    }
}

/// One name more.
fn put_name<'a>(names: &mut IndexSet<&'a Text>, name: &'a Text) -> Result<(), AllocError>
    ensures { OnOk result ((n : List ℕ) → has_key names.new.keys n ≡ (has_key names.old.keys n || bytes_eq n name.now)) }
{
    match names.insert(name) {
        Ok(_) => Ok(()),
        Err(_) => Err(AllocError),
    }
}

fn names_of<'a>(
    alloc: Global,
    entries: &'a [Lined<EntryDef>],
) -> Result<IndexSet<&'a Text>, AllocError>
    ensures { IfOk result (λ names. (n : List ℕ) → has_key names.keys n ≡ has_name (entry_names entries.now) n) }
{
    let mut names = IndexSet::new(alloc);
    for entry in entries {
        put_name(&mut names, &entry.item.name)?;
    }
    Ok(names)
}
