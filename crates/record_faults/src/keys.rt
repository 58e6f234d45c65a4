//! Names on workstations that rows define.
ghost use Rattle.std.specs.Prelude.{◌≡◌, ◌||◌, [], OnOk, option_map};
ghost use Rattle.record_faults.specs.Known.{Key, key_eq, has_key};
ghost use Rattle.record_faults.specs.Noted.{is_key};

use base_types::{NoMemory, Text};
use indexmap::IndexSet;
use std::alloc::Global;
use std::marker::Model;

/// Names on workstations, each once, in the order in which they were put.
pub(crate) struct Keys<'a> {
    set: IndexSet<(&'a Text, &'a Text)>,
}

impl<'a> Drop for Keys<'a> {
    fn drop(self) {
        let Keys { set: _set } = self;
    }
}

impl<'a> Model for Keys<'a> {
    ghost use Rattle.std.specs.Prelude.{List, map};
    ghost use Rattle.record_faults.specs.Known.{Key};

    ghost Value = { List Key };

    ghost view = { λ n. map (λ k. (k.0.now, k.1.now)) n.set.keys };
}

impl<'a> Keys<'a> {
    pub(crate) fn new(alloc: Global) -> Keys<'a>
        ensures { result ≡ [] }
    {
        Keys {
            set: IndexSet::new(alloc),
        }
    }

    pub(crate) fn has(&self, ws: &'a Text, name: &'a Text) -> bool
        ensures { result ≡ has_key self.now (ws.now, name.now) }
    {
        self.set.contains(&(ws, name))
    }

    /// Puts a name on a workstation, which may be there already.
    fn put(&mut self, ws: &'a Text, name: &'a Text) -> Result<(), NoMemory>
        ensures { OnOk result ((k : Key) → has_key self.new k ≡ (has_key self.old k || key_eq k (ws.now, name.now))) }
    {
        match self.set.insert((ws, name)) {
            Ok(_) => Ok(()),
            Err(_) => Err(NoMemory),
        }
    }

    /// Puts a name on a workstation where there is one.
    pub(crate) fn note(&mut self, key: Option<(&'a Text, &'a Text)>) -> Result<(), NoMemory>
        ensures { OnOk result ((k : Key) →
            has_key self.new k ≡ (has_key self.old k || is_key (option_map (λ t. (t.0.now, t.1.now)) key.entry) k)) }
    {
        match key {
            Some((ws, name)) => self.put(ws, name),
            None => Ok(()),
        }
    }
}
