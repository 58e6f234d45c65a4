//! Names that rows define, by their numbers.
ghost use Rattle.std.specs.Prelude.{◌≡◌, ◌<◌, ◌≤◌, ◌++◌, ◌∷◌, ℕ, List, [], OnOk, Some, bytes_eq, false, length, option_map};
ghost use Rattle.std.specs.List.{cons_option};
ghost use Rattle.record_faults.specs.Known.{Key, has_key, has_name, key_eq};
ghost use Rattle.record_script.specs.Counted.{IsNext};
ghost use Rattle.record_script.specs.Numbers as spec;

use base_types::{NoMemory, Text};
use indexmap::IndexSet;
use std::alloc::Global;
use std::marker::Model;

/// Names, each once, in the order in which they were added.
pub(crate) struct Names<'a> {
    set: IndexSet<&'a Text>,
}

impl<'a> Drop for Names<'a> {
    fn drop(self) {
        let Names { set: _set } = self;
    }
}

impl<'a> Model for Names<'a> {
    ghost use Rattle.std.specs.Prelude.{List, ℕ, ◌≤◌, length, map};

    ghost Value = { List (List ℕ) };

    ghost view = { λ n. map (λ k. k.now) n.set.keys };

    ghost invariant = { λ n. length n.set.keys ≤ 65535 };
}

impl<'a> Names<'a> {
    pub(crate) fn new(alloc: Global) -> Names<'a>
        ensures { result ≡ [] }
    {
        Names {
            set: IndexSet::new(alloc),
        }
    }

    /// Adds a name that is not there.
    pub(crate) fn add(&mut self, name: &'a Text) -> Result<(), NoMemory>
        requires few { length self.old < 65535 }
        requires other { has_name self.old name.now ≡ false }
        ensures { OnOk result (self.new ≡ self.old ++ name.now ∷ []) }
    {
        match self.set.insert(name) {
            Ok(_) => Ok(()),
            Err(_) => Err(NoMemory),
        }
    }

    /// Adds a name that is not there, where there is one.
    pub(crate) fn add_some(&mut self, name: Option<&'a Text>) -> Result<(), NoMemory>
        requires { (n : List ℕ) → option_map (λ t. t.now) name ≡ Some n → IsNext bytes_eq self.old n }
        ensures { OnOk result (self.new ≡ self.old ++ cons_option (option_map (λ t. t.now) name.entry) []) }
    {
        match name {
            Some(name) => self.add(name),
            None => Ok(()),
        }
    }

    /// The place of a name, from 0. A name that is not there gives 0.
    pub(crate) fn place(&self, name: &'a Text) -> u16
        ensures value { result ≡ spec.place_of self.now name.now }
        ensures small { result < 65535 }
    {
        match self.set.get_index_of(&name) {
            Some(place) => place as u16,
            None => 0,
        }
    }
}

/// Names on workstations, each once, in the order in which they were added.
pub(crate) struct Keys<'a> {
    set: IndexSet<(&'a Text, &'a Text)>,
}

impl<'a> Drop for Keys<'a> {
    fn drop(self) {
        let Keys { set: _set } = self;
    }
}

impl<'a> Model for Keys<'a> {
    ghost use Rattle.std.specs.Prelude.{List, ◌≤◌, length, map};
    ghost use Rattle.record_faults.specs.Known.{Key};

    ghost Value = { List Key };

    ghost view = { λ n. map (λ k. (k.0.now, k.1.now)) n.set.keys };

    ghost invariant = { λ n. length n.set.keys ≤ 65535 };
}

impl<'a> Keys<'a> {
    pub(crate) fn new(alloc: Global) -> Keys<'a>
        ensures { result ≡ [] }
    {
        Keys {
            set: IndexSet::new(alloc),
        }
    }

    /// Adds a name on a workstation that is not there.
    pub(crate) fn add(&mut self, ws: &'a Text, name: &'a Text) -> Result<(), NoMemory>
        requires few { length self.old < 65535 }
        requires other { has_key self.old (ws.now, name.now) ≡ false }
        ensures { OnOk result (self.new ≡ self.old ++ (ws.now, name.now) ∷ []) }
    {
        match self.set.insert((ws, name)) {
            Ok(_) => Ok(()),
            Err(_) => Err(NoMemory),
        }
    }

    /// Adds a name on a workstation that is not there, where there is one.
    pub(crate) fn add_some(&mut self, key: Option<(&'a Text, &'a Text)>) -> Result<(), NoMemory>
        requires { (k : Key) → option_map (λ t. (t.0.now, t.1.now)) key ≡ Some k → IsNext key_eq self.old k }
        ensures { OnOk result
            (self.new ≡ self.old ++ cons_option (option_map (λ t. (t.0.now, t.1.now)) key.entry) []) }
    {
        match key {
            Some((ws, name)) => self.add(ws, name),
            None => Ok(()),
        }
    }

    /// The place of a name on a workstation, from 0. One that is not there gives 0.
    pub(crate) fn place(&self, ws: &'a Text, name: &'a Text) -> u16
        ensures value { result ≡ spec.place_of_key self.now (ws.now, name.now) }
        ensures small { result < 65535 }
    {
        match self.set.get_index_of(&(ws, name)) {
            Some(place) => place as u16,
            None => 0,
        }
    }
}
