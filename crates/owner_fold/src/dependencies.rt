//! The dependencies of an object: those of its document, those that commands added, and those that commands waive.
ghost use Rattle.std.specs.Prelude.{◌≡◌, ◌+◌, ◌<◌, ◌≤◌, ◌^◌, length, flat_map, slice_get};
ghost use Rattle.std.specs.Option.{option_copied};
ghost use Rattle.model.specs.Types.{Events};
ghost use Rattle.model.specs.History.{list_of, view_of};
ghost use Rattle.model.specs.Facts.{commands};
ghost use Rattle.model.specs.Dependencies.{dep, deps, deps_added_by, document_deps, is_waived, is_waived_by, waives};
ghost use Rattle.model.specs.Dependencies.{owner_events};

use crate::holdings::Owners;
use base_types::{Dep, Obj, Ws};

/// The dependency at a place, counted from 0.
fn dep_at(deps: &[Dep], place: usize) -> Option<&Dep>
    ensures { option_copied result ≡ slice_get deps.now place }
{
    deps.get(place)
}

impl Owners {
    /// A dependency of an object by its number, counted from 1: those of the document first, then those that commands
    /// of the object's owner added. The first 65,535 count. None where there is no such dependency.
    pub fn dep(&self, o: Obj, i: u16) -> Option<&Dep>
        ensures { option_copied result ≡ dep (view_of self.now) o i }
    {
        self.dep_of(&o, i)
    }

    /// How many dependencies of an object count, the waived ones too: at most 65,535.
    pub fn dep_count(&self, o: Obj) -> u16
        ensures { result ≡ length (deps (view_of self.now) o) }
    {
        self.dep_count_of(&o)
    }

    /// Whether a dependency is waived: by a command to delete it, or by a release of its object that stands after it
    /// was added. False where there is no such dependency.
    pub fn is_waived(&self, o: Obj, i: u16) -> bool
        ensures { result ≡ is_waived (view_of self.now) o i }
    {
        self.is_waived_of(&o, i)
    }

    /// The dependencies of the object's document.
    #[tactic(auto, unfolding(model::specs::Dependencies::document_deps))]
    fn document_deps(&self, o: &Obj) -> &[Dep]
        ensures { result.now ≡ document_deps (view_of self.now) o.now }
    {
        match o {
            Obj::Job(j) => match self.job(*j) {
                None => &[],
                Some(doc) => doc.deps.as_slice(),
            },
            Obj::Stream(s) => match self.stream(*s) {
                None => &[],
                Some(doc) => doc.deps.as_slice(),
            },
        }
    }

    /// A dependency that a command of w added to the object, counted from 0.
    fn added_dep(&self, w: Ws, o: &Obj, place: usize) -> Option<&Dep>
        ensures { option_copied result ≡
            slice_get (flat_map (deps_added_by o.now) (commands (list_of self.now (Events w)))) place }
    {
        self.kept().added_dep_at(w, o, place)
    }

    pub(crate) fn dep_of(&self, o: &Obj, i: u16) -> Option<&Dep>
        ensures { option_copied result ≡ dep (view_of self.now) o.now i }
    {
        if i == 0 {
            return None;
        }
        let place = usize::from(i - 1);
        let written = self.document_deps(o);
        if place < written.len() {
            return dep_at(written, place);
        }
        match self.owner_of(o) {
            None => None,
            Some(w) => self.added_dep(w, o, place - written.len()),
        }
    }

    /// How many dependencies commands of its owner added to the object.
    #[tactic(auto, unfolding(model::specs::Dependencies::owner_events, model::specs::Facts::commands))]
    fn added_to(&self, o: &Obj) -> u32
        ensures { result ≡ length (flat_map (deps_added_by o.now) (commands (owner_events (view_of self.now) o.now))) }
    {
        match self.owner_of(o) {
            None => 0,
            Some(w) => self.kept().added_at(w, o),
        }
    }

    #[tactic(auto, using(crate::proofs::Counted::all_count, crate::proofs::Counted::most_count))]
    pub(crate) fn dep_count_of(&self, o: &Obj) -> u16
        ensures { result ≡ length (deps (view_of self.now) o.now) }
    {
        let count = self.document_deps(o).len() as u128 + u128::from(self.added_to(o));
        if count < 65535 { count as u16 } else { 65535 }
    }

    /// Commands of its owner waive a dependency of the object.
    #[tactic(auto, unfolding(model::specs::Dependencies::owner_events, model::specs::Facts::commands))]
    fn is_waived_by_owner(&self, o: &Obj, i: u16) -> bool
        ensures { result ≡
            is_waived_by o.now i (length (document_deps (view_of self.now) o.now))
            (commands (owner_events (view_of self.now) o.now)) }
    {
        match self.owner_of(o) {
            None => false,
            Some(w) => {
                let written = self.document_deps(o).len() as u128;
                self.kept().is_waived_at(w, o, i, written)
            }
        }
    }

    #[tactic(auto, unfolding(model::specs::Dependencies::is_waived))]
    pub(crate) fn is_waived_of(&self, o: &Obj, i: u16) -> bool
        ensures { result ≡ is_waived (view_of self.now) o.now i }
    {
        if i == 0 {
            return false;
        }
        if i > self.dep_count_of(o) {
            return false;
        }
        self.is_waived_by_owner(o, i)
    }
}
