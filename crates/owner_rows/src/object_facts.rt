//! What the events of a workstation tell of objects and their dependencies. The catalogue plays no part here.
ghost use Rattle.std.specs.Prelude.{◌≡◌, ◌<◌, ◌^◌, ◌||◌, ℕ, flat_map, length, slice_get, unwrap_or};
ghost use Rattle.std.specs.Option.{option_copied};
ghost use Rattle.model.specs.Types.{Events};
ghost use Rattle.model.specs.History.{list_of};
ghost use Rattle.model.specs.Facts.{commands, is_cancelled, is_ever_late, is_fulfilled, is_late, is_until_recorded};
ghost use Rattle.model.specs.Facts.{own_reply, priority};
ghost use Rattle.model.specs.Dependencies.{deps_added_by, is_waived_by};
ghost use Rattle.owner_rows.specs.Deps.{IsDepRow};
ghost use Rattle.owner_rows.specs.Objects.{IsObjectRow, is_behind};
ghost use Rattle.owner_rows.specs.Standing.{added_by, dep_in, found_at};

use crate::deps::DepRow;
use crate::kept::Kept;
use crate::objects::ObjectRow;
use base_types::{Body, Cmd, Dep, Obj, Ws};

/// A dependency was deleted, or stands before a release.
fn waives(dep: DepRow, object: ObjectRow, i: u16, written: u128) -> bool
    requires { written < 2 ^ 64 }
    ensures { result ≡ (dep.deleted || is_behind i written object.freed) }
{
    dep.deleted || object.is_behind(i, written)
}

/// The dependency that the body adds.
fn dep_of(body: &Body) -> Option<&Dep>
    ensures { option_copied result ≡ added_by body.now }
{
    match body {
        Body::Obeyed(_, _, Cmd::AddDep(_, dep)) => Some(dep),
        _ => None,
    }
}

impl Kept {
    /// The row of an object in the events of w.
    fn object_at(&self, w: Ws, o: &Obj) -> ObjectRow
        ensures { IsObjectRow (list_of self.now (Events w)) o.now result }
    {
        self.told.work.object(w, o)
    }

    /// The row of a dependency of an object in the events of w.
    fn dep_at(&self, w: Ws, o: &Obj, i: u16) -> DepRow
        ensures { IsDepRow (list_of self.now (Events w)) o.now i result }
    {
        self.told.work.dep(w, o, i)
    }

    /// Whether an object was cancelled at w, by a command or by an UNTIL.
    pub fn is_cancelled_at(&self, w: Ws, o: &Obj) -> bool
        ensures { result ≡ is_cancelled o.now (list_of self.now (Events w)) }
    {
        self.object_at(w, o).cancelled
    }

    /// Whether w told an object as late, by whichever DEADLINE.
    pub fn is_ever_late_at(&self, w: Ws, o: &Obj) -> bool
        ensures { result ≡ is_ever_late o.now (list_of self.now (Events w)) }
    {
        self.object_at(w, o).late
    }

    /// The priority that w set last for an object, from 0 to 101. None where it is the document's.
    pub fn priority_set_at(&self, w: Ws, o: &Obj) -> Option<u8>
        ensures { (written : ℕ) →
            unwrap_or result written ≡ priority o.now written (list_of self.now (Events w)) }
    {
        self.object_at(w, o).priority
    }

    /// How many dependencies commands of w added to an object.
    pub fn added_at(&self, w: Ws, o: &Obj) -> u32
        ensures { result ≡ length (flat_map (deps_added_by o.now) (commands (list_of self.now (Events w)))) }
    {
        self.object_at(w, o).added
    }

    /// Whether commands of w waive dependency i of an object that was written with so many dependencies.
    #[tactic(auto, using(crate::proofs::ObjectTelling::waived_told))]
    pub fn is_waived_at(&self, w: Ws, o: &Obj, i: u16, written: u128) -> bool
        requires { written < 2 ^ 64 }
        ensures { result ≡ is_waived_by o.now i written (commands (list_of self.now (Events w))) }
    {
        waives(self.dep_at(w, o, i), self.object_at(w, o), i, written)
    }

    /// Whether w told the file of a dependency, by its number from 1.
    pub fn is_fulfilled_at(&self, w: Ws, o: &Obj, i: u16) -> bool
        ensures { result ≡ is_fulfilled o.now i (list_of self.now (Events w)) }
    {
        self.dep_at(w, o, i).fulfilled
    }

    /// Whether w recorded that an UNTIL, by its number from 1, has passed.
    pub fn is_until_recorded_at(&self, w: Ws, o: &Obj, i: u16) -> bool
        ensures { result ≡ is_until_recorded o.now i (list_of self.now (Events w)) }
    {
        self.dep_at(w, o, i).recorded
    }

    /// Whether w told an object as late by this DEADLINE, by its number from 1.
    pub fn is_late_at(&self, w: Ws, o: &Obj, i: u16) -> bool
        ensures { result ≡ is_late o.now i (list_of self.now (Events w)) }
    {
        self.dep_at(w, o, i).late
    }

    /// The last reply that w obeyed to an object's own prompt, by its number from 1, if there is one.
    pub fn own_reply_at(&self, w: Ws, o: &Obj, i: u16) -> Option<bool>
        ensures { result ≡ own_reply o.now i (list_of self.now (Events w)) }
    {
        self.dep_at(w, o, i).reply
    }

    /// The dependency that stands at a place among the entries, from 0.
    fn dep_added_at(&self, place: usize) -> Option<&Dep>
        ensures { option_copied result ≡ found_at dep_in self.now place }
    {
        match self.entries.get(place) {
            None => None,
            Some(entry) => dep_of(&entry.body),
        }
    }

    /// A dependency that a command of w added to an object, counted from 0 among these.
    pub fn added_dep_at(&self, w: Ws, o: &Obj, place: usize) -> Option<&Dep>
        ensures { option_copied result ≡
            slice_get (flat_map (deps_added_by o.now) (commands (list_of self.now (Events w)))) place }
    {
        // The entries of a feed are few, and so are its commands.
        let _entries = self.entries();
        if place >= 4294967296 {
            return None;
        }
        match self.places.addition(w, o, place as u32) {
            None => None,
            Some(spot) => self.dep_added_at(spot),
        }
    }
}
