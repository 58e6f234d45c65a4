//! The rows of objects: whether they are cancelled or late, the priority that was set, and which dependencies were
//! added or waived.
ghost use Rattle.std.specs.Prelude.{◌≡◌, ◌+◌, ◌<◌, ◌^◌, ◌≤◌, ◌++◌, ◌||◌, [], ◌∷◌, if◌then◌else◌, List, ℕ, IfSome};
ghost use Rattle.std.specs.Prelude.{IsSome, Option, Some, length};
ghost use Rattle.std.specs.Option.{option_or};
ghost use Rattle.model.specs.Types.{Body as Told, Entry as Taken, Obj as Object};
ghost use Rattle.model.specs.Facts.{is_lateness};
ghost use Rattle.model.specs.History.{list_of};
ghost use Rattle.owner_rows.specs.Subjects.{key_in, object_number_in};
ghost use Rattle.owner_rows.specs.Tables.{AreRows, has_row};
ghost use Rattle.owner_rows.specs.Objects.{IsObjectRow, IsRowOfObject, adds, cancels};
ghost use Rattle.owner_rows.specs.Objects.{frees_by, is_behind, priority_said};

use crate::body_facts::same_object;
use crate::jobs::counted;
use crate::subjects::{object_in, object_key};
use crate::tables::Table;
use base_types::{Body, Cmd, Entry, Obj, OnUntil};

/// What the events of a workstation tell of a job or a stream.
#[derive(Clone, Copy)]
pub(crate) struct ObjectRow {
    pub(crate) cancelled: bool,
    /// Whether it was told as late, by whichever DEADLINE.
    pub(crate) late: bool,
    /// The priority that was set last.
    pub(crate) priority: Option<u8>,
    /// How many dependencies were added.
    pub(crate) added: u32,
    /// How many of them stood there when the object was released from its dependencies last.
    pub(crate) freed: Option<u32>,
}

/// The body cancels the object.
fn is_cancelled_by(o: &Obj, body: &Body) -> bool
    ensures { result ≡ cancels o.now body.now }
{
    match body {
        Body::Obeyed(_, _, Cmd::Cancel(p)) => same_object(o, p),
        Body::UntilPassed(p, _, OnUntil::Canc) => same_object(o, p),
        _ => false,
    }
}

/// The body tells that the object is late.
fn is_late_by(o: &Obj, body: &Body) -> bool
    ensures { result ≡ is_lateness o.now body.now }
{
    match body {
        Body::Late(p, _) => same_object(o, p),
        _ => false,
    }
}

/// The priority that the body sets for the object.
fn priority_of(o: &Obj, body: &Body) -> Option<u8>
    ensures { result ≡ priority_said o.now body.now }
{
    match body {
        Body::Obeyed(_, _, Cmd::AltPri(p, priority)) => {
            if same_object(o, p) {
                Some(*priority)
            } else {
                None
            }
        }
        _ => None,
    }
}

/// The body adds a dependency to the object.
fn is_added_by(o: &Obj, body: &Body) -> bool
    ensures { (if result then 1 else 0) ≡ adds o.now body.now }
{
    match body {
        Body::Obeyed(_, _, Cmd::AddDep(p, _)) => same_object(o, p),
        _ => false,
    }
}

/// The body releases the object from its dependencies.
fn is_freed_by(o: &Obj, body: &Body) -> bool
    ensures { result ≡ frees_by o.now body.now }
{
    match body {
        Body::Obeyed(_, _, Cmd::Release(p)) => same_object(o, p),
        _ => false,
    }
}

impl ObjectRow {
    /// The row of no events.
    pub(crate) fn blank() -> ObjectRow
        ensures { (o : Object) → IsObjectRow [] o result }
    {
        ObjectRow {
            cancelled: false,
            late: false,
            priority: None,
            added: 0,
            freed: None,
        }
    }

    /// The row after one more body.
    fn after(&self, o: &Obj, body: &Body) -> ObjectRow
        ensures { (events : List Told) → length events + 1 < 2 ^ 32 → IsObjectRow events o.now self.now
            → IsObjectRow (events ++ body.now ∷ []) o.now result }
    {
        ObjectRow {
            cancelled: either(self.cancelled, is_cancelled_by(o, body)),
            late: either(self.late, is_late_by(o, body)),
            priority: set_after(priority_of(o, body), self.priority),
            added: counted(self.added, is_added_by(o, body)),
            freed: freed_after(self.freed, self.added, is_freed_by(o, body)),
        }
    }

    /// The row of the object of whom the body speaks, after it.
    fn told(&self, body: &Body) -> ObjectRow
        ensures { (events : List Told) (n : ℕ) → length events + 1 < 2 ^ 32
            → object_number_in body.now ≡ Some n → IsRowOfObject events n self.now
            → IsRowOfObject (events ++ body.now ∷ []) n result }
    {
        match object_in(body) {
            None => *self,
            Some(o) => self.after(o, body),
        }
    }

    /// A release stands behind dependency i of an object with so many written ones.
    pub(crate) fn is_behind(&self, i: u16, written: u128) -> bool
        requires { written < 2 ^ 64 }
        ensures { result ≡ is_behind i written self.now.freed }
    {
        match self.freed {
            None => false,
            Some(added) => u128::from(i) <= written + u128::from(added),
        }
    }
}

/// One of the two holds.
fn either(a: bool, b: bool) -> bool
    ensures { result ≡ (a || b) }
{
    a || b
}

/// What is set now, or else what was set before.
fn set_after(said: Option<u8>, before: Option<u8>) -> Option<u8>
    ensures { result ≡ option_or said before }
{
    said.or(before)
}

/// How many dependencies were added by the last release, where one comes now or not.
fn freed_after(freed: Option<u32>, added: u32, comes: bool) -> Option<u32>
    ensures { result ≡ (if comes then Some added else freed) }
{
    if comes { Some(added) } else { freed }
}

/// The rows of objects after one more entry, for whose row the memory is there.
pub(crate) fn tell_object(rows: &mut Table<ObjectRow>, e: &Entry)
    requires { IfSome (key_in object_number_in e.now) (λ k. IsSome (has_row rows.old k)) }
    ensures { (kept : List Taken) → length (list_of kept e.now.feed) + 1 < 2 ^ 32
        → AreRows IsRowOfObject kept rows.old → AreRows IsRowOfObject (kept ++ e.now ∷ []) rows.new }
{
    if let Some((w, n)) = object_key(e) {
        let row = rows.row(w, n);
        rows.put(w, n, row.told(&e.body));
    }
}
