//! The rows of dependencies: replies, files, UNTILs and DEADLINEs that passed, and those that were deleted.
ghost use Rattle.std.specs.Option.{option_or};
ghost use Rattle.std.specs.Prelude.{◌≡◌, ◌+◌, ◌<◌, ◌^◌, ◌++◌, ◌||◌, [], ◌∷◌, Some, List, ℕ, IfSome, IsSome, length};
ghost use Rattle.std.specs.Prelude.{option_map};
ghost use Rattle.model.specs.Types.{Body as Told, Entry as Taken, Obj as Object};
ghost use Rattle.model.specs.Facts.{is_fulfilment, is_late_record, is_until_record};
ghost use Rattle.model.specs.History.{list_of};
ghost use Rattle.owner_rows.specs.Deps.{IsDepRow, IsRowOfDep, deleted_by, reply_said};
ghost use Rattle.owner_rows.specs.Subjects.{dep_number_in, key_in};
ghost use Rattle.owner_rows.specs.Tables.{ArePairRows, has_pair_row};

use crate::body_facts::same_object;
use crate::subjects::{dep_in, dep_key};
use crate::tables::PairTable;
use base_types::{Body, Cmd, Entry, Obj};

/// What the events of a workstation tell of a dependency.
#[derive(Clone, Copy)]
pub(crate) struct DepRow {
    /// The last reply to the object's own prompt.
    pub(crate) reply: Option<bool>,
    pub(crate) fulfilled: bool,
    /// Whether it was recorded that this UNTIL has passed.
    pub(crate) recorded: bool,
    /// Whether the object was told as late by this DEADLINE.
    pub(crate) late: bool,
    pub(crate) deleted: bool,
}

/// The reply that the body has.
fn reply_of(o: &Obj, i: u16, body: &Body) -> Option<bool>
    ensures { option_map Some result ≡ reply_said o.now i body.now }
{
    match body {
        Body::Obeyed(_, _, Cmd::ReplyOwn(p, k, yes)) => {
            if same_object(o, p) && i == *k {
                Some(*yes)
            } else {
                None
            }
        }
        _ => None,
    }
}

fn is_fulfilled_by(o: &Obj, i: u16, body: &Body) -> bool
    ensures { result ≡ is_fulfilment o.now i body.now }
{
    match body {
        Body::Fulfilled(p, k) => same_object(o, p) && i == *k,
        _ => false,
    }
}

fn is_recorded_by(o: &Obj, i: u16, body: &Body) -> bool
    ensures { result ≡ is_until_record o.now i body.now }
{
    match body {
        Body::UntilPassed(p, k, _) => same_object(o, p) && i == *k,
        _ => false,
    }
}

fn is_late_by(o: &Obj, i: u16, body: &Body) -> bool
    ensures { result ≡ is_late_record o.now i body.now }
{
    match body {
        Body::Late(p, k) => same_object(o, p) && i == *k,
        _ => false,
    }
}

fn is_deleted_by(o: &Obj, i: u16, body: &Body) -> bool
    ensures { result ≡ deleted_by o.now i body.now }
{
    match body {
        Body::Obeyed(_, _, Cmd::DelDep(p, k)) => same_object(o, p) && *k == i,
        _ => false,
    }
}

/// One of the two holds.
fn either(a: bool, b: bool) -> bool
    ensures { result ≡ (a || b) }
{
    a || b
}

/// What is said now, or else what was said before.
fn reply_after(said: Option<bool>, before: Option<bool>) -> Option<bool>
    ensures { result ≡ option_or said before }
{
    said.or(before)
}

impl DepRow {
    /// The row of no events.
    pub(crate) fn blank() -> DepRow
        ensures { (o : Object) (i : ℕ) → IsDepRow [] o i result }
    {
        DepRow {
            reply: None,
            fulfilled: false,
            recorded: false,
            late: false,
            deleted: false,
        }
    }

    /// The row after one more body.
    fn after(&self, o: &Obj, i: u16, body: &Body) -> DepRow
        ensures { (events : List Told) → IsDepRow events o.now i self.now
            → IsDepRow (events ++ body.now ∷ []) o.now i result }
    {
        DepRow {
            reply: reply_after(reply_of(o, i, body), self.reply),
            fulfilled: either(self.fulfilled, is_fulfilled_by(o, i, body)),
            recorded: either(self.recorded, is_recorded_by(o, i, body)),
            late: either(self.late, is_late_by(o, i, body)),
            deleted: either(self.deleted, is_deleted_by(o, i, body)),
        }
    }

    /// The row of the dependency of which the body speaks, after it.
    fn told(&self, body: &Body) -> DepRow
        ensures { (events : List Told) (n : ℕ × ℕ) → dep_number_in body.now ≡ Some n
            → IsRowOfDep events n self.now → IsRowOfDep (events ++ body.now ∷ []) n result }
    {
        match dep_in(body) {
            None => *self,
            Some((o, i)) => self.after(o, i, body),
        }
    }
}

/// The rows of dependencies after one more entry, for whose row the memory is there.
pub(crate) fn tell_dep(rows: &mut PairTable<DepRow>, e: &Entry)
    requires { IfSome (key_in dep_number_in e.now) (λ k. IsSome (has_pair_row rows.old k)) }
    ensures { (kept : List Taken) → length (list_of kept e.now.feed) + 1 < 2 ^ 32
        → ArePairRows IsRowOfDep kept rows.old → ArePairRows IsRowOfDep (kept ++ e.now ∷ []) rows.new }
{
    if let Some((w, (n, i))) = dep_key(e) {
        let row = rows.row(w, n, i);
        rows.put(w, n, i, row.told(&e.body));
    }
}
