//! Whether an object was given a dependency of a kind: one with a time, an AT, an UNTIL or a DEADLINE, or one on a file.
ghost use Rattle.std.specs.Prelude.{◌≡◌, false, flat_map, slice_get};
ghost use Rattle.std.specs.List.{list_any};
ghost use Rattle.std.specs.Option.{option_map_or};
ghost use Rattle.model.specs.Types.{Events};
ghost use Rattle.model.specs.History.{list_of};
ghost use Rattle.model.specs.Facts.{commands};
ghost use Rattle.model.specs.Dependencies.{deps_added_by};
ghost use Rattle.model.specs.StepFaults as faults;
ghost use Rattle.owner_fold.specs.Given as spec;

use base_types::{Dep, Obj, Ws};
use owner_rows::Kept;

/// A kind of dependencies.
#[derive(Clone, Copy)]
pub(crate) enum Kind {
    /// An AT, an UNTIL or a DEADLINE.
    Time,
    /// One that waits for a file.
    File,
}

/// The dependency has a time.
pub(crate) fn has_time(dep: &Dep) -> bool
    ensures { result ≡ spec.has_time dep.now }
{
    match dep {
        Dep::At(_) | Dep::Until(_, _) | Dep::Deadline(_) => true,
        Dep::FollowsJob(_) | Dep::FollowsStream(_) => false,
        Dep::Needs(_, _) | Dep::Prompt(_) | Dep::Outside(_) => false,
    }
}

/// The dependency waits for a file.
pub(crate) fn is_outside(dep: &Dep) -> bool
    ensures { result ≡ faults.is_outside dep.now }
{
    match dep {
        Dep::Outside(_) => true,
        _ => false,
    }
}

/// The dependency is of this kind.
fn is_of(kind: Kind, dep: &Dep) -> bool
    ensures { result ≡ spec.is_of kind dep.now }
{
    match kind {
        Kind::Time => has_time(dep),
        Kind::File => is_outside(dep),
    }
}

/// One of these dependencies is of the kind.
fn any_written(kind: Kind, deps: &[Dep]) -> bool
    ensures { result ≡ list_any (spec.is_of kind) deps.now }
{
    for dep in deps {
        if is_of(kind, dep) {
            return true;
        }
    }
    false
}

/// Dependency i, from 0, of those that commands of w added to the object is of the kind.
fn is_added(kind: Kind, kept: &Kept, w: Ws, o: &Obj, i: u32) -> bool
    ensures { let added = flat_map (deps_added_by o.now) (commands (list_of kept.now (Events w))) in
        result ≡ option_map_or (spec.is_of kind) (slice_get added i) false }
{
    match kept.added_dep_at(w, o, i as usize) {
        None => false,
        Some(dep) => is_of(kind, dep),
    }
}

/// A command of w added a dependency of the kind to the object.
fn any_added(kind: Kind, kept: &Kept, w: Ws, o: &Obj) -> bool
    ensures { result ≡ list_any (spec.adds (spec.is_of kind) o.now) (commands (list_of kept.now (Events w))) }
{
    for i in 0..kept.added_at(w, o) {
        if is_added(kind, kept, w, o, i) {
            return true;
        }
    }
    false
}

/// The object of w, with these written dependencies, was given one of the kind.
pub(crate) fn is_given(kind: Kind, kept: &Kept, w: Ws, o: &Obj, written: &[Dep]) -> bool
    ensures { result ≡ spec.is_given (spec.is_of kind) o.now written.now (list_of kept.now (Events w)) }
{
    any_written(kind, written) || any_added(kind, kept, w, o)
}
