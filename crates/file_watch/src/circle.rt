//! The circle in which dependencies have their turns.
ghost use Rattle.std.specs.Prelude.{◌≡◌};
ghost use Rattle.file_watch.specs.Circle as spec;

use base_types::Obj;

/// Whether an object comes before another, streams before jobs and then the lower number; where they are one, `tied`
/// decides.
fn object_before(o: &Obj, p: &Obj, tied: bool) -> bool
    ensures { result ≡ spec.object_before o.now p.now tied }
{
    match o {
        Obj::Stream(s) => match p {
            Obj::Stream(t) => s.0 < t.0 || (s.0 == t.0 && tied),
            Obj::Job(_) => true,
        },
        Obj::Job(j) => match p {
            Obj::Stream(_) => false,
            Obj::Job(k) => j.0 < k.0 || (j.0 == k.0 && tied),
        },
    }
}

/// Whether a dependency comes before another, by their objects and then by their numbers.
fn comes_before(p: &(Obj, u16), q: &(Obj, u16)) -> bool
    ensures { result ≡ spec.comes_before p.now q.now }
{
    object_before(&p.0, &q.0, p.1 < q.1)
}

/// Whether a dependency comes behind the last one before the circle begins anew.
fn is_behind(last: &Option<(Obj, u16)>, p: &(Obj, u16)) -> bool
    ensures { result ≡ spec.is_behind last.now p.now }
{
    match last {
        None => true,
        Some(last) => comes_before(last, p),
    }
}

/// Whether a dependency comes sooner than another, going on from the last one.
fn comes_sooner(last: &Option<(Obj, u16)>, p: &(Obj, u16), q: &(Obj, u16)) -> bool
    ensures { result ≡ spec.comes_sooner last.now p.now q.now }
{
    let first = comes_before(p, q);
    let is_behind_too = is_behind(last, q);
    if is_behind(last, p) {
        !is_behind_too || first
    } else {
        !is_behind_too && first
    }
}

/// The sooner of two dependencies that may be there.
pub(crate) fn sooner_of(
    last: &Option<(Obj, u16)>,
    a: &Option<(Obj, u16)>,
    b: &Option<(Obj, u16)>,
) -> Option<(Obj, u16)>
    ensures { result ≡ spec.sooner_of last.now a.now b.now }
{
    match a {
        None => *b,
        Some(p) => match b {
            None => *a,
            Some(q) => { if comes_sooner(last, q, p) { *b } else { *a } }
        },
    }
}
