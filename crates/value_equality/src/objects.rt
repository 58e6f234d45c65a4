//! Whether two objects, two marks of an UNTIL are one.
ghost use Rattle.std.specs.Prelude.{◌≡◌};
ghost use Rattle.std.specs.Bool.{Decides};

use base_types::{Obj, OnUntil};

/// Whether the two objects are one.
pub fn is_same_object(a: &Obj, b: &Obj) -> bool
    ensures { Decides result (a.now ≡ b.now) }
{
    match a {
        Obj::Job(j) => match b {
            Obj::Job(k) => j.0 == k.0,
            Obj::Stream(_) => false,
        },
        Obj::Stream(s) => match b {
            Obj::Job(_) => false,
            Obj::Stream(t) => s.0 == t.0,
        },
    }
}

/// Whether the two marks are one.
pub fn is_same_mark(a: &OnUntil, b: &OnUntil) -> bool
    ensures { Decides result (a.now ≡ b.now) }
{
    match a {
        OnUntil::Suppr => match b {
            OnUntil::Suppr => true,
            _ => false,
        },
        OnUntil::Cont => match b {
            OnUntil::Cont => true,
            _ => false,
        },
        OnUntil::Canc => match b {
            OnUntil::Canc => true,
            _ => false,
        },
    }
}
