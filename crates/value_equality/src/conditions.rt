//! Whether what two jobs run, their conditions and what comes after a bad end are one.
ghost use Rattle.std.specs.Prelude.{◌≡◌};
ghost use Rattle.std.specs.Bool.{Decides};

use crate::texts::is_same_text;
use base_types::{Cond, CondOp, Recovery, Rel, Work};

/// Whether the two jobs run the same.
pub fn is_same_work(a: &Work, b: &Work) -> bool
    ensures { Decides result (a.now ≡ b.now) }
{
    match a {
        Work::Command(text) => match b {
            Work::Command(other) => is_same_text(text, other),
            Work::Script(_) => false,
        },
        Work::Script(text) => match b {
            Work::Command(_) => false,
            Work::Script(other) => is_same_text(text, other),
        },
    }
}

/// Whether the same comes after a bad end.
pub fn is_same_recovery(a: &Recovery, b: &Recovery) -> bool
    ensures { Decides result (a.now ≡ b.now) }
{
    match a {
        Recovery::Stop => match b {
            Recovery::Stop => true,
            _ => false,
        },
        Recovery::Continue => match b {
            Recovery::Continue => true,
            _ => false,
        },
        Recovery::Rerun => match b {
            Recovery::Rerun => true,
            _ => false,
        },
    }
}

/// Whether the two compare in the same way.
fn is_same_rel(a: &Rel, b: &Rel) -> bool
    ensures { Decides result (a.now ≡ b.now) }
{
    match a {
        Rel::Eq => match b {
            Rel::Eq => true,
            _ => false,
        },
        Rel::Ne => match b {
            Rel::Ne => true,
            _ => false,
        },
        Rel::Lt => match b {
            Rel::Lt => true,
            _ => false,
        },
        Rel::Le => match b {
            Rel::Le => true,
            _ => false,
        },
        Rel::Gt => match b {
            Rel::Gt => true,
            _ => false,
        },
        Rel::Ge => match b {
            Rel::Ge => true,
            _ => false,
        },
    }
}

/// Whether the two operations are one.
fn is_same_operation(a: &CondOp, b: &CondOp) -> bool
    ensures { Decides result (a.now ≡ b.now) }
{
    match a {
        CondOp::Cmp(rel, n) => match b {
            CondOp::Cmp(other, m) => is_same_rel(rel, other) && *n == *m,
            _ => false,
        },
        CondOp::And => match b {
            CondOp::And => true,
            _ => false,
        },
        CondOp::Or => match b {
            CondOp::Or => true,
            _ => false,
        },
        CondOp::Not => match b {
            CondOp::Not => true,
            _ => false,
        },
    }
}

/// Whether the two conditions are one.
pub fn is_same_cond(a: &Cond, b: &Cond) -> bool
    ensures { Decides result (a.now ≡ b.now) }
{
    are_same_operations(a.as_slice(), b.as_slice())
}

/// Whether the two lists of operations are one.
fn are_same_operations(a: &[CondOp], b: &[CondOp]) -> bool
    ensures { Decides result (a.now ≡ b.now) }
{
    if a.len() != b.len() {
        return false;
    }
    for (i, operation) in a.iter().enumerate() {
        if !is_same_operation(operation, &b[i]) {
            return false;
        }
    }
    true
}
