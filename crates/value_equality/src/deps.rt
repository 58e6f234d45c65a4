//! Whether two dependencies are one.
ghost use Rattle.std.specs.Prelude.{◌≡◌};
ghost use Rattle.std.specs.Bool.{Decides};

use crate::objects::is_same_mark;
use crate::texts::is_same_text;
use base_types::{Dep, PromptRef};

/// Whether the two dependencies are one.
pub fn is_same_dep(a: &Dep, b: &Dep) -> bool
    ensures { Decides result (a.now ≡ b.now) }
{
    match a {
        Dep::FollowsJob(j) => match b {
            Dep::FollowsJob(k) => j.0 == k.0,
            _ => false,
        },
        Dep::FollowsStream(s) => match b {
            Dep::FollowsStream(t) => s.0 == t.0,
            _ => false,
        },
        Dep::Needs(r, n) => match b {
            Dep::Needs(q, m) => *r == *q && *n == *m,
            _ => false,
        },
        Dep::Prompt(p) => match b {
            Dep::Prompt(q) => is_same_prompt(p, q),
            _ => false,
        },
        Dep::At(t) => match b {
            Dep::At(u) => t.0 == u.0,
            _ => false,
        },
        Dep::Until(t, mark) => match b {
            Dep::Until(u, other) => t.0 == u.0 && is_same_mark(mark, other),
            _ => false,
        },
        Dep::Outside(path) => match b {
            Dep::Outside(other) => is_same_text(path, other),
            _ => false,
        },
        Dep::Deadline(t) => match b {
            Dep::Deadline(u) => t.0 == u.0,
            _ => false,
        },
    }
}

/// Whether the two prompts are one.
fn is_same_prompt(a: &PromptRef, b: &PromptRef) -> bool
    ensures { Decides result (a.now ≡ b.now) }
{
    match a {
        PromptRef::Global(p) => match b {
            PromptRef::Global(q) => *p == *q,
            PromptRef::Own(_) => false,
        },
        PromptRef::Own(text) => match b {
            PromptRef::Global(_) => false,
            PromptRef::Own(other) => is_same_text(text, other),
        },
    }
}
