//! The dependency that a command adds.
ghost use Rattle.std.specs.Prelude.{◌≡◌};
ghost use Rattle.std.specs.Option.{option_copied};
ghost use Rattle.model.specs.Words.{nth};
ghost use Rattle.model.specs.Equalities.{dep_eq, text_eq, until_eq};
ghost use Rattle.model.specs.History.{view_of};
ghost use Rattle.model.specs.Verdicts as verdicts;

use base_types::{Dep, Net, OnUntil, PromptDef, PromptRef, Resource, Text, Ws};
use owner_fold::Owners;

/// The resource of this number, from 1.
pub fn resource(net: &Net, number: u16) -> Option<&Resource>
    ensures { option_copied result ≡ nth net.now.resources number }
{
    if number == 0 {
        return None;
    }
    net.resources.get(usize::from(number - 1))
}

/// The network's prompt of this number, from 1.
pub fn prompt(net: &Net, number: u16) -> Option<&PromptDef>
    ensures { option_copied result ≡ nth net.now.prompts number }
{
    if number == 0 {
        return None;
    }
    net.prompts.get(usize::from(number - 1))
}

/// Whether what the dependency names is neither in the catalogue nor in the network.
pub fn names_nothing(net: &Net, o: &Owners, dep: &Dep) -> bool
    ensures { result ≡ verdicts.names_nothing net.now (view_of o.now) dep.now }
{
    match dep {
        Dep::FollowsJob(j) => o.planned_job(*j).is_none(),
        Dep::FollowsStream(s) => o.stream(*s).is_none(),
        Dep::Needs(r, _) => resource(net, *r).is_none(),
        Dep::Prompt(PromptRef::Global(p)) => prompt(net, *p).is_none(),
        Dep::Prompt(PromptRef::Own(_))
        | Dep::At(_)
        | Dep::Until(_, _)
        | Dep::Outside(_)
        | Dep::Deadline(_) => false,
    }
}

/// Whether the resource of this number is there, and another workstation's.
pub fn is_foreign(net: &Net, me: Ws, number: u16) -> bool
    ensures { result ≡ verdicts.names_foreign net.now me (Dep.Needs number 0) }
{
    match resource(net, number) {
        None => false,
        Some(found) => found.ws.0 != me.0,
    }
}

/// Whether the dependency needs a resource of another workstation.
pub fn names_foreign(net: &Net, me: Ws, dep: &Dep) -> bool
    ensures { result ≡ verdicts.names_foreign net.now me dep.now }
{
    match dep {
        Dep::Needs(r, _) => is_foreign(net, me, *r),
        _ => false,
    }
}

/// Whether the dependency asks for more units than a resource can have.
pub fn asks_too_much(dep: &Dep) -> bool
    ensures { result ≡ verdicts.asks_too_much dep.now }
{
    match dep {
        Dep::Needs(_, units) => *units > 1024,
        _ => false,
    }
}

/// Whether the two texts are the same.
pub fn is_same_text(a: &str, b: &str) -> bool
    ensures { result ≡ text_eq a.now b.now }
{
    a == b
}

/// Whether the two marks are the same.
fn is_same_mark(a: &OnUntil, b: &OnUntil) -> bool
    ensures { result ≡ until_eq a.now b.now }
{
    match a {
        OnUntil::Suppr => matches!(b, OnUntil::Suppr),
        OnUntil::Cont => matches!(b, OnUntil::Cont),
        OnUntil::Canc => matches!(b, OnUntil::Canc),
    }
}

/// Whether the dependency asks this prompt.
fn is_prompt(a: &PromptRef, dep: &Dep) -> bool
    ensures { result ≡ dep_eq (Dep.Prompt a.now) dep.now }
{
    match a {
        PromptRef::Global(p) => match dep {
            Dep::Prompt(PromptRef::Global(q)) => *p == *q,
            _ => false,
        },
        PromptRef::Own(text) => match dep {
            Dep::Prompt(PromptRef::Own(other)) => is_same_text(text.as_str(), other.as_str()),
            _ => false,
        },
    }
}

/// Whether the two dependencies are the same.
pub fn is_same(a: &Dep, b: &Dep) -> bool
    ensures { result ≡ dep_eq a.now b.now }
{
    match (a, b) {
        (Dep::FollowsJob(j), Dep::FollowsJob(k)) => j.0 == k.0,
        (Dep::FollowsStream(s), Dep::FollowsStream(t)) => s.0 == t.0,
        (Dep::Needs(r, n), Dep::Needs(q, m)) => *r == *q && *n == *m,
        (Dep::Prompt(asked), _) => is_prompt(asked, b),
        (Dep::At(t), Dep::At(u)) => t.0 == u.0,
        (Dep::Until(t, mark), Dep::Until(u, other)) => t.0 == u.0 && is_same_mark(mark, other),
        (Dep::Outside(path), Dep::Outside(other)) => is_same_text(path.as_str(), other.as_str()),
        (Dep::Deadline(t), Dep::Deadline(u)) => t.0 == u.0,
        _ => false,
    }
}
