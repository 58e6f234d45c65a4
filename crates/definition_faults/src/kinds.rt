//! The kinds of fault, and which of two faults comes first.
ghost use Rattle.std.specs.Prelude.{◌≡◌};
ghost use Rattle.model.specs.Words.{some_is};
ghost use Rattle.definition_faults.specs.Orders as spec;

/// The kinds of fault, in the order in which they are told on one line.
#[derive(Clone, Copy)]
pub enum Kind {
    Duplicate,
    UnknownName,
    OutOfRange,
    ForeignResource,
    FollowsCycle,
    Tree,
}

/// A fault and its line, counted from 1.
#[derive(Clone, Copy)]
pub struct Fault {
    pub line: u32,
    pub kind: Kind,
}

/// The place of a kind in the order.
fn rank(kind: Kind) -> u8
    ensures { result ≡ spec.rank kind }
{
    match kind {
        Kind::Duplicate => 0,
        Kind::UnknownName => 1,
        Kind::OutOfRange => 2,
        Kind::ForeignResource => 3,
        Kind::FollowsCycle => 4,
        Kind::Tree => 5,
    }
}

fn comes_first(a: &Fault, b: &Fault) -> bool
    ensures { result ≡ spec.comes_first a.now b.now }
{
    a.line < b.line || a.line == b.line && rank(a.kind) <= rank(b.kind)
}

/// The first of two faults that may be there.
pub(crate) fn earlier(a: Option<Fault>, b: Option<Fault>) -> Option<Fault>
    ensures { result ≡ spec.earlier_of a b }
{
    match a {
        None => b,
        Some(one) => match b {
            None => Some(one),
            Some(other) => {
                if comes_first(&one, &other) {
                    Some(one)
                } else {
                    Some(other)
                }
            }
        },
    }
}

/// The first of a fault that may be there and of one of this kind at a line, if there is such a kind.
pub(crate) fn noted(first: Option<Fault>, line: u32, kind: Option<Kind>) -> Option<Fault>
    ensures { result ≡ spec.earlier_of first (spec.at_line line kind) }
{
    match kind {
        None => first,
        Some(kind) => earlier(first, Some(Fault { line, kind })),
    }
}

/// Whether a name stands for the item at a place.
pub(crate) fn stands_at(found: Option<usize>, i: usize) -> bool
    ensures { result ≡ some_is found i }
{
    match found {
        Some(place) => place == i,
        None => false,
    }
}
