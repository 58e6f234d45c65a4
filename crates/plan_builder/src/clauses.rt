//! What the clauses of a stream or of an entry say besides its dependencies.
ghost use Rattle.std.specs.Prelude.{◌≡◌};
ghost use Rattle.plan_builder.specs.Clauses as spec;

use composer_parser::{Clause, Lined};

/// The priority, 10 where there is none.
pub(crate) fn priority_of(clauses: &[Lined<Clause>]) -> u8
    ensures { result ≡ spec.priority_of clauses.now }
{
    for clause in clauses {
        if let Some(number) = priority_in(&clause.item) {
            return number.min(101) as u8;
        }
    }
    10
}

fn priority_in(clause: &Clause) -> Option<u32>
    ensures { result ≡ spec.priority_in clause.now }
{
    match clause {
        Clause::Priority(number) => Some(*number),
        _ => None,
    }
}

/// The limit, where there is one.
pub(crate) fn limit_of(clauses: &[Lined<Clause>]) -> Option<u16>
    ensures { result ≡ spec.limit_of clauses.now }
{
    for clause in clauses {
        if let Some(number) = limit_in(&clause.item) {
            return Some(number.min(1024) as u16);
        }
    }
    None
}

fn limit_in(clause: &Clause) -> Option<u32>
    ensures { result ≡ spec.limit_in clause.now }
{
    match clause {
        Clause::Limit(number) => Some(*number),
        _ => None,
    }
}

/// Whether the stream is marked to be carried.
pub(crate) fn is_carried(clauses: &[Lined<Clause>]) -> bool
    ensures { result ≡ spec.is_carried clauses.now }
{
    for clause in clauses {
        if is_carry(&clause.item) {
            return true;
        }
    }
    false
}

fn is_carry(clause: &Clause) -> bool
    ensures { result ≡ spec.is_carry clause.now }
{
    matches!(clause, Clause::CarryForward)
}
