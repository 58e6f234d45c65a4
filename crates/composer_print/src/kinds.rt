//! Kinds of clauses.

/// Clauses that stand once in an object.
#[derive(Clone, Copy)]
pub(crate) enum Once {
    At,
    Until,
    Deadline,
    Priority,
    Limit,
    CarryForward,
}

/// Clauses of which an object may have several, which are printed as one.
#[derive(Clone, Copy)]
pub(crate) enum Joined {
    Follows,
    Needs,
    Prompt,
    Opens,
}
