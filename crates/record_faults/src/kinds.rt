//! Why a text is no record.

/// What is wrong with a line, in the order in which the causes are tested. Definitions that stand in a record have their
/// own kinds, of which three have the names of those of lines.
#[derive(Clone, Copy, Debug)]
pub enum ScriptKind {
    /// The line has no form where it stands, or a section is missing.
    BadLine,
    /// The line has a form that is not read yet. Where records with definitions are read no line has this kind.
    NotBuilt,
    /// The name stands before.
    Duplicate,
    /// What is named is not there.
    UnknownName,
    /// A number, a text, a count or a condition beyond its range.
    OutOfRange,
    /// The hop is no manager, or the chain of hops does not end at the master.
    BadTree,
    /// There is no plan left for this `next`.
    NoPlan,
    /// Definitions have a character that stands in texts and comments alone.
    BadChar,
    /// Definitions have a text that its line does not close.
    OpenText,
    /// Definitions have a text or a word of more than 4,096 bytes.
    TooLong,
    /// The grammar of definitions expects something else.
    Expected,
    /// Definitions have what this language leaves out.
    LeftOut,
    /// In definitions a NEEDS is on another workstation than its object.
    ForeignResource,
    /// In definitions streams or jobs follow each other in a circle.
    FollowsCycle,
    /// The domains of definitions are no tree with one master.
    Tree,
}
