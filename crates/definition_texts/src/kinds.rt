//! The kinds of refusals.
ghost use Rattle.std.specs.Prelude.{◌≡◌};
ghost use Rattle.definition_texts.specs.Kinds as spec;

/// Why definitions are refused.
#[derive(Clone, Copy)]
pub enum RefusalKind {
    /// A byte is no part of UTF-8, or a character stands there that only texts and comments may have.
    BadChar,
    /// A text has no closing quote on its line.
    OpenText,
    /// A text or a word has more than 4,096 bytes.
    TooLong,
    /// Something else is expected there.
    Expected,
    /// The full language has that there, and this one leaves it out.
    LeftOut,
    /// A name is defined twice in its kind.
    Duplicate,
    /// A name stands for nothing.
    UnknownName,
    /// A number is outside its range, a text is not of its form, there are too many of a kind, or a time has no moment.
    OutOfRange,
    /// A NEEDS is on another workstation than its object.
    ForeignResource,
    /// Streams or jobs follow each other in a circle.
    FollowsCycle,
    /// The domains are no tree with one master.
    Tree,
}

impl RefusalKind {
    /// The word with which a refusal is written.
    pub fn word(self) -> &'static str
        ensures { result.now ≡ spec.word_of self }
    {
        match self {
            RefusalKind::BadChar => "BadChar",
            RefusalKind::OpenText => "OpenText",
            RefusalKind::TooLong => "TooLong",
            RefusalKind::Expected => "Expected",
            RefusalKind::LeftOut => "LeftOut",
            RefusalKind::Duplicate => "Duplicate",
            RefusalKind::UnknownName => "UnknownName",
            RefusalKind::OutOfRange => "OutOfRange",
            RefusalKind::ForeignResource => "ForeignResource",
            RefusalKind::FollowsCycle => "FollowsCycle",
            RefusalKind::Tree => "Tree",
        }
    }
}
