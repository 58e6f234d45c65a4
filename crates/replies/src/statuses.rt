//! Exit statuses.
ghost use Rattle.std.specs.Prelude.{◌≡◌};
ghost use Rattle.replies.specs.Statuses.{number_of};

/// How a call ended.
#[derive(Clone, Copy)]
pub enum Status {
    /// All is done.
    Success,
    /// The definitions are none, or have a fault, or a time of the day that is planned has no moment.
    DefinitionsRefused,
    /// The words have no form.
    WordsRefused,
    /// A line of the record or of the history is none, or the step of one cannot be taken.
    RecordRefused,
    /// The source failed.
    SourceFailed,
    /// The sink failed.
    SinkFailed,
    /// The disk of a node failed.
    DiskFailed,
    /// The disk of a node holds another file than its message file.
    OtherFile,
    /// A node took all its turns, and no client shut it down.
    TurnsSpent,
    /// Memory ran out.
    NoMemory,
    /// What is counted passes its limit.
    LimitPassed,
    /// An item of the history is wrong.
    NotSound,
    /// A node gave no reply.
    NoAnswer,
}

impl Status {
    /// The number with which the program ends.
    pub fn number(self) -> u8
        ensures { result ≡ number_of self }
    {
        match self {
            Status::Success => 0,
            Status::DefinitionsRefused => 1,
            Status::WordsRefused => 2,
            Status::RecordRefused => 3,
            Status::SourceFailed => 4,
            Status::SinkFailed => 5,
            Status::DiskFailed => 6,
            Status::OtherFile => 7,
            Status::TurnsSpent => 8,
            Status::NoMemory => 9,
            Status::LimitPassed => 10,
            Status::NotSound => 11,
            Status::NoAnswer => 12,
        }
    }
}
