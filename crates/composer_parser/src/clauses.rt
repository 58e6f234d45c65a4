//! The clauses of streams and of their entries, as a text has them.
//!
//! Their drops are written out, so that dropping one is a call for whoever owns it.
use base_types::{Items, OnUntil, Text};

/// Which part of a stream is followed.
pub enum PredPart {
    /// None is named: a job of the same stream, or a stream.
    Plain,
    /// The whole stream, as `.@` says.
    All,
    Job(Text),
}

impl Drop for PredPart {
    fn drop(self) {
        match self {
            PredPart::Plain => {}
            PredPart::All => {}
            PredPart::Job(_a) => {}
        }
    }
}

/// What is followed.
pub struct Pred {
    pub ws: Option<Text>,
    pub name: Text,
    pub part: PredPart,
}

impl Drop for Pred {
    fn drop(self) {
        let Pred {
            ws: _ws,
            name: _name,
            part: _part,
        } = self;
    }
}

/// A resource that is needed. Units that are not given are none here.
pub struct Need {
    pub units: Option<u32>,
    pub ws: Option<Text>,
    pub name: Text,
}

impl Drop for Need {
    fn drop(self) {
        let Need {
            units: _units,
            ws: _ws,
            name: _name,
        } = self;
    }
}

/// A prompt of the definitions, or a text of its own.
pub enum PromptItem {
    Name(Text),
    Own(Text),
}

impl Drop for PromptItem {
    fn drop(self) {
        match self {
            PromptItem::Name(_a) => {}
            PromptItem::Own(_a) => {}
        }
    }
}

/// A clause. Times are minutes after 0000, with a number of days behind them where one is given; a number above
/// 4,294,967,295 is kept as that.
pub enum Clause {
    At(u16, Option<u32>),
    Until(u16, Option<u32>, OnUntil),
    Deadline(u16, Option<u32>),
    /// HI is 100 and GO is 101.
    Priority(u32),
    Limit(u32),
    CarryForward,
    Follows(Items<Pred>),
    Needs(Items<Need>),
    Prompt(Items<PromptItem>),
    /// Files, by their paths.
    Opens(Items<Text>),
}

impl Drop for Clause {
    fn drop(self) {
        match self {
            Clause::At(_a, _b) => {}
            Clause::Until(_a, _b, _c) => {}
            Clause::Deadline(_a, _b) => {}
            Clause::Priority(_a) => {}
            Clause::Limit(_a) => {}
            Clause::CarryForward => {}
            Clause::Follows(_a) => {}
            Clause::Needs(_a) => {}
            Clause::Prompt(_a) => {}
            Clause::Opens(_a) => {}
        }
    }
}
