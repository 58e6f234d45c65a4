//! The data types that the scheduler's crates share.
//!
//! Contracts see each list as its items, each text as its bytes in UTF-8, and each number that has a name as a number.
//! What allocates answers `NoMemory` where memory runs out, and the object of the call is then as it was.
#![tactic(auto)]

mod commands;
mod copied;
mod documents;
mod entries;
mod growing;
mod inputs;
mod limits;
mod lists;
mod network;
mod numbers;
mod outputs;
mod reports;
mod sightings;
mod steps;
mod texts;

pub use commands::{Cmd, Why};
pub use copied::Copied;
pub use documents::{
    Cond, CondOp, Dep, Deps, DraftDep, DraftDeps, JobDoc, JobDraft, JobDrafts, Jobs, Obj, OnUntil,
    PromptRef, Recovery, Rel, SharedDocs, StreamDoc, StreamDocs, StreamDraft, StreamDrafts,
    StreamNos, Work,
};
pub use entries::{Body, Entries, Entry, Feed, Packet};
pub use growing::Growing;
pub use inputs::{Input, Local};
pub use limits::{
    DEFAULT_PRIORITY, GREATEST_LIMIT, GREATEST_PRIORITY, LONGEST_ENTRY, LONGEST_FILE,
    LONGEST_INPUT, LONGEST_TEXT, MOST_DEPENDENCIES, MOST_JOBS, MOST_NUMBERED, MOST_STREAMS,
    MOST_WORKSTATIONS,
};
pub use lists::{Items, NoMemory};
pub use network::{
    Carry, Net, Node, Nodes, Peer, Peers, PromptDef, PromptDefs, Resource, Resources,
};
pub use numbers::{JobNo, Moment, StreamNo, Ws};
pub use outputs::{Live, LiveJob, Out, Outs};
pub use reports::{
    Bytes, Counts, FeedCount, FeedCounts, LimitName, NodePart, NodeParts, PairCount, PairCounts,
    ReportParts, Start, Starts, Token, TokenKind, Tokens,
};
pub use sightings::Seen;
pub use steps::WorldStep;
pub use texts::{Text, is_name};
