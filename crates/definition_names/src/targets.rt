//! What a FOLLOWS means.

/// What is followed: a stream by its place among the streams of the definitions, or an entry by the place of its stream
/// and its own place there. Places count from 0.
#[derive(Clone, Copy)]
pub enum Target {
    Stream(usize),
    Job(usize, usize),
}
