//! The record of a night that a sample is made of, by a number of jobs and a seed.
//!
//! `sample` gives exactly the bytes that `specs/Samples.antt` defines over the files that stand before it: a network of
//! a master and four agents, streams of ten jobs that are spread over the agents and follow each other as the draws
//! say, and as many rounds of turns and deliveries as let all of them end. The same numbers give the same record
//! everywhere.
#![tactic(auto)]

mod agents;
mod draws;
mod rounds;
mod samples;
mod streams;

pub use samples::sample;
