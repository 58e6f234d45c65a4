//! Tests of the layers by their public functions: the types, the outside in memory and over readers and writers, what keeps
//! bodies on a disk, what a running node stands on, message codes, and the real outside.
//!
//! Each module holds the tests of what it is named after. They stand in one crate, since the check of a crate has seconds
//! of its own, however small the crate is.
#![tactic(auto)]

#[cfg(test)]
mod base_types_tests;
#[cfg(test)]
mod disks_tests;
#[cfg(test)]
mod framed_tests;
#[cfg(test)]
mod keyed_hash_tests;
#[cfg(test)]
mod message_file_tests;
#[cfg(test)]
mod node_inputs_tests;
#[cfg(test)]
mod outside_mem_tests;
#[cfg(test)]
mod probe_mem_tests;
#[cfg(test)]
mod real_outside_tests;
#[cfg(test)]
mod standard_streams_tests;
#[cfg(test)]
mod whole_io_tests;
