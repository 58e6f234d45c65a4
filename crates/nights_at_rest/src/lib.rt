//! Worlds of the program and nights of running nodes come to rest.
//!
//! The laws of `rest_laws` speak of worlds of the definitions. `worlds` carries them over to the world that a record
//! plays: rounds of its turns and feeds lead to rest. `frames` frees rounds of packet numbers, since a frame tells what
//! it brings and no number. `running` has rounds of running nodes, made of whole passes of their loops. `still` says of
//! a night that once each running node has its links and makes a whole pass of its loop in which nothing happens, the
//! network has done its work.
#![tactic(auto)]

pub mod frames;
pub mod running;
pub mod still;
pub mod worlds;
