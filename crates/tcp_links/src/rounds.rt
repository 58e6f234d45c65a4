//! What all connections have in common in one round.

use crate::seals::NetworkKey;
use std::alloc::Global;
use std::time::Duration;

/// What all connections have in common in one round.
#[derive(Clone, Copy)]
pub struct Round {
    pub alloc: Global,
    /// The number by which calls are made, and who is called.
    pub own: u16,
    /// The key of the network, where there is one.
    pub key: Option<NetworkKey>,
    /// The last reading of the monotonic clock.
    pub now: Duration,
}
