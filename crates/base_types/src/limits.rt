//! The limits that more than one layer asks for.

/// The most bytes of a text: of a field, of a quoted text and of an operator's line.
pub const LONGEST_TEXT: usize = 4096;

/// The most bytes of an entry, and of a body that a message file keeps.
pub const LONGEST_ENTRY: u32 = 4_194_304;

/// The most bytes of a message file.
pub const LONGEST_FILE: u32 = 2_147_483_648;

/// The most bytes of an input.
pub const LONGEST_INPUT: u32 = 16_777_216;

/// The most workstations of a network.
pub const MOST_WORKSTATIONS: usize = 256;

/// The most resources of a network, and the most prompts, since their numbers count from 1 and have 16 bits.
pub const MOST_NUMBERED: usize = 65_535;

/// The most streams of a plan.
pub const MOST_STREAMS: u32 = 4096;

/// The most jobs of a plan.
pub const MOST_JOBS: u32 = 16_384;

/// The most dependencies of a job or a stream.
pub const MOST_DEPENDENCIES: u16 = 64;

/// The greatest priority, which is GO.
pub const GREATEST_PRIORITY: u8 = 101;

/// The priority of a job or a stream for which none is written.
pub const DEFAULT_PRIORITY: u8 = 10;

/// The most units of a resource, and the greatest limit of launches.
pub const GREATEST_LIMIT: u16 = 1024;

/// The most steps of a replay.
pub(crate) const MOST_STEPS: u32 = 200_000;

/// The packets of a replay at which it takes no further step.
pub(crate) const MOST_PACKETS: u32 = 20_000_000;

/// The bytes of kept entries of a replay at which it takes no further step.
pub(crate) const MOST_BYTES: u32 = 268_435_456;

/// The last place of a feed.
pub(crate) const LAST_PLACE: u32 = 4_294_967_295;
