//! The limits of a document, of the queues and servers that it declares, and of what a run counts.

/// Bytes of a document, at most: 16 MiB.
pub const DOCUMENT: usize = 16_777_216;

/// Nodes of a document, at most.
pub const NODES: usize = 64;

/// Named callback groups of a document, at most.
pub const NAMED_GROUPS: usize = 256;

/// Topics of a document, at most.
pub const TOPICS: usize = 256;

/// Entities of a document, at most. Topics aren't among them.
pub const ENTITIES: usize = 512;

/// Instructions of one script, at most.
pub const INSTRUCTIONS: usize = 256;

/// Goals that a server holds, in any state, at most.
pub const GOALS: usize = 1_024;

/// The depth of a queue, at most. The least is 1.
pub const DEPTH: u64 = 1_024;

/// The depth of a queue if none is given.
pub const DEFAULT_DEPTH: u64 = 10;

/// Rounds of a document, at most.
pub const MOMENTS: usize = 65_536;

/// Entries of a document's feed, at most.
pub const FEED: usize = 65_536;

/// Characters of a name, at most. The least is 1.
pub const NAME_LENGTH: usize = 64;

/// A moment, a period, a timeout and a fed stamp in ticks, at most: 2^62.
pub const TICKS: u64 = 4_611_686_018_427_387_904;

/// The number of a call, a goal or an arrival is below this: 2^60.
pub const NUMBERS: u64 = 1_152_921_504_606_846_976;
