// The greatest values that the store takes. Each stands here alone, and beside it in specs/Limits.antt.

/// The most bytes of a key.
pub const KEY_LIMIT: usize = 4096;

/// The most bytes of a value: 1 MiB.
pub const VALUE_LIMIT: usize = 1_048_576;

/// The most bytes of a command: 2 MiB.
pub const COMMAND_LIMIT: usize = 2_097_152;

/// The most that a shard's state weighs, in bytes: 256 MiB.
pub const WEIGHT_LIMIT: u64 = 268_435_456;

/// The most items of a page.
pub const PAGE_ITEMS: usize = 1000;

/// The most bytes of a page's items: 3 MiB.
pub const PAGE_BYTES: u64 = 3_145_728;

/// The most bytes of a snapshot: 384 MiB.
pub const SAVED_LIMIT: u64 = 402_653_184;

/// The greatest term: 2^53.
pub const TERM_LIMIT: u64 = 9_007_199_254_740_992;

/// The greatest number of entries: 2^53.
pub const COUNT_LIMIT: u64 = 9_007_199_254_740_992;

/// The greatest offset of an entry: 2^53 - 1, one below the greatest number of entries.
pub const OFFSET_LIMIT: u64 = 9_007_199_254_740_991;

/// The greatest time, in ms: 2^53.
pub const TIME_LIMIT: u64 = 9_007_199_254_740_992;
