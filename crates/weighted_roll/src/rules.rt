// Numbers that bound a roll by weights.

/// The most labels, 2^32.
pub const MOST_LABELS: usize = 1 << 32;
/// The greatest sum of the weights, 2^62.
pub const GREATEST_SUM: u64 = 1 << 62;
/// The most columns that are laid out.
pub const MOST_DEPTH: usize = 64;
/// The most weights that a word lists.
pub const MOST_LISTED: usize = 4_096;
