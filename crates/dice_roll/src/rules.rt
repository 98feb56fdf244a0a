// Numbers that bound a roll.

/// The fewest labels.
pub const LEAST_LABELS: u64 = 2;
/// The most labels, 2^62.
pub const MOST_LABELS: u64 = 1 << 62;
/// The greatest limit of flips.
pub const MOST_FLIPS: u64 = 1_000_000_000;
/// The most flips within which a roll is weighed: 2^127 is the greatest power of two that 128 bits hold.
pub const MOST_WEIGHED_FLIPS: u64 = 127;
