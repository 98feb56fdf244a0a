// What a unit is.

/// How many units make one whole.
pub const ALL: u128 = 1 << 120;
