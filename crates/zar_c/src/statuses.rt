//! The statuses that a call answers. They are those that the program `zar` ends with.

/// It did what it was asked.
pub const DONE: u8 = 0;
/// The text spells no program.
pub const TEXT_REFUSED: u8 = 1;
/// The numbers are out of range, or the arrays are not alike.
pub const NUMBERS_REFUSED: u8 = 2;
/// Out of memory.
pub const OUT_OF_MEMORY: u8 = 5;
/// The masses of the program are refused.
pub const MASS_REFUSED: u8 = 6;
