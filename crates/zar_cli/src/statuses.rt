//! The statuses that the program ends with.

/// The command said what it had to say.
pub const DONE: u8 = 0;
/// The program's text is refused.
pub const TEXT_REFUSED: u8 = 1;
/// The words are no command.
pub const WORDS_REFUSED: u8 = 2;
/// A read failed.
pub const READ_FAULT: u8 = 3;
/// A write failed.
pub const WRITE_FAULT: u8 = 4;
/// Out of memory.
pub const OUT_OF_MEMORY: u8 = 5;
/// The masses of the program are refused.
pub const MASS_REFUSED: u8 = 6;
/// The run needs more bits than there are.
pub const MORE_BITS: u8 = 7;
/// The run reached a limit.
pub const LIMIT_REACHED: u8 = 8;
/// A file that the words name is missing.
pub const NO_FILE: u8 = 9;
/// The system does not hand over the words.
pub const NO_WORDS: u8 = 10;
