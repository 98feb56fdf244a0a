// Numbers that the rules of the language name.

/// The most bytes of a text.
pub const LONGEST_TEXT: usize = 65_536;
/// The most bytes of a name.
pub const LONGEST_NAME: usize = 64;
/// The most names of a program.
pub const MOST_NAMES: usize = 256;
/// The greatest number of a text, 2^63 - 1.
pub const GREATEST_LITERAL: u64 = (1 << 63) - 1;
/// How many brackets and blocks may be open at a time.
pub const DEEPEST_NESTING: u32 = 64;
/// The most operators since the last `;` or brace.
pub const MOST_OPERATORS: u32 = 128;
/// The greatest denominator of a weight in lowest terms, 2^62.
pub const GREATEST_DENOMINATOR: u64 = 1 << 62;
/// The fewest arms of a choice among several.
pub const LEAST_ARMS: usize = 2;
/// The most arms of a choice among several.
pub const MOST_ARMS: usize = 16;
/// The most digits of a number that a word spells.
pub const MOST_DIGITS: usize = 20;
/// The greatest limit of turns, of attempts and of rounds.
pub const MOST_LIMIT: u64 = 1_000_000_000;
