//! The codes of refusals, each with its words: 1 to 12 of a text, 13 to 15 and 17 of masses, bounds, costs and rolls, and 16 of
//! the words of a call.

/// A text has more bytes than are read.
pub const TEXT_TOO_LONG: u8 = 1;
/// A byte begins no token, no blank and no comment.
pub const BAD_BYTE: u8 = 2;
/// A number does not fit 63 bits.
pub const NUMBER_TOO_WIDE: u8 = 3;
/// A name has more bytes than a name may have.
pub const NAME_TOO_LONG: u8 = 4;
/// A token that no program has behind those before it, or the end of a text that is no program yet.
pub const UNEXPECTED: u8 = 5;
/// Too many brackets are open, or too many operators stand since the last `;` or brace.
pub const TOO_DEEP: u8 = 6;
/// A truth stands where a number is wanted, or a number where a truth is.
pub const KIND_MISMATCH: u8 = 7;
/// A name is read that nothing sets.
pub const UNKNOWN_NAME: u8 = 8;
/// A program has more names than it may have.
pub const TOO_MANY_NAMES: u8 = 9;
/// A weight has the denominator 0, or all parts of a choice among several are 0.
pub const ZERO_DENOMINATOR: u8 = 10;
/// A weight is above 1.
pub const WEIGHT_ABOVE_ONE: u8 = 11;
/// The denominator of a weight, or the sum of the parts of a choice among several, is above the greatest in lowest terms.
pub const TOO_FINE: u8 = 12;
/// A fraction of the answer, or on the way to it, is too wide for 128 bits.
pub const TOO_WIDE: u8 = 13;
/// A point of a program is reached with more states than are kept.
pub const TOO_MANY_STATES: u8 = 14;
/// Every round of a program fails, and nothing limits them.
pub const ALL_FAILED: u8 = 15;
/// The words of a call are no command.
pub const BAD_WORDS: u8 = 16;
/// A round passes too seldom, if at all, for one unit of its weight.
pub const TOO_UNLIKELY: u8 = 17;

/// The words of each code, at its number. There is no code 0.
pub const CODE_WORDS: [&str; 18] = [
    "",
    "text too long",
    "bad byte",
    "number too wide",
    "name too long",
    "unexpected",
    "too deep",
    "kind mismatch",
    "unknown name",
    "too many names",
    "zero denominator",
    "weight above one",
    "weight too fine",
    "fraction too wide",
    "too many states",
    "every round fails",
    "bad words",
    "too unlikely to enclose",
];
