// Why a text has no tokens.

ghost use Rattle.std.specs.Prelude.{◌≡◌};

use gcl_core::refusals::{BAD_BYTE, CODE_WORDS, NAME_TOO_LONG, NUMBER_TOO_WIDE, TEXT_TOO_LONG};
use std::alloc::{AllocError, AllocFailed};
use thiserror::Error;

/// Why a text gives no tokens. Places are in bytes from the start of the text.
#[derive(Clone, Copy, PartialEq, Eq, Debug, Error)]
pub enum LexError {
    /// The text has more than 65,536 bytes.
    #[error("{}", CODE_WORDS[TEXT_TOO_LONG as usize])]
    TextTooLong,
    /// At this place begins no blank, comment, number, name or symbol.
    #[error("{words} at {at}", words = CODE_WORDS[BAD_BYTE as usize])]
    BadByte { at: u32 },
    /// The number whose first digit stands at this place is above 2^63 - 1.
    #[error("{words} at {at}", words = CODE_WORDS[NUMBER_TOO_WIDE as usize])]
    NumberTooWide { at: u32 },
    /// The name whose first byte stands at this place has more than 64 bytes.
    #[error("{words} at {at}", words = CODE_WORDS[NAME_TOO_LONG as usize])]
    NameTooLong { at: u32 },
    #[error("out of memory")]
    OutOfMemory,
}

impl From<AllocError> for LexError {
    ghost use Rattle.gcl_lex.specs.declared.error.LexError.TheVariants.{OutOfMemory};

    ghost from_gives = { λ _ e. e ≡ OutOfMemory };

    fn from(_error: AllocError) -> Self {
        LexError::OutOfMemory
    }
}

impl<T: Drop> From<AllocFailed<T>> for LexError {
    ghost use Rattle.gcl_lex.specs.declared.error.LexError.TheVariants.{OutOfMemory};

    ghost from_gives = { λ _ e. e ≡ OutOfMemory };

    fn from(_error: AllocFailed<T>) -> Self {
        LexError::OutOfMemory
    }
}
