// Why no program is read.

ghost use Rattle.std.specs.Prelude.{◌≡◌};

use gcl_core::refusals::{CODE_WORDS, TOO_DEEP, UNEXPECTED};
use std::alloc::AllocError;
use thiserror::Error;

/// Why tokens give no program. `at` is the offset of a byte in the text.
#[derive(Clone, Copy, PartialEq, Eq, Debug, Error)]
pub enum ParseError {
    /// Brackets nest deeper than 64, or more than 128 operators stand since the last `;` or brace, at the token that begins here.
    #[error("{words} at {at}", words = CODE_WORDS[TOO_DEEP as usize])]
    TooDeep { at: u32 },
    /// No program has the token that begins here behind those before it; or the text ends here, and its tokens are no program
    /// yet.
    #[error("{words} at {at}", words = CODE_WORDS[UNEXPECTED as usize])]
    Unexpected { at: u32 },
    #[error("out of memory")]
    OutOfMemory,
}

impl From<AllocError> for ParseError {
    ghost use Rattle.gcl_parse.specs.declared.error.ParseError.TheVariants.{OutOfMemory};

    ghost from_gives = { λ _ e. e ≡ OutOfMemory };

    fn from(_error: AllocError) -> Self {
        ParseError::OutOfMemory
    }
}
