// Why there are no bounds.

ghost use Rattle.std.specs.Prelude.{◌≡◌};

use gcl_core::refusals::{ALL_FAILED, CODE_WORDS, TOO_MANY_STATES, TOO_UNLIKELY};
use std::alloc::{AllocError, AllocFailed};
use thiserror::Error;

/// Why there are no bounds.
#[derive(Clone, Copy, PartialEq, Eq, Debug, Error)]
pub enum EncloseError {
    /// More than 65,536 states at one point.
    #[error("{}", CODE_WORDS[TOO_MANY_STATES as usize])]
    TooManyStates,
    /// Every round fails, and rounds have no limit.
    #[error("{}", CODE_WORDS[ALL_FAILED as usize])]
    AllFailed,
    /// No unit of a round passes, nor do all fail, and rounds have no limit: whether a round ever passes is not seen.
    #[error("{}", CODE_WORDS[TOO_UNLIKELY as usize])]
    TooUnlikely,
    /// Memory ran out.
    #[error("out of memory")]
    OutOfMemory,
}

impl From<AllocError> for EncloseError {
    ghost use Rattle.enclose_fold.specs.declared.error.EncloseError.TheVariants.{OutOfMemory};

    ghost from_gives = { λ _ e. e ≡ OutOfMemory };

    fn from(_error: AllocError) -> Self {
        EncloseError::OutOfMemory
    }
}

impl<T: Drop> From<AllocFailed<T>> for EncloseError {
    ghost use Rattle.enclose_fold.specs.declared.error.EncloseError.TheVariants.{OutOfMemory};

    ghost from_gives = { λ _ e. e ≡ OutOfMemory };

    fn from(_error: AllocFailed<T>) -> Self {
        EncloseError::OutOfMemory
    }
}
