// Why a round gives no pairs, or no bounds.

ghost use Rattle.std.specs.Prelude.{◌≡◌};

use gcl_core::refusals::{CODE_WORDS, TOO_MANY_STATES, TOO_UNLIKELY, TOO_WIDE};
use std::alloc::{AllocError, AllocFailed};
use thiserror::Error;

/// Why a round gives no pairs, or no bounds.
#[derive(Clone, Copy, PartialEq, Eq, Debug, Error)]
pub enum PairsError {
    /// More than 65,536 states at one point.
    #[error("{}", CODE_WORDS[TOO_MANY_STATES as usize])]
    TooManyStates,
    /// Some number of units has more than 128 bits.
    #[error("{}", CODE_WORDS[TOO_WIDE as usize])]
    TooWide,
    /// No outcome has a unit at least.
    #[error("{}", CODE_WORDS[TOO_UNLIKELY as usize])]
    NothingLeft,
    /// Memory ran out.
    #[error("out of memory")]
    OutOfMemory,
}

impl From<AllocError> for PairsError {
    ghost use Rattle.scaled_fold.specs.declared.error.PairsError.TheVariants.{OutOfMemory};

    ghost from_gives = { λ _ e. e ≡ OutOfMemory };

    fn from(_error: AllocError) -> Self {
        PairsError::OutOfMemory
    }
}

impl<T: Drop> From<AllocFailed<T>> for PairsError {
    ghost use Rattle.scaled_fold.specs.declared.error.PairsError.TheVariants.{OutOfMemory};

    ghost from_gives = { λ _ e. e ≡ OutOfMemory };

    fn from(_error: AllocFailed<T>) -> Self {
        PairsError::OutOfMemory
    }
}
