// Why there are no expected bits.

use exact_fold::SettleError;
use mass_fold::MassError;
use std::alloc::{AllocError, AllocFailed};

/// Why there are no expected bits.
#[derive(Clone, Copy, PartialEq, Eq, Debug)]
pub enum BitsError {
    /// A fraction, or a number on the way to one, is wider than 128 bits.
    TooWide,
    /// More than 65,536 states at one point, or on the guard of one loop.
    TooManyStates,
    /// What was found of a loop is refused by its check.
    NotFound,
    /// Memory ran out.
    OutOfMemory,
}

impl From<MassError> for BitsError {
    ghost use Rattle.std.specs.Prelude.{ℕ, None};
    ghost use Rattle.gcl_core.specs.meaning.Checked.{IsChecked};
    ghost use Rattle.gcl_core.specs.meaning.Syntax.{SourceProgram};
    ghost use Rattle.mass_fold.specs.Refused.{RoundRefused};
    ghost use Rattle.bits_fold.specs.inner.AsWritten.{RefusedAt};

    ghost from_gives = { λ f e. (p : SourceProgram) (n : ℕ) → IsChecked p → RoundRefused f p n None → RefusedAt p n e };

    fn from(error: MassError) -> Self {
        match error {
            MassError::TooWide => BitsError::TooWide,
            MassError::TooManyStates => BitsError::TooManyStates,
            MassError::OutOfMemory => BitsError::OutOfMemory,
            // No step of a block answers this.
            MassError::AllFailed => BitsError::NotFound,
        }
    }
}

impl From<SettleError> for BitsError {
    fn from(error: SettleError) -> Self {
        match error {
            SettleError::TooWide => BitsError::TooWide,
            SettleError::TooManyStates => BitsError::TooManyStates,
            SettleError::OutOfMemory => BitsError::OutOfMemory,
            SettleError::NotSettled => BitsError::NotFound,
        }
    }
}

impl From<AllocError> for BitsError {
    ghost use Rattle.gcl_core.specs.meaning.Syntax.{SourceProgram};
    ghost use Rattle.bits_fold.specs.Refused.{BitsRefused};

    ghost from_gives = { λ _ e. (p : SourceProgram) → BitsRefused p e };

    fn from(_error: AllocError) -> Self {
        BitsError::OutOfMemory
    }
}

impl<T: Drop> From<AllocFailed<T>> for BitsError {
    fn from(_error: AllocFailed<T>) -> Self {
        BitsError::OutOfMemory
    }
}
