// Why there is no mass.

ghost use Rattle.std.specs.Prelude.{◌≡◌};

use std::alloc::{AllocError, AllocFailed};

/// Why there is no mass.
#[derive(Clone, Copy, PartialEq, Eq, Debug)]
pub enum MassError {
    /// A fraction is too wide for two numbers of 128 bits.
    TooWide,
    /// More than 65,536 states at one point.
    TooManyStates,
    /// Every round fails, and rounds have no limit.
    AllFailed,
    /// Memory ran out.
    OutOfMemory,
}

impl From<AllocError> for MassError {
    ghost use Rattle.mass_fold.specs.declared.error.MassError.TheVariants.{OutOfMemory};

    ghost from_gives = { λ _ e. e ≡ OutOfMemory };

    fn from(_error: AllocError) -> Self {
        MassError::OutOfMemory
    }
}

impl<T: Drop> From<AllocFailed<T>> for MassError {
    ghost use Rattle.mass_fold.specs.declared.error.MassError.TheVariants.{OutOfMemory};

    ghost from_gives = { λ _ e. e ≡ OutOfMemory };

    fn from(_error: AllocFailed<T>) -> Self {
        MassError::OutOfMemory
    }
}
