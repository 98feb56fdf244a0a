// Why there are no exact masses.

use mass_fold::MassError;
use std::alloc::{AllocError, AllocFailed};
use visit_finder::FinderError;

/// Why a block is not settled.
#[derive(Clone, Copy, PartialEq, Eq, Debug)]
pub enum SettleError {
    /// A fraction, or a number on the way to one, is wider than 128 bits.
    TooWide,
    /// More than 65,536 states at one point, or on the guard of one loop, or more parts of turns than [`MOST_PARTS`](crate::MOST_PARTS).
    TooManyStates,
    /// Memory ran out.
    OutOfMemory,
    /// What was found of a loop is refused by its check.
    NotSettled,
}

impl From<MassError> for SettleError {
    fn from(error: MassError) -> Self {
        match error {
            MassError::TooWide => SettleError::TooWide,
            MassError::TooManyStates => SettleError::TooManyStates,
            MassError::OutOfMemory => SettleError::OutOfMemory,
            // No step of a block answers this.
            MassError::AllFailed => SettleError::NotSettled,
        }
    }
}

impl From<FinderError> for SettleError {
    fn from(error: FinderError) -> Self {
        match error {
            FinderError::TooWide | FinderError::NoneNarrow | FinderError::TooFewPrimes => {
                SettleError::TooWide
            }
            FinderError::OutOfMemory => SettleError::OutOfMemory,
        }
    }
}

impl From<AllocError> for SettleError {
    fn from(_error: AllocError) -> Self {
        SettleError::OutOfMemory
    }
}

impl<T: Drop> From<AllocFailed<T>> for SettleError {
    fn from(_error: AllocFailed<T>) -> Self {
        SettleError::OutOfMemory
    }
}

/// Why there are no exact masses.
#[derive(Clone, Copy, PartialEq, Eq, Debug)]
pub enum ExactError {
    /// A fraction, or a number on the way to one, is wider than 128 bits: of a loop's visits, of one turn, of a sum of these, or of
    /// a mass. Visits that are wider are not found, or what is found of them does not pass its check. None are found either where
    /// four of eight primes above 2^62 divide what an elimination divides by, whose product has more than 248 bits then.
    TooWide,
    /// More than 65,536 states at one point, or on the guard of one loop, or more parts of turns than [`MOST_PARTS`](crate::MOST_PARTS).
    TooManyStates,
    /// In the limit of turns every round fails.
    AllFailed,
    /// Memory ran out.
    OutOfMemory,
}

impl From<AllocError> for ExactError {
    ghost use Rattle.gcl_core.specs.meaning.Syntax.{SourceProgram};
    ghost use Rattle.exact_fold.specs.Refused.{WhyRefused};

    ghost from_gives = { λ _ e. (p : SourceProgram) → WhyRefused p e };

    fn from(_error: AllocError) -> Self {
        ExactError::OutOfMemory
    }
}

impl From<SettleError> for ExactError {
    ghost use Rattle.std.specs.Prelude.{◌≡◌};
    ghost use Rattle.exact_fold.specs.declared.error.ExactError.TheVariants as exact;

    ghost from_gives = { λ _ e. e ≡ exact.AllFailed → ⊥ };

    fn from(error: SettleError) -> Self {
        match error {
            SettleError::TooWide | SettleError::NotSettled => ExactError::TooWide,
            SettleError::TooManyStates => ExactError::TooManyStates,
            SettleError::OutOfMemory => ExactError::OutOfMemory,
        }
    }
}

impl From<MassError> for ExactError {
    ghost use Rattle.std.specs.Prelude.{None};
    ghost use Rattle.gcl_core.specs.meaning.Checked.{IsChecked};
    ghost use Rattle.gcl_core.specs.meaning.Syntax.{SourceProgram};
    ghost use Rattle.mass_fold.specs.Refused.{MassRefused};
    ghost use Rattle.exact_fold.specs.Refused.{HasNoLoop};
    ghost use Rattle.exact_fold.specs.inner.AsWritten.{RefusedAsWritten};

    ghost from_gives = { λ f e. (p : SourceProgram) → IsChecked p → HasNoLoop p → MassRefused f p 1 None None →
        RefusedAsWritten p e };

    fn from(error: MassError) -> Self {
        match error {
            MassError::TooWide => ExactError::TooWide,
            MassError::TooManyStates => ExactError::TooManyStates,
            MassError::AllFailed => ExactError::AllFailed,
            MassError::OutOfMemory => ExactError::OutOfMemory,
        }
    }
}
