// Why a block is not settled in wide fractions.

use exact_fold::SettleError;
use mass_fold::MassError;
use std::alloc::{AllocError, AllocFailed};
use wide_numbers::WideError;
use wide_visits::VisitsError;

/// Why a block is not settled in wide fractions.
#[derive(Clone, Copy, PartialEq, Eq, Debug)]
pub enum WideFoldError {
    /// A number has more than 4,096 bits.
    TooWide,
    /// What comes of one state alone is wider than 128 bits.
    StateTooWide,
    /// It would take more steps than [`MOST_WORK`](crate::MOST_WORK).
    TooMuchWork,
    /// More than 65,536 states at one point, or on the guard of one loop, or more parts of turns than are made.
    TooManyStates,
    /// Memory ran out.
    OutOfMemory,
    /// What was found of a loop is refused by its check.
    NotSettled,
}

impl From<SettleError> for WideFoldError {
    fn from(error: SettleError) -> Self {
        match error {
            SettleError::TooWide | SettleError::NotSettled => WideFoldError::StateTooWide,
            SettleError::TooManyStates => WideFoldError::TooManyStates,
            SettleError::OutOfMemory => WideFoldError::OutOfMemory,
        }
    }
}

impl From<MassError> for WideFoldError {
    fn from(error: MassError) -> Self {
        WideFoldError::from(SettleError::from(error))
    }
}

impl From<WideError> for WideFoldError {
    fn from(error: WideError) -> Self {
        match error {
            WideError::TooWide => WideFoldError::TooWide,
            WideError::OutOfMemory => WideFoldError::OutOfMemory,
        }
    }
}

impl From<VisitsError> for WideFoldError {
    fn from(error: VisitsError) -> Self {
        match error {
            VisitsError::TooWide => WideFoldError::TooWide,
            VisitsError::OutOfMemory => WideFoldError::OutOfMemory,
        }
    }
}

impl From<AllocError> for WideFoldError {
    fn from(_error: AllocError) -> Self {
        WideFoldError::OutOfMemory
    }
}

impl<T: Drop> From<AllocFailed<T>> for WideFoldError {
    fn from(_error: AllocFailed<T>) -> Self {
        WideFoldError::OutOfMemory
    }
}
