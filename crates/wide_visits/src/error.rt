// Why no visits are found.

use std::alloc::{AllocError, AllocFailed};
use visit_finder::FinderError;
use wide_numbers::WideError;

/// Why no visits are found.
#[derive(Clone, Copy, PartialEq, Eq, Debug)]
pub enum VisitsError {
    /// A number has more than 4,096 bits, a sum of weights that were told in 128 has more, or it would take more steps than are allowed.
    TooWide,
    /// Memory ran out.
    OutOfMemory,
}

impl From<WideError> for VisitsError {
    fn from(error: WideError) -> Self {
        match error {
            WideError::TooWide => VisitsError::TooWide,
            WideError::OutOfMemory => VisitsError::OutOfMemory,
        }
    }
}

impl From<FinderError> for VisitsError {
    fn from(error: FinderError) -> Self {
        match error {
            FinderError::TooWide | FinderError::NoneNarrow | FinderError::TooFewPrimes => {
                VisitsError::TooWide
            }
            FinderError::OutOfMemory => VisitsError::OutOfMemory,
        }
    }
}

impl From<AllocError> for VisitsError {
    fn from(_error: AllocError) -> Self {
        VisitsError::OutOfMemory
    }
}

impl<T: Drop> From<AllocFailed<T>> for VisitsError {
    fn from(_error: AllocFailed<T>) -> Self {
        VisitsError::OutOfMemory
    }
}
