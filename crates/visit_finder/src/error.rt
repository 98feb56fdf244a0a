// Why no visits are found.

ghost use Rattle.std.specs.Prelude.{◌≡◌};

use std::alloc::{AllocError, AllocFailed};

/// Why no visits are found.
#[derive(Clone, Copy, PartialEq, Eq, Debug)]
pub enum FinderError {
    /// The weights with which one turn leads on from a state add up to a fraction of more than 128 bits.
    TooWide,
    /// Some state has no visits of two numbers of 128 bits, whatever visits balance.
    NoneNarrow,
    /// Four of eight primes above 2^62 divide what an elimination divides by.
    TooFewPrimes,
    /// Memory ran out.
    OutOfMemory,
}

impl From<AllocError> for FinderError {
    ghost use Rattle.visit_finder.specs.declared.error.FinderError.TheVariants.{OutOfMemory};

    ghost from_gives = { λ _ e. e ≡ OutOfMemory };

    fn from(_error: AllocError) -> Self {
        FinderError::OutOfMemory
    }
}

impl<T: Drop> From<AllocFailed<T>> for FinderError {
    ghost use Rattle.visit_finder.specs.declared.error.FinderError.TheVariants.{OutOfMemory};

    ghost from_gives = { λ _ e. e ≡ OutOfMemory };

    fn from(_error: AllocFailed<T>) -> Self {
        FinderError::OutOfMemory
    }
}
