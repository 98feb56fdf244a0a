// Why a block comes to no table.

ghost use Rattle.std.specs.Prelude.{◌≢◌};
ghost use Rattle.bits_fold.specs.declared.stop.Stop.TheVariants as stop;

use crate::error::BitsError;
use exact_fold::SettleError;
use mass_fold::MassError;

/// Why a block comes to no table.
#[derive(Clone, Copy)]
pub enum Stop {
    /// It reads bits for ever, with some weight.
    ReadsForever,
    /// It is refused.
    Refused(BitsError),
}

impl From<BitsError> for Stop {
    ghost from_gives = { λ _ s. s ≢ stop.ReadsForever };

    fn from(error: BitsError) -> Self {
        Stop::Refused(error)
    }
}

impl From<MassError> for Stop {
    ghost from_gives = { λ _ s. s ≢ stop.ReadsForever };

    fn from(error: MassError) -> Self {
        Stop::Refused(BitsError::from(error))
    }
}

impl From<SettleError> for Stop {
    ghost from_gives = { λ _ s. s ≢ stop.ReadsForever };

    fn from(error: SettleError) -> Self {
        Stop::Refused(BitsError::from(error))
    }
}

impl From<Stop> for BitsError {
    fn from(stop: Stop) -> Self {
        match stop {
            Stop::ReadsForever => BitsError::NotFound,
            Stop::Refused(error) => error,
        }
    }
}
