// Why lines are refused, by codes.

ghost use Rattle.std.specs.Prelude.{◌≡◌};
ghost use Rattle.mass_lines.specs.Reasons.{mass_reason, cost_reason, expected_reason, enclose_reason, exact_reason};

use bits_fold::BitsError;
use cost_fold::CostError;
use enclose_fold::EncloseError;
use exact_fold::ExactError;
use gcl_core::refusals::{ALL_FAILED, TOO_MANY_STATES, TOO_UNLIKELY, TOO_WIDE};
use mass_fold::MassError;
use std::alloc::AllocError;

/// Why lines are refused.
#[derive(Clone, Copy, PartialEq, Eq, Debug)]
pub enum Reason {
    /// The cause of this code.
    Coded(u8),
    /// Memory ran out.
    Memory,
}

impl From<AllocError> for Reason {
    ghost use Rattle.mass_lines.specs.declared.reasons.Reason.TheVariants.{Memory};

    ghost from_gives = { λ _ r. r ≡ Memory };

    fn from(_error: AllocError) -> Self {
        Reason::Memory
    }
}

impl From<MassError> for Reason {
    ghost from_gives = { λ e r. r ≡ mass_reason e };

    fn from(error: MassError) -> Self {
        match error {
            MassError::TooWide => Reason::Coded(TOO_WIDE),
            MassError::TooManyStates => Reason::Coded(TOO_MANY_STATES),
            MassError::AllFailed => Reason::Coded(ALL_FAILED),
            MassError::OutOfMemory => Reason::Memory,
        }
    }
}

impl From<CostError> for Reason {
    ghost from_gives = { λ e r. r ≡ cost_reason e };

    fn from(error: CostError) -> Self {
        match error {
            CostError::TooWide => Reason::Coded(TOO_WIDE),
            CostError::TooManyStates => Reason::Coded(TOO_MANY_STATES),
            CostError::OutOfMemory => Reason::Memory,
        }
    }
}

impl From<BitsError> for Reason {
    ghost from_gives = { λ e r. r ≡ expected_reason e };

    fn from(error: BitsError) -> Self {
        match error {
            BitsError::TooWide | BitsError::NotFound => Reason::Coded(TOO_WIDE),
            BitsError::TooManyStates => Reason::Coded(TOO_MANY_STATES),
            BitsError::OutOfMemory => Reason::Memory,
        }
    }
}

impl From<EncloseError> for Reason {
    ghost from_gives = { λ e r. r ≡ enclose_reason e };

    fn from(error: EncloseError) -> Self {
        match error {
            EncloseError::TooManyStates => Reason::Coded(TOO_MANY_STATES),
            EncloseError::AllFailed => Reason::Coded(ALL_FAILED),
            EncloseError::TooUnlikely => Reason::Coded(TOO_UNLIKELY),
            EncloseError::OutOfMemory => Reason::Memory,
        }
    }
}

impl From<ExactError> for Reason {
    ghost from_gives = { λ e r. r ≡ exact_reason e };

    fn from(error: ExactError) -> Self {
        match error {
            ExactError::TooWide => Reason::Coded(TOO_WIDE),
            ExactError::TooManyStates => Reason::Coded(TOO_MANY_STATES),
            ExactError::AllFailed => Reason::Coded(ALL_FAILED),
            ExactError::OutOfMemory => Reason::Memory,
        }
    }
}
