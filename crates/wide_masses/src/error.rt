// Why there are no masses in wide fractions.

use wide_fold::WideFoldError;

/// Why there are no masses in wide fractions.
#[derive(Clone, Copy, PartialEq, Eq, Debug)]
pub enum Refusal {
    /// The body of the program is not settled in wide fractions, or not within the steps that are taken for it, or a mass has a number
    /// of more than 4,096 bits.
    NotFound,
    /// In the limit of turns every round fails.
    AllFailed,
    /// Memory ran out.
    OutOfMemory,
}

impl From<WideFoldError> for Refusal {
    ghost use Rattle.std.specs.Prelude.{◌≡◌};
    ghost use Rattle.wide_masses.specs.declared.error.Refusal.TheVariants.{AllFailed};

    ghost from_gives = { λ _ e. e ≡ AllFailed → ⊥ };

    fn from(error: WideFoldError) -> Self {
        match error {
            WideFoldError::TooWide
            | WideFoldError::StateTooWide
            | WideFoldError::TooMuchWork
            | WideFoldError::TooManyStates
            | WideFoldError::NotSettled => Refusal::NotFound,
            WideFoldError::OutOfMemory => Refusal::OutOfMemory,
        }
    }
}
