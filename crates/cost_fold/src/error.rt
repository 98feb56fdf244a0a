// Why there are no expected bits.

ghost use Rattle.std.specs.Prelude.{◌≡◌};
ghost use Rattle.mass_fold.specs.declared.error.MassError.TheVariants as mass_error;
ghost use Rattle.cost_fold.specs.declared.error.CostError.TheVariants as cost_error;

use mass_fold::MassError;

/// Why there are no expected bits.
#[derive(Clone, Copy, PartialEq, Eq, Debug)]
pub enum CostError {
    /// A fraction is too wide for two numbers of 128 bits.
    TooWide,
    /// More than 65,536 states at one point.
    TooManyStates,
    /// Memory ran out.
    OutOfMemory,
}
