// The masses of a program in the limit of turns, in fractions that are as wide as they need to be.

ghost use Rattle.std.specs.Prelude.{IfOk, IfErr};
ghost use Rattle.gcl_core.specs.meaning.Views.{source_of};
ghost use Rattle.forgetting.specs.Forgetful.{forgetful_of};
ghost use Rattle.exact_fold.specs.Exact.{IsExact};
ghost use Rattle.exact_fold.specs.InTheLimit.{IsExactInTheLimit};
ghost use Rattle.exact_fold.specs.Refused.{WhyRefused};
ghost use Rattle.exact_fold.specs.declared.error.ExactError.TheVariants.{TooWide};
ghost use Rattle.wide_masses.specs.Masses.{rows_of, endless_of, IsWide};

use crate::error::Refusal;
use crate::program::{WideMasses, settled};
use exact_fold::{ExactError, ExactMasses};
use forgetting::{forgetful, forgetting_changes_no_meaning};
use gcl_core::Checked;
use std::alloc::Global;

/// The exact masses of a program, and what runs for ever.
#[derive(Drop)]
pub enum Masses {
    /// In fractions of 128 bits.
    Narrow(ExactMasses),
    /// In fractions of up to 4,096 bits.
    Wide(WideMasses),
}

// A program whose fractions are wider than 128 bits.
fn in_wide_fractions(alloc: Global, program: &Checked) -> Result<Masses, ExactError>
    requires { WhyRefused (source_of program.now) TooWide }
    ensures masses { IfOk result (λ m. IsExact (forgetful_of (source_of program.now)) (rows_of m) (endless_of m)) }
    ensures limits { IfOk result (λ m. IsExactInTheLimit (source_of program.now) (rows_of m) (endless_of m)) }
    ensures refused { IfErr result (WhyRefused (source_of program.now)) }
{
    forgetting_changes_no_meaning();
    let forgetful_program = forgetful(alloc, program)?;
    match settled(alloc, &forgetful_program) {
        Ok(masses) => Ok(Masses::Wide(masses)),
        Err(Refusal::NotFound) => Err(ExactError::TooWide),
        Err(Refusal::AllFailed) => Err(ExactError::AllFailed),
        Err(Refusal::OutOfMemory) => Err(ExactError::OutOfMemory),
    }
}

/// The mass of each outcome of a program in the limit of turns, and that with which it runs for ever.
///
/// They are those of [`exact_fold::exact`]. Where that refuses a program as too wide, the body of its forgetful program is settled
/// in fractions of up to 4,096 bits. `TooWide` comes only where both walks refuse it, the second too where it would take more than
/// [`MOST_WORK`](wide_fold::MOST_WORK) steps, and only for a cause of the first.
pub fn exact(alloc: Global, program: &Checked) -> Result<Masses, ExactError>
    ensures masses { IfOk result (λ m. IsExact (forgetful_of (source_of program.now)) (rows_of m) (endless_of m)) }
    ensures limits { IfOk result (λ m. IsExactInTheLimit (source_of program.now) (rows_of m) (endless_of m)) }
    ensures wide { IfOk result (λ m. IsWide m → WhyRefused (source_of program.now) TooWide) }
    ensures refused { IfErr result (WhyRefused (source_of program.now)) }
{
    match exact_fold::exact(alloc, program) {
        Ok(masses) => Ok(Masses::Narrow(masses)),
        Err(ExactError::TooWide) => in_wide_fractions(alloc, program),
        Err(refusal) => Err(refusal),
    }
}
