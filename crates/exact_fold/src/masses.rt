// The masses of a program in the limit of turns, by way of its forgetful program.

ghost use Rattle.std.specs.Prelude.{IfOk, IfErr};
ghost use Rattle.gcl_core.specs.meaning.Views.{source_of};
ghost use Rattle.forgetting.specs.Forgetful.{forgetful_of};
ghost use Rattle.exact_fold.specs.Exact.{IsExact};
ghost use Rattle.exact_fold.specs.InTheLimit.{IsExactInTheLimit};
ghost use Rattle.exact_fold.specs.Refused.{WhyRefused};

use crate::error::ExactError;
use crate::program::{ExactMasses, exact_as_written};
use forgetting::{forgetful, forgetting_changes_no_meaning};
use gcl_core::Checked;
use std::alloc::Global;

/// The mass of each outcome of a program in the limit of turns, and that with which it runs for ever.
///
/// The rows are worked out of the forgetful program, in which states are merged that differ in variables alone whose values no longer
/// matter. They hold of the program itself.
///
/// A program without a loop is refused as `mass` refuses its forgetful program at a limit of one turn: as too wide only where
/// the common denominator of that is 2^128 or more, and for its states only where some point of it is reached with more than
/// [`mass_fold::MOST_STATES`]. A program with a loop is refused for these two only where at [`TURNS_TRIED`](crate::TURNS_TRIED) turns
/// `mass` refuses its forgetful program so, or some run of it has not ended. Of a loop that goes on longer no clause says that it
/// is answered; what is tried is a table of programs, in the tests. `AllFailed` comes only where in the limit every round fails.
pub fn exact(alloc: Global, program: &Checked) -> Result<ExactMasses, ExactError>
    ensures masses { IfOk result (λ e. IsExact (forgetful_of (source_of program.now)) e.rows e.endless) }
    ensures limits { IfOk result (λ e. IsExactInTheLimit (source_of program.now) e.rows e.endless) }
    ensures refused { IfErr result (WhyRefused (source_of program.now)) }
{
    forgetting_changes_no_meaning();
    let forgetful_program = forgetful(alloc, program)?;
    exact_as_written(alloc, &forgetful_program)
}
