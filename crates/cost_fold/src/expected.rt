// The expected number of bits.

ghost use Rattle.std.specs.Prelude.{◌≡◌, ◌≢◌, Some, IfOk, IfErr};
ghost use Rattle.numbers.specs.Fraction.{lowest};
ghost use Rattle.gcl_core.specs.meaning.Checked.{IsChecked};
ghost use Rattle.gcl_core.specs.meaning.Runs.{run_on};
ghost use Rattle.gcl_core.specs.meaning.LimitRange.{InRange};
ghost use Rattle.gcl_core.specs.meaning.Views.{source_of};
ghost use Rattle.cost_law.specs.Costing.{CostsExactly};
ghost use Rattle.cost_law.specs.ExpectedBits.{expected_bits};
ghost use Rattle.mass_fold.specs.Refused.{RoundRefused};
ghost use Rattle.cost_fold.specs.Refused.{CostRefused};
ghost use Rattle.gcl_core.specs.declared.answers.Limits.{Limits};
ghost use Rattle.gcl_core.specs.meaning.Syntax.{SourceProgram};

use crate::error::CostError;
use gcl_core::{Checked, Limits};
use mass_fold::{MassError, repeated, round_bits};
use numbers::Frac;
use std::alloc::Global;

// Why one round is refused, as a cause of all rounds. That all attempts fail is no cause.
fn refusal(error: MassError) -> CostError
    requires { error ≢ MassError.AllFailed }
    ensures { (p : SourceProgram) (l : Limits) → IsChecked p → InRange l → RoundRefused error p l.turns (Some l.attempts)
        → CostRefused result p l }
{
    match error {
        MassError::TooWide => CostError::TooWide,
        MassError::TooManyStates => CostError::TooManyStates,
        MassError::AllFailed => unreachable!(),
        MassError::OutOfMemory => CostError::OutOfMemory,
    }
}

/// The number of bits that a run of a program reads on average, in lowest terms, by merged tables of states.
///
/// The lengths of the strings of at most L bits that are just read to an end, each times 2^(L - length), add up to at most 2^L
/// times the fraction, and to exactly that at every L at which no string needs more bits. The limit of rounds times the longest
/// reading of the body is such an L.
///
/// `TooWide` comes only where the spread of the program under the limits is above 2^128 − 1, and `TooManyStates` only where some
/// point of the program is reached with more than 65,536 states. `OutOfMemory` comes where memory runs out.
pub fn cost(alloc: Global, p: &Checked, l: &Limits) -> Result<Frac, CostError>
    requires { InRange l.now }
    ensures bits { IfOk result (λ f. f ≡ lowest (expected_bits (source_of p.now) l.now)) }
    ensures lengths { IfOk result (CostsExactly (run_on (source_of p.now) l.now) (source_of p.now) l.now) }
    ensures refused { IfErr result (λ e. CostRefused e (source_of p.now) l.now) }
{
    p.is_kept();
    match round_bits(alloc, p, l.turns, Some(l.attempts)) {
        Err(error) => Err(refusal(error)),
        Ok((bits, failed)) => match bits {
            None => Err(CostError::TooWide),
            Some(bits) => match repeated(&bits, &failed, l.rounds) {
                None => Err(CostError::TooWide),
                Some(f) => {
                    f.is_lowest();
                    Ok(f)
                }
            },
        },
    }
}
