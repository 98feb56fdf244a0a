// The masses of a program in the limit of turns, in wide fractions.

ghost use Rattle.std.specs.Prelude.{◌≡◌, ◌<◌, IfOk, IfErr};
ghost use Rattle.gcl_core.specs.meaning.Views.{source_of};
ghost use Rattle.exact_fold.specs.Exact.{IsExact};
ghost use Rattle.exact_fold.specs.InTheLimit.{IsExactInTheLimit, FailsInTheLimit};
ghost use Rattle.exact_fold.specs.inner.Rounds.{RoundOf, DividesTo};
ghost use Rattle.wide_masses.specs.declared.error.Refusal.TheVariants.{AllFailed};

use crate::error::Refusal;
use crate::outcomes::{add_ended, add_results};
use crate::rest::{are_parts, is_at_most, over_rest, total};
use crate::rows::WideRows;
use gcl_core::{Checked, Outcome};
use std::alloc::Global;
use std::collections::BTreeMap;
use wide_fold::{WideFoldError, settle_program};
use wide_numbers::WideFraction;

/// The exact masses of a program, and what runs for ever.
#[derive(Drop)]
pub struct WideMasses {
    pub rows: WideRows,
    pub endless: WideFraction,
}

// What a round comes to in the limit of turns: the weights of its outcomes, and that with which it fails.
#[derive(Drop)]
struct WideRound {
    rows: BTreeMap<Outcome, WideFraction>,
    failed: WideFraction,
}

fn limit_round(alloc: Global, checked: &Checked) -> Result<WideRound, WideFoldError>
    ensures { IfOk result (λ r. RoundOf (source_of checked.now) r.rows.entries r.failed) }
{
    let program = checked.program();
    let (table, ended) = settle_program(alloc, checked)?;
    // It has them, but no clause says so.
    if table.vars != program.names.count() {
        return Err(WideFoldError::NotSettled);
    }
    let mut rows = BTreeMap::new(alloc);
    add_results(alloc, &program.result, &table, &mut rows)?;
    add_ended(alloc, &ended, &mut rows)?;
    Ok(WideRound {
        rows,
        failed: ended.failed,
    })
}

// The weights over what does not fail, and what they leave of 1.
fn divided(alloc: Global, round: WideRound) -> Result<WideMasses, WideFoldError>
    requires { round.failed.0 < round.failed.1 }
    ensures { IfOk result (λ e. DividesTo round.rows.entries round.failed e.rows e.endless) }
{
    if !are_parts(alloc, &round.rows, &round.failed)? {
        return Err(WideFoldError::NotSettled);
    }
    let masses = over_rest(alloc, round.rows, &round.failed)?;
    let sum = total(alloc, &masses)?;
    if !is_at_most(sum.num(), sum.den()) {
        return Err(WideFoldError::NotSettled);
    }
    let left = sum.den().sub(alloc, sum.num())?;
    let endless = WideFraction::of(alloc, &left, sum.den())?;
    Ok(WideMasses {
        rows: WideRows::of(alloc, masses)?,
        endless,
    })
}

/// The masses of a program itself, before anything is forgotten.
pub fn settled(alloc: Global, program: &Checked) -> Result<WideMasses, Refusal>
    ensures masses { IfOk result (λ e. IsExact (source_of program.now) e.rows e.endless) }
    ensures limits { IfOk result (λ e. IsExactInTheLimit (source_of program.now) e.rows e.endless) }
    ensures fails { IfErr result (λ e. e ≡ AllFailed → FailsInTheLimit (source_of program.now)) }
{
    program.is_kept();
    let round = limit_round(alloc, program)?;
    if is_at_most(round.failed.den(), round.failed.num()) {
        return Err(Refusal::AllFailed);
    }
    let masses = divided(alloc, round)?;
    Ok(masses)
}
