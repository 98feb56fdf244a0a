// How many draws, or turns of loops, a run makes on average where nothing is limited.

ghost use Rattle.std.specs.Prelude.{IfOk, IfSome, IfNone};
ghost use Rattle.gcl_core.specs.meaning.Views.{source_of};
ghost use Rattle.exact_fold.specs.Exact.{FailsWith};
ghost use Rattle.bits_law.specs.RunPrice.{expected_price};
ghost use Rattle.bits_fold.specs.Counted.{price_of};
ghost use Rattle.bits_fold.specs.Expected.{IsCount};
ghost use Rattle.bits_fold.specs.inner.AsWritten.{RoundsBlame};
ghost use Rattle.bits_fold.specs.inner.Reading.{CostsInRound};

use crate::counted::Counted;
use crate::error::BitsError;
use crate::reading::read_program;
use crate::rounds::failed_as_written;
use crate::stop::Stop;
use bits_law::costs_tend_to_their_limit;
use forgetting::{forgetful, forgetting_changes_no_meaning};
use gcl_core::Checked;
use numbers::Frac;
use std::alloc::Global;

/// How many there are on average where nothing is limited.
#[derive(Clone, Copy, PartialEq, Eq, Debug)]
pub enum Count {
    /// So many.
    Expected(Frac),
    /// More than any number.
    Unbounded,
}

/// What is expected of rounds that cost so much each and fail with this weight; none where it does not fit.
pub fn count_over_rounds(what: Counted, p: &Checked, cost: &Frac, failed: &Frac) -> Option<Count>
    requires costs { CostsInRound (price_of what) (source_of p.now) cost.now }
    requires fails { FailsWith (source_of p.now) failed.now }
    ensures answer { IfSome result (IsCount (expected_price (price_of what) (source_of p.now))) }
    ensures cause { IfNone result (RoundsBlame cost.now failed.now) }
{
    p.is_kept();
    costs_tend_to_their_limit();
    failed.is_lowest();
    if cost.num() == 0 {
        return Some(Count::Expected(Frac::of(0, 1)));
    }
    if failed.num() >= failed.den() {
        return Some(Count::Unbounded);
    }
    let rounds = Frac::of(failed.den(), failed.den() - failed.num());
    match cost.mul(&rounds) {
        None => None,
        Some(all) => {
            all.is_lowest();
            Some(Count::Expected(all))
        }
    }
}

// What is counted of the program itself, before anything is forgotten.
fn count_as_written(alloc: Global, what: Counted, p: &Checked) -> Result<Count, BitsError>
    ensures { IfOk result (IsCount (expected_price (price_of what) (source_of p.now))) }
{
    p.is_kept();
    costs_tend_to_their_limit();
    let cost = match read_program(alloc, what, p) {
        Err(Stop::ReadsForever) => return Ok(Count::Unbounded),
        Err(Stop::Refused(error)) => return Err(error),
        Ok(cost) => cost,
    };
    let failed = failed_as_written(alloc, p)?;
    match count_over_rounds(what, p, &cost, &failed) {
        None => Err(BitsError::TooWide),
        Some(count) => Ok(count),
    }
}

/// How many draws, or turns of loops, or bits, a run of a program takes on average where neither turns nor attempts nor rounds are limited.
///
/// A draw counts 1 once it is decided, and a turn of a loop when its guard is found true. The fraction is in lowest terms: under whatever
/// limits no more are expected, and for each k, where all limits are great enough, no fewer but for 1 / k. That there is no bound is told
/// where a loop goes on counting for ever with some weight, and where in the limit every round fails and counts some. It is worked
/// out of the forgetful program, which counts as many.
///
/// It may be refused where a fraction does not fit, or there are too many states, or what was found of a loop is refused by its
/// check: no clause says which programs have an answer.
pub fn count_in_the_limit(alloc: Global, what: Counted, p: &Checked) -> Result<Count, BitsError>
    ensures answer { IfOk result (IsCount (expected_price (price_of what) (source_of p.now))) }
{
    forgetting_changes_no_meaning();
    let q = forgetful(alloc, p)?;
    count_as_written(alloc, what, &q)
}
