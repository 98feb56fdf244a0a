// What the parts of a choice among several have to be.

ghost use Rattle.std.specs.Prelude.{◌≡◌, ◌≤◌, ◌==◌, nat_lt, [], ◌∷◌};
ghost use Rattle.std.specs.List.{sum};
ghost use Rattle.gcl_core.specs.text.Acceptance.{parts_flaw, first_refusal};
ghost use Rattle.gcl_core.specs.meaning.Arms.{parts_of};
ghost use Rattle.gcl_core.specs.meaning.Lowest.{lowest_parts};
ghost use Rattle.gcl_core.specs.meaning.Views.{list_of_arms};
ghost use Rattle.gcl_core.specs.declared.rules.TheConstants.{GREATEST_DENOMINATOR};
ghost use Rattle.gcl_check.specs.Refused.{refusal_answered};

use crate::refusals::CheckError;
use gcl_core::{Arms, GREATEST_DENOMINATOR};

fn are_zero(arms: &Arms) -> bool
    ensures { result ≡ (sum (parts_of (list_of_arms arms.now)) == 0) }
{
    for i in 0..arms.count() {
        if arms.part(i) != 0 {
            return false;
        }
    }
    true
}

// The sum of the parts in lowest terms is above the greatest denominator. It is never formed, since it may have more than 64
// bits.
fn are_too_fine(arms: &Arms) -> bool
    requires { 1 ≤ sum (parts_of (list_of_arms arms.now)) }
    ensures { result ≡ nat_lt GREATEST_DENOMINATOR (sum (lowest_parts (parts_of (list_of_arms arms.now)))) }
{
    let divisor = arms.divisor();
    let mut total = 0;
    for i in 0..arms.count() {
        let lowest = arms.part(i) / divisor;
        if lowest > GREATEST_DENOMINATOR - total {
            return true;
        }
        total += lowest;
    }
    false
}

// Checks the parts of the statement with this number.
pub fn check_parts(arms: &Arms, stmt: u32) -> Result<(), CheckError>
    ensures { refusal_answered result ≡ first_refusal stmt (parts_flaw (parts_of (list_of_arms arms.now)) ∷ []) }
{
    if are_zero(arms) {
        return Err(CheckError::ZeroDenominator { stmt });
    }
    if are_too_fine(arms) {
        return Err(CheckError::TooFine { stmt });
    }
    Ok(())
}
