// The bounds of an outcome, and of all that have no row.

ghost use Rattle.std.specs.Prelude.{◌≡◌, ◌≤◌, ◌<◌, ◌+◌, ◌-◌, ◌*◌, IfOk};
ghost use Rattle.std.specs.Int.{div_ceil};
ghost use Rattle.numbers.specs.declared.units.TheConstants.{ALL};
ghost use Rattle.scaled_fold.specs.inner.Listing.{bounds_at, AreEnough};

use crate::error::PairsError;
use crate::pair::sum;
use crate::parts::{over_down, over_up};
use numbers::{ALL, Frac};

/// What all outcomes that count have in a round, at least and at most, and at most what belongs to none of them.
#[derive(Clone, Copy)]
pub struct Whole {
    pub least: u128,
    pub most: u128,
    pub rest: u128,
}

impl Whole {
    /// The two bounds of an outcome with `w` units, the lower one by `spare` parts of 2^-120 less than what these tell, where it then has a part at
    /// least.
    pub fn bounds(self, spare: u128, w: (u128, u128)) -> Result<Option<(Frac, Frac)>, PairsError>
        requires least { w.0 ≤ self.least }
        requires most { w.1 ≤ self.most }
        ensures { IfOk result (λ b. b ≡ bounds_at self.least self.most self.rest spare w) }
    {
        if w.0 == 0 {
            return Ok(None);
        }
        let others = sum(self.most - w.1, self.rest)?;
        let part = over_down(w.0, sum(w.0, others)?)?;
        if part <= spare {
            return Ok(None);
        }
        let most = sum(w.1, self.rest)?;
        let high = over_up(most, sum(most, self.least - w.0)?)?;
        Ok(Some((Frac::of(part - spare, ALL), Frac::of(high, ALL))))
    }

    // How far apart the two bounds of an outcome may be, and a unit; at most all.
    fn apart(self) -> Result<u128, PairsError>
        ensures { IfOk result (λ n. n < ALL → div_ceil ((self.most + self.rest + self.rest - self.least) * ALL) self.least + 1 ≤ n) }
    {
        let all = sum(sum(self.most, self.rest)?, self.rest)?;
        if all <= self.least {
            return Ok(1);
        }
        let uncertain = all - self.least;
        if uncertain >= self.least {
            return Ok(ALL);
        }
        sum(over_up(uncertain, self.least)?, 1)
    }

    /// What all outcomes have together that have no row, and how far apart the two bounds of an outcome may be, in units of 2^-120, of which
    /// there are no more than all, and `spare` more. Those that have a row have the units `kept`.
    pub fn others(self, spare: u128, kept: (u128, u128)) -> Result<u128, PairsError>
        requires { kept.1 ≤ self.most }
        ensures { IfOk result (AreEnough self.least self.most self.rest spare kept) }
    {
        let unlisted = sum(self.most - kept.1, self.rest)?;
        let first = over_up(unlisted, sum(unlisted, kept.0)?)?;
        let all = sum(sum(first, self.apart()?)?, spare)?;
        Ok(if all < ALL { all } else { ALL })
    }
}
