// The bounds of an outcome.

ghost use Rattle.std.specs.Prelude.{◌≡◌, ◌≤◌, ◌<◌, ◌+◌};
ghost use Rattle.numbers.specs.declared.units.TheConstants.{ALL};
ghost use Rattle.gcl_core.specs.declared.answers.Limit.TheVariants.{Rounds};
ghost use Rattle.gcl_core.specs.declared.answers.Outcome.TheVariants as outcome;
ghost use Rattle.gcl_core.specs.meaning.Outcomes.{same_outcome};
ghost use Rattle.units_law.specs.Between.{whole_of, least_of};
ghost use Rattle.enclose_fold.specs.inner.Rows.{bounds_at, upper_of_rest};

use crate::rounds::in_rounds;
use gcl_core::{Limit, Outcome};
use numbers::{ALL, Frac, over_down, over_up};

// Whether it is the limit of rounds.
fn is_rounds(x: &Outcome) -> bool
    ensures { result ≡ same_outcome x.now (outcome.Limit Rounds) }
{
    match x {
        Outcome::Limit(Limit::Rounds) => true,
        Outcome::Limit(Limit::Turns | Limit::Attempts) | Outcome::Value(_) | Outcome::Fault(_) =>
            false,
    }
}

/// What one round gives, and how many there are.
#[derive(Clone, Copy)]
pub struct Round {
    /// How many rounds; where there is no limit, as many as it takes.
    pub rounds: Option<u64>,
    /// The units that fail.
    pub failed: u128,
    /// The units of all outcomes that count.
    pub all: u128,
    ghost within: { failed + all ≤ ALL },
    ghost some: { 0 < whole_of rounds failed },
}

impl Round {
    /// The units that outcomes have bounds over: without a limit of rounds those that do not fail.
    fn whole(self) -> u128
        ensures value { result ≡ whole_of self.rounds self.failed }
        ensures some { 0 < result }
        ensures most { result ≤ ALL }
    {
        match self.rounds {
            None => ALL - self.failed,
            Some(_) => ALL,
        }
    }

    // What outcomes that have `w` units in one round have at least in all rounds; `with_failed` adds the units of all rounds failing.
    fn least(self, w: u128, with_failed: bool) -> u128
        requires { w ≤ self.all }
        ensures value { result ≡ least_of self.rounds self.failed w (λ x. with_failed) }
        ensures most { result ≤ whole_of self.rounds self.failed }
    {
        match self.rounds {
            None => w,
            Some(count) => {
                let (failed, given) = in_rounds((self.failed, w), count);
                if with_failed { given + failed } else { given }
            }
        }
    }

    /// The two bounds of an outcome with `w` units, where it has a unit of all rounds at least.
    pub fn bounds(self, x: &Outcome, w: u128) -> Option<(Frac, Frac)>
        requires { w ≤ self.all }
        ensures { result ≡ bounds_at self.rounds self.failed self.all x.now w }
    {
        let least = self.least(w, is_rounds(x));
        if least == 0 {
            return None;
        }
        let whole = self.whole();
        let others = self.least(self.all - w, !is_rounds(x));
        let low = over_down(least, whole);
        let high = over_up(whole - others, whole);
        Some((Frac::of(low, ALL), Frac::of(high, ALL)))
    }

    /// What all outcomes that have no unit of all rounds have together at most.
    pub fn upper_of_rest(self) -> Frac
        ensures { result ≡ upper_of_rest self.rounds self.failed self.all }
    {
        let whole = self.whole();
        let given = self.least(self.all, true);
        let high = over_up(whole - given, whole);
        Frac::of(high, ALL)
    }
}
