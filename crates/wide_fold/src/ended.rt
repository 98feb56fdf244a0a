// What has ended, by the way it ended, in wide fractions.

ghost use Rattle.std.specs.Prelude.{◌≡◌, true, IfOk, OnOk};
ghost use Rattle.mass_fold.specs.inner.Ended.{EndGives, IsNone, IsNoWeight, rows_of, weight_of, with_weight};
ghost use Rattle.exact_fold.specs.inner.Turning.{NothingIn};
ghost use Rattle.wide_fold.specs.inner.Adding.{with_times, AddsTimes};

use crate::error::WideFoldError;
use crate::widened::{product, sum, widened};
use mass_fold::{Ended, Gone};
use numbers::Frac;
use std::alloc::Global;
use std::marker::Model;
use wide_numbers::{Wide, WideFraction};

/// The weight of each way to end but for a value.
///
/// A contract sees what [`Ended`] has.
#[derive(Drop)]
pub struct WideEnded {
    pub failed: WideFraction,
    pub overflow: WideFraction,
    pub divisor: WideFraction,
    pub bound: WideFraction,
    pub turns: WideFraction,
    pub attempts: WideFraction,
}

impl Model for WideEnded {
    ghost use Rattle.mass_fold.specs.declared.ended.Ended.{Ended};

    ghost Value = { Ended };

    ghost view = { λ e. record {
      failed = e.failed;
      overflow = e.overflow;
      divisor = e.divisor;
      bound = e.bound;
      turns = e.turns;
      attempts = e.attempts;
    } };
}

fn nothing(alloc: Global) -> Result<WideFraction, WideFoldError>
    ensures { IfOk result IsNoWeight }
{
    let num = Wide::of(alloc, 0)?;
    let den = Wide::of(alloc, 1)?;
    Ok(WideFraction::of(alloc, &num, &den)?)
}

// The weight, and another times a fraction, which often is 0.
#[tactic(auto, using(crate::proofs::Weights::no_times))]
fn more(
    alloc: Global,
    weight: &WideFraction,
    times: &WideFraction,
    other: &Frac,
) -> Result<WideFraction, WideFoldError>
    ensures { IfOk result (λ v. v ≡ with_times times.now weight.now other.now) }
{
    if other.num() == 0 {
        let _den = times.den();
        return Ok(weight.copy(alloc)?);
    }
    let part = widened(alloc, other)?;
    let added = product(alloc, times, &part)?;
    sum(alloc, weight, &added)
}

impl WideEnded {
    /// Nothing has ended.
    pub fn none(alloc: Global) -> Result<WideEnded, WideFoldError>
        ensures { IfOk result IsNone }
    {
        Ok(WideEnded {
            failed: nothing(alloc)?,
            overflow: nothing(alloc)?,
            divisor: nothing(alloc)?,
            bound: nothing(alloc)?,
            turns: nothing(alloc)?,
            attempts: nothing(alloc)?,
        })
    }

    fn weight(&self, x: Gone) -> &WideFraction
        ensures { result.now ≡ weight_of self.now x }
    {
        match x {
            Gone::Failed => &self.failed,
            Gone::Overflow => &self.overflow,
            Gone::Divisor => &self.divisor,
            Gone::Bound => &self.bound,
            Gone::Turns => &self.turns,
            Gone::Attempts => &self.attempts,
        }
    }

    fn replace(&mut self, x: Gone, f: WideFraction)
        ensures { self.new ≡ with_weight self.old x f }
    {
        match x {
            Gone::Failed => self.failed = f,
            Gone::Overflow => self.overflow = f,
            Gone::Divisor => self.divisor = f,
            Gone::Bound => self.bound = f,
            Gone::Turns => self.turns = f,
            Gone::Attempts => self.attempts = f,
        }
    }

    /// Adds weight to one way to end.
    pub fn add(&mut self, alloc: Global, x: Gone, f: &WideFraction) -> Result<(), WideFoldError>
        ensures { OnOk result (EndGives self.old self.new x f.now) }
    {
        let weight = sum(alloc, self.weight(x), f)?;
        self.replace(x, weight);
        Ok(())
    }

    /// Whether nothing has ended.
    pub fn is_none(&self) -> bool
        ensures { result ≡ true → NothingIn (rows_of self.now) }
    {
        self.failed.num().is_zero()
            && self.overflow.num().is_zero()
            && self.divisor.num().is_zero()
            && self.bound.num().is_zero()
            && self.turns.num().is_zero()
            && self.attempts.num().is_zero()
    }

    /// Adds what has ended from a state, times the weight of the state.
    pub fn add_times(
        &mut self,
        alloc: Global,
        times: &WideFraction,
        gone: &Ended,
    ) -> Result<(), WideFoldError>
        ensures { OnOk result (AddsTimes times.now gone.now self.old self.new) }
    {
        self.failed = more(alloc, &self.failed, times, &gone.failed)?;
        self.overflow = more(alloc, &self.overflow, times, &gone.overflow)?;
        self.divisor = more(alloc, &self.divisor, times, &gone.divisor)?;
        self.bound = more(alloc, &self.bound, times, &gone.bound)?;
        self.turns = more(alloc, &self.turns, times, &gone.turns)?;
        self.attempts = more(alloc, &self.attempts, times, &gone.attempts)?;
        Ok(())
    }
}
