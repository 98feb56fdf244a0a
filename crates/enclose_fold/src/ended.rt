// What has ended, by the way it ended.

ghost use Rattle.std.specs.Prelude.{◌≡◌, ◌≤◌, ◌+◌, [], ◌∷◌};
ghost use Rattle.numbers.specs.declared.units.TheConstants.{ALL};
ghost use Rattle.gcl_core.specs.declared.answers.Limit.TheVariants.{Turns, Attempts};
ghost use Rattle.gcl_core.specs.meaning.Blocks.{failed, fault, limit};
ghost use Rattle.units_law.specs.Units.{total};
ghost use Rattle.enclose_fold.specs.inner.Ended.{units_of, EndsWith, IsNone};

use gcl_core::Fault;

/// The units of each way to end but for a value.
#[derive(Clone, Copy)]
pub struct Ended {
    pub failed: u128,
    pub overflow: u128,
    pub divisor: u128,
    pub bound: u128,
    pub turns: u128,
    pub attempts: u128,
}

impl Ended {
    /// Nothing has ended.
    pub fn none() -> Ended
        ensures { IsNone result }
    {
        Ended {
            failed: 0,
            overflow: 0,
            divisor: 0,
            bound: 0,
            turns: 0,
            attempts: 0,
        }
    }

    /// Adds units of a failed observation.
    pub fn add_failed(&mut self, w: u128)
        requires { total (units_of self.old) + w ≤ ALL }
        ensures { EndsWith self.old ((failed, w) ∷ []) self.new }
    {
        self.failed += w;
    }

    /// Adds units of a fault.
    pub fn add_fault(&mut self, f: Fault, w: u128)
        requires { total (units_of self.old) + w ≤ ALL }
        ensures { EndsWith self.old ((fault f, w) ∷ []) self.new }
    {
        match f {
            Fault::Overflow => self.overflow += w,
            Fault::ZeroDivisor => self.divisor += w,
            Fault::BadBound => self.bound += w,
        }
    }

    /// Adds units of a loop that ran out of turns.
    pub fn add_turns(&mut self, w: u128)
        requires { total (units_of self.old) + w ≤ ALL }
        ensures { EndsWith self.old ((limit Turns, w) ∷ []) self.new }
    {
        self.turns += w;
    }

    /// Adds units of a draw that ran out of attempts.
    pub fn add_attempts(&mut self, w: u128)
        requires { total (units_of self.old) + w ≤ ALL }
        ensures { EndsWith self.old ((limit Attempts, w) ∷ []) self.new }
    {
        self.attempts += w;
    }
}
