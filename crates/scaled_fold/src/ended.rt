// What has ended, by the way it ended.

ghost use Rattle.std.specs.Prelude.{◌≡◌, [], ◌∷◌, IfOk};
ghost use Rattle.gcl_core.specs.declared.answers.Limit.TheVariants.{Turns, Attempts};
ghost use Rattle.gcl_core.specs.meaning.Blocks.{fault, limit};
ghost use Rattle.units_law.specs.Units.{total};
ghost use Rattle.scaled_law.specs.Pairs.{at_most};
ghost use Rattle.scaled_law.specs.Scaled.{times_pairs};
ghost use Rattle.scaled_fold.specs.inner.Ended.{units_of, EndsWith};

use crate::error::PairsError;
use crate::pair::{added, times};
use gcl_core::Fault;

/// The units at least and at most of each way to end, but for a value and for a failed observation, which counts nowhere.
#[derive(Clone, Copy)]
pub struct Ended {
    pub overflow: (u128, u128),
    pub divisor: (u128, u128),
    pub bound: (u128, u128),
    pub turns: (u128, u128),
    pub attempts: (u128, u128),
}

impl Ended {
    /// Nothing has ended.
    pub fn none() -> Ended
        ensures { (result.overflow ≡ (0, 0)) × (result.divisor ≡ (0, 0)) × (result.bound ≡ (0, 0)) × (result.turns ≡ (0, 0)) × (result.attempts ≡ (0, 0)) }
    {
        Ended {
            overflow: (0, 0),
            divisor: (0, 0),
            bound: (0, 0),
            turns: (0, 0),
            attempts: (0, 0),
        }
    }

    /// With more units of a fault.
    pub fn with_fault(self, f: Fault, w: (u128, u128)) -> Result<Ended, PairsError>
        ensures { IfOk result (EndsWith self ((fault f, w) ∷ [])) }
    {
        match f {
            Fault::Overflow => Ok(Ended {
                overflow: added(self.overflow, w)?,
                ..self
            }),
            Fault::ZeroDivisor => Ok(Ended {
                divisor: added(self.divisor, w)?,
                ..self
            }),
            Fault::BadBound => Ok(Ended {
                bound: added(self.bound, w)?,
                ..self
            }),
        }
    }

    /// With more units of a loop that ran out of turns.
    pub fn with_turns(self, w: (u128, u128)) -> Result<Ended, PairsError>
        ensures { IfOk result (EndsWith self ((limit Turns, w) ∷ [])) }
    {
        Ok(Ended {
            turns: added(self.turns, w)?,
            ..self
        })
    }

    /// With more units of a draw that no attempt decided.
    pub fn with_attempts(self, w: (u128, u128)) -> Result<Ended, PairsError>
        ensures { IfOk result (EndsWith self ((limit Attempts, w) ∷ [])) }
    {
        Ok(Ended {
            attempts: added(self.attempts, w)?,
            ..self
        })
    }

    /// `k` times as many.
    pub fn times(self, k: u128) -> Result<Ended, PairsError>
        ensures { IfOk result (λ e. units_of e ≡ times_pairs (k, 1) (units_of self)) }
    {
        Ok(Ended {
            overflow: times(self.overflow, k)?,
            divisor: times(self.divisor, k)?,
            bound: times(self.bound, k)?,
            turns: times(self.turns, k)?,
            attempts: times(self.attempts, k)?,
        })
    }

    /// All units at most.
    pub fn most(self) -> Result<u128, PairsError>
        ensures { IfOk result (λ n. n ≡ total (at_most (units_of self))) }
    {
        let faults = added(added(self.overflow, self.divisor)?, self.bound)?;
        let (_, most) = added(faults, added(self.turns, self.attempts)?)?;
        Ok(most)
    }
}
