// How much is worked before a program is refused.

ghost use Rattle.std.specs.Prelude.{◌≡◌, ◌≤◌, ◌<◌, ◌+◌, OnOk, OnErr};
ghost use Rattle.wide_fold.specs.declared.work.TheConstants.{MOST_WORK};

use crate::error::WideFoldError;
use exact_fold::parts::Parts;
use wide_numbers::WideFraction;

/// The most steps that are taken for one program, each about as long as one on a word of 64 bits.
pub const MOST_WORK: u64 = 3 << 30;

/// The parts of turns that were made so far, and the steps of work on wide fractions.
#[derive(Drop)]
pub struct Work {
    pub parts: Parts,
    steps: u64,
    ghost few: { steps ≤ MOST_WORK },
}

// About how many steps it takes to add a fraction to another as wide, or to multiply them: lowest terms take some for each pair of words.
fn steps_with(fraction: &WideFraction) -> u64 {
    let words = fraction
        .num()
        .limbs()
        .len()
        .saturating_add(fraction.den().limbs().len()) as u64;
    words
        .saturating_mul(words)
        .saturating_mul(16)
        .saturating_add(2048)
}

impl Work {
    pub fn none() -> Work
        ensures { result.steps ≡ 0 }
    {
        Work {
            parts: Parts::none(),
            steps: 0,
        }
    }

    /// How many steps are left.
    pub fn left(&self) -> u64
        ensures { self.now.steps + result ≡ MOST_WORK }
    {
        MOST_WORK - self.steps
    }

    /// A fraction is worked with so many times.
    pub fn work_with(&mut self, times: u64, fraction: &WideFraction) -> Result<(), WideFoldError> {
        self.add(steps_with(fraction).saturating_mul(times))
    }

    /// So many steps more, or an error where they would be more than [`MOST_WORK`].
    pub fn add(&mut self, more: u64) -> Result<(), WideFoldError>
        ensures counted { OnOk result (self.new.steps ≡ self.old.steps + more) }
        ensures many { OnErr result (MOST_WORK < self.old.steps + more) }
    {
        if more > MOST_WORK - self.steps {
            return Err(WideFoldError::TooMuchWork);
        }
        self.steps += more;
        Ok(())
    }
}
