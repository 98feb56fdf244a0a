// The arms of a choice among several.

ghost use Rattle.std.specs.Prelude.{◌≡◌, ◌≤◌, ◌<◌, Some, length, get_or};
ghost use Rattle.std.specs.List.{sum};
ghost use Rattle.gcl_core.specs.meaning.Arms.{parts_of, block_at};
ghost use Rattle.gcl_core.specs.meaning.Divisor.{common_divisor};
ghost use Rattle.gcl_core.specs.meaning.Lowest.{lowest_arms};
ghost use Rattle.gcl_core.specs.meaning.Views.{list_of_arms, statements_of};

use crate::lowest::greatest_common;
use crate::syntax::{Arms, Block};

impl Arms {
    /// How many arms there are. It takes no memory.
    pub fn count(&self) -> usize
        ensures { result ≡ length (parts_of (list_of_arms self.now)) }
    {
        self.arms.len()
    }

    /// The part of the arm with this number, counted from 0.
    pub fn part(&self, i: usize) -> u64
        requires { i < length (parts_of (list_of_arms self.now)) }
        ensures { result ≡ get_or (parts_of (list_of_arms self.now)) i 0 }
    {
        self.arms[i].0
    }

    /// The block of the arm with this number, counted from 0.
    pub fn block(&self, i: usize) -> &Block
        requires { i < length (parts_of (list_of_arms self.now)) }
        ensures { block_at (list_of_arms self.now) i ≡ Some (statements_of result.now) }
    {
        &self.arms[i].1
    }

    /// The greatest number that divides all parts.
    pub fn divisor(&self) -> u64
        requires { 1 ≤ sum (parts_of (list_of_arms self.now)) }
        ensures divisor { result ≡ common_divisor (parts_of (list_of_arms self.now)) }
        ensures positive { 1 ≤ result }
    {
        let mut divisor = 0;
        for (part, _) in &self.arms {
            if *part != 0 {
                divisor = greatest_common(divisor, *part);
            }
        }
        divisor
    }

    /// Takes the parts to their lowest terms. It takes no memory.
    pub fn lowest(&mut self)
        requires { 1 ≤ sum (parts_of (list_of_arms self.old)) }
        ensures { list_of_arms self.new ≡ lowest_arms (list_of_arms self.old) }
    {
        let divisor = self.divisor();
        for arm in self.arms.iter_mut() {
            arm.0 /= divisor;
        }
    }
}
