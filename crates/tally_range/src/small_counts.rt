// Counts of keys that are small values, which take no table.

ghost use Rattle.std.specs.Prelude.{◌≡◌, ◌<◌, IfSome};
ghost use Rattle.tally_range.specs.inner.SmallRows.{value_key};

use crate::table::Tally;
use gcl_core::{Outcome, TallyKey};
use std::alloc::AllocError;
use std::marker::Model;

// The values from 0 up to but not including this one are small.
const SMALL_VALUES: usize = 1024;

// How many runs ended with each small value.
#[derive(Drop)]
pub struct SmallCounts {
    counts: [u64; SMALL_VALUES],
}

// It is seen as a row for each small value, of counts that may be 0.
impl Model for SmallCounts {
    ghost use Rattle.tally_range.specs.Rows.{Rows};
    ghost use Rattle.tally_range.specs.inner.SmallRows.{small_rows};

    ghost Value = { Rows };

    ghost view = { λ s. small_rows 0 s.counts };
}

// The small value that the key is, or `None` where it is none.
#[inline]
fn small_value(key: TallyKey) -> Option<usize>
    ensures { IfSome result (λ value. (value < SMALL_VALUES) × (key ≡ value_key value)) }
{
    match key {
        TallyKey::Outcome(Outcome::Value(value)) => {
            if value >= 0 && value < SMALL_VALUES as i64 {
                Some(value as usize)
            } else {
                None
            }
        }
        _ => None,
    }
}

fn key_of_value(value: usize) -> TallyKey
    requires { value < SMALL_VALUES }
    ensures { result ≡ value_key value }
{
    TallyKey::Outcome(Outcome::Value(value as i64))
}

impl SmallCounts {
    ghost use Rattle.std.specs.Prelude.{◌≡◌, ◌+◌, ◌<◌, ◌^◌, IfOk, IsTrue, IsFalse};
    ghost use Rattle.gcl_core.specs.declared.answers.TallyKey.{TallyKey};
    ghost use Rattle.tally_range.specs.Rows.{counted_at};
    ghost use Rattle.tally_range.specs.Sums.{count_in};

    pub(crate) fn new() -> SmallCounts
        ensures { (key : TallyKey) → count_in result key ≡ 0 }
    {
        SmallCounts {
            counts: [0; SMALL_VALUES],
        }
    }

    // Counts one more for the key where it is a small value, and answers whether it is.
    #[inline]
    pub(crate) fn count(&mut self, key: TallyKey) -> bool
        requires { count_in self.old key + 1 < 2 ^ 64 }
        ensures counted { IsTrue result → (other : TallyKey)
            → count_in self.new other ≡ count_in self.old other + counted_at key 1 other }
        ensures unchanged { IsFalse result → self.new ≡ self.old }
    {
        match small_value(key) {
            Some(value) => {
                self.counts[value] += 1;
                true
            }
            None => false,
        }
    }

    // Adds the counts to a table. An error comes only where memory runs out.
    pub(crate) fn add_to(&self, table: &mut Tally) -> Result<(), AllocError>
        requires fits { (key : TallyKey) → count_in table.old key + count_in self.now key < 2 ^ 64 }
        ensures counted { IfOk result
            (λ _. (key : TallyKey) → count_in table.new key ≡ count_in table.old key + count_in self.now key) }
    {
        for (value, count) in self.counts.iter().enumerate() {
            if *count > 0 {
                table.add(key_of_value(value), *count)?;
            }
        }
        Ok(())
    }
}
