// Tables of counts.

ghost use Rattle.std.specs.Prelude.{◌≡◌};
ghost use Rattle.tally_range.specs.Tallies.{IsTally};
ghost use Rattle.tally_range.specs.Sums.{count_in};

use gcl_core::{TallyKey, outcomes_are_ordered};
use std::alloc::{AllocError, Global};
use std::collections::BTreeMap;
use std::collections::btree_map::Iter;
use std::marker::Model;

/// How many runs ended in each way: keys ascend, and each count is above 0.
#[derive(Drop)]
pub struct Tally {
    rows: BTreeMap<TallyKey, u64>,
}

impl Model for Tally {
    ghost use Rattle.tally_range.specs.Rows.{Rows};
    ghost use Rattle.tally_range.specs.Tallies.{IsTally};

    ghost Value = { Rows };

    ghost view = { λ t. t.rows.entries };

    ghost invariant = { λ t. IsTally t.rows.entries };
}

impl Tally {
    ghost use Rattle.std.specs.Prelude.{◌≡◌, ◌+◌, ◌<◌, ◌^◌, [], length, IfOk, OnErr};
    ghost use Rattle.gcl_core.specs.declared.answers.TallyKey.{TallyKey};
    ghost use Rattle.tally_range.specs.Rows.{counted_at};
    ghost use Rattle.tally_range.specs.Tallies.{IsTally};
    ghost use Rattle.tally_range.specs.Sums.{count_in};

    /// No counts. It takes no memory.
    pub fn new(alloc: Global) -> Tally
        ensures { result ≡ [] }
    {
        Tally {
            rows: BTreeMap::new(alloc),
        }
    }

    /// It does nothing: its clause is what each tally keeps.
    pub fn is_tally(&self)
        ensures { IsTally self.now }
    {
        let _ = &self.rows;
    }

    /// The number of rows.
    pub fn count(&self) -> usize
        ensures { result ≡ length self.now }
    {
        self.rows.len()
    }

    /// The rows, in the order of their keys.
    pub fn iter(&self) -> Iter<'_, TallyKey, u64>
        ensures { result ≡ self.now }
    {
        self.rows.iter()
    }

    // Counts n more for a key. An error comes only where memory runs out.
    pub(crate) fn add(&mut self, key: TallyKey, n: u64) -> Result<(), AllocError>
        requires some { 0 < n }
        requires fits { count_in self.old key + n < 2 ^ 64 }
        ensures counted { IfOk result
            (λ _. (other : TallyKey) → count_in self.new other ≡ count_in self.old other + counted_at key n other) }
        ensures unchanged { OnErr result (self.new ≡ self.old) }
    {
        outcomes_are_ordered();
        match self.rows.get_mut(&key) {
            Some(count) => *count += n,
            None => {
                self.rows.insert(key, n)?;
            }
        }
        Ok(())
    }
}

impl Tally {
    ghost use Rattle.std.specs.Prelude.{◌≡◌, ◌+◌, ◌<◌, ◌^◌, IfOk};
    ghost use Rattle.gcl_core.specs.declared.answers.TallyKey.{TallyKey};
    ghost use Rattle.tally_range.specs.Sums.{count_in};

    // Adds the counts of another table. An error comes only where memory runs out.
    pub(crate) fn add_all(&mut self, other: &Tally) -> Result<(), AllocError>
        requires fits { (key : TallyKey) → count_in self.old key + count_in other.now key < 2 ^ 64 }
        ensures counted { IfOk result
            (λ _. (key : TallyKey) → count_in self.new key ≡ count_in self.old key + count_in other.now key) }
    {
        for (key, n) in &other.rows {
            self.add(*key, *n)?;
        }
        Ok(())
    }
}
