// The first columns of the tree of some weights, laid out, so that a flip costs one comparison.
ghost use Rattle.std.specs.Prelude.{◌≡◌, ◌+◌, ◌<◌, ◌≤◌, ◌++◌, map, length, IfOk, OnOk};
ghost use Rattle.std.specs.List.{All, sum};
ghost use Rattle.weighted_roll.specs.declared.rules.TheConstants as rule;
ghost use Rattle.weighted_roll.specs.Columns.{column, next_of, IfRest};
ghost use Rattle.weighted_roll.specs.inner.Tables.{leaf_labels, after_flips, all_labels, all_ends};
ghost use Rattle.weighted_roll.specs.Weights.{AreWeights};

use crate::columns::{Column, pass_labels};
use crate::rolling::sum_of;
use crate::weights::weights_are_small;
use std::alloc::{AllocError, Global};

// Weights, and for the first flips which labels have a leaf.
#[derive(Drop)]
pub(crate) struct Table {
    pub(crate) weights: Vec<u64>,
    pub(crate) whole: u64,
    // The labels that have a leaf, column by column.
    labels: Vec<u32>,
    // Where each column begins in `labels`, and where the last ends.
    ends: Vec<usize>,
    depth: usize,
    ghost total: { whole ≡ sum weights.items },
    ghost below: { All (λ a. a < whole) weights.items },
    ghost some: { 0 < whole },
    ghost small: { whole ≤ rule.GREATEST_SUM },
    ghost fewer: { length weights.items ≤ rule.MOST_LABELS },
    ghost columns: { labels.items ≡ all_labels whole depth weights.items },
    ghost places: { ends.items ≡ all_ends whole depth weights.items },
}

// Doubles each remainder modulo `whole`.
fn double(rests: &mut [u64], whole: u64)
    requires below { All (λ r. r < whole) rests.old }
    requires small { whole ≤ rule.GREATEST_SUM }
    ensures { rests.new ≡ map (next_of whole) rests.old }
{
    for i in 0..rests.len() {
        let twice = 2 * rests[i];
        if whole <= twice {
            rests[i] = twice - whole;
        } else {
            rests[i] = twice;
        }
    }
}

// Appends the labels that have a leaf.
fn push_leaves(labels: &mut Vec<u32>, rests: &[u64], whole: u64) -> Result<(), AllocError>
    requires below { All (λ r. r < whole) rests.now }
    requires small { whole ≤ rule.GREATEST_SUM }
    requires few { length rests.now ≤ rule.MOST_LABELS }
    ensures { OnOk result (labels.new.items ≡ labels.old.items ++ leaf_labels whole rests.now 0) }
{
    for i in 0..rests.len() {
        if whole <= 2 * rests[i] {
            labels.push(i as u32)?;
        }
    }
    Ok(())
}

impl Table {
    // The first `depth` columns of these weights, laid out.
    pub(crate) fn of(alloc: Global, weights: &[u64], depth: usize) -> Result<Table, AllocError>
        requires { AreWeights weights.now }
        ensures { IfOk result (λ r. r.weights.items ≡ weights.now) }
    {
        weights_are_small(weights);
        let whole = sum_of(weights);
        let mut rests = weights.to_vec(alloc)?;
        let mut labels = Vec::new(alloc);
        let mut ends = Vec::new(alloc);
        ends.push(0)?;
        for t in 0..depth {
            push_leaves(&mut labels, rests.as_slice(), whole)?;
            ends.push(labels.len())?;
            double(rests.as_mut_slice(), whole);
        }
        Ok(Table {
            weights: weights.to_vec(alloc)?,
            whole,
            labels,
            ends,
            depth,
        })
    }

    // The remainders behind the columns that are laid out.
    fn unroll(&self, room: &mut [u64])
        requires { length room.old ≡ length self.now.weights.items }
        ensures { room.new ≡ after_flips self.now.whole self.now.depth self.now.weights.items }
    {
        room.copy_from_slice(self.weights.as_slice());
        for t in 0..self.depth {
            double(room, self.whole);
        }
    }

    // One flip. The room holds the remainders once the columns are passed.
    pub(crate) fn step(&self, room: &mut [u64], read: usize, number: u64) -> Column
        requires long { length room.old ≡ length self.now.weights.items }
        requires held { self.now.depth < read → room.old ≡ after_flips self.now.whole read self.now.weights.items }
        ensures column { result ≡ column self.now.whole (after_flips self.now.whole read self.now.weights.items) 0 number }
        ensures held { IfRest result (self.now.depth < read + 1
            → room.new ≡ after_flips self.now.whole (read + 1) self.now.weights.items) }
    {
        if read < self.depth {
            let start = self.ends[read];
            let leaves = (self.ends[read + 1] - start) as u64;
            if number < leaves {
                return Column::Leaf(u64::from(self.labels[start + number as usize]));
            }
            return Column::Rest(number - leaves);
        }
        if read == self.depth {
            self.unroll(room);
        }
        pass_labels(room, self.whole, number)
    }
}
