//! Weights that are laid out once and rolled by often: a loaded die.
ghost use Rattle.std.specs.Prelude.{◌≡◌, ◌<◌, ◌≤◌, [], length, refl, IfOk, IsTrue};
ghost use Rattle.zar_io.specs.Bits.{broken_after};
ghost use Rattle.zar_io.specs.GoesOn.{GoesOn};
ghost use Rattle.zar_io.specs.Trace.{World, Agrees, Fails};
ghost use Rattle.dice_roll.specs.Rolled.{TookEach, IsWithin, ended_by};
ghost use Rattle.dice_roll.specs.declared.rules.TheConstants as dice_rule;
ghost use Rattle.weighted_roll.specs.declared.rules.TheConstants as rule;
ghost use Rattle.weighted_roll.specs.Weights.{AreWeights};
ghost use Rattle.weighted_roll.specs.WeightedRoll.{weighted_roll};
ghost use Rattle.weighted_roll.specs.inner.Walks.{rolls_on, Stands};

use crate::columns::Column;
use crate::table::Table;
use dice_roll::{Flips, Roll, roll_on};
use std::alloc::{AllocError, Global};
use std::marker::Model;
use zar_io::{Bits, Failed};

// The number of the string so far among those as long that have no label, in the columns that are laid out or behind them, where the
// room holds what is left of the strings of each label.
#[derive(Drop)]
struct Columns<'a> {
    table: &'a Table,
    room: &'a mut [u64],
    number: u64,
}

impl Flips for Columns<'_> {
    ghost rolls = { λ s. rolls_on s.table.now.whole s.table.now.weights.items s.number };

    ghost labels = { λ s. length s.room.now };

    ghost Stands = { λ s t. Stands s.table.now.whole s.table.now.depth s.table.now.weights.items s.room.now t s.number };

    ghost no_flip_left = { λ s n bits. refl };

    ghost no_bit_left = { λ s h n. refl };

    fn flip(&mut self, read: u64, bit: bool) -> Option<u64> {
        match self
            .table
            .step(self.room, read as usize, 2 * self.number + u64::from(bit))
        {
            Column::Leaf(label) => Some(label),
            Column::Rest(left) => {
                self.number = left;
                None
            }
        }
    }
}

/// Weights to roll by, with the first columns of their tree laid out, so that a flip costs one comparison. Threads may share it
/// by reference, each with a room and bits of its own.
///
/// A contract sees the list of the weights.
#[derive(Drop)]
pub struct Loaded {
    table: Table,
}

impl Model for Loaded {
    ghost use Rattle.std.specs.Prelude.{List, ℕ};

    ghost Value = { List ℕ };

    ghost view = { λ l. l.table.weights.items };
}

impl Loaded {
    /// Lays out `depth` columns of these weights; 32 to 64 are right for any, since a roll goes past column t with a chance below
    /// the number of labels by 2^t. It takes memory for the weights, a number a column, and at most as many labels a column as
    /// there are, and errs only where that runs out.
    pub fn new(alloc: Global, weights: &[u64], depth: usize) -> Result<Loaded, AllocError>
        requires weights { AreWeights weights.now }
        requires few { depth ≤ rule.MOST_DEPTH }
        ensures { IfOk result (λ loaded. loaded ≡ weights.now) }
    {
        Ok(Loaded {
            table: Table::of(alloc, weights, depth)?,
        })
    }

    /// Draws as [`roll`](crate::roll) does. `room` lends room for a number a label, which is used behind the columns that are
    /// laid out.
    #[tactic(auto, using(zar_io::proofs::TraceLemmas::gone_on))]
    pub fn roll<B: Bits>(&self, room: &mut [u64], flips: u64, bits: &mut B) -> Result<Roll, Failed>
        requires long { length room.old ≡ length self.now }
        requires few { flips ≤ dice_rule.MOST_FLIPS }
        ensures answer { IfOk result (λ r. (file : World) → Agrees file (B.answered bits.new)
            → weighted_roll self.now flips (B.left bits.old file) ≡ r) }
        ensures taken { IfOk result (λ r. (file : World) → Agrees file (B.answered bits.new)
            → TookEach (weighted_roll self.now flips) r (B.left bits.old file) (B.left bits.new file)) }
        ensures within { IfOk result (IsWithin (length self.now) flips) }
        ensures ended { B.ended bits.new ≡ ended_by result (B.ended bits.old) }
        ensures stays_ended { IsTrue (B.ended bits.old) → 0 < flips → result ≡ Ok (Roll.MoreBits 0) }
        ensures fails { Fails result (B.answered bits.old) (B.answered bits.new) }
        ensures goes_on { GoesOn [] (B.answered bits.old) (B.answered bits.new) }
        ensures broken { B.broken bits.new ≡ broken_after result (B.broken bits.old) }
        ensures same_source { B.source bits.new ≡ B.source bits.old }
        ensures same_room { length room.new ≡ length room.old }
    {
        let mut columns = Columns {
            table: &self.table,
            room,
            number: 0,
        };
        roll_on(&mut columns, flips, bits)
    }
}
