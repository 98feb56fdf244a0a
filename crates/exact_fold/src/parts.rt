// How much the turns of loops may come to while their visits are looked for.

ghost use Rattle.std.specs.Prelude.{◌≡◌, ◌≤◌, ◌<◌, ◌+◌, length, OnOk, OnErr};
ghost use Rattle.gcl_core.specs.meaning.Bounds.{ExpressionBelow};
ghost use Rattle.gcl_core.specs.meaning.Views.{expression_of};
ghost use Rattle.exact_fold.specs.declared.parts.TheConstants.{MOST_PARTS};

use crate::error::SettleError;
use gcl_core::{Expr, eval};
use mass_fold::Table;

/// The most parts of all turns that are made of one program.
pub const MOST_PARTS: u64 = 1 << 21;

/// The parts of the turns that were made so far: each number that a draw was made among, and each state that a turn led back to.
#[derive(Drop)]
pub struct Parts {
    count: u64,
    ghost few: { count ≤ MOST_PARTS },
}

impl Parts {
    pub fn none() -> Parts
        ensures { result.count ≡ 0 }
    {
        Parts { count: 0 }
    }

    /// So many more, or an error where they would be more than [`MOST_PARTS`].
    pub fn add(&mut self, more: u64) -> Result<(), SettleError>
        ensures counted { OnOk result (self.new.count ≡ self.old.count + more) }
        ensures many { OnErr result (MOST_PARTS < self.old.count + more) }
    {
        if more > MOST_PARTS - self.count {
            return Err(SettleError::TooManyStates);
        }
        self.count += more;
        Ok(())
    }
}

// How many numbers the draw of one state is made among.
fn bound(e: &Expr, values: &[i64]) -> u64
    requires { ExpressionBelow (expression_of e.now) (length values.now) }
{
    match eval(e, values) {
        Ok(v) => u64::try_from(v).unwrap_or(0),
        Err(_) => 0,
    }
}

/// How many numbers the uniform draws of a table's states are made among.
pub fn drawn(e: &Expr, table: &Table) -> u64
    requires { ExpressionBelow (expression_of e.now) table.now.vars }
{
    let mut sum = 0u64;
    for (state, _) in &table.states {
        sum = sum.saturating_add(bound(e, state.values()));
    }
    sum
}
