// The sides of a choice, and what no attempt of it decides.

ghost use Rattle.std.specs.Prelude.{◌≡◌, ◌≤◌, ◌+◌, ◌-◌, IfOk, IfErr};
ghost use Rattle.numbers.specs.declared.units.TheConstants.{ALL};
ghost use Rattle.gcl_core.specs.declared.answers.Limit.TheVariants.{Attempts};
ghost use Rattle.gcl_core.specs.meaning.Blocks.{limit};
ghost use Rattle.units_law.specs.Down.{down};
ghost use Rattle.units_law.specs.Merged.{merged};
ghost use Rattle.units_law.specs.Rounding.{class_units, rest_units};
ghost use Rattle.units_law.specs.Units.{total, end_units};
ghost use Rattle.enclose_fold.specs.declared.error.EncloseError.TheVariants.{OutOfMemory};
ghost use Rattle.enclose_fold.specs.inner.Ended.{units_of, EndsWith};

use crate::ended::Ended;
use crate::error::EncloseError;
use crate::table::Table;
use scaled_fold::Odds;
use std::alloc::Global;

/// What no attempt of a draw decides has ended.
pub fn undecided(odds: Odds, table: &Table, ended: &mut Ended)
    requires { total table.now.states.entries + total (units_of ended.old) ≤ ALL }
    ensures { EndsWith ended.old (end_units (limit Attempts) (rest_units down odds.bound odds.attempts table.now.states.entries)) ended.new }
{
    for (_, w) in &table.states {
        ended.add_attempts(odds.least_rest(*w));
    }
}

/// The table with what `count` of the numbers of a draw get of the units of each state.
pub fn side(alloc: Global, odds: Odds, count: u64, table: &Table) -> Result<Table, EncloseError>
    requires part { count ≤ odds.bound }
    requires within { total table.now.states.entries ≤ ALL }
    ensures next { IfOk result
        (λ t. t.states.entries ≡ merged (class_units down odds.bound odds.attempts count table.now.states.entries)) }
    ensures vars { IfOk result (λ t. t.vars ≡ table.now.vars) }
    ensures cause { IfErr result (λ e. e ≡ OutOfMemory) }
{
    let mut next = Table::new(alloc, table.vars);
    for (s, w) in &table.states {
        next.put(s.copy(alloc)?, odds.least_share(count, *w))?;
    }
    Ok(next)
}
