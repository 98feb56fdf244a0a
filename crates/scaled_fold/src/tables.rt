// Tables as wholes: put together, counted, and multiplied.

ghost use Rattle.std.specs.Prelude.{◌≡◌, ◌≤◌, IfOk};
ghost use Rattle.units_law.specs.Down.{down};
ghost use Rattle.units_law.specs.Units.{total};
ghost use Rattle.scaled_law.specs.Pairs.{put_pairs, at_least, at_most, class_pairs, rest_pairs, merged_pairs};
ghost use Rattle.scaled_law.specs.Scaled.{times_pairs};
ghost use Rattle.scaled_law.specs.Up.{up};

use crate::error::PairsError;
use crate::odds::Odds;
use crate::pair::{added, times};
use crate::table::Table;
use std::alloc::Global;

/// All entries of one table come into another.
pub fn merge(into: Table, table: Table) -> Result<Table, PairsError>
    requires vars { table.vars ≡ into.vars }
    ensures ok { IfOk result (λ t. t.states.entries ≡ put_pairs into.states.entries table.states.entries) }
    ensures vars { IfOk result (λ t. t.vars ≡ into.vars) }
{
    let mut all = into;
    for (s, w) in table.states {
        all = all.put(s, w)?;
    }
    Ok(all)
}

/// All units of a table, at least and at most.
pub fn all_of(table: &Table) -> Result<(u128, u128), PairsError>
    ensures { IfOk result (λ w. w ≡ (total (at_least table.now.states.entries), total (at_most table.now.states.entries))) }
{
    let mut all = (0, 0);
    for (_, w) in &table.states {
        all = added(all, *w)?;
    }
    Ok(all)
}

/// A table with `k` times as many units.
pub fn multiplied(alloc: Global, table: &Table, k: u128) -> Result<Table, PairsError>
    ensures ok { IfOk result (λ t. t.states.entries ≡ merged_pairs (times_pairs (k, 1) table.now.states.entries)) }
    ensures vars { IfOk result (λ t. t.vars ≡ table.now.vars) }
{
    let mut more = Table::new(alloc, table.vars);
    for (s, w) in &table.states {
        more = more.put(s.copy(alloc)?, times(*w, k)?)?;
    }
    Ok(more)
}

/// The table with what `count` of the numbers of a draw get of the units of each state.
pub fn side(alloc: Global, odds: Odds, count: u64, table: &Table) -> Result<Table, PairsError>
    requires part { count ≤ odds.bound }
    ensures next { IfOk result (λ t. t.states.entries ≡ merged_pairs (class_pairs down up odds.bound odds.attempts count table.now.states.entries)) }
    ensures vars { IfOk result (λ t. t.vars ≡ table.now.vars) }
{
    let mut next = Table::new(alloc, table.vars);
    for (s, w) in &table.states {
        next = next.put(s.copy(alloc)?, odds.share(count, *w))?;
    }
    Ok(next)
}

/// All that no attempt of a draw decides of the units of a table.
pub fn undecided(odds: Odds, table: &Table) -> Result<(u128, u128), PairsError>
    ensures { IfOk result (λ w. w ≡ (
      total (at_least (rest_pairs down up odds.bound odds.attempts table.now.states.entries)),
      total (at_most (rest_pairs down up odds.bound odds.attempts table.now.states.entries)),
    )) }
{
    let mut all = (0, 0);
    for (_, w) in &table.states {
        all = added(all, odds.rest(*w))?;
    }
    Ok(all)
}
