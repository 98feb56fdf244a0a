// Uniform draws on a table.

ghost use Rattle.std.specs.Prelude.{◌≡◌, ◌≤◌, ◌<◌, ◌^◌, [], ◌∷◌, length, IfOk};
ghost use Rattle.gcl_core.specs.meaning.Views.{expression_of};
ghost use Rattle.gcl_core.specs.meaning.Value.{value_of};
ghost use Rattle.gcl_core.specs.meaning.Bounds.{ExpressionBelow};
ghost use Rattle.table_flow.specs.Tables.{below_go, uniform_go};
ghost use Rattle.units_law.specs.Down.{down};
ghost use Rattle.scaled_law.specs.Pairs.{counted_pairs, class_pairs, pairs_kind, put_pairs, merged_pairs};
ghost use Rattle.scaled_law.specs.Up.{up};
ghost use Rattle.scaled_fold.specs.inner.Ended.{EndsWith};

use crate::ended::Ended;
use crate::error::PairsError;
use crate::odds::Odds;
use crate::table::Table;
use gcl_core::{Expr, Fault, eval};
use mass_fold::State;
use std::alloc::Global;

// The state with x set to each number below a bound, each with w units.
fn spread(
    alloc: Global,
    x: u32,
    bound: u64,
    s: &State,
    w: (u128, u128),
    into: Table,
) -> Result<Table, PairsError>
    requires sized { length s.now ≡ into.vars }
    requires place { x < length s.now }
    requires most { bound < 2 ^ 63 }
    ensures ok { IfOk result (λ t. t.states.entries ≡ put_pairs into.states.entries (below_go counted_pairs x bound ((s.now, w) ∷ []))) }
    ensures vars { IfOk result (λ t. t.vars ≡ into.vars) }
{
    let mut next = into;
    for i in 0..bound {
        let mut t = s.copy(alloc)?;
        t.set(x, i as i64);
        next = next.put(t, w)?;
    }
    Ok(next)
}

// The draw of one state of w units, with as many numbers as an expression says.
fn draw_entry(
    alloc: Global,
    attempts: Option<u64>,
    x: u32,
    e: &Expr,
    s: &State,
    w: (u128, u128),
    into: Table,
    before: Ended,
) -> Result<(Table, Ended), PairsError>
    requires sized { length s.now ≡ into.vars }
    requires place { x < length s.now }
    requires reads { ExpressionBelow (expression_of e.now) (length s.now) }
    ensures added { IfOk result (λ t. t.0.states.entries ≡ put_pairs into.states.entries (uniform_go (pairs_kind down up) attempts x (value_of (expression_of e.now)) ((s.now, w) ∷ [])).next) }
    ensures stopped { IfOk result (λ t. EndsWith before (uniform_go (pairs_kind down up) attempts x (value_of (expression_of e.now)) ((s.now, w) ∷ [])).ended t.1) }
    ensures vars { IfOk result (λ t. t.0.vars ≡ into.vars) }
{
    match eval(e, s.values()) {
        Err(fault) => Ok((into, before.with_fault(fault, w)?)),
        Ok(v) => {
            if v < 1 {
                return Ok((into, before.with_fault(Fault::BadBound, w)?));
            }
            let bound = v as u64;
            let odds = Odds::of(bound, attempts);
            let next = spread(alloc, x, bound, s, odds.share(1, w), into)?;
            Ok((next, before.with_attempts(odds.rest(w))?))
        }
    }
}

/// The table after a uniform draw of a variable, with what has ended.
pub fn draw(
    alloc: Global,
    attempts: Option<u64>,
    x: u32,
    e: &Expr,
    table: Table,
    before: Ended,
) -> Result<(Table, Ended), PairsError>
    requires place { x < table.vars }
    requires reads { ExpressionBelow (expression_of e.now) table.vars }
    ensures next { IfOk result (λ t. t.0.states.entries ≡ merged_pairs (uniform_go (pairs_kind down up) attempts x (value_of (expression_of e.now)) table.states.entries).next) }
    ensures stopped { IfOk result (λ t. EndsWith before (uniform_go (pairs_kind down up) attempts x (value_of (expression_of e.now)) table.states.entries).ended t.1) }
    ensures vars { IfOk result (λ t. t.0.vars ≡ table.vars) }
{
    let mut next = Table::new(alloc, table.vars);
    let mut ended = before;
    for (s, w) in table.states {
        let (more, after) = draw_entry(alloc, attempts, x, e, &s, w, next, ended)?;
        next = more;
        ended = after;
    }
    Ok((next, ended))
}
