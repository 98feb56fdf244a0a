// Uniform draws on a table.

ghost use Rattle.std.specs.Prelude.{◌≡◌, ◌≤◌, ◌<◌, ◌+◌, ◌++◌, ◌^◌, [], ◌∷◌, length, IfOk, OnOk, IfErr};
ghost use Rattle.numbers.specs.declared.units.TheConstants.{ALL};
ghost use Rattle.gcl_core.specs.declared.answers.Limit.TheVariants.{Attempts};
ghost use Rattle.gcl_core.specs.meaning.Blocks.{limit};
ghost use Rattle.gcl_core.specs.meaning.Views.{expression_of};
ghost use Rattle.gcl_core.specs.meaning.Value.{value_of};
ghost use Rattle.gcl_core.specs.meaning.Bounds.{ExpressionBelow};
ghost use Rattle.table_flow.specs.Tables.{below_go, uniform_go};
ghost use Rattle.units_law.specs.Down.{down, share_of, rest_of};
ghost use Rattle.units_law.specs.Merged.{merged};
ghost use Rattle.units_law.specs.Rounding.{units_kind};
ghost use Rattle.units_law.specs.Units.{counted_units, total};
ghost use Rattle.enclose_fold.specs.inner.Ended.{units_of, EndsWith};
ghost use Rattle.enclose_fold.specs.inner.Refusals.{RefusedAt};

use crate::ended::Ended;
use crate::error::EncloseError;
use crate::fold::Fold;
use crate::table::Table;
use gcl_core::{Expr, Fault, eval};
use mass_fold::State;
use scaled_fold::Odds;
use std::alloc::Global;

// The state with x set to each number below a bound, each with h units. Where h is 0 nothing is added.
fn spread(
    alloc: Global,
    x: u32,
    bound: u64,
    s: &State,
    h: u128,
    next: &mut Table,
) -> Result<(), EncloseError>
    requires sized { length s.now ≡ next.old.vars }
    requires place { x < length s.now }
    requires most { bound < 2 ^ 63 }
    requires within { total next.old.states.entries + total (below_go counted_units x bound ((s.now, h) ∷ [])) ≤ ALL }
    ensures ok { OnOk result (next.new.states.entries ≡ merged (next.old.states.entries ++ below_go counted_units x bound ((s.now, h) ∷ []))) }
    ensures vars { next.new.vars ≡ next.old.vars }
    ensures cause { IfErr result (RefusedAt (next.old.states.entries ++ below_go counted_units x bound ((s.now, h) ∷ []))) }
{
    if h == 0 {
        return Ok(());
    }
    for i in 0..bound {
        let mut t = s.copy(alloc)?;
        t.set(x, i as i64);
        next.put(t, h)?;
    }
    Ok(())
}

impl Fold {
    // The draw below `bound` of one state of w units.
    fn draw_state(
        self,
        x: u32,
        bound: u64,
        s: &State,
        w: u128,
        next: &mut Table,
        ended: &mut Ended,
    ) -> Result<(), EncloseError>
        requires sized { length s.now ≡ next.old.vars }
        requires place { x < length s.now }
        requires least { 1 ≤ bound }
        requires most { bound < 2 ^ 63 }
        requires within { total next.old.states.entries + (total (units_of ended.old) + w) ≤ ALL }
        ensures added { OnOk result (next.new.states.entries
            ≡ merged (next.old.states.entries ++ below_go counted_units x bound ((s.now, share_of bound self.attempts 1 w) ∷ []))) }
        ensures stopped { OnOk result (EndsWith ended.old ((limit Attempts, rest_of bound self.attempts w) ∷ []) ended.new) }
        ensures vars { next.new.vars ≡ next.old.vars }
        ensures cause { IfErr result
            (RefusedAt (next.old.states.entries ++ below_go counted_units x bound ((s.now, share_of bound self.attempts 1 w) ∷ []))) }
    {
        let odds = Odds::of(bound, self.attempts);
        spread(self.alloc, x, bound, s, odds.least_share(1, w), next)?;
        ended.add_attempts(odds.least_rest(w));
        Ok(())
    }

    // The draw of one state of w units, with as many numbers as an expression says.
    fn draw_entry(
        self,
        x: u32,
        e: &Expr,
        s: &State,
        w: u128,
        next: &mut Table,
        ended: &mut Ended,
    ) -> Result<(), EncloseError>
        requires sized { length s.now ≡ next.old.vars }
        requires place { x < length s.now }
        requires reads { ExpressionBelow (expression_of e.now) (length s.now) }
        requires within { total next.old.states.entries + (total (units_of ended.old) + w) ≤ ALL }
        ensures added { OnOk result (next.new.states.entries ≡ merged (next.old.states.entries
            ++ (uniform_go (units_kind down) self.attempts x (value_of (expression_of e.now)) ((s.now, w) ∷ [])).next)) }
        ensures stopped { OnOk result
            (EndsWith ended.old (uniform_go (units_kind down) self.attempts x (value_of (expression_of e.now)) ((s.now, w) ∷ [])).ended ended.new) }
        ensures vars { next.new.vars ≡ next.old.vars }
        ensures cause { IfErr result (RefusedAt (next.old.states.entries
            ++ (uniform_go (units_kind down) self.attempts x (value_of (expression_of e.now)) ((s.now, w) ∷ [])).next)) }
    {
        match eval(e, s.values()) {
            Err(fault) => {
                ended.add_fault(fault, w);
                Ok(())
            }
            Ok(v) => {
                if v < 1 {
                    ended.add_fault(Fault::BadBound, w);
                    return Ok(());
                }
                self.draw_state(x, v as u64, s, w, next, ended)
            }
        }
    }

    /// The table after a uniform draw of a variable.
    pub fn draw(
        self,
        x: u32,
        e: &Expr,
        table: Table,
        ended: &mut Ended,
    ) -> Result<Table, EncloseError>
        requires place { x < table.vars }
        requires reads { ExpressionBelow (expression_of e.now) table.vars }
        requires within { total table.states.entries + total (units_of ended.old) ≤ ALL }
        ensures next { IfOk result (λ t. t.states.entries
            ≡ merged (uniform_go (units_kind down) self.attempts x (value_of (expression_of e.now)) table.states.entries).next) }
        ensures stopped { IfOk result
            (λ t. EndsWith ended.old (uniform_go (units_kind down) self.attempts x (value_of (expression_of e.now)) table.states.entries).ended ended.new) }
        ensures vars { IfOk result (λ t. t.vars ≡ table.vars) }
        ensures cause { IfErr result
            (RefusedAt (uniform_go (units_kind down) self.attempts x (value_of (expression_of e.now)) table.states.entries).next) }
    {
        let mut next = Table::new(self.alloc, table.vars);
        for (s, w) in table.states {
            self.draw_entry(x, e, &s, w, &mut next, ended)?;
        }
        Ok(next)
    }
}
