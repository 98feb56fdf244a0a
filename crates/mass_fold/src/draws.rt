// Draws on a table.

ghost use Rattle.std.specs.Prelude.{◌≡◌, ◌<◌, ◌≤◌, ◌^◌, length, IfOk, OnOk, IfErr, IfSome, IfNone};
ghost use Rattle.gcl_core.specs.weighing.Fractions.{power};
ghost use Rattle.gcl_core.specs.meaning.Views.{expression_of};
ghost use Rattle.gcl_core.specs.meaning.Bounds.{ExpressionBelow};
ghost use Rattle.mass_fold.specs.declared.ended.Ended.{Ended};
ghost use Rattle.mass_fold.specs.inner.Steps.{IsParts, PartsBlame, IsPower, PowerBlames, SpreadGives, SpreadBlames};
ghost use Rattle.mass_fold.specs.inner.Drawing.{ScaledTo, ScaleRefused, PartEnds, PartRefused};
ghost use Rattle.mass_fold.specs.inner.Drawing.{BoundAdds, BoundStops, BoundBlames, EntryAdds, EntryStops, EntryBlames};
ghost use Rattle.mass_fold.specs.inner.Drawing.{UniformFolds, UniformRefused};

use crate::attempts::Attempts;
use crate::ended::{Ended, Gone};
use crate::error::MassError;
use crate::fold::Fold;
use crate::state::State;
use crate::steps::ended_by;
use crate::table::Table;
use draw_tree::bits_for;
use gcl_core::{Expr, eval};
use numbers::Frac;
use std::alloc::Global;

/// The power of a fraction of at most 1; none where it does not fit.
pub fn power(base: &Frac, count: u64) -> Option<Frac>
    requires { base.now.0 ≤ base.now.1 }
    ensures value { IfSome result (IsPower base.now count) }
    ensures cause { IfNone result (PowerBlames base.now count) }
{
    base.is_lowest();
    let mut product = Frac::of(1, 1);
    for _ in 0..count {
        product = product.mul(base)?;
    }
    Some(product)
}

/// For a uniform draw below `bound`: the probability of each number, and the probability that every attempt is rejected, which is
/// 0 without a limit of attempts. `None` where one of the two needs more than 128 bits.
pub fn parts(bound: u64, attempts: Attempts) -> Option<(Frac, Frac)>
    requires least { 1 ≤ bound }
    requires most { bound ≤ 2 ^ 63 }
    ensures value { IfSome result (λ t. IsParts bound attempts.most t.0 t.1) }
    ensures cause { IfNone result (PartsBlame bound attempts.most) }
{
    let nothing = Frac::of(0, 1);
    let wide = u128::from(bound);
    let each = Frac::of(1, wide);
    let Some(limit) = attempts.most else {
        return Some((each, nothing));
    };
    let all = 2u128.pow(bits_for(bound));
    let again = Frac::of(all - wide, all);
    if again.num() == 0 {
        return Some((each, nothing));
    }
    let rest = power(&again, limit)?;
    let given = Frac::of(rest.den() - rest.num(), rest.den());
    Some((given.mul(&each)?, rest))
}

/// The table with each weight multiplied by `w`. `TooWide` comes where a weight needs more than 128 bits, and `OutOfMemory`
/// where memory runs out.
pub fn scale(alloc: Global, w: &Frac, table: &Table) -> Result<Table, MassError>
    requires { 1 ≤ w.now.0 }
    ensures ok { IfOk result (λ t. (E : Ended) → ScaledTo w.now table.now E t) }
    ensures vars { IfOk result (λ t. t.vars ≡ table.now.vars) }
    ensures cause { IfErr result (λ e. (E : Ended) → ScaleRefused w.now table.now E e) }
{
    w.is_lowest();
    let mut next = Table::new(alloc, table.vars);
    for (s, f) in &table.states {
        let h = f.mul(w).ok_or(MassError::TooWide)?;
        next.put(s.copy(alloc)?, h)?;
    }
    Ok(next)
}

/// All entries end in one way, with each weight multiplied.
pub fn end_part(x: Gone, w: &Frac, table: &Table, ended: &mut Ended) -> Result<(), MassError>
    ensures ok { OnOk result (PartEnds x w.now table.now ended.old ended.new) }
    ensures cause { IfErr result (PartRefused x w.now table.now ended.old) }
{
    w.is_lowest();
    for (_, f) in &table.states {
        let h = f.mul(w).ok_or(MassError::TooWide)?;
        ended.add(x, &h)?;
    }
    Ok(())
}

// The state with x set to each number below a bound, each with the same weight.
fn spread(
    alloc: Global,
    x: u32,
    bound: u64,
    s: &State,
    h: Frac,
    next: &mut Table,
) -> Result<(), MassError>
    requires sized { length s.now ≡ next.old.vars }
    requires place { x < length s.now }
    requires most { bound < 2 ^ 63 }
    ensures ok { OnOk result (SpreadGives next.old.states.entries next.new.states.entries x bound s.now h) }
    ensures vars { next.new.vars ≡ next.old.vars }
    ensures cause { IfErr result (λ e. SpreadBlames e next.old.states.entries x bound s.now h) }
{
    for i in 0..bound {
        let mut t = s.copy(alloc)?;
        t.set(x, i as i64);
        next.put(t, h)?;
    }
    Ok(())
}

impl Fold {
    // The draw below `bound` of one state of weight f.
    fn draw_state(
        self,
        x: u32,
        bound: u64,
        s: &State,
        f: &Frac,
        next: &mut Table,
        ended: &mut Ended,
    ) -> Result<(), MassError>
        requires sized { length s.now ≡ next.old.vars }
        requires place { x < length s.now }
        requires least { 1 ≤ bound }
        requires most { bound < 2 ^ 63 }
        ensures added { OnOk result (BoundAdds self x bound next.old next.new s.now f.now) }
        ensures stopped { OnOk result (BoundStops self bound ended.old ended.new f.now) }
        ensures vars { next.new.vars ≡ next.old.vars }
        ensures cause { IfErr result (BoundBlames self x bound next.old ended.old s.now f.now) }
    {
        let (part, rest) = parts(bound, self.attempts).ok_or(MassError::TooWide)?;
        let h = f.mul(&part).ok_or(MassError::TooWide)?;
        spread(self.alloc, x, bound, s, h, next)?;
        let g = f.mul(&rest).ok_or(MassError::TooWide)?;
        ended.add(Gone::Attempts, &g)
    }

    // The draw of one state of weight f, with as many numbers as an expression says.
    fn draw_entry(
        self,
        x: u32,
        e: &Expr,
        s: &State,
        f: &Frac,
        next: &mut Table,
        ended: &mut Ended,
    ) -> Result<(), MassError>
        requires sized { length s.now ≡ next.old.vars }
        requires place { x < length s.now }
        requires reads { ExpressionBelow (expression_of e.now) (length s.now) }
        ensures added { OnOk result (EntryAdds self x (expression_of e.now) next.old next.new s.now f.now) }
        ensures stopped { OnOk result (EntryStops self (expression_of e.now) ended.old ended.new s.now f.now) }
        ensures vars { next.new.vars ≡ next.old.vars }
        ensures cause { IfErr result (EntryBlames self x (expression_of e.now) next.old ended.old s.now f.now) }
    {
        match eval(e, s.values()) {
            Err(fault) => ended.add(ended_by(fault), f),
            Ok(v) => {
                if v < 1 {
                    return ended.add(Gone::Bound, f);
                }
                self.draw_state(x, v as u64, s, f, next, ended)
            }
        }
    }

    /// The table after a uniform draw of the variable x, below the value of an expression in each state. A state in which that
    /// is a fault or no bound, and what no attempt decides, is added to `ended`. An error comes where a weight needs more than
    /// 128 bits, a table more than [`MOST_STATES`](crate::MOST_STATES) states, or memory runs out.
    pub fn draw(self, x: u32, e: &Expr, table: Table, ended: &mut Ended) -> Result<Table, MassError>
        requires place { x < table.vars }
        requires reads { ExpressionBelow (expression_of e.now) table.vars }
        ensures ok { IfOk result (λ t. UniformFolds self x (expression_of e.now) table ended.old t ended.new) }
        ensures vars { IfOk result (λ t. t.vars ≡ table.vars) }
        ensures cause { IfErr result (UniformRefused self x (expression_of e.now) table ended.old) }
    {
        let mut next = Table::new(self.alloc, table.vars);
        for (s, f) in table.states {
            self.draw_entry(x, e, &s, &f, &mut next, ended)?;
        }
        Ok(next)
    }
}
