// What the draws of a table's states cost, each by as many attempts as it takes, by what is counted.

ghost use Rattle.std.specs.Prelude.{◌≡◌, ℕ, ◌≤◌, ◌<◌, ◌^◌, None, length, IfSome};
ghost use Rattle.numbers.specs.Arithmetic.{InLowest};
ghost use Rattle.numbers.specs.Fraction.{IsEqual};
ghost use Rattle.gcl_core.specs.meaning.Arms.{parts_of};
ghost use Rattle.gcl_core.specs.meaning.Bounds.{IsWeight, ExpressionBelow, AreParts};
ghost use Rattle.gcl_core.specs.meaning.Draw.{choice_ends, uniform_ends};
ghost use Rattle.gcl_core.specs.meaning.Parts.{partial_sums};
ghost use Rattle.gcl_core.specs.meaning.Value.{value_of};
ghost use Rattle.gcl_core.specs.meaning.Views.{expression_of, list_of_arms};
ghost use Rattle.table_flow.specs.Tables.{fractions_kind, uniform_go};
ghost use Rattle.cost_law.specs.ExpectedBits.{attempt_bits};
ghost use Rattle.bits_law.specs.Price.{price_of_draw};
ghost use Rattle.bits_fold.specs.Counted.{price_of};
ghost use Rattle.bits_fold.specs.inner.Reading.{price_of_bound, WeighsTo, DrawsCost};

use crate::counted::Counted;
use attempt_bits::{arms_bits, choice_bits, uniform_bits};
use gcl_core::{Arms, Expr, MOST_ARMS, Weight, eval};
use mass_fold::choosing::total;
use mass_fold::{State, Table};
use numbers::Frac;

// The sum of all weights of a table; none where it, or a sum on the way to it, does not fit.
pub fn weight_of(table: &Table) -> Option<Frac>
    ensures { IfSome result (WeighsTo table.now.states.entries) }
{
    let mut sum = Frac::of(0, 1);
    for (_, f) in &table.states {
        sum = sum.add(f)?;
    }
    Some(sum)
}

// What one choice costs.
fn price_of_choice(what: Counted, p: Weight) -> Frac
    requires { IsWeight p }
    ensures equal { IsEqual result (price_of_draw (price_of what) None (choice_ends p)) }
    ensures lowest { InLowest result }
{
    match what {
        Counted::Bits => Frac::of(choice_bits(p), u128::from(p.den)),
        Counted::Draws => Frac::of(1, 1),
        Counted::Turns => Frac::of(0, 1),
    }
}

// What the draw of a choice costs, for each state of a table.
pub fn cost_of_choice(what: Counted, p: Weight, table: &Table) -> Option<Frac>
    requires { IsWeight p }
    ensures { IfSome result (DrawsCost (price_of what) (fractions_kind.reached (choice_ends p)) table.now.states.entries) }
{
    let price = price_of_choice(what, p);
    weight_of(table)?.mul(&price)
}

// The bits that one attempt of a choice among several reads on average, times 2^k for numbers of k bits.
fn attempt_of(arms: &Arms) -> u128
    requires { AreParts (parts_of (list_of_arms arms.now)) }
    ensures { result ≡ (attempt_bits (partial_sums (parts_of (list_of_arms arms.now)))).0 }
{
    let mut ends = [0u64; MOST_ARMS];
    let mut end = 0;
    let mut count = 0;
    for (part, _) in &arms.arms {
        end += *part;
        ends[count] = end;
        count += 1;
    }
    arms_bits(&ends[..count])
}

// What one choice among several costs.
fn price_of_arms(what: Counted, arms: &Arms) -> Frac
    requires { AreParts (parts_of (list_of_arms arms.now)) }
    ensures equal { IsEqual result (price_of_draw (price_of what) None (partial_sums (parts_of (list_of_arms arms.now)))) }
    ensures lowest { InLowest result }
{
    match what {
        Counted::Bits => Frac::of(attempt_of(arms), u128::from(total(arms))),
        Counted::Draws => Frac::of(1, 1),
        Counted::Turns => Frac::of(0, 1),
    }
}

// What the draw of a choice among several costs, for each state of a table.
pub fn cost_of_arms(what: Counted, arms: &Arms, table: &Table) -> Option<Frac>
    requires { AreParts (parts_of (list_of_arms arms.now)) }
    ensures { IfSome result (DrawsCost (price_of what) (fractions_kind.reached (partial_sums (parts_of (list_of_arms arms.now)))) table.now.states.entries) }
{
    let price = price_of_arms(what, arms);
    weight_of(table)?.mul(&price)
}

// What one uniform draw below a bound costs.
fn bound_price(what: Counted, bound: u64) -> Frac
    requires low { 1 ≤ bound }
    requires fits { bound < 2 ^ 63 }
    ensures equal { IsEqual result (price_of_draw (price_of what) None (uniform_ends bound)) }
    ensures lowest { InLowest result }
{
    match what {
        Counted::Bits => Frac::of(uniform_bits(bound), u128::from(bound)),
        Counted::Draws => Frac::of(1, 1),
        Counted::Turns => Frac::of(0, 1),
    }
}

// What the uniform draw of one state costs, or 0 where its bound is none.
fn cost_of_state(what: Counted, e: &Expr, s: &State) -> Frac
    requires { ExpressionBelow (expression_of e.now) (length s.now) }
    ensures equal { IsEqual result (price_of_bound (price_of what) (value_of (expression_of e.now) s.now)) }
    ensures lowest { InLowest result }
{
    match eval(e, s.values()) {
        Err(_) => Frac::of(0, 1),
        Ok(v) => {
            if v < 1 {
                return Frac::of(0, 1);
            }
            bound_price(what, v as u64)
        }
    }
}

// What the uniform draw of each state of a table costs, whichever variable is drawn.
pub fn cost_of_uniform(what: Counted, e: &Expr, table: &Table) -> Option<Frac>
    requires { ExpressionBelow (expression_of e.now) table.now.vars }
    ensures { IfSome result (λ f. (x : ℕ) → DrawsCost (price_of what)
        (λ I. (uniform_go fractions_kind None x (value_of (expression_of e.now)) I).reached) table.now.states.entries f) }
{
    let mut sum = Frac::of(0, 1);
    for (s, f) in &table.states {
        let cost = f.mul(&cost_of_state(what, e, s))?;
        sum = sum.add(&cost)?;
    }
    Some(sum)
}
