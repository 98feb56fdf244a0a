// A count of the bits that draws read on average.

ghost use Rattle.std.specs.Prelude.{◌≡◌, ◌≤◌, ◌<◌, ◌*◌, ◌^◌, ℕ, [], ◌∷◌, length, IfSome, IfNone};
ghost use Rattle.std.specs.List.{sum};
ghost use Rattle.cost_law.specs.ExpectedBits.{attempt_bits};
ghost use Rattle.gcl_core.specs.meaning.Arms.{parts_of};
ghost use Rattle.gcl_core.specs.meaning.Draw.{choice_ends};
ghost use Rattle.gcl_core.specs.meaning.Bounds.{IsWeight, ExpressionBelow, AreParts};
ghost use Rattle.gcl_core.specs.meaning.Parts.{partial_sums};
ghost use Rattle.gcl_core.specs.meaning.Value.{value_of};
ghost use Rattle.gcl_core.specs.meaning.Views.{expression_of, list_of_arms};
ghost use Rattle.table_flow.specs.Scale.{whole, Whole};
ghost use Rattle.mass_fold.specs.inner.Metering.{CountedOn, AddsBits, IsPrice, PriceBlames, bound_price, IsBoundPriced, CountsAll, CountsDraws};

use crate::attempts::Attempts;
use crate::choosing::total;
use crate::draws::parts;
use crate::state::State;
use crate::table::Table;
use attempt_bits::{arms_bits, choice_bits, uniform_bits};
use gcl_core::{Arms, Expr, MOST_ARMS, Weight, eval};
use numbers::Frac;

/// How many bits the draws that are reached read on average, each by the weight with which it is reached.
#[derive(Clone, Copy)]
pub enum Meter {
    /// Bits are not counted.
    Off,
    /// The number of bits.
    Bits(Frac),
    /// More than two numbers of 128 bits can say.
    TooWide,
}

// The sum, with bits that are reached with the weight f.
fn sum_with(sum: &Frac, bits: &Frac, f: &Frac) -> Meter
    ensures { (N M : ℕ) → 0 < N → 0 < M → Whole M bits.now → Whole N f.now
        → CountedOn (N * M) (whole N f.now * whole M bits.now) sum.now result }
{
    sum.is_lowest();
    match f.mul(bits) {
        None => Meter::TooWide,
        Some(more) => {
            more.is_lowest();
            match sum.add(&more) {
                None => Meter::TooWide,
                Some(total) => Meter::Bits(total),
            }
        }
    }
}

// The meter, with bits that are reached with the weight f.
fn add(meter: Meter, bits: &Frac, f: &Frac) -> Meter
    ensures { AddsBits bits.now f.now meter result }
{
    match meter {
        Meter::Off => Meter::Off,
        Meter::Bits(sum) => sum_with(&sum, bits, f),
        Meter::TooWide => Meter::TooWide,
    }
}

// The expected bits of a draw below `bound`, where an attempt reads `undecided` over 2^k. `None` where they do not fit.
fn price(undecided: u128, bound: u64, attempts: Attempts) -> Option<Frac>
    requires least { 1 ≤ bound }
    requires most { bound ≤ 2 ^ 63 }
    ensures value { IfSome result (IsPrice undecided bound attempts.most) }
    ensures cause { IfNone result (PriceBlames undecided bound attempts.most) }
{
    let (part, _) = parts(bound, attempts)?;
    part.mul(&Frac::of(undecided, 1))
}

// The meter, with the same bits for each entry.
fn add_each(meter: Meter, bits: &Frac, table: &Table) -> Meter
    ensures { CountsAll (λ M s. Whole M bits.now) (λ M s. whole M bits.now) table.now.states.entries meter result }
{
    let mut now = meter;
    for (_, f) in &table.states {
        now = add(now, bits, f);
    }
    now
}

/// The meter, with the draw of a choice for each entry.
pub fn count_choice(meter: Meter, p: Weight, attempts: Attempts, table: &Table) -> Meter
    requires weight { IsWeight p }
    requires table { 1 ≤ length table.now.states.entries }
    ensures { CountsDraws attempts.most p.den (choice_ends p) table.now.states.entries meter result }
{
    match meter {
        Meter::Off => Meter::Off,
        Meter::TooWide => Meter::TooWide,
        Meter::Bits(_) => match price(choice_bits(p), p.den, attempts) {
            None => Meter::TooWide,
            Some(bits) => add_each(meter, &bits, table),
        },
    }
}

// The bits that one attempt of a choice among several reads on average, times 2^k for numbers of k bits. It takes no memory.
fn attempt_of(arms: &Arms) -> u128
    requires { AreParts (parts_of (list_of_arms arms.now)) }
    ensures { result ≡ (attempt_bits (partial_sums (parts_of (list_of_arms arms.now)))).0 }
{
    let mut ends = [0u64; MOST_ARMS];
    let mut end = 0;
    let mut count = 0;
    for (part, _) in &arms.arms {
        end += *part;
        ends[count] = end;
        count += 1;
    }
    arms_bits(&ends[..count])
}

/// The meter, with the draw of a choice among several for each entry.
pub fn count_arms(meter: Meter, arms: &Arms, attempts: Attempts, table: &Table) -> Meter
    requires parts { AreParts (parts_of (list_of_arms arms.now)) }
    requires table { 1 ≤ length table.now.states.entries }
    ensures { CountsDraws attempts.most (sum (parts_of (list_of_arms arms.now)))
        (partial_sums (parts_of (list_of_arms arms.now))) table.now.states.entries meter result }
{
    match meter {
        Meter::Off => Meter::Off,
        Meter::TooWide => Meter::TooWide,
        Meter::Bits(_) => match price(attempt_of(arms), total(arms), attempts) {
            None => Meter::TooWide,
            Some(bits) => add_each(meter, &bits, table),
        },
    }
}

// The meter, with the draw of one state of weight f, with as many numbers as an expression says.
fn count_bound(meter: Meter, e: &Expr, attempts: Attempts, s: &State, f: &Frac) -> Meter
    requires { ExpressionBelow (expression_of e.now) (length s.now) }
    ensures { CountsAll (IsBoundPriced (value_of (expression_of e.now)) attempts.most)
        (bound_price (value_of (expression_of e.now)) attempts.most) ((s.now, f.now) ∷ []) meter result }
{
    match meter {
        Meter::Off => Meter::Off,
        Meter::TooWide => Meter::TooWide,
        Meter::Bits(_) => match eval(e, s.values()) {
            Err(_) => meter,
            Ok(v) => {
                if v < 1 {
                    return meter;
                }
                match price(uniform_bits(v as u64), v as u64, attempts) {
                    None => Meter::TooWide,
                    Some(bits) => add(meter, &bits, f),
                }
            }
        },
    }
}

/// The meter, with the uniform draw of each entry.
pub fn count_uniform(meter: Meter, e: &Expr, attempts: Attempts, table: &Table) -> Meter
    requires { ExpressionBelow (expression_of e.now) table.now.vars }
    ensures { CountsAll (IsBoundPriced (value_of (expression_of e.now)) attempts.most)
        (bound_price (value_of (expression_of e.now)) attempts.most) table.now.states.entries meter result }
{
    if let Meter::Off = meter {
        return Meter::Off;
    }
    let mut now = meter;
    for (s, f) in &table.states {
        now = count_bound(now, e, attempts, s, f);
    }
    now
}
