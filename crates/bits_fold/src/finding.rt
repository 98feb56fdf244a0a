// The states of a loop that read no more, those from which it reads for ever, and visits of the loop begun with its visits. Nothing is
// promised of what is found: it is checked by one turn of the loop.

ghost use Rattle.std.specs.Prelude.{◌≡◌, ◌≤◌, IfOk};
ghost use Rattle.gcl_core.specs.meaning.Bounds.{ExpressionBelow};
ghost use Rattle.gcl_core.specs.meaning.Views.{expression_of};

use crate::error::BitsError;
use exact_fold::finding::{Seen, copied, put};
use exact_fold::turning::{leaving, stands};
use gcl_core::Expr;
use mass_fold::{Ended, State, Table, merge, split};
use numbers::Frac;
use std::alloc::Global;

// How many parts of a whole weight are told apart where what leads to a state is summed.
const PARTS: u128 = 1_024;

/// Where one turn of a loop leads from a state, as far as the guard holds there again, and whether it reads some bits.
#[derive(Drop)]
pub struct Led {
    pub state: State,
    pub next: Table,
    pub reads: bool,
}

/// The entries where the guard holds.
pub fn start_of(alloc: Global, e: &Expr, table: &Table) -> Result<Table, BitsError>
    requires { ExpressionBelow (expression_of e.now) table.now.vars }
    ensures { IfOk result (λ t. t.vars ≡ table.now.vars) }
{
    let copy = copied(alloc, table)?;
    let mut none = Ended::none();
    let (first, _) = split(alloc, e, copy, &mut none)?;
    Ok(first)
}

/// One state with all weight, where it has as many variables.
pub fn one(alloc: Global, vars: u32, state: &State) -> Result<Table, BitsError>
    ensures { IfOk result (λ t. t.vars ≡ vars) }
{
    let mut one = Table::new(alloc, vars);
    put(&mut one, state.copy(alloc)?, Frac::of(1, 1))?;
    Ok(one)
}

/// The turns of a loop, but for those from the states of `ends`, and without what leads to the states of `away`.
pub fn chain(
    alloc: Global,
    turns: &Vec<Led>,
    ends: &Table,
    away: &Table,
) -> Result<Seen, BitsError> {
    let mut seen = Seen::none(alloc);
    for led in turns {
        seen.enlist(alloc, &one(alloc, led.next.vars, &led.state)?)?;
    }
    let mut number = 0u64;
    for led in turns {
        if !stands(ends, &led.state) {
            let next = leaving(alloc, away, copied(alloc, &led.next)?)?;
            seen.lead(alloc, number, &next)?;
        }
        number = number.saturating_add(1);
    }
    Ok(seen)
}

/// The states that are never left and from which no bit is read any more.
pub fn silent_states(alloc: Global, turns: &Vec<Led>, vars: u32) -> Result<Table, BitsError>
    ensures { IfOk result (λ t. t.vars ≡ vars) }
{
    let none = Table::new(alloc, vars);
    let mut reading = Table::new(alloc, vars);
    for led in turns {
        if led.reads {
            put(&mut reading, led.state.copy(alloc)?, Frac::of(1, 1))?;
        }
    }
    Ok(
        chain(alloc, turns, &reading, &none)?
            .found(alloc, &none)?
            .closed,
    )
}

/// The first state of a table, with all weight.
pub fn first_of(alloc: Global, table: &Table) -> Result<Table, BitsError>
    ensures { IfOk result (λ t. t.vars ≡ table.now.vars) }
{
    for (state, _) in &table.states {
        return one(alloc, table.vars, state);
    }
    Err(BitsError::NotFound)
}

// The least whole number that is no less.
fn ceiling(f: &Frac) -> u128 {
    if f.num() % f.den() == 0 {
        f.num() / f.den()
    } else {
        (f.num() / f.den()).saturating_add(1)
    }
}

// Each weight of a table in 1,024ths, rounded up; one that does not fit is a whole.
fn in_parts(alloc: Global, table: &Table) -> Result<Table, BitsError>
    ensures { IfOk result (λ t. t.vars ≡ table.now.vars) }
{
    let mut parts = Table::new(alloc, table.vars);
    for (s, f) in &table.states {
        let many = match f.mul(&Frac::of(PARTS, 1)) {
            Some(all) => ceiling(&all),
            None => PARTS,
        };
        put(&mut parts, s.copy(alloc)?, Frac::of(many, 1))?;
    }
    Ok(parts)
}

// What one turn from each state that may be left leads to, in such parts.
fn led_to(alloc: Global, turns: &Vec<Led>, closed: &Table, vars: u32) -> Result<Table, BitsError> {
    let mut all = Table::new(alloc, vars);
    for led in turns {
        if !stands(closed, &led.state) && led.next.vars == vars {
            merge(&mut all, in_parts(alloc, &led.next)?)?;
        }
    }
    Ok(all)
}

// A weight of a state over a scale, rounded up.
fn weight_in(table: &Table, s: &State, scale: u128) -> u128
    requires { 1 ≤ scale }
{
    match table.states.get(s) {
        Some(f) => ceiling(f).div_ceil(scale),
        None => 0,
    }
}

// In each state that may be left as many visits as were found, and as what is rounded up leads there, as whole numbers.
fn enough(
    alloc: Global,
    seen: &Seen,
    closed: &Table,
    visits: &Table,
    led: &Table,
) -> Result<Table, BitsError> {
    let mut each = Table::new(alloc, visits.vars);
    for s in &seen.states {
        if !stands(closed, s) {
            let many = weight_in(visits, s, 1).saturating_add(weight_in(led, s, PARTS));
            put(&mut each, s.copy(alloc)?, Frac::of(many, 1))?;
        }
    }
    Ok(each)
}

/// Whole numbers that are visits of the loop begun with the visits, and with more.
pub fn begun_anew(
    alloc: Global,
    seen: &Seen,
    turns: &Vec<Led>,
    closed: &Table,
    visits: &Table,
) -> Result<Table, BitsError>
    ensures { IfOk result (λ t. t.vars ≡ visits.now.vars) }
{
    let led = led_to(alloc, turns, closed, visits.vars)?;
    let each = enough(alloc, seen, closed, visits, &led)?;
    let mut again = Table::new(alloc, visits.vars);
    for (s, f) in &seen.found(alloc, &each)?.visits.states {
        put(&mut again, s.copy(alloc)?, Frac::of(ceiling(f), 1))?;
    }
    Ok(again)
}

/// The table by one factor, at most 1, so that no state weighs more than it does in all.
pub fn part_of(alloc: Global, table: &Table, all: &Table) -> Result<Table, BitsError>
    ensures { IfOk result (λ t. t.vars ≡ table.now.vars) }
{
    let mut most = 1;
    for (state, weight) in &table.states {
        let Some(has) = all.states.get(state) else {
            return Err(BitsError::NotFound);
        };
        most = most.max(ceiling(&weight.div(has).ok_or(BitsError::TooWide)?));
    }
    let factor = Frac::of(1, most.max(1));
    let mut part = Table::new(alloc, table.vars);
    for (state, weight) in &table.states {
        let less = weight.mul(&factor).ok_or(BitsError::TooWide)?;
        put(&mut part, state.copy(alloc)?, less)?;
    }
    Ok(part)
}

/// What a part leaves of all.
pub fn rest_of(alloc: Global, all: &Table, part: &Table) -> Result<Table, BitsError>
    ensures { IfOk result (λ t. t.vars ≡ all.now.vars) }
{
    let mut left = Table::new(alloc, all.vars);
    for (state, weight) in &all.states {
        let rest = match part.states.get(state) {
            Some(less) => weight.sub(less).ok_or(BitsError::NotFound)?,
            None => *weight,
        };
        if rest.num() != 0 {
            put(&mut left, state.copy(alloc)?, rest)?;
        }
    }
    Ok(left)
}

/// With what more the loop is begun beside the visits: what the visits of the loop begun anew leave of them and of what is led back.
pub fn begun_with_more(
    alloc: Global,
    e: &Expr,
    closed: &Table,
    again: &Table,
    visits: &Table,
    back: Table,
) -> Result<Table, BitsError>
    requires reads { ExpressionBelow (expression_of e.now) visits.now.vars }
    requires vars { back.vars ≡ visits.now.vars }
    ensures { IfOk result (λ t. t.vars ≡ again.now.vars) }
{
    let mut all = copied(alloc, visits)?;
    merge(&mut all, back)?;
    let mut none = Ended::none();
    let (on, _) = split(alloc, e, leaving(alloc, closed, all)?, &mut none)?;
    rest_of(alloc, again, &on)
}
