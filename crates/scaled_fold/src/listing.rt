// The rows of bounds over the outcomes of a round.

ghost use Rattle.std.specs.Prelude.{◌≡◌, ◌≤◌, ◌+◌, ◌++◌, [], IfOk, OnOk};
ghost use Rattle.units_law.specs.Units.{total};
ghost use Rattle.scaled_law.specs.Pairs.{added, at_least, at_most};
ghost use Rattle.scaled_fold.specs.inner.Listing.{counted_at, aside_at, counted, set_aside, with_row, kept_at, rows_by, kept_by, bounds_at};

use crate::bounding::Whole;
use crate::error::PairsError;
use crate::pair::{added, sum};
use gcl_core::{Limit, Outcome};
use numbers::Frac;
use std::alloc::Global;
use std::collections::BTreeMap;

// The units of an outcome, where it counts, and what stands aside.
fn sides(all_turns: bool, x: &Outcome, w: (u128, u128)) -> ((u128, u128), u128)
    ensures { result ≡ (counted_at all_turns x.now w, aside_at all_turns x.now w) }
{
    match x {
        Outcome::Limit(Limit::Turns) => { if all_turns { ((0, 0), w.1) } else { (w, 0) } }
        Outcome::Limit(Limit::Attempts | Limit::Rounds) | Outcome::Value(_) | Outcome::Fault(_) => (
            w, 0,
        ),
    }
}

/// What all outcomes that count have, and what belongs to none: what is loose, and what stands aside.
pub fn whole_of(
    units: &BTreeMap<Outcome, (u128, u128)>,
    loose: u128,
    all_turns: bool,
) -> Result<Whole, PairsError>
    ensures least { IfOk result (λ t. t.least ≡ total (at_least (counted all_turns units.now.entries))) }
    ensures most { IfOk result (λ t. t.most ≡ total (at_most (counted all_turns units.now.entries))) }
    ensures rest { IfOk result (λ t. t.rest ≡ loose + set_aside all_turns units.now.entries) }
{
    let mut all = (0, 0);
    let mut rest = loose;
    for (x, w) in units {
        let (counts, aside) = sides(all_turns, x, *w);
        all = added(all, counts)?;
        rest = sum(rest, aside)?;
    }
    Ok(Whole {
        least: all.0,
        most: all.1,
        rest,
    })
}

// Adds the row of an outcome, where it has bounds, and answers the units of those that have a row.
fn add_row(
    rows: &mut Vec<(Outcome, Frac, Frac)>,
    kept: (u128, u128),
    x: Outcome,
    w: (u128, u128),
    bounds: Option<(Frac, Frac)>,
) -> Result<(u128, u128), PairsError>
    ensures rows { OnOk result (rows.new.items ≡ rows.old.items ++ with_row x bounds []) }
    ensures kept { IfOk result (λ v. v ≡ added kept (kept_at bounds w)) }
{
    match bounds {
        Some((low, high)) => {
            rows.push((x, low, high))?;
            added(kept, w)
        }
        None => Ok(kept),
    }
}

/// The rows of the outcomes that have a part of 2^-120 at least once each lower bound is by `spare` parts less than what the units tell, and the
/// units of all of them.
pub fn listed(
    alloc: Global,
    whole: Whole,
    spare: u128,
    all_turns: bool,
    units: BTreeMap<Outcome, (u128, u128)>,
) -> Result<(Vec<(Outcome, Frac, Frac)>, (u128, u128)), PairsError>
    requires least { total (at_least (counted all_turns units.entries)) ≡ whole.least }
    requires most { total (at_most (counted all_turns units.entries)) ≡ whole.most }
    ensures rows { IfOk result (λ t. t.0.items ≡ rows_by (bounds_at whole.least whole.most whole.rest spare) (counted all_turns units.entries)) }
    ensures kept { IfOk result (λ t. t.1 ≡ kept_by (bounds_at whole.least whole.most whole.rest spare) (counted all_turns units.entries)) }
{
    let mut rows = Vec::new(alloc);
    let mut kept = (0, 0);
    for (x, w) in units {
        let (counts, _) = sides(all_turns, &x, w);
        let bounds = whole.bounds(spare, counts)?;
        kept = add_row(&mut rows, kept, x, counts, bounds)?;
    }
    Ok((rows, kept))
}
