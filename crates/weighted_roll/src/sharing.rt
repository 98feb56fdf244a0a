//! What the labels of a roll weigh within some flips, and how many flips it makes on average.
ghost use Rattle.std.specs.Prelude.{◌≡◌, ◌<◌, ◌≤◌, ◌*◌, ◌/◌, ◌^◌, length, option_map, IfOk, MatchOption};
ghost use Rattle.std.specs.List.{sum};
ghost use Rattle.dice_roll.specs.declared.rules.TheConstants as dice_rule;
ghost use Rattle.weighted_roll.specs.declared.rules.TheConstants as rule;
ghost use Rattle.numbers.specs.Fraction.{lowest};
ghost use Rattle.weighted_roll.specs.Rollers.{undecided};
ghost use Rattle.weighted_roll.specs.Shares.{all_flips, share_of, shares_of, values_below};
ghost use Rattle.weighted_roll.specs.WeightedRoll.{weighted};
ghost use Rattle.weighted_roll.specs.Weights.{AreWeights};

use crate::rolling::sum_of;
use crate::weights::weights_are_small;
use dice_roll::MOST_WEIGHED_FLIPS;
use numbers::Frac;
use std::alloc::{AllocError, Global};

/// What labels weigh within some flips, and how many flips a roll makes on average, as fractions in lowest terms.
#[derive(Drop)]
pub struct Shares {
    /// The share of each label, in order.
    pub labels: Vec<Frac>,
    /// The share of the strings that have no label yet.
    pub left: Frac,
    /// The expected number of flips, where the limit ends a roll too.
    pub flips: Frac,
}

// How many strings of `flips` bits there are.
fn strings_of(flips: u64) -> u128
    requires { flips ≤ dice_rule.MOST_WEIGHED_FLIPS }
    ensures { result ≡ 2 ^ flips }
{
    1 << flips
}

// Of the strings of `flips` bits, how many give a label of this weight among weights of this sum.
fn strings_given(weight: u64, whole: u64, flips: u64) -> u128
    requires below { weight < whole }
    requires small { whole ≤ rule.GREATEST_SUM }
    requires few { flips ≤ dice_rule.MOST_WEIGHED_FLIPS }
    ensures { result ≡ 2 ^ flips * weight / whole }
{
    let mut given: u128 = 0;
    let mut rest = weight;
    for t in 0..flips {
        let twice = 2 * rest;
        if whole <= twice {
            given = 2 * given + 1;
            rest = twice - whole;
        } else {
            given *= 2;
            rest = twice;
        }
    }
    given
}

// Of the strings of `flips` bits, how many give no label.
fn strings_left(weights: &[u64], whole: u64, flips: u64) -> u128
    requires weights { AreWeights weights.now }
    requires whole { whole ≡ sum weights.now }
    requires few { flips ≤ dice_rule.MOST_WEIGHED_FLIPS }
    ensures { result ≡ undecided (weighted weights.now) flips }
{
    weights_are_small(weights);
    let mut left = strings_of(flips);
    for weight in weights {
        left -= strings_given(*weight, whole, flips);
    }
    left
}

// Half of the flips of rolls of at most `flips` flips, added over the strings of `flips` bits. `None` comes exactly where that is
// 2^128 or more.
fn half_of_flips(weights: &[u64], whole: u64, flips: u64) -> Option<u128>
    requires weights { AreWeights weights.now }
    requires whole { whole ≡ sum weights.now }
    requires few { flips ≤ dice_rule.MOST_WEIGHED_FLIPS }
    ensures { MatchOption result (2 ^ 129 ≤ all_flips weights.now flips) (λ half. 2 * half ≡ all_flips weights.now flips) }
{
    let mut half: u128 = 0;
    for t in 0..flips {
        half = half
            .checked_mul(2)?
            .checked_add(strings_left(weights, whole, t))?;
    }
    Some(half)
}

// Half of the flips over half of the strings.
fn over_strings(half: u128, flips: u64) -> Frac
    requires few { flips ≤ dice_rule.MOST_WEIGHED_FLIPS }
    requires none { flips ≡ 0 → half ≡ 0 }
    ensures { result ≡ lowest (2 * half, 2 ^ flips) }
{
    if flips == 0 {
        return Frac::of(0, 1);
    }
    Frac::of(half, strings_of(flips - 1))
}

fn label_shares(
    alloc: Global,
    weights: &[u64],
    whole: u64,
    flips: u64,
) -> Result<Vec<Frac>, AllocError>
    requires weights { AreWeights weights.now }
    requires whole { whole ≡ sum weights.now }
    requires few { flips ≤ dice_rule.MOST_WEIGHED_FLIPS }
    ensures { IfOk result (λ v. v.items ≡ values_below (share_of weights.now flips) (length weights.now)) }
{
    weights_are_small(weights);
    let strings = strings_of(flips);
    let mut shares = Vec::new(alloc);
    for weight in weights {
        shares.push(Frac::of(strings_given(*weight, whole, flips), strings))?;
    }
    Ok(shares)
}

/// What the labels of a roll by these weights weigh within `flips` flips, and how many flips it makes on average. `None` comes
/// exactly where the fractions are too wide: within more flips than [`MOST_WEIGHED_FLIPS`], or where half of the flips, added
/// over the strings of so many bits, is 2^128 or more. It takes memory for a fraction a label, and errs only where that runs out.
pub fn weigh_labels(
    alloc: Global,
    weights: &[u64],
    flips: u64,
) -> Result<Option<Shares>, AllocError>
    requires { AreWeights weights.now }
    ensures { IfOk result (λ o. option_map (λ s. (s.labels.items, s.left, s.flips)) o ≡ shares_of weights.now flips) }
{
    if flips > MOST_WEIGHED_FLIPS {
        return Ok(None);
    }
    weights_are_small(weights);
    let whole = sum_of(weights);
    match half_of_flips(weights, whole, flips) {
        None => Ok(None),
        Some(half) => Ok(Some(Shares {
            labels: label_shares(alloc, weights, whole, flips)?,
            left: Frac::of(strings_left(weights, whole, flips), strings_of(flips)),
            flips: over_strings(half, flips),
        })),
    }
}
