//! Weights that a roll may have.
ghost use Rattle.std.specs.Prelude.{◌≡◌, ◌<◌, ◌≤◌, MatchOption, length, nat_lt};
ghost use Rattle.std.specs.List.{All, sum, list_all};
ghost use Rattle.weighted_roll.specs.declared.rules.TheConstants as rule;
ghost use Rattle.weighted_roll.specs.Weights.{AreWeights, are_weights};

use crate::rules::{GREATEST_SUM, MOST_LABELS};

// The sum, where it is not too great.
fn small_sum(weights: &[u64]) -> Option<u64>
    ensures { MatchOption result (rule.GREATEST_SUM < sum weights.now) (λ s. (s ≡ sum weights.now) × (s ≤ rule.GREATEST_SUM)) }
{
    let mut sum: u64 = 0;
    for a in weights {
        if *a > GREATEST_SUM - sum {
            return None;
        }
        sum += *a;
    }
    Some(sum)
}

// Whether each number is below a bound.
fn all_below(weights: &[u64], whole: u64) -> bool
    ensures { result ≡ list_all (λ a. nat_lt a whole) weights.now }
{
    weights.iter().all(|a| *a < whole)
}

/// Whether a roll may have these weights: at most 2^32, of a sum from 1 to 2^62, and none of them the whole sum.
pub fn are_weights(weights: &[u64]) -> bool
    ensures { result ≡ are_weights weights.now }
{
    match small_sum(weights) {
        None => false,
        Some(whole) => weights.len() <= MOST_LABELS && whole > 0 && all_below(weights, whole),
    }
}

// It does nothing: its clauses say what weights that a roll may have are.
pub(crate) fn weights_are_small(weights: &[u64])
    requires { AreWeights weights.now }
    ensures few { length weights.now ≤ rule.MOST_LABELS }
    ensures below { All (λ a. a < sum weights.now) weights.now }
    ensures some { 0 < sum weights.now }
    ensures small { sum weights.now ≤ rule.GREATEST_SUM }
{}
