//! Weights as a word of a call lists them.
ghost use Rattle.std.specs.Prelude.{◌≡◌, ◌≤◌, ◌<◌, ◌+◌, ◌*◌, ◌^◌, [], option_map, is_some, max, None, ◌&&◌, nat_le, nat_lt, IfOk, IfSome, MatchOption};
ghost use Rattle.weighted_roll.specs.declared.rules.TheConstants as rule;
ghost use Rattle.weighted_roll.specs.Listed.{weight_in, parts_from, weights_in};
ghost use Rattle.weighted_roll.specs.Weights.{AreWeights};
ghost use Rattle.weighted_roll.specs.inner.Sums.{HasSums};

use crate::rules::{GREATEST_SUM, MOST_LISTED};
use crate::weights::are_weights;
use gcl_core::number_in;
use std::alloc::{AllocError, Global};

// The weight that a part of a word is, if it is one.
fn weight_in(part: &str) -> Option<u64>
    ensures weight { result ≡ weight_in part.now }
    ensures small { IfSome result (λ a. a ≤ rule.GREATEST_SUM) }
{
    number_in(0, GREATEST_SUM, part)
}

// The weights of the parts between the commas, if each is one.
fn parts_in(alloc: Global, word: &str) -> Result<Option<Vec<u64>>, AllocError>
    ensures { IfOk result (λ o. option_map (λ v. v.items) o ≡ parts_from [] word.now) }
{
    let mut weights = Vec::new(alloc);
    let mut rest = word;
    'parts: while let Some((part, more)) = rest.split_once(',') {
        match weight_in(part) {
            None => return Ok(None),
            Some(weight) => weights.push(weight)?,
        }
        rest = more;
    }
    match weight_in(rest) {
        None => Ok(None),
        Some(weight) => {
            weights.push(weight)?;
            Ok(Some(weights))
        }
    }
}

// What is known of weights without a list of them: how many they are, their sum, and the greatest.
#[derive(Clone, Copy)]
struct Sums {
    count: usize,
    sum: u128,
    greatest: u64,
}

impl Sums {
    // With one weight more.
    fn with(self, weight: u64) -> Sums
        requires few { self.count < 2 ^ 63 }
        requires small { self.sum ≤ self.count * rule.GREATEST_SUM }
        requires weight { weight ≤ rule.GREATEST_SUM }
        ensures count { result.count ≡ self.count + 1 }
        ensures sum { result.sum ≡ self.sum + weight }
        ensures greatest { result.greatest ≡ max self.greatest weight }
    {
        Sums {
            count: self.count + 1,
            sum: self.sum + u128::from(weight),
            greatest: self.greatest.max(weight),
        }
    }

    // Whether a roll may have the weights, of which a word lists no more.
    #[tactic(auto, using(std::proofs::lemmas::Bool::Decides::nat_tests))]
    fn may_be(self) -> bool
        ensures { result ≡ (nat_le self.count rule.MOST_LISTED && nat_lt self.greatest self.sum && nat_le self.sum rule.GREATEST_SUM) }
    {
        self.count <= MOST_LISTED
            && u128::from(self.greatest) < self.sum
            && self.sum <= u128::from(GREATEST_SUM)
    }
}

// What is known of the weights of the parts between the commas, if each is one. It takes no memory.
fn sums_in(word: &str) -> Option<Sums>
    ensures { MatchOption result (parts_from [] word.now ≡ None) (λ s. HasSums (parts_from [] word.now) s.count s.sum s.greatest) }
{
    let mut sums = Sums {
        count: 0,
        sum: 0,
        greatest: 0,
    };
    let mut rest = word;
    'parts: while let Some((part, more)) = rest.split_once(',') {
        sums = sums.with(weight_in(part)?);
        rest = more;
    }
    Some(sums.with(weight_in(rest)?))
}

/// Whether a word lists weights, as [`weights_in`] reads them. It takes no memory.
pub fn lists_weights(word: &str) -> bool
    ensures { result ≡ is_some (weights_in word.now) }
{
    match sums_in(word) {
        None => false,
        Some(sums) => sums.may_be(),
    }
}

/// The weights that a word lists: at most [`MOST_LISTED`] numbers, as [`number_in`] reads them, with a comma between two,
/// which are weights that a roll may have. `None` comes exactly where the word is no such list. It takes memory for the list, and
/// errs only where that runs out.
pub fn weights_in(alloc: Global, word: &str) -> Result<Option<Vec<u64>>, AllocError>
    ensures list { IfOk result (λ o. option_map (λ v. v.items) o ≡ weights_in word.now) }
    ensures weights { IfOk result (λ o. IfSome o (λ v. AreWeights v.items)) }
{
    match parts_in(alloc, word)? {
        None => Ok(None),
        Some(weights) => {
            if weights.len() <= MOST_LISTED && are_weights(weights.as_slice()) {
                return Ok(Some(weights));
            }
            Ok(None)
        }
    }
}
