// Where turns lead with weights of any width. Nothing is promised of it.

use crate::error::VisitsError;
use crate::weight::Weight;
use std::alloc::Global;
use std::collections::{BTreeMap, BTreeSet};
use visit_finder::{Moduli, Residues, left, solved};
use wide_numbers::WideFraction;

/// Where one turn leads from each state of a loop on which its guard holds.
#[derive(Drop)]
pub struct WideTurns {
    parts: Vec<(u64, u64, Weight)>,
}

// How often other primes are tried where one divides a denominator.
const TRIES: usize = 8;

impl WideTurns {
    pub fn none(alloc: Global) -> WideTurns {
        WideTurns {
            parts: Vec::new(alloc),
        }
    }

    pub fn is_empty(&self) -> bool {
        self.parts.is_empty()
    }

    /// One turn leads from one state to another with this weight.
    pub fn lead(
        &mut self,
        alloc: Global,
        from: u64,
        to: u64,
        weight: &WideFraction,
    ) -> Result<(), VisitsError> {
        self.parts.push((from, to, Weight::of(alloc, weight)?))?;
        Ok(())
    }

    // From which states a turn leads to each.
    fn sources(&self, alloc: Global) -> Result<BTreeMap<u64, Vec<u64>>, VisitsError> {
        let mut sources: BTreeMap<u64, Vec<u64>> = BTreeMap::new(alloc);
        for (from, to, _) in &self.parts {
            let mut list = match sources.remove(to) {
                Some(list) => list,
                None => Vec::new(alloc),
            };
            list.push(*from)?;
            sources.insert(*to, list)?;
        }
        Ok(sources)
    }

    // With how much of its weight a turn from each state leads on, at some primes.
    fn sums(
        &self,
        alloc: Global,
        moduli: &mut Moduli,
    ) -> Result<BTreeMap<u64, Residues>, VisitsError> {
        let mut sums = BTreeMap::new(alloc);
        for (from, _, weight) in &self.parts {
            let part = weight.at(moduli);
            let sum = match sums.get(from) {
                Some(old) => moduli.sum(old, &part),
                None => part,
            };
            sums.insert(*from, sum)?;
        }
        Ok(sums)
    }

    // The states from which a turn leads on with all weight, as far as primes above a number tell.
    fn whole(&self, alloc: Global, above: u64) -> Result<BTreeSet<u64>, VisitsError> {
        let mut last = above;
        for _ in 0..TRIES {
            let mut moduli = Moduli::above(last).ok_or(VisitsError::TooWide)?;
            last = moduli.primes()[4].p;
            let sums = self.sums(alloc, &mut moduli)?;
            if moduli.hold() {
                let one = moduli.of_number(1).forms();
                let mut whole = BTreeSet::new(alloc);
                for (number, sum) in &sums {
                    if sum.forms() == one {
                        whole.insert(*number)?;
                    }
                }
                return Ok(whole);
            }
        }
        Err(VisitsError::TooWide)
    }

    /// The states below `states` from which the loop is left with some weight, as far as primes above a number tell.
    pub fn leaving(
        &self,
        alloc: Global,
        states: u64,
        above: u64,
    ) -> Result<BTreeMap<u64, bool>, VisitsError> {
        let whole = self.whole(alloc, above)?;
        Ok(left(alloc, states, &whole, self.sources(alloc)?)?)
    }

    /// The visits of the states that may be left, by number, at these moduli, where the loop is entered with these weights.
    pub fn visits_at(
        &self,
        alloc: Global,
        moduli: &mut Moduli,
        entered: BTreeMap<u64, Residues>,
        leaving: &BTreeMap<u64, bool>,
    ) -> Result<BTreeMap<u64, Residues>, VisitsError> {
        let mut parts = BTreeMap::new(alloc);
        for (from, to, weight) in &self.parts {
            if leaving.contains_key(from) && leaving.contains_key(to) {
                parts.insert((*from, *to), weight.at(moduli))?;
            }
        }
        let mut states = Vec::new(alloc);
        for (number, _) in leaving {
            states.push(*number)?;
        }
        Ok(solved(alloc, moduli, entered, &parts, &states)?)
    }
}
