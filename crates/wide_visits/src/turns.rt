// The visits of a loop. Nothing is promised of them.

use crate::error::VisitsError;
use crate::places::{Places, is_at, sum_at};
use crate::weight::Weight;
use crate::wide_turns::WideTurns;
use numbers::Frac;
use std::alloc::Global;
use std::collections::BTreeMap;
use visit_finder::{Moduli, Residues};
use wide_numbers::WideFraction;

/// With which weights a loop is entered, and where one turn leads from each of its states on which the guard holds. States are
/// told by numbers.
#[derive(Drop)]
pub struct Turns {
    entered: Vec<(u64, Weight)>,
    narrow: visit_finder::Turns,
    wide: WideTurns,
    parts: u64,
}

/// The visits of states, by number, and about how many steps it took to find them, as on words.
#[derive(Drop)]
pub struct Visits {
    pub visits: BTreeMap<u64, WideFraction>,
    pub steps: u64,
}

// About how many steps are taken for an entry of a row that another replaces, for a part of a turn at five primes, and for a step of a
// division.
const ENTRY: u64 = 32;

const PART: u64 = 1024;

const DIVISION: u64 = 8;

// So many times as many, as far as that is less than 2^64.
fn times(one: u64, other: u64) -> u64 {
    one.saturating_mul(other)
}

// How often five primes are tried: a sum of visits has two parts of 4,096 bits and a little more at most, which 27 times five primes
// tell, and one more time shows that they do.
const TRIES: usize = 30;

// The primes lie above this number.
const START: u64 = (1 << 62) + 1;

impl Turns {
    pub fn none(alloc: Global) -> Turns {
        Turns {
            entered: Vec::new(alloc),
            narrow: visit_finder::Turns::none(alloc),
            wide: WideTurns::none(alloc),
            parts: 0,
        }
    }

    /// The loop is entered in the state with this weight.
    pub fn enter(
        &mut self,
        alloc: Global,
        state: u64,
        weight: &WideFraction,
    ) -> Result<(), VisitsError> {
        self.entered.push((state, Weight::of(alloc, weight)?))?;
        Ok(())
    }

    /// One turn leads from one state to another with this weight.
    pub fn lead(&mut self, from: u64, to: u64, weight: &Frac) -> Result<(), VisitsError> {
        self.narrow.lead(from, to, *weight)?;
        self.parts = self.parts.saturating_add(1);
        Ok(())
    }

    /// The same, with a weight of any width. What was told by [`lead`](Turns::lead) counts no more then.
    pub fn lead_on(
        &mut self,
        alloc: Global,
        from: u64,
        to: u64,
        weight: &WideFraction,
    ) -> Result<(), VisitsError> {
        self.wide.lead(alloc, from, to, weight)?;
        self.parts = self.parts.saturating_add(1);
        Ok(())
    }

    // The states below `states` from which the loop is left with some weight.
    fn leaving(&self, alloc: Global, states: u64) -> Result<BTreeMap<u64, bool>, VisitsError> {
        if self.wide.is_empty() {
            return Ok(self.narrow.leaving(alloc, states)?);
        }
        self.wide.leaving(alloc, states, START)
    }

    // The visits of the states that may be left, at some primes.
    fn visits_at(
        &self,
        alloc: Global,
        moduli: &mut Moduli,
        leaving: &BTreeMap<u64, bool>,
    ) -> Result<BTreeMap<u64, Residues>, VisitsError> {
        let entered = self.entered_at(alloc, moduli, leaving)?;
        if self.wide.is_empty() {
            return Ok(self.narrow.visits_at(alloc, moduli, entered, leaving)?);
        }
        self.wide.visits_at(alloc, moduli, entered, leaving)
    }

    // The weights with which the loop is entered in states that may be left, at some primes.
    fn entered_at(
        &self,
        alloc: Global,
        moduli: &mut Moduli,
        leaving: &BTreeMap<u64, bool>,
    ) -> Result<BTreeMap<u64, Residues>, VisitsError> {
        let mut entered = BTreeMap::new(alloc);
        for (state, weight) in &self.entered {
            if leaving.contains_key(state) {
                entered.insert(*state, weight.at(moduli))?;
            }
        }
        Ok(entered)
    }

    // About how many steps a round takes: an elimination replaces an entry in the row of each state that leads to its state by all that
    // this leads to, of which there are as many as on average.
    fn round(&self, states: u64) -> u64 {
        let parts = self.parts;
        let replaced = times(parts, parts) / states.max(1);
        times(PART, parts.saturating_add(states)).saturating_add(times(ENTRY, replaced))
    }

    // About how many steps it takes to tell so many numbers at so many primes.
    fn telling(primes: u64, numbers: u64) -> u64 {
        times(times(primes, primes), times(DIVISION, numbers))
    }

    /// The visits of the states below `states` from which the loop may be left, by number. The others are never left. More primes
    /// are taken until five of them find what those before have told; where one divides what is divided by, its five are left out.
    /// `TooWide` comes, too, where it would take more than about `most` steps.
    pub fn visits(&self, alloc: Global, states: u64, most: u64) -> Result<Visits, VisitsError> {
        let leaving = self.leaving(alloc, states)?;
        let mut places = Places::none(alloc);
        let mut told = None;
        let mut last = START;
        let mut steps = 0u64;
        for _ in 0..TRIES {
            let mut moduli = Moduli::above(last).ok_or(VisitsError::TooWide)?;
            last = moduli.primes()[4].p;
            steps = steps.saturating_add(self.round(states));
            if steps.saturating_add(Turns::telling(places.primes(), states)) > most {
                return Err(VisitsError::TooWide);
            }
            let visits = self.visits_at(alloc, &mut moduli, &leaving)?;
            if moduli.hold() {
                let sum = sum_at(&moduli, &visits);
                places.add(alloc, &moduli, visits, &sum)?;
                if let Some(ratio) = &told {
                    if is_at(ratio, &moduli, &sum) {
                        steps = steps.saturating_add(Turns::telling(places.primes(), states));
                        let visits = places.over(alloc, &ratio.den)?;
                        return Ok(Visits { visits, steps });
                    }
                }
                steps = steps.saturating_add(Turns::telling(places.primes(), 1));
                told = places.sum(alloc)?;
            }
        }
        Err(VisitsError::TooWide)
    }
}
