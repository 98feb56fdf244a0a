// Where the turns of a loop lead, and how often each state is expected to be visited.

ghost use Rattle.std.specs.Prelude.{◌≡◌, ◌≢◌, ◌<◌, ℕ, false, [], ◌∷◌, ◌++◌, length, map, Contains, OnOk, IfOk, IfErr};
ghost use Rattle.std.specs.BTreeMap.{keys};
ghost use Rattle.std.specs.Ordering.{nat_cmp};
ghost use Rattle.visit_finder.specs.declared.error.FinderError.TheVariants.{NoneNarrow, OutOfMemory};
ghost use Rattle.visit_finder.specs.declared.residues.Residues.{Residues as residues};
ghost use Rattle.visit_finder.specs.Places.{modulus, is_lost, AreForms, AreOver, Loses};
ghost use Rattle.visit_finder.specs.Multiples.{AreVisits};
ghost use Rattle.visit_finder.specs.Exact.{is_in, AreClosed, AreOnly, HaveNone};
ghost use Rattle.visit_finder.specs.Sources.{HaveTurns, AreClosedUnder};
ghost use Rattle.visit_finder.specs.inner.Adding.{ends_order, AreAdded, AreOverOne};
ghost use Rattle.visit_finder.specs.inner.Fractions.{AreFractions, SomeHasNone};
ghost use Rattle.visit_finder.specs.inner.Parts.{AreParts, AreBegun};

use crate::error::FinderError;
use crate::primes::PRIMES;
use crate::residues::{Moduli, Residues};
use crate::solving::solved;
use numbers::Frac;
use std::alloc::Global;
use std::collections::btree_map::Entry;
use std::collections::{BTreeMap, BTreeSet};
use std::marker::Model;

/// Where one turn leads from each state of a loop on which its guard holds. States are told by numbers.
///
/// A contract sees the list of the turns.
#[derive(Drop)]
pub struct Turns {
    parts: Vec<(u64, u64, Frac)>,
}

impl Model for Turns {
    ghost use Rattle.std.specs.Prelude.{List};
    ghost use Rattle.visit_finder.specs.Exact.{Turn};

    ghost Value = { List Turn };

    ghost view = { λ t. t.parts.items };
}

// The part is added to what a turn leads from one state to another already.
fn add_part(
    moduli: &Moduli,
    parts: &mut BTreeMap<(u64, u64), Residues>,
    ends: (u64, u64),
    part: &Residues,
) -> Result<(), FinderError>
    ensures ok { OnOk result (AreAdded ends_order moduli.now parts.old.entries parts.new.entries ends part.now) }
    ensures cause { IfErr result (λ e. e ≡ OutOfMemory) }
{
    match parts.entry(ends)? {
        Entry::Occupied(mut at) => {
            let sum = moduli.sum(at.get(), part);
            at.insert(sum);
        }
        Entry::Vacant(at) => {
            at.insert(*part);
        }
    }
    Ok(())
}

// The part is added to what the loop is entered with in a state already.
fn add_entry(
    moduli: &Moduli,
    begun: &mut BTreeMap<u64, Residues>,
    number: u64,
    part: &Residues,
) -> Result<(), FinderError>
    ensures ok { OnOk result (AreAdded nat_cmp moduli.now begun.old.entries begun.new.entries number part.now) }
    ensures cause { IfErr result (λ e. e ≡ OutOfMemory) }
{
    match begun.entry(number)? {
        Entry::Occupied(mut at) => {
            let sum = moduli.sum(at.get(), part);
            at.insert(sum);
        }
        Entry::Vacant(at) => {
            at.insert(*part);
        }
    }
    Ok(())
}

// Whether a state is one of those that may be left.
fn may_leave(leaving: &BTreeMap<u64, bool>, number: u64) -> bool
    ensures { result ≡ is_in (map (λ e. e.0) leaving.now.entries) number }
{
    leaving.contains_key(&number)
}

// The states that may be left.
fn numbers(alloc: Global, leaving: &BTreeMap<u64, bool>) -> Result<Vec<u64>, FinderError>
    ensures states { IfOk result (λ states. states.items ≡ map (λ e. e.0) leaving.now.entries) }
    ensures cause { IfErr result (λ e. e ≡ OutOfMemory) }
{
    let mut states = Vec::new(alloc);
    for (number, _) in leaving {
        states.push(*number)?;
    }
    Ok(states)
}

// 1 over a denominator.
fn over_of(moduli: &mut Moduli, den: u128) -> Residues
    ensures loses { Loses moduli.old moduli.new }
    ensures over { AreOverOne moduli.new result den }
{
    let below = moduli.of_number(den);
    moduli.inverse(&below)
}

// 1 over the next denominator, which may be the one before.
fn keep_over(moduli: &mut Moduli, over: &mut Residues, before: u128, next: u128)
    ensures loses { Loses moduli.old moduli.new }
    ensures over { AreOverOne moduli.old over.old before → AreOverOne moduli.new over.new next }
{
    if next != before {
        *over = over_of(moduli, next);
    }
}

// A numerator over what the other is 1 over.
fn times_over(moduli: &Moduli, num: u128, over: &Residues) -> Residues
    ensures forms { AreForms moduli.now over.now → AreForms moduli.now result }
    ensures fraction { (place den : ℕ) → place < 5 → AreOver moduli.now place over.now 1 den → AreOver moduli.now place result num den }
{
    moduli.product(&moduli.of_number(num), over)
}

// The fractions with these remainders, of states that may be left.
fn fractions(
    alloc: Global,
    moduli: &Moduli,
    leaving: &BTreeMap<u64, bool>,
    visits: &BTreeMap<u64, Residues>,
) -> Result<BTreeMap<u64, Frac>, FinderError>
    ensures places { length moduli.now.primes ≡ 5 }
    ensures fractions { IfOk result (λ found. AreFractions moduli.now (map (λ e. e.0) leaving.now.entries) visits.now.entries found.entries) }
    ensures none { IfErr result (λ e. e ≡ NoneNarrow → SomeHasNone moduli.now (map (λ e. e.0) leaving.now.entries) visits.now.entries) }
{
    let mut fractions = BTreeMap::new(alloc);
    for (number, part) in visits {
        if may_leave(leaving, *number) {
            let Some(fraction) = moduli.fraction(part) else {
                return Err(FinderError::NoneNarrow);
            };
            fractions.insert(*number, fraction)?;
        }
    }
    Ok(fractions)
}

/// The states below `states` from which a loop is left with some weight: those that are not `whole`, from which a turn leads on with
/// all weight, and those from which a turn leads to one of them; `sources` says from which one leads to each.
pub fn left(
    alloc: Global,
    states: u64,
    whole: &BTreeSet<u64>,
    sources: BTreeMap<u64, Vec<u64>>,
) -> Result<BTreeMap<u64, bool>, FinderError>
    ensures closed { IfOk result (λ leaving. AreClosedUnder (keys leaving) sources.entries) }
    ensures cause { IfErr result (λ e. e ≢ NoneNarrow) }
{
    let mut sources = sources;
    let mut leaving = BTreeMap::new(alloc);
    let mut waiting = Vec::new(alloc);
    for number in 0..states {
        if !whole.contains(&number) {
            leaving.insert(number, true)?;
            waiting.push(number)?;
        }
    }
    while let Some(to) = waiting.pop() {
        if let Some(list) = sources.remove(&to) {
            for from in &list {
                if !leaving.contains_key(from) {
                    leaving.insert(*from, true)?;
                    waiting.push(*from)?;
                }
            }
        }
    }
    Ok(leaving)
}

impl Turns {
    pub fn none(alloc: Global) -> Turns
        ensures { result ≡ [] }
    {
        Turns {
            parts: Vec::new(alloc),
        }
    }

    /// One turn leads from one state to another with this weight.
    pub fn lead(&mut self, from: u64, to: u64, weight: Frac) -> Result<(), FinderError>
        ensures { OnOk result (self.new ≡ self.old ++ (from, to, weight) ∷ []) }
    {
        self.parts.push((from, to, weight))?;
        Ok(())
    }

    // With how much of its weight a turn from each state leads on, and from which states one leads to each.
    fn sums_and_sources(
        &self,
        alloc: Global,
    ) -> Result<(BTreeMap<u64, Frac>, BTreeMap<u64, Vec<u64>>), FinderError>
        ensures turns { IfOk result (λ made. HaveTurns made.1.entries self.now) }
        ensures cause { IfErr result (λ e. e ≢ NoneNarrow) }
    {
        let mut sums = BTreeMap::new(alloc);
        let mut sources: BTreeMap<u64, Vec<u64>> = BTreeMap::new(alloc);
        for (from, to, weight) in &self.parts {
            let sum = match sums.get(from) {
                Some(old) => weight.add(old).ok_or(FinderError::TooWide)?,
                None => *weight,
            };
            sums.insert(*from, sum)?;
            let mut list = match sources.remove(to) {
                Some(list) => list,
                None => Vec::new(alloc),
            };
            list.push(*from)?;
            sources.insert(*to, list)?;
        }
        Ok((sums, sources))
    }

    /// The states from which the loop is left with some weight: those from which a turn leads on with less than all, and those
    /// from which a turn leads to one of them.
    pub fn leaving(&self, alloc: Global, states: u64) -> Result<BTreeMap<u64, bool>, FinderError>
        ensures closed { IfOk result (λ leaving. AreClosed (map (λ e. e.0) leaving.entries) self.now) }
        ensures cause { IfErr result (λ e. e ≢ NoneNarrow) }
    {
        let (sums, sources) = self.sums_and_sources(alloc)?;
        let mut whole = BTreeSet::new(alloc);
        for (number, sum) in &sums {
            if sum.num() == sum.den() {
                whole.insert(*number)?;
            }
        }
        left(alloc, states, &whole, sources)
    }

    // The part of each turn between states that may be left, at these moduli, where several between the same two states become one.
    // Neighbours often have one denominator, and 1 over it is kept from one to the next.
    fn parts_at(
        &self,
        alloc: Global,
        moduli: &mut Moduli,
        leaving: &BTreeMap<u64, bool>,
    ) -> Result<BTreeMap<(u64, u64), Residues>, FinderError>
        ensures loses { Loses moduli.old moduli.new }
        ensures parts { IfOk result (λ parts. AreParts moduli.new (map (λ e. e.0) leaving.now.entries) self.now parts.entries) }
        ensures cause { IfErr result (λ e. e ≡ OutOfMemory) }
    {
        let mut parts = BTreeMap::new(alloc);
        let mut den = 1;
        let mut over = moduli.of_number(1);
        for (from, to, weight) in &self.parts {
            if may_leave(leaving, *from) && may_leave(leaving, *to) {
                keep_over(moduli, &mut over, den, weight.den());
                den = weight.den();
                let part = times_over(moduli, weight.num(), &over);
                add_part(moduli, &mut parts, (*from, *to), &part)?;
            }
        }
        Ok(parts)
    }

    /// The visits of the states that may be left, by number, at these moduli, where the loop is entered with these weights.
    pub fn visits_at(
        &self,
        alloc: Global,
        moduli: &mut Moduli,
        entered: BTreeMap<u64, Residues>,
        leaving: &BTreeMap<u64, bool>,
    ) -> Result<BTreeMap<u64, Residues>, FinderError>
        ensures loses { Loses moduli.old moduli.new }
        ensures visits { IfOk result (λ found. ((s : ℕ) (r : residues) → Contains entered.entries (s, r) → AreForms moduli.old r) →
            (place : ℕ) → place < 5 → is_lost moduli.new place ≡ false →
            AreVisits (modulus moduli.new place) place (map (λ e. e.0) leaving.now.entries) self.now entered.entries found.entries) }
        ensures cause { IfErr result (λ e. e ≡ OutOfMemory) }
    {
        let parts = self.parts_at(alloc, moduli, leaving)?;
        let states = numbers(alloc, leaving)?;
        solved(alloc, moduli, entered, &parts, &states)
    }

    // The weights with which the loop is entered in states that may be left, at these moduli, where several in one state become one.
    fn entered_at(
        alloc: Global,
        moduli: &mut Moduli,
        entered: &Vec<(u64, Frac)>,
        leaving: &BTreeMap<u64, bool>,
    ) -> Result<BTreeMap<u64, Residues>, FinderError>
        ensures loses { Loses moduli.old moduli.new }
        ensures begun { IfOk result (λ begun. AreBegun moduli.new (map (λ e. e.0) leaving.now.entries) entered.now.items begun.entries) }
        ensures cause { IfErr result (λ e. e ≡ OutOfMemory) }
    {
        let mut begun = BTreeMap::new(alloc);
        for (number, weight) in entered {
            if may_leave(leaving, *number) {
                let over = over_of(moduli, weight.den());
                let part = times_over(moduli, weight.num(), &over);
                add_entry(moduli, &mut begun, *number, &part)?;
            }
        }
        Ok(begun)
    }

    /// The visits of the states below `states` from which the loop may be left, by number, where it is entered with these weights: at moduli
    /// of which none is lost. The others are never left. What is found of a state is the only narrow fraction that its visits can be, and
    /// `NoneNarrow` comes only where those of some state are none.
    pub fn visits(
        &self,
        alloc: Global,
        states: u64,
        entered: &Vec<(u64, Frac)>,
    ) -> Result<BTreeMap<u64, Frac>, FinderError>
        ensures only { IfOk result (λ found. AreOnly self.now entered.now.items found.entries) }
        ensures none { IfErr result (λ e. e ≡ NoneNarrow → HaveNone self.now entered.now.items) }
    {
        let leaving = self.leaving(alloc, states)?;
        let mut moduli = Moduli::first();
        for _ in 0..PRIMES.len() {
            let begun = Turns::entered_at(alloc, &mut moduli, entered, &leaving)?;
            let visits = self.visits_at(alloc, &mut moduli, begun, &leaving)?;
            if moduli.hold() {
                return fractions(alloc, &moduli, &leaving, &visits);
            }
            moduli = moduli.others().ok_or(FinderError::TooFewPrimes)?;
        }
        Err(FinderError::TooFewPrimes)
    }
}
