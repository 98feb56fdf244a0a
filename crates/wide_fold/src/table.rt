// A table of states, each once, with its weight in a wide fraction.

ghost use Rattle.std.specs.Prelude.{◌≡◌, [], ◌∷◌, length, All, OnOk, OnErr, IfOk};
ghost use Rattle.std.specs.BTreeMap.{keys};
ghost use Rattle.std.proofs.Props.{props};
ghost use Rattle.gcl_core.specs.meaning.Outcomes.{zeros};
ghost use Rattle.mass_fold.specs.inner.Amounts.{PutGives, order};
ghost use Rattle.exact_fold.specs.inner.Turning.{Alone};
ghost use Rattle.wide_fold.specs.inner.Adding.{SumsAt, IsAdded};

use crate::error::WideFoldError;
use crate::widened::sum;
use mass_fold::State;
use std::alloc::Global;
use std::collections::BTreeMap;
use wide_numbers::{Wide, WideFraction};

/// States of `vars` variables, each once, with its weight.
#[derive(Drop)]
pub struct WideTable {
    /// How many variables each state has.
    pub vars: u32,
    /// The weight of each state.
    pub states: BTreeMap<State, WideFraction>,
    ghost sized: { All (λ s. length s ≡ vars) (keys states) } by { Prim.hlevel props },
}

fn one(alloc: Global) -> Result<WideFraction, WideFoldError>
    ensures { IfOk result (λ f. f ≡ (1, 1)) }
{
    let num = Wide::of(alloc, 1)?;
    let den = Wide::of(alloc, 1)?;
    Ok(WideFraction::of(alloc, &num, &den)?)
}

// What the state weighs once f is added.
fn weight_with(
    alloc: Global,
    states: &BTreeMap<State, WideFraction>,
    state: &State,
    f: WideFraction,
) -> Result<WideFraction, WideFoldError>
    ensures { IfOk result (SumsAt order states.now.entries state.now f) }
{
    match states.get(state) {
        Some(old) => sum(alloc, old, &f),
        None => Ok(f),
    }
}

// Adds the weight of a state.
fn put(
    alloc: Global,
    states: &mut BTreeMap<State, WideFraction>,
    state: State,
    f: WideFraction,
) -> Result<(), WideFoldError>
    ensures ok { OnOk result (IsAdded order states.old.entries states.new.entries state f) }
    ensures same { OnErr result (states.new.entries ≡ states.old.entries) }
{
    let weight = weight_with(alloc, states, &state, f)?;
    states.insert(state, weight)?;
    Ok(())
}

impl WideTable {
    /// No states yet, of `vars` variables.
    pub fn new(alloc: Global, vars: u32) -> WideTable
        ensures vars { result.vars ≡ vars }
        ensures empty { result.states.entries ≡ [] }
    {
        WideTable {
            vars,
            states: BTreeMap::new(alloc),
        }
    }

    /// One state, of `vars` variables that are 0, with the weight 1.
    pub fn start(alloc: Global, vars: u32) -> Result<WideTable, WideFoldError>
        ensures one { IfOk result (λ t. t.states.entries ≡ (zeros vars, (1, 1)) ∷ []) }
        ensures vars { IfOk result (λ t. t.vars ≡ vars) }
    {
        let mut states = BTreeMap::new(alloc);
        let zeros = State::zeros(alloc, vars)?;
        let weight = one(alloc)?;
        states.insert(zeros, weight)?;
        Ok(WideTable { vars, states })
    }

    /// One state, with the weight 1.
    pub fn alone(alloc: Global, vars: u32, state: &State) -> Result<WideTable, WideFoldError>
        requires { length state.now ≡ vars }
        ensures one { IfOk result (λ t. Alone state.now t.states.entries) }
        ensures vars { IfOk result (λ t. t.vars ≡ vars) }
    {
        let mut table = WideTable::new(alloc, vars);
        table.put(alloc, state.copy(alloc)?, one(alloc)?)?;
        Ok(table)
    }

    /// Adds the weight of a state.
    pub fn put(&mut self, alloc: Global, state: State, f: WideFraction) -> Result<(), WideFoldError>
        requires { length state ≡ self.old.vars }
        ensures ok { OnOk result (PutGives self.old.states.entries self.new.states.entries state f) }
        ensures vars { self.new.vars ≡ self.old.vars }
    {
        put(alloc, &mut self.states, state, f)
    }
}
