// A table of states, each once, with its units.

ghost use Rattle.std.specs.Prelude.{◌≡◌, ◌≤◌, ◌<◌, ◌+◌, [], ◌∷◌, length, All, OnOk, OnErr, IfOk, IfErr};
ghost use Rattle.std.specs.BTreeMap.{keys};
ghost use Rattle.std.proofs.Props.{props};
ghost use Rattle.numbers.specs.declared.units.TheConstants.{ALL};
ghost use Rattle.gcl_core.specs.meaning.Outcomes.{zeros};
ghost use Rattle.mass_fold.specs.declared.table.TheConstants.{MOST_STATES};
ghost use Rattle.units_law.specs.Merged.{IsMerged, put};
ghost use Rattle.units_law.specs.Units.{total};
ghost use Rattle.enclose_fold.specs.declared.error.EncloseError.TheVariants.{OutOfMemory};
ghost use Rattle.enclose_fold.specs.inner.Refusals.{Refuses};

use crate::error::EncloseError;
use mass_fold::{MOST_STATES, State};
use numbers::ALL;
use std::alloc::Global;
use std::collections::BTreeMap;
use std::collections::btree_map::Entry;

/// At most as many states of `vars` variables as a table of `mass_fold` has, each once, with its units, which are above 0.
#[derive(Drop)]
pub struct Table {
    /// How many variables each state has.
    pub vars: u32,
    /// The units of each state.
    pub states: BTreeMap<State, u128>,
    ghost sized: { All (λ s. length s ≡ vars) (keys states) } by { Prim.hlevel props },
    ghost once: { IsMerged states.entries } by { Prim.hlevel props },
    ghost few: { length states.entries ≤ MOST_STATES },
}

// Adds units of a state, which is looked for once where there is room for one more.
fn put(states: &mut BTreeMap<State, u128>, s: State, w: u128) -> Result<(), EncloseError>
    requires some { 1 ≤ w }
    requires within { total states.old.entries + w ≤ ALL }
    requires once { IsMerged states.old.entries }
    requires few { length states.old.entries ≤ MOST_STATES }
    ensures ok { OnOk result (states.new.entries ≡ put states.old.entries s w) }
    ensures room { OnOk result (length (put states.old.entries s w) ≤ MOST_STATES) }
    ensures same { OnErr result (states.new.entries ≡ states.old.entries) }
    ensures cause { IfErr result (λ e. Refuses e (length (put states.old.entries s w))) }
{
    if states.len() >= MOST_STATES && states.get(&s).is_none() {
        return Err(EncloseError::TooManyStates);
    }
    match states.entry(s)? {
        Entry::Occupied(mut at) => {
            let sum = *at.get() + w;
            at.insert(sum);
        }
        Entry::Vacant(at) => {
            at.insert(w);
        }
    }
    Ok(())
}

impl Table {
    /// No states yet, of `vars` variables.
    pub fn new(alloc: Global, vars: u32) -> Table
        ensures vars { result.vars ≡ vars }
        ensures empty { result.states.entries ≡ [] }
    {
        Table {
            vars,
            states: BTreeMap::new(alloc),
        }
    }

    /// One state, of `vars` variables that are 0, with all units.
    pub fn start(alloc: Global, vars: u32) -> Result<Table, EncloseError>
        ensures one { IfOk result (λ t. t.states.entries ≡ (zeros vars, ALL) ∷ []) }
        ensures vars { IfOk result (λ t. t.vars ≡ vars) }
        ensures cause { IfErr result (λ e. e ≡ OutOfMemory) }
    {
        let mut states = BTreeMap::new(alloc);
        let zeros = State::zeros(alloc, vars)?;
        states.insert(zeros, ALL)?;
        Ok(Table { vars, states })
    }

    /// Adds units of a state; 0 units add nothing.
    pub fn put(&mut self, s: State, w: u128) -> Result<(), EncloseError>
        requires sized { length s ≡ self.old.vars }
        requires within { total self.old.states.entries + w ≤ ALL }
        ensures ok { OnOk result (self.new.states.entries ≡ put self.old.states.entries s w) }
        ensures vars { self.new.vars ≡ self.old.vars }
        ensures cause { IfErr result (λ e. Refuses e (length (put self.old.states.entries s w))) }
    {
        if w == 0 {
            return Ok(());
        }
        put(&mut self.states, s, w)
    }
}
