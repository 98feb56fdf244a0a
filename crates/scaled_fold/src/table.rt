// A table of states, each once, with its units at least and at most.

ghost use Rattle.std.specs.Prelude.{◌≡◌, [], ◌∷◌, length, All, IfOk, OnOk};
ghost use Rattle.std.specs.BTreeMap.{keys};
ghost use Rattle.std.proofs.Props.{props};
ghost use Rattle.numbers.specs.declared.units.TheConstants.{ALL};
ghost use Rattle.gcl_core.specs.meaning.Outcomes.{zeros};
ghost use Rattle.scaled_law.specs.Pairs.{put_pair};

use crate::error::PairsError;
use crate::sums::sum_at;
use mass_fold::{MOST_STATES, State};
use numbers::ALL;
use std::alloc::Global;
use std::collections::BTreeMap;

/// States of `vars` variables, each once, with its units at least and at most.
#[derive(Drop)]
pub struct Table {
    /// How many variables each state has.
    pub vars: u32,
    /// The units of each state.
    pub states: BTreeMap<State, (u128, u128)>,
    ghost sized: { All (λ s. length s ≡ vars) (keys states) } by { Prim.hlevel props },
}

// Adds units of a state; nothing, where it gets none at most.
fn put(
    states: &mut BTreeMap<State, (u128, u128)>,
    s: State,
    w: (u128, u128),
) -> Result<(), PairsError>
    ensures { OnOk result (states.new.entries ≡ put_pair states.old.entries s w.0 w.1) }
{
    if w.1 == 0 {
        return Ok(());
    }
    if states.len() >= MOST_STATES && states.get(&s).is_none() {
        return Err(PairsError::TooManyStates);
    }
    let sum = sum_at(states, &s, w)?;
    states.insert(s, sum)?;
    Ok(())
}

impl Table {
    /// No states yet, of `vars` variables.
    pub fn new(alloc: Global, vars: u32) -> Table
        ensures vars { result.vars ≡ vars }
        ensures empty { result.states.entries ≡ [] }
    {
        Table {
            vars,
            states: BTreeMap::new(alloc),
        }
    }

    /// One state, of `vars` variables that are 0, with all units.
    pub fn start(alloc: Global, vars: u32) -> Result<Table, PairsError>
        ensures one { IfOk result (λ t. t.states.entries ≡ (zeros vars, (ALL, ALL)) ∷ []) }
        ensures vars { IfOk result (λ t. t.vars ≡ vars) }
    {
        let mut states = BTreeMap::new(alloc);
        let zeros = State::zeros(alloc, vars)?;
        states.insert(zeros, (ALL, ALL))?;
        Ok(Table { vars, states })
    }

    /// With more units of a state.
    pub fn put(self, s: State, w: (u128, u128)) -> Result<Table, PairsError>
        requires sized { length s ≡ self.vars }
        ensures ok { IfOk result (λ t. t.states.entries ≡ put_pair self.states.entries s w.0 w.1) }
        ensures vars { IfOk result (λ t. t.vars ≡ self.vars) }
    {
        let vars = self.vars;
        let mut states = self.states;
        put(&mut states, s, w)?;
        Ok(Table { vars, states })
    }
}
