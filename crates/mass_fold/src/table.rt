// A table of states, each once, with its weight.

ghost use Rattle.std.specs.Prelude.{◌≡◌, [], ◌∷◌, length, All, OnOk, OnErr, IfOk, IfErr};
ghost use Rattle.std.specs.BTreeMap.{keys};
ghost use Rattle.std.proofs.Props.{props};
ghost use Rattle.gcl_core.specs.meaning.Outcomes.{zeros};
ghost use Rattle.mass_fold.specs.declared.error.MassError.TheVariants.{OutOfMemory};
ghost use Rattle.mass_fold.specs.inner.Amounts.{PutGives, PutBlames, IsPut};

use crate::error::MassError;
use crate::state::State;
use numbers::Frac;
use std::alloc::Global;
use std::collections::BTreeMap;
use std::collections::btree_map::Entry;

/// The most states that a table has. With 256 variables of 8 bytes each, the states of one table take at most 128 MiB.
pub const MOST_STATES: usize = 65_536;

/// States of `vars` variables, each once, with its weight.
#[derive(Drop)]
pub struct Table {
    /// How many variables each state has.
    pub vars: u32,
    /// The weight of each state.
    pub states: BTreeMap<State, Frac>,
    ghost sized: { All (λ s. length s ≡ vars) (keys states) } by { Prim.hlevel props },
}

// Adds the weight of a state, which is looked for once where there is room for one more.
fn put(states: &mut BTreeMap<State, Frac>, s: State, f: Frac) -> Result<(), MassError>
    ensures ok { OnOk result (IsPut states.old.entries states.new.entries s f) }
    ensures same { OnErr result (states.new.entries ≡ states.old.entries) }
    ensures cause { IfErr result (λ e. PutBlames e states.old.entries s f) }
{
    f.is_lowest();
    if states.len() >= MOST_STATES && states.get(&s).is_none() {
        return Err(MassError::TooManyStates);
    }
    match states.entry(s)? {
        Entry::Occupied(mut at) => {
            let old = at.get();
            old.is_lowest();
            match old.add(&f) {
                None => Err(MassError::TooWide),
                Some(sum) => {
                    at.insert(sum);
                    Ok(())
                }
            }
        }
        Entry::Vacant(at) => {
            at.insert(f);
            Ok(())
        }
    }
}

impl Table {
    /// No states yet, of `vars` variables.
    pub fn new(alloc: Global, vars: u32) -> Table
        ensures vars { result.vars ≡ vars }
        ensures empty { result.states.entries ≡ [] }
    {
        Table {
            vars,
            states: BTreeMap::new(alloc),
        }
    }

    /// One state, of `vars` variables that are 0, with the weight 1. An error comes only where memory runs out.
    pub fn start(alloc: Global, vars: u32) -> Result<Table, MassError>
        ensures one { IfOk result (λ t. t.states.entries ≡ (zeros vars, (1, 1)) ∷ []) }
        ensures vars { IfOk result (λ t. t.vars ≡ vars) }
        ensures cause { IfErr result (λ e. e ≡ OutOfMemory) }
    {
        let mut states = BTreeMap::new(alloc);
        let zeros = State::zeros(alloc, vars)?;
        let one = Frac::of(1, 1);
        states.insert(zeros, one)?;
        Ok(Table { vars, states })
    }

    /// Adds the weight of a state. `TooManyStates` comes where it would be one state more than [`MOST_STATES`], `TooWide` where
    /// its weight needs more than 128 bits, and `OutOfMemory` where memory runs out.
    pub fn put(&mut self, s: State, f: Frac) -> Result<(), MassError>
        requires { length s ≡ self.old.vars }
        ensures ok { OnOk result (PutGives self.old.states.entries self.new.states.entries s f) }
        ensures vars { self.new.vars ≡ self.old.vars }
        ensures cause { IfErr result (λ e. PutBlames e self.old.states.entries s f) }
    {
        put(&mut self.states, s, f)
    }
}
