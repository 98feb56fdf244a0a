// Finding the visits of a loop. Nothing is promised of what is found: it is checked by one turn of the loop.

ghost use Rattle.std.specs.Prelude.{◌≡◌, IfOk};

use crate::error::SettleError;
use mass_fold::{State, Table, scale};
use numbers::Frac;
use std::alloc::Global;
use std::collections::BTreeMap;
use visit_finder::Turns;

/// The states of a loop on which its guard holds, by number in the order in which they were seen, and where one turn leads from
/// each.
#[derive(Drop)]
pub struct Seen {
    pub states: Vec<State>,
    numbers: BTreeMap<State, u64>,
    turns: Turns,
}

/// What was found of a loop: its visits where the guard holds, twice, and the states that are never left.
#[derive(Drop)]
pub struct Found {
    pub visits: Table,
    pub copy: Table,
    pub closed: Table,
}

/// A table with one more entry, where it has as many variables.
pub fn put(table: &mut Table, state: State, weight: Frac) -> Result<(), SettleError>
    ensures { table.new.vars ≡ table.old.vars }
{
    if state.values().len() != table.vars as usize {
        return Err(SettleError::NotSettled);
    }
    table.put(state, weight)?;
    Ok(())
}

/// The table once more.
pub fn copied(alloc: Global, table: &Table) -> Result<Table, SettleError>
    ensures { IfOk result (λ t. t.vars ≡ table.now.vars) }
{
    Ok(scale(alloc, &Frac::of(1, 1), table)?)
}

impl Seen {
    pub fn none(alloc: Global) -> Seen {
        Seen {
            states: Vec::new(alloc),
            numbers: BTreeMap::new(alloc),
            turns: Turns::none(alloc),
        }
    }

    // The number of a state, which is a new one where it was not seen.
    fn number(&mut self, alloc: Global, state: &State) -> Result<u64, SettleError> {
        if let Some(number) = self.numbers.get(state) {
            return Ok(*number);
        }
        let number = self.states.len() as u64;
        self.numbers.insert(state.copy(alloc)?, number)?;
        self.states.push(state.copy(alloc)?)?;
        Ok(number)
    }

    /// The states of a table are seen.
    pub fn enlist(&mut self, alloc: Global, table: &Table) -> Result<(), SettleError> {
        for (state, _) in &table.states {
            self.number(alloc, state)?;
        }
        Ok(())
    }

    /// One turn leads from a state to a table.
    pub fn lead(&mut self, alloc: Global, from: u64, table: &Table) -> Result<(), SettleError> {
        for (state, weight) in &table.states {
            let to = self.number(alloc, state)?;
            self.turns.lead(from, to, *weight)?;
        }
        Ok(())
    }

    // With which weight the loop comes to each state of a table that is seen, by number.
    fn entered(&self, alloc: Global, start: &Table) -> Result<Vec<(u64, Frac)>, SettleError> {
        let mut entered = Vec::new(alloc);
        for (state, weight) in &start.states {
            if let Some(number) = self.numbers.get(state) {
                entered.push((*number, *weight))?;
            }
        }
        Ok(entered)
    }

    /// The visits of the states that may be left, and the states that are never left.
    pub fn found(&self, alloc: Global, start: &Table) -> Result<Found, SettleError>
        ensures visits { IfOk result (λ f. f.visits.vars ≡ start.now.vars) }
        ensures closed { IfOk result (λ f. f.closed.vars ≡ start.now.vars) }
    {
        let entered = self.entered(alloc, start)?;
        let numbers = self
            .turns
            .visits(alloc, self.states.len() as u64, &entered)?;
        let mut visits = Table::new(alloc, start.vars);
        let mut closed = Table::new(alloc, start.vars);
        for (state, number) in &self.numbers {
            match numbers.get(number) {
                Some(weight) => {
                    if weight.num() != 0 {
                        put(&mut visits, state.copy(alloc)?, *weight)?;
                    }
                }
                None => put(&mut closed, state.copy(alloc)?, Frac::of(1, 1))?,
            }
        }
        if visits.vars != start.vars || closed.vars != start.vars {
            return Err(SettleError::NotSettled);
        }
        let copy = copied(alloc, &visits)?;
        Ok(Found {
            visits,
            copy,
            closed,
        })
    }
}
