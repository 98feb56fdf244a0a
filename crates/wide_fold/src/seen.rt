// The states that a loop comes to, and their visits.

ghost use Rattle.std.specs.Prelude.{◌≡◌, IfOk};

use crate::error::WideFoldError;
use crate::settle::WideFound;
use crate::table::WideTable;
use crate::work::Work;
use exact_fold::finding::put;
use mass_fold::{State, Table};
use numbers::Frac;
use std::alloc::Global;
use std::collections::BTreeMap;
use wide_numbers::WideFraction;
use wide_visits::Turns;

/// The states of a loop on which its guard holds, by number in the order in which they were seen, and where one turn leads from
/// each.
#[derive(Drop)]
pub struct Seen {
    pub states: Vec<State>,
    numbers: BTreeMap<State, u64>,
    turns: Turns,
}

// A table with one more entry, where it has as many variables.
fn put_wide(
    alloc: Global,
    table: &mut WideTable,
    state: State,
    weight: WideFraction,
) -> Result<(), WideFoldError>
    ensures { table.new.vars ≡ table.old.vars }
{
    if state.values().len() != table.vars as usize {
        return Err(WideFoldError::NotSettled);
    }
    table.put(alloc, state, weight)
}

/// One state, with the weight 1, where it has so many variables.
pub fn single(alloc: Global, vars: u32, state: &State) -> Result<WideTable, WideFoldError>
    ensures { IfOk result (λ t. t.vars ≡ vars) }
{
    if state.values().len() != vars as usize {
        return Err(WideFoldError::NotSettled);
    }
    WideTable::alone(alloc, vars, state)
}

impl WideFound {
    // Nothing is visited, and each state is left.
    fn none(alloc: Global, vars: u32) -> WideFound
        ensures visits { result.visits.vars ≡ vars }
        ensures closed { result.closed.vars ≡ vars }
    {
        WideFound {
            visits: WideTable::new(alloc, vars),
            copy: WideTable::new(alloc, vars),
            closed: Table::new(alloc, vars),
        }
    }

    // A state is visited with this weight, where it is above 0.
    fn visit(
        &mut self,
        alloc: Global,
        state: &State,
        weight: &WideFraction,
    ) -> Result<(), WideFoldError> {
        if weight.num().is_zero() {
            return Ok(());
        }
        put_wide(
            alloc,
            &mut self.visits,
            state.copy(alloc)?,
            weight.copy(alloc)?,
        )?;
        put_wide(
            alloc,
            &mut self.copy,
            state.copy(alloc)?,
            weight.copy(alloc)?,
        )
    }

    // A state is never left.
    fn close(&mut self, alloc: Global, state: &State) -> Result<(), WideFoldError> {
        put(&mut self.closed, state.copy(alloc)?, Frac::of(1, 1))?;
        Ok(())
    }
}

impl Seen {
    pub fn none(alloc: Global) -> Seen {
        Seen {
            states: Vec::new(alloc),
            numbers: BTreeMap::new(alloc),
            turns: Turns::none(alloc),
        }
    }

    // The number of a state, which is a new one where it was not seen.
    fn number(&mut self, alloc: Global, state: &State) -> Result<u64, WideFoldError> {
        if let Some(number) = self.numbers.get(state) {
            return Ok(*number);
        }
        let number = self.states.len() as u64;
        self.numbers.insert(state.copy(alloc)?, number)?;
        self.states.push(state.copy(alloc)?)?;
        Ok(number)
    }

    /// The loop is entered in some states of a table.
    pub fn enter(
        &mut self,
        alloc: Global,
        some: &Table,
        table: &WideTable,
    ) -> Result<(), WideFoldError> {
        for (state, _) in &some.states {
            if let Some(weight) = table.states.get(state) {
                let number = self.number(alloc, state)?;
                self.turns.enter(alloc, number, weight)?;
            }
        }
        Ok(())
    }

    /// One turn leads from a state to a table.
    pub fn lead(&mut self, alloc: Global, from: u64, table: &Table) -> Result<(), WideFoldError> {
        for (state, weight) in &table.states {
            let to = self.number(alloc, state)?;
            self.turns.lead(from, to, weight)?;
        }
        Ok(())
    }

    /// The same, in wide fractions.
    pub fn lead_on(
        &mut self,
        alloc: Global,
        from: u64,
        table: &WideTable,
    ) -> Result<(), WideFoldError> {
        for (state, weight) in &table.states {
            let to = self.number(alloc, state)?;
            self.turns.lead_on(alloc, from, to, weight)?;
        }
        Ok(())
    }

    /// The visits of the states that may be left, and the states that are never left.
    pub fn found(
        &self,
        alloc: Global,
        vars: u32,
        work: &mut Work,
    ) -> Result<WideFound, WideFoldError>
        ensures visits { IfOk result (λ f. f.visits.vars ≡ vars) }
        ensures closed { IfOk result (λ f. f.closed.vars ≡ vars) }
    {
        let found_at = self
            .turns
            .visits(alloc, self.states.len() as u64, work.left())?;
        work.add(found_at.steps)?;
        let mut found = WideFound::none(alloc, vars);
        for (state, number) in &self.numbers {
            match found_at.visits.get(number) {
                Some(weight) => found.visit(alloc, state, weight)?,
                None => found.close(alloc, state)?,
            }
        }
        if found.visits.vars != vars || found.closed.vars != vars {
            return Err(WideFoldError::NotSettled);
        }
        Ok(found)
    }
}
