// Putting tables aside, and taking them back.

ghost use Rattle.std.specs.Prelude.{◌≡◌, [], ◌∷◌, IfOk, map};
ghost use Rattle.scaled_law.specs.Growth.{all_most};
ghost use Rattle.scaled_law.specs.Scaled.{top, below, times_pairs};
ghost use Rattle.scaled_law.specs.Pairs.{merged_pairs};
ghost use Rattle.scaled_fold.specs.inner.Stack.{stack_of};

use crate::error::PairsError;
use crate::pair::sum;
use crate::stack::Stack;
use crate::table::Table;
use crate::tables::{all_of, multiplied};
use std::alloc::Global;

impl Stack {
    /// No tables yet.
    pub fn new(alloc: Global, vars: u32) -> Stack
        ensures vars { result.vars ≡ vars }
        ensures empty { stack_of result ≡ [] }
    {
        Stack {
            vars,
            tables: Vec::new(alloc),
        }
    }

    /// With a table on top.
    pub fn topped(self, table: Table) -> Result<Stack, PairsError>
        requires vars { table.vars ≡ self.vars }
        ensures ok { IfOk result (λ s. stack_of s ≡ table.states.entries ∷ stack_of self) }
        ensures vars { IfOk result (λ s. s.vars ≡ self.vars) }
    {
        let vars = self.vars;
        let mut tables = self.tables;
        tables.push(table)?;
        Ok(Stack { vars, tables })
    }

    /// The table on top, and those below; where there is none, an empty one.
    pub fn taken(self, alloc: Global) -> (Table, Stack)
        ensures first { result.0.states.entries ≡ top (stack_of self) }
        ensures rest { stack_of result.1 ≡ below (stack_of self) }
        ensures vars { (result.0.vars ≡ self.vars) × (result.1.vars ≡ self.vars) }
    {
        let vars = self.vars;
        let mut tables = self.tables;
        match tables.pop() {
            Some(table) => (table, Stack { vars, tables }),
            None => (Table::new(alloc, vars), Stack { vars, tables }),
        }
    }

    /// All units at most.
    pub fn most(&self) -> Result<u128, PairsError>
        ensures { IfOk result (λ n. n ≡ all_most (stack_of self.now)) }
    {
        let mut most = 0;
        for table in &self.tables {
            let (_, more) = all_of(table)?;
            most = sum(most, more)?;
        }
        Ok(most)
    }

    /// With `k` times as many units.
    pub fn multiplied(&self, alloc: Global, k: u128) -> Result<Stack, PairsError>
        ensures ok { IfOk result (λ s. stack_of s ≡ map (λ J. merged_pairs (times_pairs (k, 1) J)) (stack_of self.now)) }
        ensures vars { IfOk result (λ s. s.vars ≡ self.now.vars) }
    {
        let mut more = Stack::new(alloc, self.vars);
        for table in &self.tables {
            more = more.topped(multiplied(alloc, table, k)?)?;
        }
        Ok(more)
    }
}
