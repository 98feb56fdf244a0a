// The visits of a loop by elimination of its states, one after the other: that which may add the fewest entries first.

ghost use Rattle.std.specs.Prelude.{◌≡◌, ◌<◌, ◌+◌, ◌*◌, ◌^◌, ℕ, [], true, false, length, Contains, IfOk, IfErr, OnOk, IfSome, IsNone};
ghost use Rattle.narrow_fractions.specs.Remainders.{Same};
ghost use Rattle.visit_finder.specs.declared.error.FinderError.TheVariants.{OutOfMemory};
ghost use Rattle.visit_finder.specs.declared.columns.Column.{Column as column};
ghost use Rattle.visit_finder.specs.declared.solving.Pivot.{Pivot as pivot};
ghost use Rattle.visit_finder.specs.Equations.{entered_at, led_at, AreKnown, AllForms};
ghost use Rattle.visit_finder.specs.Places.{modulus, form_at, is_lost, AreForms, Loses};
ghost use Rattle.visit_finder.specs.inner.Columns.{sum_at, HasKey, ColumnForms, ColumnHolds, ColumnsForms, ColumnsHold};
ghost use Rattle.visit_finder.specs.inner.Pivots.{Takes, Renews, PivotForms, PivotsForms, PivotHolds, PivotsHold, FoundHolds};

use crate::columns::{Column, added, without};
use crate::error::FinderError;
use crate::residues::{Moduli, Residues};
use std::alloc::{AllocError, Global};
use std::collections::{BTreeMap, BTreeSet};

// A state that was eliminated: 1 over what leaves it, and its column, without the part from itself.
#[derive(Drop)]
pub struct Pivot {
    state: u64,
    leaves: Residues,
    column: Column,
}

// The states that are left: the column of each, and in which columns each stands. And which of them is the next, which is a matter of
// speed alone: by how many entries the columns may gain.
#[derive(Drop)]
struct Left {
    columns: BTreeMap<u64, Column>,
    targets: BTreeMap<u64, BTreeSet<u64>>,
    order: BTreeSet<(u64, u64)>,
    gains: BTreeMap<u64, u64>,
}

// The columns of states, as what the loop is entered with and the parts of its turns tell.
fn columns_of(
    alloc: Global,
    moduli: &Moduli,
    entered: &BTreeMap<u64, Residues>,
    parts: &BTreeMap<(u64, u64), Residues>,
    states: &Vec<u64>,
) -> Result<BTreeMap<u64, Column>, AllocError>
    requires entered { AllForms moduli.now entered.now.entries }
    requires parts { AllForms moduli.now parts.now.entries }
    ensures forms { IfOk result (λ columns. ColumnsForms moduli.now columns.entries) }
    ensures all { IfOk result (λ columns. (s : ℕ) → Contains states.now.items s → HasKey columns.entries s) }
    ensures only { IfOk result (λ columns. (s : ℕ) (column : column) → Contains columns.entries (s, column) → Contains states.now.items s) }
    ensures hold { IfOk result (λ columns. (place : ℕ) → place < 5 → (once : ℕ) (v : ℕ → ℕ) → (s : ℕ) (column : column) → Contains columns.entries (s, column) →
        Same (modulus moduli.now place) (entered_at place entered.now.entries s * once + led_at place parts.now.entries v s) (sum_at place once v column.entered column.from.items)) }
{
    let nothing = moduli.of_number(0);
    let mut columns = BTreeMap::new(alloc);
    for state in states {
        let none = Column {
            entered: nothing,
            from: Vec::new(alloc),
        };
        columns.insert(*state, none)?;
    }
    for (state, part) in entered {
        if let Some(column) = columns.get_mut(state) {
            column.entered = moduli.sum(&column.entered, part);
        }
    }
    for (ends, part) in parts {
        if let Some(column) = columns.get_mut(&ends.1) {
            column.from.push((ends.0, *part))?;
        }
    }
    Ok(columns)
}

impl Left {
    // The columns of states, and in which each stands.
    fn of(
        alloc: Global,
        columns: BTreeMap<u64, Column>,
        parts: &BTreeMap<(u64, u64), Residues>,
        states: &Vec<u64>,
    ) -> Result<Left, AllocError>
        ensures { IfOk result (λ left. left.columns.entries ≡ columns.entries) }
    {
        let mut left = Left {
            columns,
            targets: BTreeMap::new(alloc),
            order: BTreeSet::new(alloc),
            gains: BTreeMap::new(alloc),
        };
        for (ends, _) in parts {
            left.stand(alloc, ends.0, ends.1)?;
        }
        for state in states {
            left.rank(*state)?;
        }
        Ok(left)
    }

    // The state stands in the column of another.
    fn stand(&mut self, alloc: Global, state: u64, target: u64) -> Result<(), AllocError>
        ensures { self.new.columns.entries ≡ self.old.columns.entries }
    {
        let mut targets = match self.targets.remove(&state) {
            Some(targets) => targets,
            None => BTreeSet::new(alloc),
        };
        targets.insert(target)?;
        self.targets.insert(state, targets)?;
        Ok(())
    }

    // How many entries the columns may gain where the state is eliminated.
    fn gain(&self, state: u64) -> u64 {
        let from = self.entries(state) as u64;
        let into = match self.targets.get(&state) {
            Some(targets) => targets.len() as u64,
            None => 0,
        };
        from.saturating_mul(into)
    }

    fn rank(&mut self, state: u64) -> Result<(), AllocError>
        ensures { self.new.columns.entries ≡ self.old.columns.entries }
    {
        if let Some(old) = self.gains.get(&state) {
            self.order.remove(&(*old, state));
        }
        let gain = self.gain(state);
        self.gains.insert(state, gain)?;
        self.order.insert((gain, state))?;
        Ok(())
    }

    // The next state, with its column, which is taken away. A state that the order lacks is taken at last.
    fn taken(&mut self) -> Option<(u64, Column)>
        ensures some { IfSome result (λ t. Takes self.old.columns.entries t.0 t.1 self.new.columns.entries) }
        ensures none { IsNone result → self.old.columns.entries ≡ [] }
    {
        if let Some((_, state)) = self.order.pop_first() {
            if let Some(column) = self.columns.remove(&state) {
                return Some((state, column));
            }
        }
        self.columns.pop_first()
    }

    // In the columns in which a state stands it is replaced by its own column, so many times.
    fn replace(
        &mut self,
        alloc: Global,
        moduli: &Moduli,
        state: u64,
        leaves: &Residues,
        column: &Column,
    ) -> Result<(), AllocError>
        requires columns { ColumnsForms moduli.now self.old.columns.entries }
        requires pivot { PivotForms moduli.now leaves.now column.now }
        ensures { OnOk result (Renews moduli.now state leaves.now column.now self.old.columns.entries self.new.columns.entries) }
    {
        let targets = match self.targets.remove(&state) {
            Some(targets) => targets,
            None => BTreeSet::new(alloc),
        };
        for target in targets {
            let before = self.entries(target);
            renew(
                alloc,
                moduli,
                &mut self.columns,
                target,
                state,
                leaves,
                column,
            )?;
            self.stand_where_more(alloc, column, target, before)?;
            self.rank(target)?;
        }
        Ok(())
    }

    // How many entries the column of a state has.
    fn entries(&self, state: u64) -> usize {
        match self.columns.get(&state) {
            Some(column) => column.from.len(),
            None => 0,
        }
    }

    // The states of a column stand in that of another, in which it replaced one of so many entries. Where there are fewer now, none is new.
    fn stand_where_more(
        &mut self,
        alloc: Global,
        column: &Column,
        target: u64,
        before: usize,
    ) -> Result<(), AllocError>
        ensures { self.new.columns.entries ≡ self.old.columns.entries }
    {
        if self.entries(target) < before {
            return Ok(());
        }
        self.stand_all(alloc, column, target)
    }

    // The states of a column stand in that of another.
    fn stand_all(&mut self, alloc: Global, column: &Column, target: u64) -> Result<(), AllocError>
        ensures { self.new.columns.entries ≡ self.old.columns.entries }
    {
        for entry in &column.from {
            self.stand(alloc, entry.0, target)?;
        }
        Ok(())
    }

    fn rank_all(&mut self, column: &Column) -> Result<(), AllocError>
        ensures { self.new.columns.entries ≡ self.old.columns.entries }
    {
        for entry in &column.from {
            self.rank(entry.0)?;
        }
        Ok(())
    }

    // The states of a column stand no more in that of a state.
    fn stand_down(&mut self, column: &Column, state: u64)
        ensures { self.new.columns.entries ≡ self.old.columns.entries }
    {
        for entry in &column.from {
            if let Some(targets) = self.targets.get_mut(&entry.0) {
                targets.remove(&state);
            }
        }
    }

    // The state is eliminated, whose column was taken away.
    fn eliminate(
        &mut self,
        alloc: Global,
        moduli: &mut Moduli,
        state: u64,
        column: Column,
    ) -> Result<Pivot, AllocError>
        requires columns { ColumnsForms moduli.old self.old.columns.entries }
        requires column { ColumnForms moduli.old column }
        ensures loses { Loses moduli.old moduli.new }
        ensures state { IfOk result (λ pivot. pivot.state ≡ state) }
        ensures pivot { IfOk result (λ pivot. PivotForms moduli.old pivot.leaves pivot.column) }
        ensures renews { IfOk result (λ pivot. Renews moduli.old state pivot.leaves pivot.column self.old.columns.entries self.new.columns.entries) }
        ensures told { IfOk result (λ pivot. (place : ℕ) → place < 5 → is_lost moduli.new place ≡ false → (once : ℕ) (v : ℕ → ℕ) →
            ColumnHolds moduli.old place once v state column → PivotHolds moduli.old place once v state pivot.leaves pivot.column) }
    {
        let before = *moduli;
        let (from, back) = without(alloc, &before, &column, state)?;
        let rest = before.difference(&before.of_number(1), &back);
        let leaves = moduli.inverse(&rest);
        let pivot = Pivot {
            state,
            leaves,
            column: Column {
                entered: column.entered,
                from,
            },
        };
        self.stand_down(&pivot.column, state);
        self.replace(alloc, &before, state, &pivot.leaves, &pivot.column)?;
        self.rank_all(&pivot.column)?;
        Ok(pivot)
    }
}

// In the column of the target, if it has one, the state is replaced by its own column, so many times.
fn renew(
    alloc: Global,
    moduli: &Moduli,
    columns: &mut BTreeMap<u64, Column>,
    target: u64,
    state: u64,
    leaves: &Residues,
    column: &Column,
) -> Result<(), AllocError>
    requires columns { ColumnsForms moduli.now columns.old.entries }
    requires pivot { PivotForms moduli.now leaves.now column.now }
    ensures { OnOk result (Renews moduli.now state leaves.now column.now columns.old.entries columns.new.entries) }
{
    if let Some(old) = columns.remove(&target) {
        let next = replaced(alloc, moduli, old, state, leaves, column)?;
        columns.insert(target, next)?;
    }
    Ok(())
}

// A column in which the state is replaced by its own column, so many times.
fn replaced(
    alloc: Global,
    moduli: &Moduli,
    column: Column,
    state: u64,
    leaves: &Residues,
    other: &Column,
) -> Result<Column, AllocError>
    requires column { ColumnForms moduli.now column }
    requires pivot { PivotForms moduli.now leaves.now other.now }
    ensures forms { IfOk result (λ next. ColumnForms moduli.now next) }
    ensures hold { IfOk result (λ next. (place : ℕ) → place < 5 → (once : ℕ) (v : ℕ → ℕ) → PivotHolds moduli.now place once v state leaves.now other.now →
        (s : ℕ) → ColumnHolds moduli.now place once v s column → ColumnHolds moduli.now place once v s next) }
{
    let (others, part) = without(alloc, moduli, &column, state)?;
    let factor = moduli.product(&part, leaves);
    let more = moduli.product(&factor, &other.entered);
    let from = added(alloc, moduli, &others, &factor, &other.from)?;
    Ok(Column {
        entered: moduli.sum(&column.entered, &more),
        from,
    })
}

// Whether all residues are below the moduli.
fn are_forms<K: Ord + Drop>(moduli: &Moduli, residues: &BTreeMap<K, Residues>) -> bool
    ensures { result ≡ true → AllForms moduli.now residues.now.entries }
{
    for (_, part) in residues {
        if !moduli.are_forms(part) {
            return false;
        }
    }
    true
}

/// The expected visits of each state, by its number. `entered` has the weight with which the loop comes to each state, and
/// `parts` the probability that one turn leads from one state to another.
///
/// At a modulus that is not lost, whatever visits balance are so many times what is found.
pub fn solved(
    alloc: Global,
    moduli: &mut Moduli,
    entered: BTreeMap<u64, Residues>,
    parts: &BTreeMap<(u64, u64), Residues>,
    states: &Vec<u64>,
) -> Result<BTreeMap<u64, Residues>, FinderError>
    ensures loses { Loses moduli.old moduli.new }
    ensures known { IfOk result (λ found. (place : ℕ) → place < 5 → is_lost moduli.new place ≡ false →
        AreKnown moduli.old place entered.entries parts.now.entries states.now.items found.entries) }
    ensures forms { IfOk result (λ found. AllForms moduli.old found.entries) }
    ensures cause { IfErr result (λ e. e ≡ OutOfMemory) }
{
    if !are_forms(moduli, &entered) || !are_forms(moduli, parts) {
        moduli.lose();
        return Ok(BTreeMap::new(alloc));
    }
    let columns = columns_of(alloc, moduli, &entered, parts, states)?;
    let mut left = Left::of(alloc, columns, parts, states)?;
    let mut pivots = Vec::new(alloc);
    while let Some((state, column)) = left.taken() {
        pivots.push(left.eliminate(alloc, moduli, state, column)?)?;
    }
    let found = visits_by(alloc, moduli, pivots)?;
    Ok(found)
}

// The visits of each state: what it is entered with, and what the states that were eliminated after it lead to it, over what leaves it.
fn visits_by(
    alloc: Global,
    moduli: &mut Moduli,
    pivots: Vec<Pivot>,
) -> Result<BTreeMap<u64, Residues>, AllocError>
    requires { PivotsForms moduli.old pivots.items }
    ensures loses { Loses moduli.old moduli.new }
    ensures forms { IfOk result (λ found. AllForms moduli.old found.entries) }
    ensures all { IfOk result (λ found. (pivot : pivot) → Contains pivots.items pivot → HasKey found.entries pivot.state) }
    ensures known { IfOk result (λ found. (place : ℕ) → place < 5 → is_lost moduli.new place ≡ false → (once : ℕ) (v : ℕ → ℕ) →
        PivotsHold moduli.old place once v pivots.items → FoundHolds moduli.old place once v found.entries) }
{
    let mut visits = BTreeMap::new(alloc);
    let mut stack = pivots;
    while let Some(pivot) = stack.pop() {
        let visited = visit(moduli, &pivot, &visits);
        visits.insert(pivot.state, visited)?;
    }
    Ok(visits)
}

// The visits of a state, where those of the states that lead to it are told. Where one is not told, all moduli are lost.
fn visit(moduli: &mut Moduli, pivot: &Pivot, visits: &BTreeMap<u64, Residues>) -> Residues
    requires pivot { PivotForms moduli.old pivot.now.leaves pivot.now.column }
    requires visits { AllForms moduli.old visits.now.entries }
    ensures loses { Loses moduli.old moduli.new }
    ensures forms { AreForms moduli.old result }
    ensures known { (place : ℕ) → place < 5 → is_lost moduli.new place ≡ false → (once : ℕ) (v : ℕ → ℕ) →
        PivotHolds moduli.old place once v pivot.now.state pivot.now.leaves pivot.now.column → FoundHolds moduli.old place once v visits.now.entries →
        Same (modulus moduli.old place) (2 ^ 64 * v pivot.now.state) (once * form_at place result) }
{
    let mut sum = pivot.column.entered;
    for (source, part) in &pivot.column.from {
        match visits.get(source) {
            Some(visited) => sum = moduli.sum(&sum, &moduli.product(part, visited)),
            None => moduli.lose(),
        }
    }
    moduli.product(&sum, &pivot.leaves)
}
