// The equation of one state, as a column: with what the loop is entered in it, and from which states turns lead to it.

ghost use Rattle.std.specs.Prelude.{◌≡◌, ◌+◌, ◌*◌, ◌^◌, ◌<◌, ◌≤◌, ◌++◌, ℕ, length, drop, IfOk};
ghost use Rattle.narrow_fractions.specs.Remainders.{Same};
ghost use Rattle.visit_finder.specs.Equations.{AllForms};
ghost use Rattle.visit_finder.specs.Places.{modulus, form_at, AreForms};
ghost use Rattle.visit_finder.specs.inner.Columns.{row_at, ColumnForms};

use crate::residues::{Moduli, Residues};
use std::alloc::{AllocError, Global};

/// With what the loop is entered in a state, and from which states turns lead to it.
#[derive(Drop)]
pub struct Column {
    pub entered: Residues,
    /// States in order, each with its part.
    pub from: Vec<(u64, Residues)>,
}

/// The row of a column without a state, and its part.
pub fn without(
    alloc: Global,
    moduli: &Moduli,
    column: &Column,
    state: u64,
) -> Result<(Vec<(u64, Residues)>, Residues), AllocError>
    requires { ColumnForms moduli.now column.now }
    ensures others { IfOk result (λ t. AllForms moduli.now t.0.items) }
    ensures part { IfOk result (λ t. AreForms moduli.now t.1) }
    ensures sum { IfOk result (λ t. (place : ℕ) → place < 5 → (v : ℕ → ℕ) → Same (modulus moduli.now place)
        (row_at place column.now.from.items v) (form_at place t.1 * v state + row_at place t.0.items v)) }
{
    let mut others = Vec::with_capacity(alloc, column.from.len())?;
    let mut part = Residues::zero();
    for entry in &column.from {
        if entry.0 == state {
            part = moduli.sum(&part, &entry.1);
        } else {
            others.push(*entry)?;
        }
    }
    Ok((others, part))
}

// The entries from an index on are put behind others, up to a state; and the index behind them.
fn copied_below(
    row: &Vec<(u64, Residues)>,
    from: usize,
    state: u64,
    all: &mut Vec<(u64, Residues)>,
) -> Result<usize, AllocError>
    requires { from ≤ length row.now.items }
    ensures within { IfOk result (λ at. at ≤ length row.now.items) }
    ensures moved { IfOk result (λ at. all.new.items ++ drop at row.now.items ≡ all.old.items ++ drop from row.now.items) }
{
    let mut at = from;
    while at < row.len() {
        let entry = row[at];
        if entry.0 >= state {
            return Ok(at);
        }
        all.push(entry)?;
        at += 1;
    }
    Ok(at)
}

/// A row, and so many times another, in one.
pub fn added(
    alloc: Global,
    moduli: &Moduli,
    row: &Vec<(u64, Residues)>,
    factor: &Residues,
    other: &Vec<(u64, Residues)>,
) -> Result<Vec<(u64, Residues)>, AllocError>
    requires row { AllForms moduli.now row.now.items }
    requires factor { AreForms moduli.now factor.now }
    requires other { AllForms moduli.now other.now.items }
    ensures forms { IfOk result (λ all. AllForms moduli.now all.items) }
    ensures sum { IfOk result (λ all. (place : ℕ) → place < 5 → (v : ℕ → ℕ) → Same (modulus moduli.now place)
        (2 ^ 64 * row_at place all.items v) (2 ^ 64 * row_at place row.now.items v + form_at place factor.now * row_at place other.now.items v)) }
{
    let mut all = Vec::with_capacity(alloc, row.len())?;
    let mut at = 0;
    for entry in other {
        at = copied_below(row, at, entry.0, &mut all)?;
        let more = moduli.product(factor, &entry.1);
        if at < row.len() && row[at].0 == entry.0 {
            all.push((entry.0, moduli.sum(&row[at].1, &more)))?;
            at += 1;
        } else {
            all.push((entry.0, more))?;
        }
    }
    while at < row.len() {
        all.push(row[at])?;
        at += 1;
    }
    Ok(all)
}
