// What terms stand for: their steps, their tree and their value.

ghost use Rattle.std.specs.Prelude.{◌≡◌, ◌<◌, length, Some, slice_get, IfOk, IsTrue};
ghost use Rattle.gcl_core.specs.meaning.Value.{fits_64};
ghost use Rattle.gcl_core.specs.meaning.Views.{expression_of};
ghost use Rattle.formula.specs.ShortTerms.{term_steps, term_expression, term_depth, term_value, TermReads, joined_steps, joined_value, on};
ghost use Rattle.formula.specs.inner.OnStack.{Leaves};

use crate::op::{Atom, Op, Term};
use crate::reading::{atom, step_of};
use crate::running::atom_value;
use gcl_core::{BinOp, Expr, Fault};
use std::alloc::{AllocError, Global};

// The operator on a variable and an atom, as a term.
#[inline(always)]
pub(crate) fn on(op: BinOp, x: u32, a: Atom) -> Term
    ensures { result ≡ on op x a }
{
    Term::Two(op, Atom::Var(x), a)
}

// How many steps there are.
pub(crate) fn size_of(t: &Term) -> usize
    ensures value { result ≡ length (term_steps t.now) }
    ensures small { result < 4 }
{
    match t {
        Term::One(_) => 1,
        Term::Two(_, _, _) => 3,
    }
}

// The greatest number of values on the stack while they run.
pub(crate) fn depth_of(t: &Term) -> usize
    ensures value { result ≡ term_depth t.now }
    ensures small { result < 3 }
{
    match t {
        Term::One(_) => 1,
        Term::Two(_, _, _) => 2,
    }
}

// The step of this index.
pub(crate) fn op_of(t: &Term, i: usize) -> Op
    requires { i < length (term_steps t.now) }
    ensures { slice_get (term_steps t.now) i ≡ Some result }
{
    match t {
        Term::One(a) => step_of(*a),
        Term::Two(op, a, b) => match i {
            0 => step_of(*a),
            1 => step_of(*b),
            _ => Op::Bin(*op),
        },
    }
}

// The step of this index, of one operator on two terms.
pub(crate) fn joined_op(op: BinOp, t: &Term, u: &Term, i: usize) -> Op
    requires { i < length (joined_steps op t.now u.now) }
    ensures { slice_get (joined_steps op t.now u.now) i ≡ Some result }
{
    let left = size_of(t);
    if i < left {
        op_of(t, i)
    } else if i - left < size_of(u) {
        op_of(u, i - left)
    } else {
        Op::Bin(op)
    }
}

pub(crate) fn tree_of(alloc: Global, t: &Term) -> Result<Expr, AllocError>
    ensures { IfOk result (λ e. expression_of e ≡ term_expression t.now) }
{
    match t {
        Term::One(a) => Ok(atom(*a)),
        Term::Two(op, a, b) => {
            let left = Box::new(alloc, atom(*a))?;
            let right = Box::new(alloc, atom(*b))?;
            Ok(Expr::Bin(*op, left, right))
        }
    }
}

#[inline(always)]
pub(crate) fn value_of_term(t: &Term, vars: &[i64]) -> Result<i64, Fault>
    requires { TermReads t.now (length vars.now) }
    ensures value { result ≡ term_value t.now vars.now }
    ensures small { IfOk result (λ v. IsTrue (fits_64 v)) }
{
    match t {
        Term::One(a) => Ok(atom_value(*a, vars)),
        Term::Two(op, a, b) => op.apply(atom_value(*a, vars), atom_value(*b, vars)),
    }
}

// The value of one operator on two terms, left in the first slot; or the first fault. So the answer of the call needs no memory.
#[inline(never)]
fn leave_joined(op: BinOp, t: &Term, u: &Term, vars: &[i64], slots: &mut [i64]) -> Result<(), Fault>
    requires left { TermReads t.now (length vars.now) }
    requires right { TermReads u.now (length vars.now) }
    requires room { 0 < length slots.old }
    ensures value { Leaves result slots.new (joined_value op t.now u.now vars.now) }
    ensures room { length slots.new ≡ length slots.old }
{
    let x = value_of_term(t, vars)?;
    let y = value_of_term(u, vars)?;
    slots[0] = op.apply(x, y)?;
    Ok(())
}

// The same, read back from there.
#[inline(always)]
pub(crate) fn value_of_joined(
    op: BinOp,
    t: &Term,
    u: &Term,
    vars: &[i64],
    slots: &mut [i64],
) -> Result<i64, Fault>
    requires left { TermReads t.now (length vars.now) }
    requires right { TermReads u.now (length vars.now) }
    requires room { 0 < length slots.old }
    ensures value { result ≡ joined_value op t.now u.now vars.now }
    ensures room { length slots.new ≡ length slots.old }
{
    match leave_joined(op, t, u, vars, slots) {
        Ok(()) => Ok(slots[0]),
        Err(fault) => Err(fault),
    }
}
