// Steps on a stack. Nothing is called back, and no box is followed.

ghost use Rattle.std.specs.Prelude.{◌≡◌, ℤ, ◌+◌, ◌^◌, ◌<◌, ◌≤◌, ◌∷◌, length, IfOk, IsTrue};
ghost use Rattle.gcl_core.specs.meaning.Value.{fits_64, value_of};
ghost use Rattle.formula.specs.ReadBack.{expression_in};
ghost use Rattle.formula.specs.inner.OnStack.{move, values, CameTo, Goes, Leaves, StandFor};
ghost use Rattle.formula.specs.ShortTerms.{atom_value, AtomReads};

use crate::op::{Atom, Op};
use gcl_core::Fault;

#[inline(always)]
pub(crate) fn atom_value(a: Atom, vars: &[i64]) -> i64
    requires { AtomReads a (length vars.now) }
    ensures value { result ≡ atom_value a vars.now }
    ensures small { IsTrue (fits_64 result) }
{
    match a {
        Atom::Num(n) => n,
        Atom::Var(x) => vars[x as usize],
    }
}

// Where the steps stand: the index of the next, the value on top, and how many values there are. Those below the top lie in slots
// from the second on.
#[derive(Clone, Copy, PartialEq, Eq, Debug)]
pub(crate) struct Point {
    at: usize,
    top: i64,
    held: usize,
}

// On to the step of an index.
#[inline(always)]
fn go(at: usize, top: i64, held: usize) -> Point
    ensures at { result.at ≡ at }
    ensures top { result.top ≡ top }
    ensures held { result.held ≡ held }
    ensures small { IsTrue (fits_64 result.top) }
{
    Point { at, top, held }
}

// A value on top.
#[inline(always)]
fn put(slots: &mut [i64], at: usize, top: i64, held: usize, v: i64) -> Point
    requires room { held < length slots.old }
    requires within { at + 1 < 2 ^ 64 }
    ensures values { values result.top result.held slots.new ≡ v ∷ values top held slots.old }
    ensures at { result.at ≡ at + 1 }
    ensures held { result.held ≤ length slots.new }
    ensures small { IsTrue (fits_64 result.top) }
    ensures room { length slots.new ≡ length slots.old }
{
    slots[held] = top;
    Point {
        at: at + 1,
        top: v,
        held: held + 1,
    }
}

// Takes the top away.
#[inline(always)]
fn pop(slots: &[i64], at: usize, held: usize) -> Point
    requires some { 0 < held }
    requires held { held ≤ length slots.now }
    requires within { at + 1 < 2 ^ 64 }
    ensures values { (top : ℤ) → values top held slots.now ≡ top ∷ values result.top result.held slots.now }
    ensures at { result.at ≡ at + 1 }
    ensures held { result.held ≤ length slots.now }
    ensures small { IsTrue (fits_64 result.top) }
{
    let under = held - 1;
    Point {
        at: at + 1,
        top: slots[under],
        held: under,
    }
}

// One step.
#[inline(always)]
fn take(
    op: Op,
    vars: &[i64],
    slots: &mut [i64],
    at: usize,
    top: i64,
    held: usize,
) -> Result<Point, Fault>
    requires within { at + 1 < 2 ^ 64 }
    requires held { held ≤ length slots.old }
    requires goes { Goes (move (length slots.old) vars.now op at (values top held slots.old)) }
    ensures came { CameTo (move (length slots.old) vars.now op at (values top held slots.old)) at slots.new result }
    ensures held { IfOk result (λ p. p.held ≤ length slots.new) }
    ensures small { IfOk result (λ p. IsTrue (fits_64 p.top)) }
    ensures room { length slots.new ≡ length slots.old }
{
    match op {
        Op::Push(n) => Ok(put(slots, at, top, held, n)),
        Op::Truth(b) => Ok(put(slots, at, top, held, i64::from(b))),
        Op::Load(x) => Ok(put(slots, at, top, held, vars[x as usize])),
        Op::Neg => Ok(go(at + 1, top.checked_neg().ok_or(Fault::Overflow)?, held)),
        Op::Not => Ok(go(at + 1, i64::from(top == 0), held)),
        Op::Bin(op) => {
            let p = pop(slots, at, held);
            Ok(go(p.at, op.apply(p.top, top)?, p.held))
        }
        Op::AndSkip(target) => {
            if top == 0 {
                Ok(go(target, top, held))
            } else {
                Ok(pop(slots, at, held))
            }
        }
        Op::OrSkip(target) => {
            if top == 0 {
                Ok(pop(slots, at, held))
            } else {
                Ok(go(target, 1, held))
            }
        }
        Op::Settle => Ok(go(at + 1, i64::from(top != 0), held)),
    }
}

// The value of the expression that the steps stand for.
#[inline(always)]
fn run(steps: &[Op], vars: &[i64], slots: &mut [i64]) -> Result<i64, Fault>
    requires stands { StandFor steps.now (length vars.now) (length slots.old) }
    ensures value { result ≡ value_of (expression_in steps.now) vars.now }
    ensures small { IfOk result (λ v. IsTrue (fits_64 v)) }
    ensures room { length slots.new ≡ length slots.old }
{
    let mut at = 0;
    let mut top = 0i64;
    let mut held = 0;
    while at < steps.len() {
        let op = steps[at];
        let p = take(op, vars, slots, at, top, held)?;
        at = p.at;
        top = p.top;
        held = p.held;
    }
    Ok(top)
}

// The same, left in the first slot, so that the answer of the call needs no memory.
#[inline(never)]
fn leave_value(steps: &[Op], vars: &[i64], slots: &mut [i64]) -> Result<(), Fault>
    requires stands { StandFor steps.now (length vars.now) (length slots.old) }
    requires room { 0 < length slots.old }
    ensures value { Leaves result slots.new (value_of (expression_in steps.now) vars.now) }
    ensures room { length slots.new ≡ length slots.old }
{
    slots[0] = run(steps, vars, slots)?;
    Ok(())
}

// The same, read back from there.
#[inline(always)]
pub(crate) fn value(steps: &[Op], vars: &[i64], slots: &mut [i64]) -> Result<i64, Fault>
    requires stands { StandFor steps.now (length vars.now) (length slots.old) }
    requires room { 0 < length slots.old }
    ensures value { result ≡ value_of (expression_in steps.now) vars.now }
    ensures room { length slots.new ≡ length slots.old }
{
    match leave_value(steps, vars, slots) {
        Ok(()) => Ok(slots[0]),
        Err(fault) => Err(fault),
    }
}
