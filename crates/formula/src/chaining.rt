// Chains of tests: from an expression, and their values.

ghost use Rattle.std.specs.Prelude.{◌≡◌, ◌<◌, ◌++◌, ◌∷◌, [], length, List, Ok, IfOk, IfSome, IsTrue};
ghost use Rattle.gcl_core.specs.meaning.Value.{truth_number};
ghost use Rattle.gcl_core.specs.meaning.Views.{expression_of};
ghost use Rattle.formula.specs.Chains.{link, settles_at, settled_by, as_value, condition_value, ConditionReads, ConditionOf, chain_value, ChainReads, TestOf, AreTestsOf, IsLinked, IsChain};
ghost use Rattle.formula.specs.declared.op.Condition.TheVariants.{Remainder};
ghost use Rattle.formula.specs.declared.op.Test.{Test};
ghost use Rattle.formula.specs.inner.OnStack.{Leaves};

use crate::op::{Atom, Condition, Form, Term, Test};
use crate::terms::value_of_term;
use crate::writing::joined_of;
use gcl_core::{BinOp, Expr, Fault};
use std::alloc::{AllocError, Global};

// The operator of the chain that this truth settles.
fn is_link(op: BinOp, settled: bool) -> bool
    ensures { IsTrue result → op ≡ link settled }
{
    match op {
        BinOp::And => !settled,
        BinOp::Or => settled,
        _ => false,
    }
}

// The condition that an expression is, in its shorter form where it has one.
fn condition_of(e: &Expr) -> Option<Condition>
    ensures { IfSome result (λ c. ConditionOf c (expression_of e.now)) }
{
    match joined_of(e) {
        Some(
            Form::Joined(
                BinOp::Eq,
                Term::Two(BinOp::Rem, Atom::Var(x), Atom::Num(k)),
                Term::One(Atom::Num(n)),
            ),
        ) if k > 0 => Some(Condition::Remainder(x, k, n)),
        Some(Form::Joined(op, left, right)) => Some(Condition::Joined(op, left, right)),
        _ => None,
    }
}

// Appends the test that an expression is, and answers whether it is one.
fn put_test(tests: &mut Vec<Test>, settles: bool, e: &Expr) -> Result<bool, AllocError>
    ensures { IfOk result (λ is_one. IsTrue is_one → (t : Test) × (tests.new.items ≡ tests.old.items ++ t ∷ [])
        × TestOf settles t (expression_of e.now)) }
{
    match condition_of(e) {
        Some(condition) => {
            tests.push(Test { settles, condition })?;
            Ok(true)
        }
        None => Ok(false),
    }
}

// Appends the tests of an expression within a chain, and answers whether it has no other parts.
fn put_tests(tests: &mut Vec<Test>, settled: bool, e: &Expr) -> Result<bool, AllocError>
    ensures { IfOk result (λ are_all. IsTrue are_all → (more : List Test) × (tests.new.items ≡ tests.old.items ++ more)
        × AreTestsOf settled more (expression_of e.now)) }
{
    match e {
        Expr::Bin(op, a, b) if is_link(*op, settled) => {
            if put_tests(tests, settled, a)? {
                put_tests(tests, settled, b)
            } else {
                Ok(false)
            }
        }
        Expr::Not(a) => put_test(tests, !settled, a),
        _ => put_test(tests, settled, e),
    }
}

// The tests of a chain that this truth settles, where each part of the expression is a test.
fn chain_by(alloc: Global, settled: bool, e: &Expr) -> Result<Option<(Vec<Test>, bool)>, AllocError>
    requires { IsLinked settled (expression_of e.now) }
    ensures { IfOk result (λ found. IfSome found (λ c. IsChain c.1 c.0.items (expression_of e.now))) }
{
    let mut tests = Vec::new(alloc);
    if put_tests(&mut tests, settled, e)? {
        Ok(Some((tests, settled)))
    } else {
        Ok(None)
    }
}

// The tests of a chain with the truth that settles it, where the expression is one.
pub(crate) fn chain_of(alloc: Global, e: &Expr) -> Result<Option<(Vec<Test>, bool)>, AllocError>
    ensures { IfOk result (λ found. IfSome found (λ c. IsChain c.1 c.0.items (expression_of e.now))) }
{
    match e {
        Expr::Bin(op, _, _) => match op {
            BinOp::And => chain_by(alloc, false, e),
            BinOp::Or => chain_by(alloc, true, e),
            _ => Ok(None),
        },
        _ => Ok(None),
    }
}

// Whether a number counts as this truth: any but 0 is true.
#[inline(always)]
fn has_truth(truth: bool, v: i64) -> bool
    ensures { result ≡ settles_at truth v }
{
    if truth { v != 0 } else { v == 0 }
}

// The remainder of the variable by k is n.
#[inline(always)]
fn has_remainder(x: u32, k: i64, n: i64, vars: &[i64]) -> bool
    requires { ConditionReads (Remainder x k n) (length vars.now) }
    ensures { Ok (truth_number result) ≡ condition_value (Remainder x k n) vars.now }
{
    vars[x as usize] % k == n
}

// The test settles its chain; or the first fault.
#[inline(always)]
fn settles(t: &Test, vars: &[i64]) -> Result<bool, Fault>
    requires { ConditionReads t.now.condition (length vars.now) }
    ensures { result ≡ settled_by t.now.settles (condition_value t.now.condition vars.now) }
{
    match &t.condition {
        Condition::Remainder(x, k, n) => {
            let v = i64::from(has_remainder(*x, *k, *n, vars));
            Ok(has_truth(t.settles, v))
        }
        Condition::Joined(op, left, right) => {
            let x = value_of_term(left, vars)?;
            let y = value_of_term(right, vars)?;
            Ok(has_truth(t.settles, op.apply(x, y)?))
        }
    }
}

// The truth of a chain, or the first fault.
#[inline(always)]
fn truth_of(tests: &[Test], settled: bool, vars: &[i64]) -> Result<bool, Fault>
    requires { ChainReads tests.now (length vars.now) }
    ensures { as_value result ≡ chain_value settled tests.now vars.now }
{
    for t in tests {
        if settles(t, vars)? {
            return Ok(settled);
        }
    }
    Ok(!settled)
}

// The value of a chain, left in the first slot; or the first fault. So the answer of the call needs no memory.
#[inline(never)]
fn leave_truth(tests: &[Test], settled: bool, vars: &[i64], slots: &mut [i64]) -> Result<(), Fault>
    requires reads { ChainReads tests.now (length vars.now) }
    requires room { 0 < length slots.old }
    ensures value { Leaves result slots.new (chain_value settled tests.now vars.now) }
    ensures room { length slots.new ≡ length slots.old }
{
    slots[0] = i64::from(truth_of(tests, settled, vars)?);
    Ok(())
}

// The same, read back from there.
#[inline(always)]
pub(crate) fn value_of_chain(
    tests: &[Test],
    settled: bool,
    vars: &[i64],
    slots: &mut [i64],
) -> Result<i64, Fault>
    requires reads { ChainReads tests.now (length vars.now) }
    requires room { 0 < length slots.old }
    ensures value { result ≡ chain_value settled tests.now vars.now }
    ensures room { length slots.new ≡ length slots.old }
{
    match leave_truth(tests, settled, vars, slots) {
        Ok(()) => Ok(slots[0]),
        Err(fault) => Err(fault),
    }
}
