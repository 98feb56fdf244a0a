// The steps of `x < 2 and not y = 1`, which is a chain, and other forms.

ghost use Rattle.std.specs.Prelude.{◌≡◌, pos, IfOk};
ghost use Rattle.gcl_core.specs.declared.syntax.BinOp.TheVariants.{And, Lt, Eq, Sub};
ghost use Rattle.gcl_core.specs.meaning.Syntax.{Num, Var, Not, Bin};
ghost use Rattle.gcl_core.specs.meaning.Views.{expression_of};

use formula::{Formula, Op, Stack};
use gcl_core::{BinOp, Expr, Fault};
use std::alloc::{AllocError, Global};
use std::test::Fail;

const X: u32 = 0;

const Y: u32 = 1;

// An operator on a variable and a number.
fn compare(alloc: Global, op: BinOp, x: u32, n: i64) -> Result<Expr, AllocError>
    ensures { IfOk result (λ e. expression_of e ≡ Bin op (Var x) (Num n)) }
{
    Ok(Expr::Bin(
        op,
        Box::new(alloc, Expr::Var(x))?,
        Box::new(alloc, Expr::Num(n))?,
    ))
}

fn condition(alloc: Global) -> Result<Expr, AllocError>
    ensures { IfOk result (λ e. expression_of e ≡ Bin And (Bin Lt (Var 0) (Num (pos 2))) (Not (Bin Eq (Var 1) (Num (pos 1))))) }
{
    let below = compare(alloc, BinOp::Lt, X, 2)?;
    let equal = compare(alloc, BinOp::Eq, Y, 1)?;
    let other = Expr::Not(Box::new(alloc, equal)?);
    Ok(Expr::Bin(BinOp::And, Box::new(alloc, below)?, Box::new(alloc, other)?))
}

const STEPS: [Op; 9] = [
    Op::Load(X),
    Op::Push(2),
    Op::Bin(BinOp::Lt),
    Op::AndSkip(9),
    Op::Load(Y),
    Op::Push(1),
    Op::Bin(BinOp::Eq),
    Op::Not,
    Op::Settle,
];

// The steps of a formula.
fn listed(alloc: Global, formula: &Formula) -> Result<Vec<Op>, AllocError> {
    let mut steps = Vec::new(alloc);
    for i in 0..formula.count() {
        steps.push(formula.op(i))?;
    }
    Ok(steps)
}

#[test]
fn the_steps_of_a_condition(rt: HostRuntime) -> Result<(), Fail> {
    let alloc = rt.alloc();
    let formula = Formula::of(alloc, &condition(alloc)?)?;
    let steps = listed(alloc, &formula)?;
    assert_eq!(rt; steps.as_slice(), STEPS.as_slice());
    let again = Formula::of(alloc, &formula.tree(alloc)?)?;
    let steps = listed(alloc, &again)?;
    assert_eq!(rt; steps.as_slice(), STEPS.as_slice());
    Ok(())
}

#[test]
fn the_values_of_a_condition(rt: HostRuntime) -> Result<(), Fail> {
    let alloc = rt.alloc();
    let formula = Formula::of(alloc, &condition(alloc)?)?;
    let mut stack = Stack::new(alloc, formula.depth())?;
    assert_eq!(rt; stack.room(), 2);
    assert_eq!(rt; formula.value(&[0, 1], &mut stack), Ok(0));
    assert_eq!(rt; formula.value(&[0, 0], &mut stack), Ok(1));
    assert_eq!(rt; formula.value(&[2, 0], &mut stack), Ok(0));
    Ok(())
}

// A chain of `or` has the fault of a test that it comes to, and of no other.
#[test]
fn the_values_of_an_or(rt: HostRuntime) -> Result<(), Fail> {
    let alloc = rt.alloc();
    let left = Box::new(alloc, compare(alloc, BinOp::Eq, X, 1)?)?;
    let quotient = Expr::Bin(
        BinOp::Div,
        Box::new(alloc, Expr::Num(6))?,
        Box::new(alloc, Expr::Var(Y))?,
    );
    let right = Expr::Bin(
        BinOp::Gt,
        Box::new(alloc, quotient)?,
        Box::new(alloc, Expr::Num(2))?,
    );
    let formula = Formula::of(alloc, &Expr::Bin(BinOp::Or, left, Box::new(alloc, right)?))?;
    let mut stack = Stack::new(alloc, formula.depth())?;
    assert_eq!(rt; formula.value(&[1, 0], &mut stack), Ok(1));
    assert_eq!(rt; formula.value(&[0, 2], &mut stack), Ok(1));
    assert_eq!(rt; formula.value(&[0, 3], &mut stack), Ok(0));
    assert_eq!(rt; formula.value(&[0, 0], &mut stack), Err(Fault::ZeroDivisor));
    Ok(())
}

// The opposite of a chain is a list of steps.
#[test]
fn a_long_form(rt: HostRuntime) -> Result<(), Fail> {
    let alloc = rt.alloc();
    let formula = Formula::of(alloc, &Expr::Not(Box::new(alloc, condition(alloc)?)?))?;
    let mut stack = Stack::new(alloc, formula.depth())?;
    assert_eq!(rt; formula.value(&[0, 1], &mut stack), Ok(1));
    assert_eq!(rt; formula.value(&[0, 0], &mut stack), Ok(0));
    assert_eq!(rt; formula.value(&[2, 0], &mut stack), Ok(1));
    Ok(())
}

const DIFFERENCE: [Op; 3] = [Op::Load(X), Op::Push(1), Op::Bin(BinOp::Sub)];

// One operator on a variable and a number needs no stack.
#[test]
fn a_short_form(rt: HostRuntime) -> Result<(), Fail> {
    let alloc = rt.alloc();
    let formula = Formula::of(alloc, &compare(alloc, BinOp::Sub, X, 1)?)?;
    let steps = listed(alloc, &formula)?;
    assert_eq!(rt; steps.as_slice(), DIFFERENCE.as_slice());
    let mut stack = Stack::new(alloc, 2)?;
    assert_eq!(rt; formula.value(&[5], &mut stack), Ok(4));
    assert_eq!(rt;
        formula.value(&[i64::MIN], &mut stack),
        Err(Fault::Overflow)
    );
    Ok(())
}

const PRODUCT: [Op; 5] = [
    Op::Load(X),
    Op::Load(Y),
    Op::Push(2),
    Op::Bin(BinOp::Mul),
    Op::Bin(BinOp::Sub),
];

// One operator on a variable and one operator on two is a form of its own, and the first fault is the result.
#[test]
fn a_joined_form(rt: HostRuntime) -> Result<(), Fail> {
    let alloc = rt.alloc();
    let left = Box::new(alloc, Expr::Var(X))?;
    let right = Box::new(alloc, compare(alloc, BinOp::Mul, Y, 2)?)?;
    let formula = Formula::of(alloc, &Expr::Bin(BinOp::Sub, left, right))?;
    let steps = listed(alloc, &formula)?;
    assert_eq!(rt; steps.as_slice(), PRODUCT.as_slice());
    let again = Formula::of(alloc, &formula.tree(alloc)?)?;
    let steps = listed(alloc, &again)?;
    assert_eq!(rt; steps.as_slice(), PRODUCT.as_slice());
    assert_eq!(rt; formula.depth(), 3);
    let mut stack = Stack::new(alloc, 3)?;
    assert_eq!(rt; formula.value(&[5, 7], &mut stack), Ok(-9));
    assert_eq!(rt;
        formula.value(&[5, i64::MAX], &mut stack),
        Err(Fault::Overflow)
    );
    Ok(())
}
