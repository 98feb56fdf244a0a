// Values of expressions, worked by hand.

ghost use Rattle.std.specs.Prelude.{IfOk};
ghost use Rattle.gcl_core.specs.meaning.Bounds.{ExpressionBelow};
ghost use Rattle.gcl_core.specs.meaning.Views.{expression_of};

use gcl_core::{BinOp, Expr, Fault, eval};
use std::alloc::{AllocError, Global};
use std::test::Fail;

// An operator between two expressions over one variable.
fn joined(alloc: Global, op: BinOp, a: Expr, b: Expr) -> Result<Expr, AllocError>
    requires left { ExpressionBelow (expression_of a) 1 }
    requires right { ExpressionBelow (expression_of b) 1 }
    ensures { IfOk result (λ e. ExpressionBelow (expression_of e) 1) }
{
    let a = Box::new(alloc, a)?;
    let b = Box::new(alloc, b)?;
    Ok(Expr::Bin(op, a, b))
}

const NUMBERS: [(BinOp, i64, i64, Result<i64, Fault>); 27] = [
    (BinOp::Div, -7, 2, Ok(-3)),
    (BinOp::Div, 7, -2, Ok(-3)),
    (BinOp::Rem, -7, 2, Ok(-1)),
    (BinOp::Rem, 7, -2, Ok(1)),
    (BinOp::Div, 1, 0, Err(Fault::ZeroDivisor)),
    (BinOp::Rem, 1, 0, Err(Fault::ZeroDivisor)),
    (BinOp::Div, i64::MIN, -1, Err(Fault::Overflow)),
    (BinOp::Rem, i64::MIN, -1, Err(Fault::Overflow)),
    (BinOp::Mul, i64::MIN, -1, Err(Fault::Overflow)),
    (BinOp::Add, i64::MAX, 1, Err(Fault::Overflow)),
    (BinOp::Add, i64::MIN, -1, Err(Fault::Overflow)),
    (BinOp::Sub, i64::MIN, 1, Err(Fault::Overflow)),
    (BinOp::Sub, i64::MAX, -1, Err(Fault::Overflow)),
    (BinOp::Add, i64::MAX, i64::MIN, Ok(-1)),
    (BinOp::Sub, -1, i64::MAX, Ok(i64::MIN)),
    (BinOp::Eq, 2, 2, Ok(1)),
    (BinOp::Ne, 2, 2, Ok(0)),
    (BinOp::Lt, -1, 0, Ok(1)),
    (BinOp::Le, 0, 0, Ok(1)),
    (BinOp::Gt, -1, 0, Ok(0)),
    (BinOp::Ge, 0, 0, Ok(1)),
    (BinOp::And, 3, 5, Ok(1)),
    (BinOp::And, 3, 0, Ok(0)),
    (BinOp::And, 0, 5, Ok(0)),
    (BinOp::Or, 0, 7, Ok(1)),
    (BinOp::Or, 0, 0, Ok(0)),
    (BinOp::Or, 3, 0, Ok(1)),
];

fn gives(
    alloc: Global,
    op: BinOp,
    x: i64,
    y: i64,
    want: Result<i64, Fault>,
) -> Result<bool, AllocError> {
    let e = joined(alloc, op, Expr::Num(x), Expr::Num(y))?;
    Ok(eval(&e, &[0]) == want && op.apply(x, y) == want)
}

#[test]
fn operators_on_numbers(rt: HostRuntime) -> Result<(), Fail> {
    for (op, x, y, want) in NUMBERS {
        assert!(rt; gives(rt.alloc(), op, x, y, want)?, "{op:?} of {x} and {y}");
    }
    Ok(())
}

// What an operator gives between x and a division by 0.
const LEFT: [(BinOp, i64, Result<i64, Fault>); 5] = [
    (BinOp::And, 0, Ok(0)),
    (BinOp::And, 2, Err(Fault::ZeroDivisor)),
    (BinOp::Or, 2, Ok(1)),
    (BinOp::Or, 0, Err(Fault::ZeroDivisor)),
    (BinOp::Add, 0, Err(Fault::ZeroDivisor)),
];

fn gives_at(
    alloc: Global,
    op: BinOp,
    x: i64,
    want: Result<i64, Fault>,
) -> Result<bool, AllocError> {
    let quotient = joined(alloc, BinOp::Div, Expr::Num(1), Expr::Truth(false))?;
    let e = joined(alloc, op, Expr::Var(0), quotient)?;
    let copy = e.copy(alloc)?;
    Ok(eval(&copy, &[x]) == want)
}

#[test]
fn the_left_side_comes_first(rt: HostRuntime) -> Result<(), Fail> {
    for (op, x, want) in LEFT {
        assert!(rt; gives_at(rt.alloc(), op, x, want)?, "{op:?} at {x}");
    }
    Ok(())
}

// A number, what a sign makes of it, and what `not` does.
const ONE: [(i64, Result<i64, Fault>, i64); 3] = [
    (i64::MIN, Err(Fault::Overflow), 0),
    (i64::MAX, Ok(-i64::MAX), 0),
    (0, Ok(0), 1),
];

fn has_opposites(
    alloc: Global,
    x: i64,
    negative: Result<i64, Fault>,
    opposite: i64,
) -> Result<bool, AllocError> {
    let minus = Expr::Neg(Box::new(alloc, Expr::Var(0))?);
    let not = Expr::Not(Box::new(alloc, Expr::Var(0))?);
    let copy = not.copy(alloc)?;
    Ok(eval(&minus, &[x]) == negative && eval(&copy, &[x]) == Ok(opposite))
}

#[test]
fn operators_on_one_number(rt: HostRuntime) -> Result<(), Fail> {
    for (x, negative, opposite) in ONE {
        assert!(rt; has_opposites(rt.alloc(), x, negative, opposite)?, "at {x}");
    }
    Ok(())
}
