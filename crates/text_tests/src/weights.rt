// Weights and parts in lowest terms, beyond those that a text can spell, too.

ghost use Rattle.std.specs.Prelude.{◌≡◌, ◌-◌, ◌^◌, ◌<◌, length, IfOk};
ghost use Rattle.gcl_core.specs.meaning.Bounds.{BlockBelow, BlockCounted, ExpressionBelow};
ghost use Rattle.gcl_core.specs.text.StatementCounts.{count_all};
ghost use Rattle.gcl_core.specs.meaning.Syntax.{Choose, done, ◌▸◌, no_arm, arm};
ghost use Rattle.gcl_core.specs.meaning.Views.{expression_of, statement_of, statements_of};

use gcl_check::{CheckError, check};
use gcl_core::{Arms, Block, Checked, Expr, Names, Program, Stmt, Weight};
use std::alloc::{AllocError, Global};
use std::test::Fail;

fn none(alloc: Global) -> Block
    ensures { statements_of result ≡ done }
{
    Block {
        stmts: Vec::new(alloc),
    }
}

fn two(alloc: Global, first: Stmt, second: Stmt) -> Result<Block, AllocError>
    ensures { IfOk result (λ b. statements_of b ≡ statement_of first ▸ statement_of second ▸ done) }
{
    let mut stmts = Vec::new(alloc);
    stmts.push(first)?;
    stmts.push(second)?;
    Ok(Block { stmts })
}

// A choice among three arms with these parts, the last of which is empty.
#[tactic(auto, using(gcl_core::proofs::ViewLemmas::views))]
fn choose(
    alloc: Global,
    parts: (u64, u64, u64),
    first: Block,
    second: Block,
) -> Result<Stmt, AllocError>
    ensures { IfOk result (λ s. statement_of s
        ≡ Choose (arm parts.0 (statements_of first) (arm parts.1 (statements_of second) (arm parts.2 done no_arm)))) }
{
    let (a, b, c) = parts;
    let last = none(alloc);
    let arms = vec![in alloc; (a, first), (b, second), (c, last)]?;
    Ok(Stmt::Choose(Arms { arms }))
}

fn checked(
    alloc: Global,
    body: Block,
    value: Expr,
) -> Result<Result<Checked, CheckError>, AllocError>
    requires body { BlockBelow 2 (statements_of body) }
    requires value { ExpressionBelow (expression_of value) 2 }
    requires count { count_all (statements_of body) < 2 ^ 32 - 1 }
    requires arms { BlockCounted (statements_of body) }
{
    let mut names = Names::new(alloc);
    names.add(b"x")?;
    names.add(b"y")?;
    Ok(check(Program {
        names,
        body,
        result: value,
    }))
}

const FINEST: u64 = 4_611_686_018_427_387_904;

// The numerator and the denominator of a weight, and what they are in lowest terms.
const WEIGHTS: [(u64, u64, Result<(u64, u64), CheckError>); 9] = [
    (2, 3, Ok((2, 3))),
    (0, 5, Ok((0, 1))),
    (4, 4, Ok((1, 1))),
    (2, 514, Ok((1, 257))),
    (1, FINEST, Ok((1, FINEST))),
    (2, 2 * FINEST, Ok((1, FINEST))),
    (5, 4, Err(CheckError::WeightAboveOne { stmt: 1 })),
    (1, 0, Err(CheckError::ZeroDenominator { stmt: 1 })),
    (1, FINEST + 1, Err(CheckError::TooFine { stmt: 1 })),
];

// Whether the second statement has the weight.
fn has_weight(program: &Program, num: u64, den: u64) -> bool {
    match program.body.stmts.as_slice() {
        [_, Stmt::Choice(weight, ..)] => *weight == Weight { num, den },
        _ => false,
    }
}

#[tactic(auto, using(gcl_core::proofs::ViewLemmas::views))]
fn is_weight(
    alloc: Global,
    num: u64,
    den: u64,
    want: Result<(u64, u64), CheckError>,
) -> Result<bool, AllocError> {
    let choice = Stmt::Choice(Weight { num, den }, none(alloc), none(alloc));
    let body = two(alloc, Stmt::Skip, choice)?;
    match checked(alloc, body, Expr::Num(0))? {
        Ok(checked) => match want {
            Ok((num, den)) => Ok(has_weight(checked.program(), num, den)),
            Err(_) => Ok(false),
        },
        Err(error) => Ok(want == Err(error)),
    }
}

#[test]
fn weights(rt: HostRuntime) -> Result<(), Fail> {
    for (num, den, want) in WEIGHTS {
        assert!(rt; is_weight(rt.alloc(), num, den, want)?, "of {num}/{den}");
    }
    Ok(())
}

type Three = (u64, u64, u64);

// The parts of three arms, and what they are in lowest terms.
const PARTS: [(Three, Result<Three, CheckError>); 9] = [
    ((3, 2, 1), Ok((3, 2, 1))),
    ((6, 0, 4), Ok((3, 0, 2))),
    ((0, 5, 0), Ok((0, 1, 0))),
    ((u64::MAX, u64::MAX, u64::MAX), Ok((1, 1, 1))),
    ((FINEST - 1, 1, 0), Ok((FINEST - 1, 1, 0))),
    ((2, 2 * FINEST - 2, 0), Ok((1, FINEST - 1, 0))),
    ((0, 0, 0), Err(CheckError::ZeroDenominator { stmt: 1 })),
    ((FINEST, 1, 0), Err(CheckError::TooFine { stmt: 1 })),
    (
        (u64::MAX, u64::MAX - 1, 0),
        Err(CheckError::TooFine { stmt: 1 }),
    ),
];

// Whether the second statement has the parts.
fn has_parts(program: &Program, parts: Three) -> bool {
    match program.body.stmts.as_slice() {
        [_, Stmt::Choose(arms)] => match arms.arms.as_slice() {
            [(a, _), (b, _), (c, _)] => (*a, *b, *c) == parts,
            _ => false,
        },
        _ => false,
    }
}

#[tactic(auto, using(gcl_core::proofs::ViewLemmas::views))]
fn are_parts(
    alloc: Global,
    parts: Three,
    want: Result<Three, CheckError>,
) -> Result<bool, AllocError> {
    let body = two(
        alloc,
        Stmt::Skip,
        choose(alloc, parts, none(alloc), none(alloc))?,
    )?;
    match checked(alloc, body, Expr::Num(0))? {
        Ok(checked) => match want {
            Ok(parts) => Ok(has_parts(checked.program(), parts)),
            Err(_) => Ok(false),
        },
        Err(error) => Ok(want == Err(error)),
    }
}

#[test]
fn parts(rt: HostRuntime) -> Result<(), Fail> {
    for (parts, want) in PARTS {
        assert!(rt; are_parts(rt.alloc(), parts, want)?, "of {parts:?}");
    }
    Ok(())
}
