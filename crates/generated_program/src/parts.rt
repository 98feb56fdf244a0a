//! The parts of the generated program.
ghost use Rattle.std.specs.Prelude.{◌≡◌, ◌<◌, IfOk, pos};
ghost use Rattle.gcl_core.specs.meaning.Syntax.{Num, Var, Bin, Set, done, ◌▸◌};
ghost use Rattle.gcl_core.specs.meaning.Views.{expression_of, statement_of, statements_of};
ghost use Rattle.generated_program.specs.declared.generating.TheConstants.{GREATEST_NUMBER};
ghost use Rattle.generated_program.specs.Generated.{variable_names, plus_number, modulo, differs, less, add_one, numbered_statement};

use gcl_core::{BinOp, Block, Expr, Names, Stmt, Weight};
use std::alloc::{AllocError, Global};

// The names of the eight variables, in their order.
pub fn names(alloc: Global) -> Result<Names, AllocError>
    ensures { IfOk result (λ names. names ≡ variable_names) }
{
    let mut names = Names::new(alloc);
    names.add(b"v0")?;
    names.add(b"v1")?;
    names.add(b"v2")?;
    names.add(b"v3")?;
    names.add(b"v4")?;
    names.add(b"v5")?;
    names.add(b"v6")?;
    names.add(b"v7")?;
    Ok(names)
}

fn operation(alloc: Global, op: BinOp, left: Expr, right: Expr) -> Result<Expr, AllocError>
    ensures { IfOk result (λ e. expression_of e ≡ Bin op (expression_of left) (expression_of right)) }
{
    Ok(Expr::Bin(op, Box::new(alloc, left)?, Box::new(alloc, right)?))
}

// A number that is not below 0.
pub fn count(n: u32) -> Expr
    ensures { expression_of result ≡ Num (pos n) }
{
    Expr::Num(i64::from(n))
}

fn sum(alloc: Global, x: u32, n: u32) -> Result<Expr, AllocError>
    ensures { IfOk result (λ e. expression_of e ≡ plus_number x n) }
{
    operation(alloc, BinOp::Add, Expr::Var(x), count(n))
}

pub fn remainder(alloc: Global, x: u32, n: u32) -> Result<Expr, AllocError>
    ensures { IfOk result (λ e. expression_of e ≡ modulo x n) }
{
    operation(alloc, BinOp::Rem, Expr::Var(x), count(n))
}

pub fn difference(alloc: Global, x: u32, n: u32, m: u32) -> Result<Expr, AllocError>
    ensures { IfOk result (λ e. expression_of e ≡ differs x n m) }
{
    let left = remainder(alloc, x, n)?;
    operation(alloc, BinOp::Ne, left, count(m))
}

fn comparison(alloc: Global, x: u32, y: u32) -> Result<Expr, AllocError>
    ensures { IfOk result (λ e. expression_of e ≡ less x y) }
{
    operation(alloc, BinOp::Lt, Expr::Var(x), Expr::Var(y))
}

// The block with an assignment alone.
#[tactic(auto, using(gcl_core::proofs::ViewLemmas::views))]
fn assignment(alloc: Global, x: u32, e: Expr) -> Result<Block, AllocError>
    ensures { IfOk result (λ b. statements_of b ≡ Set x (expression_of e) ▸ done) }
{
    let mut stmts = Vec::new(alloc);
    stmts.push(Stmt::Set(x, e))?;
    Ok(Block { stmts })
}

fn increment(alloc: Global, x: u32) -> Result<Block, AllocError>
    ensures { IfOk result (λ b. statements_of b ≡ add_one x) }
{
    assignment(alloc, x, sum(alloc, x, 1)?)
}

// The statement of a number.
#[tactic(auto, using(gcl_core::proofs::ViewLemmas::views))]
pub fn statement(alloc: Global, i: u32) -> Result<Stmt, AllocError>
    requires { i < GREATEST_NUMBER }
    ensures { IfOk result (λ s. statement_of s ≡ numbered_statement i) }
{
    let v = i % 8;
    let w = (i + 3) % 8;
    match i % 5 {
        0 => Ok(Stmt::Set(v, sum(alloc, w, i)?)),
        1 => Ok(Stmt::Uniform(v, count(i % 7 + 2))),
        2 => {
            let weight = Weight {
                num: 1,
                den: u64::from(i % 9 + 2),
            };
            let copied = assignment(alloc, v, Expr::Var(w))?;
            Ok(Stmt::Choice(weight, copied, increment(alloc, v)?))
        }
        3 => {
            let test = comparison(alloc, v, w)?;
            let first = increment(alloc, v)?;
            Ok(Stmt::If(test, first, increment(alloc, w)?))
        }
        4.. => {
            let test = difference(alloc, v, 3, 0)?;
            Ok(Stmt::While(test, increment(alloc, v)?))
        }
    }
}
