// The forgetful form of blocks.

ghost use Rattle.std.specs.Prelude.{◌≡◌, ◌≤◌, ◌<◌, ◌&&◌, pos, not, reverse, if◌then◌else◌, IfOk};
ghost use Rattle.gcl_core.specs.declared.rules.TheConstants.{MOST_NAMES};
ghost use Rattle.gcl_core.specs.meaning.Bounds.{StatementBelow, BlockBelow, ArmsBelow};
ghost use Rattle.gcl_core.specs.meaning.Syntax.{Num, Set, ◌▸◌};
ghost use Rattle.gcl_core.specs.meaning.Views.{statement_of, list_of, statements_of, list_of_arms};
ghost use Rattle.forgetting.specs.Liveness.{before};
ghost use Rattle.forgetting.specs.Forgetful.{forget, forgetful_statement, forgetful, forgetful_arms};
ghost use Rattle.forgetting.specs.Marks.{marked};

use crate::along::fronts;
use crate::ends::{names_at, names_before, names_behind, names_ended};
use crate::mattering::before_statement;
use crate::name_set::NameSet;
use gcl_core::{Arms, Block, Expr, Stmt};
use std::alloc::{AllocError, Global};

// Sets a variable to 0, before the statements of a block that stand in reverse, where it is in the one set and not in the other.
#[tactic(auto, using(crate::proofs::Making::put_zero))]
fn forget_one(
    reversed: Vec<Stmt>,
    x: u32,
    old: NameSet,
    kept: NameSet,
) -> Result<Vec<Stmt>, AllocError>
    requires { x < MOST_NAMES }
    ensures { IfOk result (λ v. list_of (reverse v.items) ≡ (if marked old.marks x && not (marked kept.marks x)
        then (Set x (Num (pos 0)) ▸ list_of (reverse reversed.items)) else list_of (reverse reversed.items))) }
{
    if !old.dies(kept, x) {
        return Ok(reversed);
    }
    let mut reversed = reversed;
    reversed.push(Stmt::Set(x, Expr::Num(0)))?;
    Ok(reversed)
}

// Sets to 0, before the statements of a block that stand in reverse, each variable that is in the one set and not in the other.
fn forget_names(
    reversed: Vec<Stmt>,
    count: u32,
    old: NameSet,
    kept: NameSet,
) -> Result<Vec<Stmt>, AllocError>
    requires { count ≤ MOST_NAMES }
    ensures { IfOk result (λ v. list_of (reverse v.items) ≡ forget count (marked old.marks) (marked kept.marks) (list_of (reverse reversed.items))) }
{
    let mut reversed = reversed;
    for x in 0..count {
        reversed = forget_one(reversed, x, old, kept)?;
    }
    Ok(reversed)
}

// The forgetful form of a block, where variables may be forgotten at the fork that leads to it, may differ from 0 there, and matter
// after it.
#[cycle(forgetting)]
pub fn forgetful_branch(
    alloc: Global,
    block: &Block,
    count: u32,
    old: NameSet,
    filled: NameSet,
    after: NameSet,
) -> Result<Block, AllocError>
    requires below { BlockBelow MOST_NAMES (statements_of block.now) }
    requires few { count ≤ MOST_NAMES }
    ensures { IfOk result (λ b. statements_of b ≡ forget count (marked old.marks)
        (before (statements_of block.now) (marked after.marks)) (forgetful count (statements_of block.now) (marked filled.marks) (marked after.marks))) }
{
    let fronts = fronts(alloc, block, filled)?;
    let mut reversed = Vec::new(alloc);
    let mut set = after;
    let mut i = block.stmts.len();
    while i > 0 {
        let behind = fronts[i];
        i -= 1;
        let front = fronts[i];
        let statement = &block.stmts[i];
        reversed = forget_names(reversed, count, names_ended(statement, behind, set), set)?;
        reversed.push(forgetful_statement(alloc, statement, count, front, set)?)?;
        set = before_statement(statement, set);
    }
    let mut stmts = forget_names(reversed, count, old, set)?;
    stmts.reverse();
    Ok(Block { stmts })
}

#[cycle(forgetting)]
fn forgetful_arms(
    alloc: Global,
    arms: &Arms,
    count: u32,
    old: NameSet,
    filled: NameSet,
    after: NameSet,
) -> Result<Arms, AllocError>
    requires below { ArmsBelow MOST_NAMES (list_of_arms arms.now) }
    requires few { count ≤ MOST_NAMES }
    ensures { IfOk result (λ a. list_of_arms a
        ≡ forgetful_arms count (list_of_arms arms.now) (marked old.marks) (marked filled.marks) (marked after.marks)) }
{
    let mut reversed = Vec::new(alloc);
    let mut i = arms.arms.len();
    while i > 0 {
        i -= 1;
        let block = forgetful_branch(alloc, &arms.arms[i].1, count, old, filled, after)?;
        reversed.push((arms.arms[i].0, block))?;
    }
    reversed.reverse();
    Ok(Arms { arms: reversed })
}

#[cycle(forgetting)]
#[tactic(auto, using(gcl_core::proofs::ViewLemmas::views))]
fn forgetful_statement(
    alloc: Global,
    statement: &Stmt,
    count: u32,
    filled: NameSet,
    after: NameSet,
) -> Result<Stmt, AllocError>
    requires below { StatementBelow MOST_NAMES (statement_of statement.now) }
    requires few { count ≤ MOST_NAMES }
    ensures { IfOk result (λ s. statement_of s
        ≡ forgetful_statement count (statement_of statement.now) (marked filled.marks) (marked after.marks)) }
{
    let old = names_at(statement, filled, after);
    match statement {
        Stmt::Skip => Ok(Stmt::Skip),
        Stmt::Set(x, e) => Ok(Stmt::Set(*x, e.copy(alloc)?)),
        Stmt::Uniform(x, e) => Ok(Stmt::Uniform(*x, e.copy(alloc)?)),
        Stmt::Observe(e) => Ok(Stmt::Observe(e.copy(alloc)?)),
        Stmt::If(e, first, second) => {
            let guard = e.copy(alloc)?;
            let first = forgetful_branch(alloc, first, count, old, filled, after)?;
            let second = forgetful_branch(alloc, second, count, old, filled, after)?;
            Ok(Stmt::If(guard, first, second))
        }
        Stmt::While(e, body) => {
            let guard = e.copy(alloc)?;
            let head = names_before(statement, after);
            let filled = names_behind(statement, filled);
            let body = forgetful_branch(alloc, body, count, head.and(filled), filled, head)?;
            Ok(Stmt::While(guard, body))
        }
        Stmt::Choice(weight, first, second) => {
            let first = forgetful_branch(alloc, first, count, old, filled, after)?;
            let second = forgetful_branch(alloc, second, count, old, filled, after)?;
            Ok(Stmt::Choice(*weight, first, second))
        }
        Stmt::Choose(arms) => Ok(Stmt::Choose(forgetful_arms(
            alloc, arms, count, old, filled, after,
        )?)),
    }
}
