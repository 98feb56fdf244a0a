// From a program to its tree.

ghost use Rattle.std.specs.Prelude.{◌≡◌, ℕ, Bool, List, IfOk};
ghost use Rattle.std.specs.Option.{option_map};
ghost use Rattle.gcl_core.specs.meaning.Arms.{parts_of};
ghost use Rattle.gcl_core.specs.meaning.Value.{State};
ghost use Rattle.gcl_core.specs.meaning.Blocks.{block_on};
ghost use Rattle.gcl_core.specs.meaning.Views.{expression_of, statement_of, statements_of, list_of_arms};
ghost use Rattle.choice_tree.specs.Meaning.{choice_tree_on};
ghost use Rattle.choice_tree.specs.Tree.{Fail, Test, Row, no_tree};
ghost use Rattle.choice_tree.specs.TreeOf.{member_of, members_of, arm_trees, tree_of};
ghost use Rattle.choice_tree.specs.Views.{choice_tree_of, choice_trees_of};
ghost use Rattle.choice_tree.specs.WellFormed.{IsWellFormed};

use crate::parts::Parts;
use crate::tree::{Cf, CfRow};
use gcl_core::{Arms, Block, Checked, Expr, Stmt};
use std::alloc::{AllocError, Global};

// The trees of a block's statements.
#[cycle(building)]
fn row(alloc: Global, b: &Block) -> Result<CfRow, AllocError>
    ensures { IfOk result (λ r. choice_trees_of r ≡ members_of (statements_of b.now)) }
{
    let mut members = Vec::new(alloc);
    for s in &b.stmts {
        if let Some(member) = member(alloc, s)? {
            members.push(member)?;
        }
    }
    Ok(CfRow { members })
}

// A block's tree in a box.
#[cycle(building)]
#[tactic(auto, using(crate::proofs::ViewLemmas::views))]
fn boxed_row(alloc: Global, b: &Block) -> Result<Box<Cf>, AllocError>
    ensures { IfOk result (λ t. choice_tree_of t.value ≡ tree_of (statements_of b.now)) }
{
    Ok(Box::new(alloc, Cf::Row(row(alloc, b)?))?)
}

// The parts of the arms, in their order.
fn parts(alloc: Global, arms: &Arms) -> Result<Parts, AllocError>
    ensures { IfOk result (λ ps. ps ≡ parts_of (list_of_arms arms.now)) }
{
    let mut parts = Vec::new(alloc);
    for i in 0..arms.count() {
        parts.push(arms.part(i))?;
    }
    Ok(Parts::of(parts))
}

// The trees of the arms' blocks, in their order.
#[cycle(building)]
#[tactic(auto, using(crate::proofs::ViewLemmas::views))]
fn arm_row(alloc: Global, arms: &Arms) -> Result<CfRow, AllocError>
    ensures { IfOk result (λ r. choice_trees_of r ≡ arm_trees (list_of_arms arms.now)) }
{
    let mut members = Vec::new(alloc);
    for (_, block) in &arms.arms {
        members.push(Cf::Row(row(alloc, block)?))?;
    }
    Ok(CfRow { members })
}

// The test that fails where the value is 0, and else does nothing.
#[tactic(auto, using(crate::proofs::ViewLemmas::views))]
fn observation(alloc: Global, e: &Expr) -> Result<Cf, AllocError>
    ensures { IfOk result (λ t. choice_tree_of t ≡ Test (expression_of e.now) (Row no_tree) Fail) }
{
    let members = Vec::new(alloc);
    let passes = Box::new(alloc, Cf::Row(CfRow { members }))?;
    let fails = Box::new(alloc, Cf::Fail)?;
    Ok(Cf::Test(e.copy(alloc)?, passes, fails))
}

// A statement's tree, or none for a `skip`.
#[cycle(building)]
#[tactic(auto, using(gcl_core::proofs::ViewLemmas::views, crate::proofs::ViewLemmas::views))]
fn member(alloc: Global, s: &Stmt) -> Result<Option<Cf>, AllocError>
    ensures { IfOk result (λ o. option_map choice_tree_of o ≡ member_of (statement_of s.now)) }
{
    match s {
        Stmt::Skip => Ok(None),
        Stmt::Set(x, e) => Ok(Some(Cf::Set(*x, e.copy(alloc)?))),
        Stmt::Uniform(x, e) => Ok(Some(Cf::Uniform(*x, e.copy(alloc)?))),
        Stmt::Observe(e) => Ok(Some(observation(alloc, e)?)),
        Stmt::If(e, a, c) => {
            let first = boxed_row(alloc, a)?;
            let second = boxed_row(alloc, c)?;
            Ok(Some(Cf::Test(e.copy(alloc)?, first, second)))
        }
        Stmt::Choice(weight, a, c) => {
            let first = boxed_row(alloc, a)?;
            let second = boxed_row(alloc, c)?;
            Ok(Some(Cf::Choice(*weight, first, second)))
        }
        Stmt::Choose(arms) => {
            let parts = parts(alloc, arms)?;
            Ok(Some(Cf::Choose(parts, arm_row(alloc, arms)?)))
        }
        Stmt::While(e, a) => {
            let body = boxed_row(alloc, a)?;
            Ok(Some(Cf::Fix(e.copy(alloc)?, body)))
        }
    }
}

/// The choice-fix tree of a program's body: a row of the trees of its statements, in their order. It means on bits what the body
/// does, from every state and under all limits, and is well formed. It refuses where memory runs out.
pub fn to_tree(alloc: Global, p: &Checked) -> Result<Cf, AllocError>
    ensures tree { IfOk result (λ t. choice_tree_of t ≡ tree_of (statements_of p.now.body)) }
    ensures meaning { IfOk result (λ t. (n r : ℕ) (s : State) (w : List Bool) →
        choice_tree_on n r (choice_tree_of t) s w ≡ block_on n r (statements_of p.now.body) s w) }
    ensures well_formed { IfOk result (λ t. IsWellFormed (choice_tree_of t)) }
{
    Ok(Cf::Row(row(alloc, &p.program().body)?))
}
