// Which variables may differ from 0.

ghost use Rattle.std.specs.Prelude.{◌≡◌, ℕ};
ghost use Rattle.gcl_core.specs.declared.rules.TheConstants.{MOST_NAMES};
ghost use Rattle.gcl_core.specs.meaning.Bounds.{StatementBelow, BlockBelow, ArmsBelow};
ghost use Rattle.gcl_core.specs.meaning.Views.{expression_of, statement_of, statements_of, list_of_arms};
ghost use Rattle.forgetting.specs.Filling.{is_nought, filled_by_statement, filled_by, filled_by_arms};
ghost use Rattle.forgetting.specs.Marks.{marked};

use crate::name_set::NameSet;
use gcl_core::{Arms, Block, Expr, Stmt};

// Whether an expression is the number 0 as it is written.
fn is_nought(e: &Expr) -> bool
    ensures { result ≡ is_nought (expression_of e.now) }
{
    match e {
        Expr::Num(n) => *n == 0,
        Expr::Truth(_) | Expr::Var(_) | Expr::Neg(_) | Expr::Not(_) | Expr::Bin(_, _, _) => false,
    }
}

// The variables that may differ from 0 behind a block, from those that may before it.
#[cycle(filling)]
pub fn behind_block(block: &Block, filled: NameSet) -> NameSet
    requires { BlockBelow MOST_NAMES (statements_of block.now) }
    ensures { (y : ℕ) → marked result.marks y ≡ filled_by y (statements_of block.now) (marked filled.marks y) }
{
    let mut set = filled;
    for i in 0..block.stmts.len() {
        set = behind_statement(&block.stmts[i], set);
    }
    set
}

#[cycle(filling)]
pub fn behind_arms(arms: &Arms, filled: NameSet) -> NameSet
    requires { ArmsBelow MOST_NAMES (list_of_arms arms.now) }
    ensures { (y : ℕ) → marked result.marks y ≡ filled_by_arms y (list_of_arms arms.now) (marked filled.marks y) }
{
    let mut set = NameSet::none();
    let mut i = arms.arms.len();
    while i > 0 {
        i -= 1;
        set = behind_block(&arms.arms[i].1, filled).or(set);
    }
    set
}

#[cycle(filling)]
#[tactic(auto, using(gcl_core::proofs::ViewLemmas::views))]
pub fn behind_statement(statement: &Stmt, filled: NameSet) -> NameSet
    requires { StatementBelow MOST_NAMES (statement_of statement.now) }
    ensures { (y : ℕ) → marked result.marks y ≡ filled_by_statement y (statement_of statement.now) (marked filled.marks y) }
{
    match statement {
        Stmt::Skip | Stmt::Observe(_) => filled,
        Stmt::Set(x, e) => {
            if is_nought(e) {
                filled.without(*x)
            } else {
                filled.with(*x)
            }
        }
        Stmt::Uniform(x, _) => filled.with(*x),
        Stmt::If(_, first, second) | Stmt::Choice(_, first, second) => {
            behind_block(first, filled).or(behind_block(second, filled))
        }
        Stmt::While(_, body) => filled.or(behind_block(body, NameSet::none())),
        Stmt::Choose(arms) => behind_arms(arms, filled),
    }
}
