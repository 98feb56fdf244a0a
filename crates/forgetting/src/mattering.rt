// Which variables matter.

ghost use Rattle.std.specs.Prelude.{◌≡◌, ℕ};
ghost use Rattle.gcl_core.specs.declared.rules.TheConstants.{MOST_NAMES};
ghost use Rattle.gcl_core.specs.meaning.Bounds.{StatementBelow, BlockBelow, ArmsBelow};
ghost use Rattle.gcl_core.specs.meaning.Views.{statement_of, statements_of, list_of_arms};
ghost use Rattle.forgetting.specs.Liveness.{matters_to_statement, matters_to, matters_to_arms};
ghost use Rattle.forgetting.specs.Marks.{marked};

use crate::name_set::NameSet;
use crate::reading::with_read;
use gcl_core::{Arms, Block, Stmt};

// The variables that matter before a block, from those that matter after it.
#[cycle(mattering)]
pub fn before_block(block: &Block, after: NameSet) -> NameSet
    requires { BlockBelow MOST_NAMES (statements_of block.now) }
    ensures { (y : ℕ) → marked result.marks y ≡ matters_to y (statements_of block.now) (marked after.marks y) }
{
    let mut set = after;
    let mut i = block.stmts.len();
    while i > 0 {
        i -= 1;
        set = before_statement(&block.stmts[i], set);
    }
    set
}

#[cycle(mattering)]
pub fn before_arms(arms: &Arms, after: NameSet) -> NameSet
    requires { ArmsBelow MOST_NAMES (list_of_arms arms.now) }
    ensures { (y : ℕ) → marked result.marks y ≡ matters_to_arms y (list_of_arms arms.now) (marked after.marks y) }
{
    let mut set = NameSet::none();
    let mut i = arms.arms.len();
    while i > 0 {
        i -= 1;
        set = before_block(&arms.arms[i].1, after).or(set);
    }
    set
}

#[cycle(mattering)]
#[tactic(auto, using(gcl_core::proofs::ViewLemmas::views))]
pub fn before_statement(statement: &Stmt, after: NameSet) -> NameSet
    requires { StatementBelow MOST_NAMES (statement_of statement.now) }
    ensures { (y : ℕ) → marked result.marks y ≡ matters_to_statement y (statement_of statement.now) (marked after.marks y) }
{
    match statement {
        Stmt::Skip => after,
        Stmt::Set(x, e) => with_read(e, after.without(*x)),
        Stmt::Uniform(x, e) => with_read(e, after.without(*x)),
        Stmt::Observe(e) => with_read(e, after),
        Stmt::If(e, first, second) => with_read(
            e,
            before_block(first, after).or(before_block(second, after)),
        ),
        Stmt::While(e, body) => with_read(e, after.or(before_block(body, NameSet::none()))),
        Stmt::Choice(_, first, second) => {
            before_block(first, after).or(before_block(second, after))
        }
        Stmt::Choose(arms) => before_arms(arms, after),
    }
}
