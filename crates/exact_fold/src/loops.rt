// Whether a program has a loop.

ghost use Rattle.std.specs.Prelude.{◌≡◌};
ghost use Rattle.gcl_core.specs.meaning.Views.{statement_of, statements_of, list_of_arms};
ghost use Rattle.exact_fold.specs.Loops.{is_loop, any_loops};
ghost use Rattle.gcl_core.specs.text.ReadingOrder.{statement_listed, arms_listed};
ghost use Rattle.std.specs.List.{list_any};

use gcl_core::{Arms, Block, Stmt};

/// Whether a block has a loop, in blocks inside too.
#[cycle(loops)]
pub fn block_loops(block: &Block) -> bool
    ensures { result ≡ any_loops (statements_of block.now) }
{
    for statement in &block.stmts {
        if statement_loops(statement) {
            return true;
        }
    }
    false
}

#[cycle(loops)]
fn arms_loop(arms: &Arms) -> bool
    ensures { result ≡ list_any is_loop (arms_listed (list_of_arms arms.now)) }
{
    for (_, block) in &arms.arms {
        if block_loops(block) {
            return true;
        }
    }
    false
}

#[cycle(loops)]
#[tactic(auto, using(gcl_core::proofs::ViewLemmas::views))]
pub fn statement_loops(statement: &Stmt) -> bool
    ensures { result ≡ list_any is_loop (statement_listed (statement_of statement.now)) }
{
    match statement {
        Stmt::If(_, first, second) => block_loops(first) || block_loops(second),
        Stmt::Choice(_, first, second) => block_loops(first) || block_loops(second),
        Stmt::Choose(arms) => arms_loop(arms),
        Stmt::While(_, _) => true,
        Stmt::Skip | Stmt::Set(_, _) | Stmt::Uniform(_, _) | Stmt::Observe(_) => false,
    }
}
