// Which statements of a block are walked state by state: a draw among many numbers, as far as what it drew is set anew.

ghost use Rattle.std.specs.Prelude.{◌<◌, ◌≤◌, length};
ghost use Rattle.gcl_core.specs.meaning.Bounds.{BlockBelow};
ghost use Rattle.gcl_core.specs.meaning.Views.{statements_of};

use crate::loops::statement_loops;
use crate::parts::drawn;
use gcl_core::{Arms, Block, Stmt};
use mass_fold::Table;

// The most states that a draw may lead to, counted as if all were different, where the table is walked as a whole.
const FEW_STATES: u64 = 8_192;

// How many statements may be walked state by state.
const MOST_STATEMENTS: usize = 16;

// Whether each way through a block sets the variable x.
#[cycle(setting)]
fn block_sets(block: &Block, x: u32) -> bool {
    for statement in &block.stmts {
        if statement_sets(statement, x) {
            return true;
        }
    }
    false
}

#[cycle(setting)]
fn arms_set(arms: &Arms, x: u32) -> bool {
    for (_, block) in &arms.arms {
        if !block_sets(block, x) {
            return false;
        }
    }
    true
}

// Whether each way through a statement sets the variable x to the value of an expression.
#[cycle(setting)]
fn statement_sets(statement: &Stmt, x: u32) -> bool {
    match statement {
        Stmt::Set(y, _) => *y == x,
        Stmt::If(_, first, second) => block_sets(first, x) && block_sets(second, x),
        Stmt::Choice(_, first, second) => block_sets(first, x) && block_sets(second, x),
        Stmt::Choose(arms) => arms_set(arms, x),
        Stmt::Skip | Stmt::Uniform(_, _) | Stmt::Observe(_) | Stmt::While(_, _) => false,
    }
}

// Whether what the statement at `at` draws, if it draws, is set anew by one of the statements behind it before `to`.
fn passes(block: &Block, at: usize, to: usize) -> bool
    requires inside { at < to }
    requires few { to ≤ length block.now.stmts.items }
{
    match &block.stmts[at] {
        Stmt::Uniform(x, _) => {
            for i in at + 1..to {
                if statement_sets(&block.stmts[i], *x) {
                    return true;
                }
            }
            false
        }
        _ => true,
    }
}

// Whether all that is drawn from `from` on is set anew before `to`.
fn all_pass(block: &Block, from: usize, to: usize) -> bool
    requires { to ≤ length block.now.stmts.items }
{
    for at in from..to {
        if !passes(block, at, to) {
            return false;
        }
    }
    true
}

// Where all that is drawn from `from` on is set anew, if that is near; else the next statement.
fn set_anew(block: &Block, from: usize) -> usize
    requires { from < length block.now.stmts.items }
    ensures above { from < result }
    ensures inside { result ≤ length block.now.stmts.items }
{
    for at in from..block.stmts.len() {
        if at - from >= MOST_STATEMENTS || statement_loops(&block.stmts[at]) {
            return from + 1;
        }
        if all_pass(block, from, at + 1) {
            return at + 1;
        }
    }
    from + 1
}

/// Up to which statement a block is walked state by state: where a statement draws among many numbers, as far as all that is drawn on
/// the way is set anew. Else the next one.
pub fn walked_to(block: &Block, from: usize, table: &Table) -> usize
    requires below { BlockBelow table.now.vars (statements_of block.now) }
    requires inside { from < length block.now.stmts.items }
    ensures above { from < result }
    ensures inside { result ≤ length block.now.stmts.items }
{
    match &block.stmts[from] {
        Stmt::Uniform(_, e) => {
            if drawn(e, table) <= FEW_STATES {
                return from + 1;
            }
            set_anew(block, from)
        }
        _ => from + 1,
    }
}
