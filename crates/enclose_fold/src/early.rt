// Which statements of a block are walked state by state: a draw among many numbers, as far as what it drew is set anew.

ghost use Rattle.std.specs.Prelude.{◌≡◌, ◌<◌, ◌≤◌, ◌+◌, false, length};
ghost use Rattle.gcl_core.specs.meaning.Bounds.{BlockBelow, ExpressionBelow};
ghost use Rattle.gcl_core.specs.meaning.Views.{expression_of, statement_of, statements_of};
ghost use Rattle.enclose_fold.specs.inner.Between.{between};
ghost use Rattle.enclose_fold.specs.inner.Exact.{one_rounds, any_rounds, DrawsOnce};

use crate::table::Table;
use gcl_core::{Block, Expr, Stmt, eval};

// The most states that a draw may lead to, counted as if all were different, where the table is walked as a whole.
const FEW_STATES: u64 = 8_192;

// How many statements may be walked state by state.
const MOST_STATEMENTS: usize = 16;

// Whether a block may round a product.
#[cycle(rounding)]
fn block_rounds(block: &Block) -> bool
    ensures { result ≡ any_rounds (statements_of block.now) }
{
    for statement in &block.stmts {
        if statement_rounds(statement) {
            return true;
        }
    }
    false
}

#[cycle(rounding)]
#[tactic(auto, using(gcl_core::proofs::ViewLemmas::views))]
fn statement_rounds(statement: &Stmt) -> bool
    ensures { result ≡ one_rounds (statement_of statement.now) }
{
    match statement {
        Stmt::If(_, first, second) => block_rounds(first) || block_rounds(second),
        Stmt::Skip | Stmt::Set(_, _) | Stmt::Observe(_) => false,
        Stmt::While(_, _) | Stmt::Choice(_, _, _) | Stmt::Choose(_) | Stmt::Uniform(_, _) => true,
    }
}

// Whether each way through a block sets the variable x.
#[cycle(setting)]
fn block_sets(block: &Block, x: u32) -> bool {
    for statement in &block.stmts {
        if statement_sets(statement, x) {
            return true;
        }
    }
    false
}

// Whether each way through a statement sets the variable x to the value of an expression, where it rounds nothing.
#[cycle(setting)]
fn statement_sets(statement: &Stmt, x: u32) -> bool {
    match statement {
        Stmt::Set(y, _) => *y == x,
        Stmt::If(_, first, second) => block_sets(first, x) && block_sets(second, x),
        Stmt::Skip
        | Stmt::Observe(_)
        | Stmt::While(_, _)
        | Stmt::Choice(_, _, _)
        | Stmt::Choose(_)
        | Stmt::Uniform(_, _) => false,
    }
}

// Where x is set anew behind the statement at `from`, if that is near and nothing is rounded on the way; else the next statement.
fn set_anew(block: &Block, from: usize, x: u32) -> usize
    requires { from < length block.now.stmts.items }
    ensures above { from < result }
    ensures inside { result ≤ length block.now.stmts.items }
    ensures exact { any_rounds (between (from + 1) result block.now.stmts.items) ≡ false }
{
    for at in from + 1..block.stmts.len() {
        let statement = &block.stmts[at];
        if at - from >= MOST_STATEMENTS || statement_rounds(statement) {
            return from + 1;
        }
        if statement_sets(statement, x) {
            return at + 1;
        }
    }
    from + 1
}

// How many numbers the draw of one state is made among.
fn bound(e: &Expr, values: &[i64]) -> u64
    requires { ExpressionBelow (expression_of e.now) (length values.now) }
{
    match eval(e, values) {
        Ok(v) => u64::try_from(v).unwrap_or(0),
        Err(_) => 0,
    }
}

// How many numbers the uniform draws of a table's states are made among.
fn drawn(e: &Expr, table: &Table) -> u64
    requires { ExpressionBelow (expression_of e.now) table.now.vars }
{
    let mut sum = 0u64;
    for (state, _) in &table.states {
        sum = sum.saturating_add(bound(e, state.values()));
    }
    sum
}

/// Up to which statement a block is walked state by state: where a statement draws among many numbers, as far as what it drew is set
/// anew, if nothing is rounded on the way. Else the next one.
pub fn walked_to(block: &Block, from: usize, table: &Table) -> usize
    requires below { BlockBelow table.now.vars (statements_of block.now) }
    requires inside { from < length block.now.stmts.items }
    ensures above { from < result }
    ensures inside { result ≤ length block.now.stmts.items }
    ensures once { from + 1 < result → DrawsOnce (between from result block.now.stmts.items) }
{
    match &block.stmts[from] {
        Stmt::Uniform(x, e) => {
            if drawn(e, table) <= FEW_STATES {
                return from + 1;
            }
            set_anew(block, from, *x)
        }
        _ => from + 1,
    }
}
