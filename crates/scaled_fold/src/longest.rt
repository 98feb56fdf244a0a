// How many bits a program may read at most, by one attempt for each draw.

ghost use Rattle.std.specs.Prelude.{IfOk};
ghost use Rattle.gcl_core.specs.meaning.Views.{statement_of, statements_of, list_of_arms};
ghost use Rattle.scaled_fold.specs.inner.Longest.{BlockReads, StatementReads, ArmsRead};

use crate::error::PairsError;
use crate::pair::{multiple, sum};
use gcl_core::{Arms, Block, Stmt};

// A number has 64 bits with its sign, so an attempt of a draw takes so many at most.
const MOST_FLIPS: u128 = 63;

/// At least as many bits as a block may read under a limit of turns for each entry of a loop, by one attempt for each draw: what all branches may
/// read is added up.
#[cycle(longest)]
pub fn block_reads(block: &Block, turns: u64) -> Result<u128, PairsError>
    ensures { IfOk result (BlockReads turns (statements_of block.now)) }
{
    let mut all = 0;
    for statement in &block.stmts {
        all = sum(all, statement_reads(statement, turns)?)?;
    }
    Ok(all)
}

#[cycle(longest)]
fn arms_read(arms: &Arms, turns: u64) -> Result<u128, PairsError>
    ensures { IfOk result (ArmsRead turns (list_of_arms arms.now)) }
{
    let mut all = 0;
    for (_, block) in &arms.arms {
        all = sum(all, block_reads(block, turns)?)?;
    }
    Ok(all)
}

#[cycle(longest)]
fn statement_reads(statement: &Stmt, turns: u64) -> Result<u128, PairsError>
    ensures { IfOk result (StatementReads turns (statement_of statement.now)) }
{
    match statement {
        Stmt::Skip => Ok(0),
        Stmt::Set(_, _) => Ok(0),
        Stmt::Observe(_) => Ok(0),
        Stmt::Uniform(_, _) => Ok(MOST_FLIPS),
        Stmt::If(_, first, second) => {
            let one = block_reads(first, turns)?;
            sum(one, block_reads(second, turns)?)
        }
        Stmt::Choice(_, first, second) => {
            let one = block_reads(first, turns)?;
            let both = sum(one, block_reads(second, turns)?)?;
            sum(MOST_FLIPS, both)
        }
        Stmt::Choose(arms) => sum(MOST_FLIPS, arms_read(arms, turns)?),
        Stmt::While(_, body) => multiple(block_reads(body, turns)?, u128::from(turns)),
    }
}
