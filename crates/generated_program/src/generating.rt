//! The generated program.
ghost use Rattle.std.specs.Prelude.{◌≡◌, ◌-◌, ◌^◌, ◌<◌, ◌≤◌, IfOk};
ghost use Rattle.gcl_core.specs.meaning.Checked.{IsChecked};
ghost use Rattle.gcl_core.specs.text.StatementCounts.{count_all};
ghost use Rattle.gcl_core.specs.meaning.Views.{statements_of, source_of};
ghost use Rattle.generated_program.specs.Generated.{generated};
ghost use Rattle.generated_program.specs.declared.generating.TheConstants.{GREATEST_NUMBER};

use crate::parts::{count, difference, names, remainder, statement};
use gcl_check::check;
use gcl_core::{Block, Checked, Program, Stmt};
use std::alloc::{AllocError, Global};

/// The greatest number of which there is a generated program.
pub const GREATEST_NUMBER: u32 = 1000;

/// The generated program of a number, which is accepted as it is. An error comes only where memory runs out.
pub fn generate(alloc: Global, k: u32) -> Result<Program, AllocError>
    requires { k ≤ GREATEST_NUMBER }
    ensures program { IfOk result (λ p. source_of p ≡ generated k) }
    ensures checked { IfOk result (λ p. IsChecked (source_of p)) }
    ensures few { IfOk result (λ p. count_all (statements_of p.body) < 2 ^ 32 - 1) }
{
    let mut stmts = Vec::new(alloc);
    for x in 0..8 {
        stmts.push(Stmt::Set(x, count(x)))?;
    }
    for i in 0..k {
        stmts.push(statement(alloc, i)?)?;
    }
    stmts.push(Stmt::Observe(difference(alloc, 1, 4, 3)?))?;
    Ok(Program {
        names: names(alloc)?,
        body: Block { stmts },
        result: remainder(alloc, 0, 100)?,
    })
}

/// The generated program of a number, checked, which the check does not refuse or change. An error comes only where memory runs
/// out.
pub fn generate_checked(alloc: Global, k: u32) -> Result<Checked, AllocError>
    requires { k ≤ GREATEST_NUMBER }
    ensures program { IfOk result (λ c. source_of c ≡ generated k) }
    ensures few { IfOk result (λ c. count_all (statements_of c.body) < 2 ^ 32 - 1) }
{
    match check(generate(alloc, k)?) {
        Ok(checked) => Ok(checked),
        Err(_) => unreachable!(),
    }
}
