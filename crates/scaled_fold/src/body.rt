// The body of a program, begun with every variable 0.

ghost use Rattle.std.specs.Prelude.{◌≡◌, length, IfOk};
ghost use Rattle.gcl_core.specs.meaning.Views.{source_of};
ghost use Rattle.scaled_fold.specs.Doubling.{doubled_round};
ghost use Rattle.scaled_fold.specs.inner.Holding.{Begins, Holds};

use crate::ended::Ended;
use crate::error::PairsError;
use crate::fold::Fold;
use crate::stack::Stack;
use crate::table::Table;
use crate::walk::Walk;
use gcl_core::Checked;
use std::alloc::Global;

// The state of zeros, with all units.
fn begun(alloc: Global, vars: u32) -> Result<Walk, PairsError>
    ensures ok { IfOk result (Begins vars) }
    ensures vars { IfOk result (λ w. w.next.vars ≡ vars) }
{
    Ok(Walk {
        next: Table::start(alloc, vars)?,
        aside: Stack::new(alloc, vars),
        ended: Ended::none(),
        loose: (0, 0),
        doubled: 0,
    })
}

/// Where the walk through the body of a program leads, under a limit of turns for each entry of a loop, and of attempts, where they have one.
pub fn walk_through(
    alloc: Global,
    p: &Checked,
    turns: u64,
    attempts: Option<u64>,
) -> Result<Walk, PairsError>
    ensures ok { IfOk result (Holds (doubled_round (source_of p.now) turns attempts)) }
    ensures vars { IfOk result (λ w. w.next.vars ≡ length (source_of p.now).names) }
{
    let program = p.program();
    let walk = begun(alloc, program.names.count())?;
    let fold = Fold {
        alloc,
        turns,
        attempts,
    };
    fold.block(&program.body, walk)
}
