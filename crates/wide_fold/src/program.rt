// A program in the limit of turns, in wide fractions.

ghost use Rattle.std.specs.Prelude.{IfOk};
ghost use Rattle.gcl_core.specs.meaning.Views.{source_of};
ghost use Rattle.exact_fold.specs.inner.Settled.{ProgramSettlesTo};

use crate::depth::Depth;
use crate::ended::WideEnded;
use crate::error::WideFoldError;
use crate::settle::settle_block;
use crate::table::WideTable;
use crate::work::Work;
use gcl_core::Checked;
use std::alloc::Global;

// The same, where so many statements are settled in wide fractions.
fn settled(
    alloc: Global,
    checked: &Checked,
    work: &mut Work,
    depth: Depth,
) -> Result<(WideTable, WideEnded), WideFoldError>
    ensures { IfOk result (λ t. ProgramSettlesTo (source_of checked.now) t.0.states.entries t.1) }
{
    let program = checked.program();
    let table = WideTable::start(alloc, program.names.count())?;
    let mut ended = WideEnded::none(alloc)?;
    let table = settle_block(alloc, &program.body, table, &mut ended, work, depth)?;
    Ok((table, ended))
}

/// The states after the body of a program and the weights of what ended, in the limit of turns. An error comes where a loop is
/// not settled, a number has more than 4,096 bits, a point has more than 65,536 states, more than [`MOST_WORK`](crate::MOST_WORK)
/// steps would be taken, or memory runs out.
pub fn settle_program(
    alloc: Global,
    checked: &Checked,
) -> Result<(WideTable, WideEnded), WideFoldError>
    ensures { IfOk result (λ t. ProgramSettlesTo (source_of checked.now) t.0.states.entries t.1) }
{
    let mut work = Work::none();
    match settled(alloc, checked, &mut work, Depth::Loops) {
        Err(WideFoldError::StateTooWide) => settled(alloc, checked, &mut work, Depth::All),
        answer => answer,
    }
}
