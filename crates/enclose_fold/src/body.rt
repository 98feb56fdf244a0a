// The body of a program, begun with every variable 0.

ghost use Rattle.std.specs.Prelude.{◌≡◌, length, IfOk, IfErr};
ghost use Rattle.gcl_core.specs.meaning.Views.{source_of};
ghost use Rattle.table_flow.specs.Tables.{peak_of};
ghost use Rattle.enclose_fold.specs.inner.Body.{BodyGives};
ghost use Rattle.enclose_fold.specs.inner.Refusals.{Refuses};

use crate::ended::Ended;
use crate::error::EncloseError;
use crate::fold::Fold;
use crate::table::Table;
use gcl_core::Checked;
use std::alloc::Global;

/// The states after the body of a program, each with its units, and the units of what ended, under a limit of turns for each entry
/// of a loop, and with or without a limit of attempts for each draw.
pub fn fold_body(
    alloc: Global,
    p: &Checked,
    turns: u64,
    attempts: Option<u64>,
) -> Result<(Table, Ended), EncloseError>
    ensures ok { IfOk result (λ t. BodyGives (source_of p.now) turns attempts t.0.states.entries t.1) }
    ensures vars { IfOk result (λ t. t.0.vars ≡ length (source_of p.now).names) }
    ensures cause { IfErr result (λ e. Refuses e (peak_of (source_of p.now) turns attempts)) }
{
    let program = p.program();
    let table = Table::start(alloc, program.names.count())?;
    let mut ended = Ended::none();
    let fold = Fold {
        alloc,
        turns,
        attempts,
    };
    let table = fold.block(&program.body, table, &mut ended)?;
    Ok((table, ended))
}
