// The body of a program, begun with every variable 0.

ghost use Rattle.std.specs.Prelude.{◌≡◌, length, IfOk, IfErr};
ghost use Rattle.gcl_core.specs.meaning.Outcomes.{zeros};
ghost use Rattle.gcl_core.specs.meaning.Views.{source_of};
ghost use Rattle.table_flow.specs.Tables.{peak_of};
ghost use Rattle.table_flow.specs.Width.{round_width};
ghost use Rattle.mass_fold.specs.inner.Amounts.{Blames};
ghost use Rattle.mass_fold.specs.inner.Body.{BodyGives, BodyMeters};

use crate::attempts::Attempts;
use crate::ended::Ended;
use crate::error::MassError;
use crate::fold::Fold;
use crate::meter::Meter;
use crate::table::Table;
use gcl_core::Checked;
use std::alloc::Global;

/// The states after the body of a program, each with its weight, and the weights of what ended, under a limit of turns for each
/// entry of a loop, and with or without a limit of attempts for each draw. The meter counts the bits of the draws that are
/// reached.
pub fn fold_body(
    alloc: Global,
    p: &Checked,
    turns: u64,
    attempts: Attempts,
    meter: &mut Meter,
) -> Result<(Table, Ended), MassError>
    ensures ok { IfOk result (λ t. BodyGives (source_of p.now) turns attempts.most t.0.states.entries t.1) }
    ensures bits { IfOk result (λ t. BodyMeters (source_of p.now) turns attempts.most meter.old meter.new) }
    ensures vars { IfOk result (λ t. t.0.vars ≡ length (source_of p.now).names) }
    ensures cause { IfErr result (λ e.
        Blames e (round_width (source_of p.now) turns attempts.most) (peak_of (source_of p.now) turns attempts.most)) }
{
    let program = p.program();
    let table = Table::start(alloc, program.names.count())?;
    let mut ended = Ended::none();
    let fold = Fold {
        alloc,
        turns,
        attempts,
    };
    let table = fold.block(&program.body, table, &mut ended, meter)?;
    Ok((table, ended))
}
