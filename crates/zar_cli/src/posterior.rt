// Bounds of the outcomes of a program.

ghost use Rattle.std.specs.Prelude.{◌≤◌};
ghost use Rattle.gcl_core.specs.declared.rules.TheConstants.{MOST_LIMIT};
ghost use Rattle.gcl_core.specs.meaning.Views.{source_of};
ghost use Rattle.zar_cli.specs.declared.command.Work.TheVariants.{Posterior};
ghost use Rattle.zar_cli.specs.inner.Works.{WorksAlone};

use crate::refusing::refusal_by;
use crate::said::Said;
use gcl_core::Checked;
use mass_lines::bounds_text;
use report_text::{Decimals, Refusal};
use std::alloc::Global;

/// The lines of a program's bounds.
pub fn bounds_of(
    alloc: Global,
    program: &Checked,
    turns: u64,
    decimals: Decimals,
) -> Result<Said, Refusal>
    requires { turns ≤ MOST_LIMIT }
    ensures { WorksAlone (Posterior turns decimals) (source_of program.now) result }
{
    match bounds_text(alloc, program, turns, decimals) {
        Ok(lines) => Ok(Said::Shown(lines)),
        Err(reason) => Err(refusal_by(reason)),
    }
}
