// The masses of a program where nothing is limited.

ghost use Rattle.gcl_core.specs.meaning.Views.{source_of};
ghost use Rattle.zar_cli.specs.declared.command.Work.TheVariants.{Exact};
ghost use Rattle.zar_cli.specs.inner.Works.{WorksAlone};

use crate::refusing::refusal_by;
use crate::said::Said;
use gcl_core::Checked;
use mass_lines::exact_text;
use report_text::{Decimals, Refusal};
use std::alloc::Global;

/// The lines of a program's exact masses.
pub fn exact_masses_of(
    alloc: Global,
    program: &Checked,
    decimals: Decimals,
) -> Result<Said, Refusal>
    ensures { WorksAlone (Exact decimals) (source_of program.now) result }
{
    match exact_text(alloc, program, decimals) {
        Ok(lines) => Ok(Said::Shown(lines)),
        Err(reason) => Err(refusal_by(reason)),
    }
}
