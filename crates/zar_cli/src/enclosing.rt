// What encloses the masses of a program.

ghost use Rattle.std.specs.Prelude.{◌≤◌, IfSome};
ghost use Rattle.gcl_core.specs.declared.rules.TheConstants.{MOST_LIMIT};
ghost use Rattle.gcl_core.specs.meaning.Views.{source_of};
ghost use Rattle.mass_fold.specs.Refused.{IsLimit};
ghost use Rattle.zar_cli.specs.declared.command.Work.TheVariants.{Enclose};
ghost use Rattle.zar_cli.specs.inner.Works.{WorksAlone};

use crate::refusing::refusal_by;
use crate::said::Said;
use gcl_core::Checked;
use mass_lines::enclosed_text;
use report_text::{Decimals, Refusal};
use std::alloc::Global;

/// The lines of the fractions between which a program's masses lie.
pub fn enclosed_of(
    alloc: Global,
    program: &Checked,
    turns: u64,
    attempts: Option<u64>,
    rounds: Option<u64>,
    all_turns: bool,
    decimals: Decimals,
) -> Result<Said, Refusal>
    requires turns { turns ≤ MOST_LIMIT }
    requires attempts { IfSome attempts IsLimit }
    requires rounds { IfSome rounds IsLimit }
    ensures { WorksAlone (Enclose turns attempts rounds all_turns decimals) (source_of program.now) result }
{
    match enclosed_text(alloc, program, turns, attempts, rounds, all_turns, decimals) {
        Ok(lines) => Ok(Said::Shown(lines)),
        Err(reason) => Err(refusal_by(reason)),
    }
}
