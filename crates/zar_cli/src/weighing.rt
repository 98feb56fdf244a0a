// The masses of a program, the bits that a run of it reads on average, and how long it takes.

ghost use Rattle.std.specs.Prelude.{◌≤◌, None, Some, IfSome};
ghost use Rattle.gcl_core.specs.declared.rules.TheConstants.{MOST_LIMIT};
ghost use Rattle.gcl_core.specs.meaning.LimitRange.{InRange};
ghost use Rattle.gcl_core.specs.meaning.Views.{source_of};
ghost use Rattle.mass_fold.specs.Refused.{IsLimit};
ghost use Rattle.zar_cli.specs.declared.command.Work.TheVariants.{Cost, HowLong, Mass};
ghost use Rattle.zar_cli.specs.inner.Works.{WorksAlone};

use crate::refusing::refusal_by;
use crate::said::Said;
use gcl_core::{Checked, Limits};
use mass_lines::{bits_text, expected_text, how_long_text, masses_text};
use report_text::{Decimals, Refusal};
use std::alloc::Global;

/// The lines of a program's masses.
pub fn masses_of(
    alloc: Global,
    program: &Checked,
    turns: u64,
    attempts: Option<u64>,
    rounds: Option<u64>,
    decimals: Decimals,
) -> Result<Said, Refusal>
    requires turns { turns ≤ MOST_LIMIT }
    requires attempts { IfSome attempts IsLimit }
    requires rounds { IfSome rounds IsLimit }
    ensures { WorksAlone (Mass turns attempts rounds decimals) (source_of program.now) result }
{
    match masses_text(alloc, program, turns, attempts, rounds, decimals) {
        Ok(lines) => Ok(Said::Shown(lines)),
        Err(reason) => Err(refusal_by(reason)),
    }
}

// The line of the bits that a run of a program reads on average under limits.
fn bits_under(
    alloc: Global,
    program: &Checked,
    limits: &Limits,
    decimals: Decimals,
) -> Result<Said, Refusal>
    requires { InRange limits.now }
    ensures { WorksAlone (Cost (Some limits.now) decimals) (source_of program.now) result }
{
    match bits_text(alloc, program, limits, decimals) {
        Ok(line) => Ok(Said::Shown(line)),
        Err(reason) => Err(refusal_by(reason)),
    }
}

// The line of those that it reads where nothing is limited.
fn bits_expected(alloc: Global, program: &Checked, decimals: Decimals) -> Result<Said, Refusal>
    ensures { WorksAlone (Cost None decimals) (source_of program.now) result }
{
    match expected_text(alloc, program, decimals) {
        Ok(line) => Ok(Said::Shown(line)),
        Err(reason) => Err(refusal_by(reason)),
    }
}

/// The line of the bits that a run of a program reads on average, under limits or where nothing is limited.
pub fn bits_of(
    alloc: Global,
    program: &Checked,
    limits: &Option<Limits>,
    decimals: Decimals,
) -> Result<Said, Refusal>
    requires { IfSome limits.now InRange }
    ensures { WorksAlone (Cost limits.now decimals) (source_of program.now) result }
{
    match limits {
        Some(limits) => bits_under(alloc, program, limits, decimals),
        None => bits_expected(alloc, program, decimals),
    }
}

/// The lines of how long a run of a program takes where nothing is limited.
pub fn how_long_of(alloc: Global, program: &Checked, decimals: Decimals) -> Result<Said, Refusal>
    ensures { WorksAlone (HowLong decimals) (source_of program.now) result }
{
    match how_long_text(alloc, program, decimals) {
        Ok(lines) => Ok(Said::Shown(lines)),
        Err(reason) => Err(refusal_by(reason)),
    }
}
