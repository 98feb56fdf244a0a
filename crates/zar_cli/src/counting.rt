// Programs that are audited and tallied.

ghost use Rattle.std.specs.Prelude.{◌≤◌, IfOk};
ghost use Rattle.gcl_core.specs.meaning.LimitRange.{InRange};
ghost use Rattle.gcl_core.specs.meaning.Views.{source_of};
ghost use Rattle.stream_runs.specs.Ranges.{IsRange, IsWorkers};
ghost use Rattle.audit_walk.specs.declared.auditing.TheConstants.{MOST_DEPTH};
ghost use Rattle.count_lines.specs.TallyLines.{AreTallyLines};
ghost use Rattle.zar_cli.specs.declared.command.Work.TheVariants.{Audit, Tally};
ghost use Rattle.zar_cli.specs.inner.Works.{WorksAlone};

use crate::naming::part_name;
use crate::said::Said;
use audit_walk::audit;
use count_lines::audit_text;
use gcl_core::{Checked, Limits};
use gcl_print::Text;
use report_text::{Decimals, Refusal};
use sampler_run::compile;
use std::alloc::{AllocError, Global};
use std::marker::Sync;
use std::thread::Threads;
use stream_runs::SeedRange;
use tally_range::tally;
use zar_io::Gate;

/// How a program's runs end on all bit strings of a length, as lines.
pub fn audit_of<R: Threads + Sync>(
    rt: &R,
    alloc: Global,
    program: &Checked,
    depth: u32,
    limits: &Limits,
    decimals: Decimals,
) -> Result<Said, Refusal>
    requires depth { depth ≤ MOST_DEPTH }
    requires limits { InRange limits.now }
    ensures { WorksAlone (Audit depth limits.now decimals) (source_of program.now) result }
{
    let sampler = compile(alloc, program)?;
    let found = audit(rt, alloc, &sampler, limits, depth)?;
    let text = audit_text(alloc, depth, &found, decimals)?;
    Ok(Said::Shown(text))
}

/// How a program's runs end on the streams of a range, as lines. An error comes only where memory runs out.
pub fn tally_text<R: Threads + Sync, G: Gate>(
    rt: &R,
    alloc: Global,
    program: &Checked,
    range: &SeedRange,
    limits: &Limits,
    gate: &G,
) -> Result<Text, AllocError>
    requires limits { InRange limits.now }
    requires range { IsRange range.now }
    requires workers { IsWorkers range.now.workers }
    ensures { IfOk result (AreTallyLines (source_of program.now) range.now limits.now) }
{
    let sampler = compile(alloc, program)?;
    let found = tally(rt, alloc, &sampler, limits, range, gate)?;
    let text = count_lines::tally_text(alloc, &found)?;
    Ok(text)
}

/// How a program's runs end on the streams of a range, as what the command says, behind the line of the part where it is asked for.
pub fn tally_of<R: Threads + Sync, G: Gate>(
    rt: &R,
    alloc: Global,
    program: &Checked,
    range: &SeedRange,
    limits: &Limits,
    named: bool,
    gate: &G,
) -> Result<Said, Refusal>
    requires limits { InRange limits.now }
    requires range { IsRange range.now }
    requires workers { IsWorkers range.now.workers }
    ensures { WorksAlone (Tally range.now limits.now named) (source_of program.now) result }
{
    let mut text = part_name(alloc, named, "tally", program, range, limits)?;
    let rows = tally_text(rt, alloc, program, range, limits, gate)?;
    text.push(rows.bytes())?;
    Ok(Said::Shown(text))
}
