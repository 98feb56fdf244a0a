// Programs whose runs are hunted for a key.

ghost use Rattle.gcl_core.specs.meaning.LimitRange.{InRange};
ghost use Rattle.gcl_core.specs.meaning.Views.{source_of};
ghost use Rattle.stream_runs.specs.Ranges.{IsRange, IsWorkers};
ghost use Rattle.zar_cli.specs.declared.command.Work.TheVariants.{Hunt};
ghost use Rattle.zar_cli.specs.inner.Works.{WorksAlone};

use crate::naming::hunt_name;
use crate::said::Said;
use gcl_core::{Checked, Limits, TallyKey};
use hunt_range::hunt;
use report_text::{Refusal, hunt_line};
use sampler_run::compile;
use std::alloc::Global;
use std::marker::Sync;
use std::thread::Threads;
use stream_runs::SeedRange;
use zar_io::Gate;

/// The least stream of a range on which the run of a program has a key, behind the line of the part where it is asked for.
pub fn found_of<R: Threads + Sync, G: Gate>(
    rt: &R,
    alloc: Global,
    program: &Checked,
    range: &SeedRange,
    limits: &Limits,
    want: &TallyKey,
    named: bool,
    gate: &G,
) -> Result<Said, Refusal>
    requires limits { InRange limits.now }
    requires range { IsRange range.now }
    requires workers { IsWorkers range.now.workers }
    ensures { WorksAlone (Hunt range.now limits.now want.now named) (source_of program.now) result }
{
    let mut text = hunt_name(alloc, named, want, program, range, limits)?;
    let sampler = compile(alloc, program)?;
    let found = hunt(rt, alloc, &sampler, limits, range, want, gate)?;
    text.push(hunt_line(found).bytes())?;
    Ok(Said::Shown(text))
}
