// The work on a checked program.

ghost use Rattle.std.specs.Prelude.{◌-◌, ◌^◌, ◌<◌, Ok};
ghost use Rattle.gcl_core.specs.meaning.LimitRange.{InRange};
ghost use Rattle.gcl_core.specs.meaning.Views.{source_of};
ghost use Rattle.gcl_core.specs.text.StatementCounts.{count_all};
ghost use Rattle.zar_cli.specs.declared.command.Work.TheVariants.{Runs, Check, Code, Forgetful};
ghost use Rattle.stream_runs.specs.Ranges.{IsRange, IsWorkers};
ghost use Rattle.zar_cli.specs.Range.{WorkHasRange};
ghost use Rattle.zar_cli.specs.inner.Works.{Works, WorksAlone};

use crate::command::Work;
use crate::counting::{audit_of, tally_of};
use crate::drawn::Drawn;
use crate::enclosing::enclosed_of;
use crate::exactly::exact_masses_of;
use crate::hunting::found_of;
use crate::naming::part_name;
use crate::posterior::bounds_of;
use crate::said::Said;
use crate::sampling::run_of;
use crate::weighing::{bits_of, how_long_of, masses_of};
use forgetting::forgetful;
use gcl_core::{Checked, Limits, count_statements};
use gcl_print::{Text, print};
use report_text::Refusal;
use sampler_code::list;
use sampler_run::compile;
use std::alloc::Global;
use std::marker::Sync;
use std::thread::Threads;
use stream_runs::SeedRange;
use zar_io::{Files, Gate};

// How many statements and names a program has.
fn size_of(program: &Checked) -> Said
    requires { count_all (source_of program.now).body < 2 ^ 32 - 1 }
    ensures { WorksAlone Check (source_of program.now) (Ok result) }
{
    let p = program.program();
    Said::Accepted(count_statements(&p.body), p.names.count())
}

// The listing of the code that samples a program.
fn code_of(alloc: Global, program: &Checked) -> Result<Said, Refusal>
    ensures { WorksAlone Code (source_of program.now) result }
{
    let sampler = compile(alloc, program)?;
    let text = list(alloc, sampler.code(), &program.program().names)?;
    Ok(Said::Shown(Text::of(text)))
}

// The canonical text of the forgetful program of a program.
fn forgetful_text_of(alloc: Global, program: &Checked) -> Result<Said, Refusal>
    ensures { WorksAlone Forgetful (source_of program.now) result }
{
    let forgetful = forgetful(alloc, program)?;
    let text = print(alloc, forgetful.program())?;
    Ok(Said::Shown(Text::of(text)))
}

// The answers of a program's runs on the streams of a range, behind the line of the part where it is asked for.
fn runs_of(
    alloc: Global,
    program: Checked,
    range: &SeedRange,
    limits: &Limits,
    named: bool,
) -> Result<Said, Refusal>
    requires limits { InRange limits.now }
    requires range { IsRange range.now }
    requires workers { IsWorkers range.now.workers }
    ensures { WorksAlone (Runs range.now limits.now named) (source_of program) result }
{
    let front = part_name(alloc, named, "runs", &program, range, limits)?;
    Ok(Said::Drawn(Drawn::of(front, program, *range, *limits)))
}

/// What some work says of a program.
pub fn work_on<R: Threads + Sync, F: Files, G: Gate>(
    rt: &R,
    alloc: Global,
    program: Checked,
    work: &Work,
    files: &mut F,
    gate: &G,
) -> Result<Said, Refusal>
    requires statements { count_all (source_of program).body < 2 ^ 32 - 1 }
    requires range { WorkHasRange work.now }
    ensures { Works work.now (source_of program)
        (F.answered files.old) (F.answered files.new) result }
{
    match work {
        Work::Sample(source, limits) => run_of(alloc, files, &program, limits, source),
        Work::Mass(turns, attempts, rounds, decimals) => {
            masses_of(alloc, &program, *turns, *attempts, *rounds, *decimals)
        }
        Work::Cost(limits, decimals) => bits_of(alloc, &program, limits, *decimals),
        Work::HowLong(decimals) => how_long_of(alloc, &program, *decimals),
        Work::Posterior(turns, decimals) => bounds_of(alloc, &program, *turns, *decimals),
        Work::Exact(decimals) => exact_masses_of(alloc, &program, *decimals),
        Work::Enclose(turns, attempts, rounds, all_turns, decimals) => enclosed_of(
            alloc, &program, *turns, *attempts, *rounds, *all_turns, *decimals,
        ),
        Work::Audit(depth, limits, decimals) => {
            audit_of(rt, alloc, &program, *depth, limits, *decimals)
        }
        Work::Tally(range, limits, named) => {
            tally_of(rt, alloc, &program, range, limits, *named, gate)
        }
        Work::Runs(range, limits, named) => runs_of(alloc, program, range, limits, *named),
        Work::Hunt(range, limits, want, named) => {
            found_of(rt, alloc, &program, range, limits, want, *named, gate)
        }
        Work::Check => Ok(size_of(&program)),
        Work::Code => code_of(alloc, &program),
        Work::Forgetful => forgetful_text_of(alloc, &program),
    }
}
