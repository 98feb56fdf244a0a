// The run of a program on some bits.

ghost use Rattle.std.specs.Prelude.{◌≤◌, [], ◌∷◌, IfErr};
ghost use Rattle.gcl_core.specs.meaning.LimitRange.{InRange};
ghost use Rattle.gcl_core.specs.meaning.Runs.{run_on};
ghost use Rattle.gcl_core.specs.meaning.Views.{source_of};
ghost use Rattle.zar_cli.specs.declared.command.Source.TheVariants.{Stream};
ghost use Rattle.zar_cli.specs.declared.command.Work.TheVariants.{Sample};
ghost use Rattle.zar_cli.specs.Stages.{refusal_in};
ghost use Rattle.zar_cli.specs.inner.Readings.{GivesOnBits};
ghost use Rattle.zar_cli.specs.inner.Stage.{IsStage, OfOutside};
ghost use Rattle.zar_cli.specs.Range.{SourceHasRange};
ghost use Rattle.zar_cli.specs.inner.Works.{Works, WorksAlone};
ghost use Rattle.zar_io.specs.Trace.{World, Agrees};
ghost use Rattle.zar_io.specs.declared.stream_bits.TheConstants.{MOST_BUDGET};

use crate::command::Source;
use crate::said::Said;
use crate::source::open_bits;
use gcl_core::{Answer, Checked, Limits};
use report_text::Refusal;
use sampler_run::{RunError, compile, sample};
use std::alloc::Global;
use zar_io::{FileBits, Files, StreamBits};

// The run of a program on the bits of the file of this name. The file is opened before the program is compiled, so that a
// missing file is told first.
fn run_on_file<F: Files>(
    alloc: Global,
    files: &mut F,
    program: &Checked,
    limits: &Limits,
    name: &str,
) -> Result<Answer, Refusal>
    requires { InRange limits.now }
    ensures answer { (file : World) → Agrees file (F.answered files.new)
        → GivesOnBits (run_on (source_of program.now) limits.now) (file name.now) result }
    ensures refused { IfErr result OfOutside }
    ensures stage { IsStage
        (name.now ∷ []) (F.answered files.old) (F.answered files.new) (refusal_in result) }
{
    open_bits(files, name)?;
    let sampler = compile(alloc, program)?;
    let mut bits = FileBits::new(files);
    match sample(alloc, &sampler, limits, &mut bits) {
        Ok(stop) => Ok(stop.answer),
        Err(RunError::Read) => Err(Refusal::Read),
        Err(RunError::OutOfMemory) => Err(Refusal::Memory),
    }
}

// The run of a program on the first bits of a stream.
fn run_on_stream(
    alloc: Global,
    program: &Checked,
    limits: &Limits,
    seed: u64,
    stream: u64,
    budget: u64,
) -> Result<Said, Refusal>
    requires limits { InRange limits.now }
    requires budget { budget ≤ MOST_BUDGET }
    ensures { WorksAlone (Sample (Stream seed stream budget) limits.now) (source_of program.now) result }
{
    let sampler = compile(alloc, program)?;
    let mut bits = StreamBits::new(seed, stream, budget);
    match sample(alloc, &sampler, limits, &mut bits) {
        Ok(stop) => Ok(Said::Answered(stop.answer)),
        Err(RunError::Read) => unreachable!(),
        Err(RunError::OutOfMemory) => Err(Refusal::Memory),
    }
}

/// The run of a program on the bits of a source.
pub fn run_of<F: Files>(
    alloc: Global,
    files: &mut F,
    program: &Checked,
    limits: &Limits,
    source: &Source,
) -> Result<Said, Refusal>
    requires limits { InRange limits.now }
    requires source { SourceHasRange source.now }
    ensures { Works (Sample source.now limits.now) (source_of program.now)
        (F.answered files.old) (F.answered files.new) result }
{
    match source {
        Source::File(bits) => {
            let answer = run_on_file(alloc, files, program, limits, bits.text())?;
            Ok(Said::Answered(answer))
        }
        Source::Stream(seed, stream, budget) => {
            run_on_stream(alloc, program, limits, *seed, *stream, *budget)
        }
    }
}
