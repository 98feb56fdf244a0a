// Runs on bits of one's own.

ghost use Rattle.std.specs.Prelude.{◌≡◌, IfOk, IfSome, IfNone};
ghost use Rattle.gcl_core.specs.meaning.LimitRange.{InRange};
ghost use Rattle.gcl_core.specs.meaning.Reading.{gives, more_bits};
ghost use Rattle.gcl_core.specs.meaning.Runs.{run_on, reads, left_by};
ghost use Rattle.gcl_core.specs.meaning.Views.{source_of};
ghost use Rattle.many_runs.specs.InARow.{runs_in_a_row};
ghost use Rattle.sampler_run.specs.Sampled.{RunFails};
ghost use Rattle.zar_io.specs.Trace.{World, Agrees};

use gcl_core::{Answer, Checked, Limits, Outcome};
use sampler_run::{RunError, compile, go_on, runs_leave_the_rest, sample};
use std::alloc::{AllocError, Global};
use zar_io::Bits;

/// The answer of the program's run on the bits that are left, under these limits: how it ended, and how many bits it read; or
/// that it needs a bit beyond them. The bits that it read are gone. `Read` comes only where a read of the bits failed.
pub fn draw<B: Bits>(
    alloc: Global,
    p: &Checked,
    l: &Limits,
    bits: &mut B,
) -> Result<Answer, RunError>
    requires limits { InRange l.now }
    ensures answer { IfOk result (λ answer. (file : World) → Agrees file (B.answered bits.new)
        → answer ≡ run_on (source_of p.now) l.now (B.left bits.old file)) }
    ensures left { IfOk result (λ answer. (file : World) → Agrees file (B.answered bits.new)
        → B.left bits.new file ≡ left_by (reads (source_of p.now) l.now (B.left bits.old file))) }
    ensures fails { RunFails result (B.answered bits.old) (B.answered bits.new) }
{
    runs_leave_the_rest();
    let sampler = compile(alloc, p)?;
    let stop = sample(alloc, &sampler, l, bits)?;
    Ok(stop.answer)
}

/// The outcomes of `count` runs in a row, each on the bits that those before it left, or `None` where a run needs a bit beyond
/// them. One sampler and one state serve all runs, so a run takes no memory but for its outcome. `Read` comes only where a read
/// of the bits failed.
pub fn draw_row<B: Bits>(
    alloc: Global,
    p: &Checked,
    l: &Limits,
    count: u64,
    bits: &mut B,
) -> Result<Option<Vec<Outcome>>, RunError>
    requires limits { InRange l.now }
    ensures row { IfOk result (λ row. IfSome row (λ xs. (file : World) → Agrees file (B.answered bits.new)
        → runs_in_a_row (source_of p.now) l.now count (B.left bits.old file) ≡ gives xs.items (B.left bits.new file))) }
    ensures none { IfOk result (λ row. IfNone row ((file : World) → Agrees file (B.answered bits.new)
        → runs_in_a_row (source_of p.now) l.now count (B.left bits.old file) ≡ more_bits)) }
    ensures fails { RunFails result (B.answered bits.old) (B.answered bits.new) }
{
    runs_leave_the_rest();
    let sampler = compile(alloc, p)?;
    let mut state = sampler.start(alloc, l)?;
    let mut row = Vec::new(alloc);
    for _i in 0..count {
        let stop = go_on(&mut state, bits)?;
        match stop.answer {
            Answer::Ended(outcome, _) => match row.push(outcome) {
                Ok(()) => (),
                Err(full) => return Err(AllocError::from(full).into()),
            },
            Answer::MoreBits(_) => return Ok(None),
        }
        state.restart();
    }
    Ok(Some(row))
}
