//! Runs that are tried again.

ghost use Rattle.std.specs.Prelude.{◌≡◌, [], IfOk, IsErrOf};
ghost use Rattle.gcl_core.specs.meaning.LimitRange.{InRange};
ghost use Rattle.sampler_code.specs.Assembled.{CodeReaches};
ghost use Rattle.sampler_run.specs.declared.sampling.RunError.TheVariants.{OutOfMemory};
ghost use Rattle.sampler_run.specs.Held.{run_begun};
ghost use Rattle.sampler_run.specs.Sampled.{reached_by, TookTo, RunFails};
ghost use Rattle.zar_io.specs.GoesOn.{GoesOn};
ghost use Rattle.zar_io.specs.Trace.{World, Agrees};

use gcl_core::Limits;
use sampler_run::{RunError, Sampler, Stop, sample};
use std::alloc::Global;
use zar_io::Bits;

/// Runs a sampler on bits, under these limits, and tries once more where there was no memory for it. The bits that the run reads
/// are taken once.
///
/// `Read` comes only where a read of the bits failed, and `OutOfMemory` only where memory ran out twice; no bit was asked for
/// then.
pub fn sample_again<B: Bits>(
    alloc: Global,
    s: &Sampler,
    l: &Limits,
    bits: &mut B,
) -> Result<Stop, RunError>
    requires limits { InRange l.now }
    ensures answer { IfOk result (λ stop. (file : World) → Agrees file (B.answered bits.new)
        → CodeReaches s.now l.now (B.left bits.old file) (reached_by stop)) }
    ensures taken { IfOk result (λ stop. (file : World) → Agrees file (B.answered bits.new)
        → TookTo (run_begun s.now l.now) 0 (B.left bits.old file) (B.left bits.new file) (reached_by stop)) }
    ensures fails { RunFails result (B.answered bits.old) (B.answered bits.new) }
    ensures goes_on { GoesOn [] (B.answered bits.old) (B.answered bits.new) }
    ensures untouched { IsErrOf result RunError.OutOfMemory → bits.new ≡ bits.old }
    ensures same_source { B.source bits.new ≡ B.source bits.old }
{
    match sample(alloc, s, l, bits) {
        Err(RunError::OutOfMemory) => sample(alloc, s, l, bits),
        answer => answer,
    }
}
