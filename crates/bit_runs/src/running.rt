// A run on the bits of bytes.

ghost use Rattle.std.specs.Prelude.{◌≡◌, IfOk};
ghost use Rattle.gcl_core.specs.meaning.LimitRange.{InRange};
ghost use Rattle.gcl_core.specs.meaning.Runs.{run_on};
ghost use Rattle.gcl_core.specs.meaning.Views.{source_of};
ghost use Rattle.sampler_run.specs.Telling.{used_in};
ghost use Rattle.zar_io.specs.FileBits.{file_bits};

use crate::byte_bits::ByteBits;
use gcl_core::{Answer, Checked, Limits};
use sampler_run::{compile, go_on};
use std::alloc::{AllocError, Global};

/// How many bits a run read.
pub fn used(answer: Answer) -> u64
    ensures { result ≡ used_in answer }
{
    match answer {
        Answer::Ended(_, used) => used,
        Answer::MoreBits(used) => used,
    }
}

/// The answer of a program's run on the bits of some bytes, each byte's most significant bit first. An error comes only where
/// memory runs out.
pub fn run_on_bytes(
    alloc: Global,
    program: &Checked,
    l: &Limits,
    bytes: &[u8],
) -> Result<Answer, AllocError>
    requires limits { InRange l.now }
    ensures answer { IfOk result (λ answer. answer ≡ run_on (source_of program.now) l.now (file_bits bytes.now)) }
{
    let sampler = compile(alloc, program)?;
    let mut state = sampler.start(alloc, l)?;
    let mut bits = ByteBits::new(bytes);
    match go_on(&mut state, &mut bits) {
        Ok(stop) => Ok(stop.answer),
        Err(_) => unreachable!(),
    }
}
