// The expected bits of a program where nothing is limited.

ghost use Rattle.std.specs.Prelude.{◌≡◌, true, IfOk, IfErr, IfSome, IfNone};
ghost use Rattle.gcl_core.specs.meaning.Views.{source_of};
ghost use Rattle.cost_law.specs.ExpectedBits.{expected_bits};
ghost use Rattle.exact_fold.specs.Exact.{FailsWith};
ghost use Rattle.exact_fold.specs.Refused.{HasNoLoop, HasLoops};
ghost use Rattle.bits_fold.specs.Expected.{IsCount};
ghost use Rattle.bits_fold.specs.Refused.{BitsRefused};
ghost use Rattle.bits_fold.specs.inner.AsWritten.{RefusedAsWritten, RoundsBlame};
ghost use Rattle.bits_fold.specs.inner.Reading.{ReadsInRound};

use crate::counted::Counted;
use crate::counts::{Count, count_over_rounds};
use crate::ended::{bits_at, tried};
use crate::error::BitsError;
use crate::reading::read_program;
use crate::stop::Stop;
use bits_law::bits_that_are_read_for_ever_have_no_bound;
use exact_fold::{SettleError, block_loops, failed_in_the_limit};
use forgetting::{forgetful, forgetting_costs_nothing};
use gcl_core::Checked;
use numbers::Frac;
use std::alloc::Global;

// A program with a loop: what its body reads is looked for, but where the turns of its loops have too many parts or states, which is
// seen sooner where masses are settled.
fn bits_of_loops(alloc: Global, p: &Checked) -> Result<Count, BitsError>
    ensures { IfOk result (IsCount (expected_bits (source_of p.now))) }
{
    p.is_kept();
    bits_that_are_read_for_ever_have_no_bound();
    let failed = match failed_in_the_limit(alloc, p) {
        Err(SettleError::TooManyStates) => return Err(BitsError::TooManyStates),
        failed => failed,
    };
    let read = match read_program(alloc, Counted::Bits, p) {
        Err(Stop::ReadsForever) => return Ok(Count::Unbounded),
        Err(Stop::Refused(error)) => return Err(error),
        Ok(read) => read,
    };
    let failed = failed?;
    match count_over_rounds(Counted::Bits, p, &read, &failed) {
        None => Err(BitsError::TooWide),
        Some(bits) => Ok(bits),
    }
}

// A program with a loop.
fn bits_in_loops(alloc: Global, p: &Checked) -> Result<Count, BitsError>
    requires { HasLoops (source_of p.now) }
    ensures answer { IfOk result (IsCount (expected_bits (source_of p.now))) }
    ensures refused { IfErr result (RefusedAsWritten (source_of p.now)) }
{
    match bits_of_loops(alloc, p) {
        Ok(bits) => Ok(bits),
        Err(BitsError::TooWide) => tried(alloc, p, BitsError::TooWide),
        Err(BitsError::TooManyStates) => tried(alloc, p, BitsError::TooManyStates),
        Err(BitsError::NotFound) => tried(alloc, p, BitsError::NotFound),
        Err(BitsError::OutOfMemory) => Err(BitsError::OutOfMemory),
    }
}

// A program without a loop: what its body reads at one turn.
fn bits_at_once(alloc: Global, p: &Checked) -> Result<Count, BitsError>
    requires { HasNoLoop (source_of p.now) }
    ensures answer { IfOk result (IsCount (expected_bits (source_of p.now))) }
    ensures refused { IfErr result (RefusedAsWritten (source_of p.now)) }
{
    bits_at(alloc, p, 1)
}

// The bits that a run of the program itself reads, before anything is forgotten.
fn bits_as_written(alloc: Global, p: &Checked) -> Result<Count, BitsError>
    ensures answer { IfOk result (IsCount (expected_bits (source_of p.now))) }
    ensures refused { IfErr result (RefusedAsWritten (source_of p.now)) }
{
    if block_loops(&p.program().body) {
        bits_in_loops(alloc, p)
    } else {
        bits_at_once(alloc, p)
    }
}

/// The bits that a run of a program reads on average where neither turns nor attempts nor rounds are limited.
///
/// The fraction is in lowest terms: under whatever limits no more bits are expected, and for each k, where all limits are great
/// enough, no fewer but for 1 / k. It is worked out of the forgetful program, in which states are merged that differ in variables alone
/// whose values no longer matter; both read as many bits.
///
/// That there is no bound is told where a loop reads for ever with some weight, and where in the limit every round fails and reads
/// some bits.
///
/// A program without a loop is worked out by the tables of one turn of its forgetful program: it is refused as too wide only where the
/// width of that program's bits is 2^128 or more, and for its states only where some point of it is reached with more than
/// [`mass_fold::MOST_STATES`]. Where a loop's visits are not found, what is read at [`exact_fold::TURNS_TRIED`] turns is the answer
/// if every run has ended by then. So a program with a loop is refused only where at so many turns bits are too wide, or of too many
/// states, or some run goes on. No clause says that loops which go on longer have an answer: what is tried is a table of programs, in
/// the tests.
pub fn cost_in_the_limit(alloc: Global, p: &Checked) -> Result<Count, BitsError>
    ensures answer { IfOk result (IsCount (expected_bits (source_of p.now))) }
    ensures refused { IfErr result (BitsRefused (source_of p.now)) }
{
    forgetting_costs_nothing();
    let q = forgetful(alloc, p)?;
    bits_as_written(alloc, &q)
}
