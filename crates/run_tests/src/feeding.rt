//! Runs that are fed their bits: in two pieces, in two ways from one place, from the start again, and from where another stands.

ghost use Rattle.std.specs.Prelude.{◌≡◌, ◌++◌, IfOk, OnOk, OnErr};
ghost use Rattle.gcl_core.specs.meaning.Runs.{run_on};
ghost use Rattle.gcl_core.specs.meaning.LimitRange.{InRange};
ghost use Rattle.gcl_core.specs.meaning.Views.{source_of};
ghost use Rattle.sampler_run.specs.Held.{StandsAfter, set_back};
ghost use Rattle.sampler_run.specs.Telling.{Tells, progress_in};

use gcl_core::{Checked, Limits};
use sampler_run::{Progress, Run, compile};
use std::alloc::{AllocError, Global};

/// Where the program's run under these limits stands after two lists of bits in a row, as its sampler tells that is fed one and
/// then the other. An error comes only where memory runs out.
pub fn fed_in_two(
    alloc: Global,
    p: &Checked,
    l: &Limits,
    first: &[bool],
    second: &[bool],
) -> Result<Progress, AllocError>
    requires limits { InRange l.now }
    ensures { IfOk result (λ progress. progress ≡ progress_in (run_on (source_of p.now) l.now (first.now ++ second.now))) }
{
    let sampler = compile(alloc, p)?;
    let mut state = sampler.start(alloc, l)?;
    state.feed_all(first);
    Ok(state.feed_all(second))
}

/// Goes on with the bits `here`, and answers another run that went on from the same place with the bits `there`. An error comes
/// only where memory runs out; the run then stands where it stood.
pub fn go_both_ways<'s>(
    state: &mut Run<'s>,
    alloc: Global,
    here: &[bool],
    there: &[bool],
) -> Result<Run<'s>, AllocError>
    ensures here { OnOk result (StandsAfter here.now state.old state.new) }
    ensures there { IfOk result (λ other. StandsAfter there.now state.old other) }
    ensures untouched { OnErr result (state.new ≡ state.old) }
{
    let mut other = state.fork(alloc)?;
    state.feed_all(here);
    other.feed_all(there);
    Ok(other)
}

/// Begins a run anew and goes on with `bits`, after it has gone on with those `before`, which leave no trace. Answers where it
/// stands then.
pub fn run_anew(state: &mut Run<'_>, before: &[bool], bits: &[bool]) -> Progress
    ensures stands { StandsAfter bits.now (set_back state.old) state.new }
    ensures told { Tells state.new result }
{
    state.feed_all(before);
    state.restart();
    state.feed_all(bits)
}

/// Puts a run where another of the same sampler under the same limits stands, and goes on with the bits `next`. Answers where it
/// stands then.
pub fn go_on_from<'s>(state: &mut Run<'s>, other: &Run<'s>, next: &[bool]) -> Progress
    requires { set_back state.old ≡ set_back other.now }
    ensures stands { StandsAfter next.now other.now state.new }
    ensures told { Tells state.new result }
{
    state.fork_from(other);
    state.feed_all(next)
}
