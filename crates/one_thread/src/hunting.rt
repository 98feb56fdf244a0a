// A hunt by one worker.

ghost use Rattle.std.specs.Prelude.{◌≡◌, Bool, List, IfOk};
ghost use Rattle.gcl_core.specs.declared.answers.Answer.{Answer};
ghost use Rattle.gcl_core.specs.meaning.LimitRange.{InRange};
ghost use Rattle.gcl_core.specs.meaning.Order.{same_key};
ghost use Rattle.hunt_range.specs.Sought.{LeastWanted, sought_of};
ghost use Rattle.sampler_code.specs.Assembled.{IsRunOf};
ghost use Rattle.stream_runs.specs.Ranges.{IsRange};

use gcl_core::{Limits, TallyKey};
use sampler_run::Sampler;
use std::alloc::{AllocError, Global};
use stream_runs::{SeedRange, run_on_stream};
use zar_io::StreamBits;

fn is_same(key: TallyKey, want: &TallyKey) -> bool
    ensures { result ≡ same_key key want.now }
{
    key == *want
}

/// The least stream of the range on which the run of the sampler has this key, or `None` where there is none. An error comes only where
/// memory runs out.
pub fn hunt_alone(
    alloc: Global,
    s: &Sampler,
    l: &Limits,
    range: &SeedRange,
    want: &TallyKey,
) -> Result<Option<u64>, AllocError>
    requires limits { InRange l.now }
    requires range { IsRange range.now }
    ensures found { IfOk result
        (λ found. (run : List Bool → Answer) → IsRunOf s.now l.now run → LeastWanted (sought_of run range.now want.now) found) }
{
    let home = s.start(alloc, l)?;
    let mut state = home.fork(alloc)?;
    let mut bits = StreamBits::new(range.seed, range.from, range.budget);
    let mut at = range.from;
    while at < range.to {
        let key = run_on_stream(&mut state, &home, &mut bits, range.seed, at, range.budget);
        if is_same(key, want) {
            return Ok(Some(at));
        }
        at += 1;
    }
    Ok(None)
}
