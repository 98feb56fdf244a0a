//! The first stream of a block that is wanted.
ghost use Rattle.std.specs.Prelude.{◌≡◌, ◌<◌, ◌≤◌, Bool, List, IfSome};
ghost use Rattle.gcl_core.specs.declared.answers.Answer.{Answer};
ghost use Rattle.gcl_core.specs.meaning.Order.{same_key};
ghost use Rattle.sampler_run.specs.Held.{IsRestOf, set_back};
ghost use Rattle.stream_runs.specs.Homes.{IsHome};
ghost use Rattle.stream_runs.specs.Ranges.{IsRange};
ghost use Rattle.hunt_range.specs.Sought.{sought_of};
ghost use Rattle.hunt_range.specs.inner.Blocks.{FirstWanted};

use gcl_core::TallyKey;
use sampler_run::Run;
use stream_runs::{SeedRange, run_on_stream};
use zar_io::StreamBits;

fn is_same(key: TallyKey, want: &TallyKey) -> bool
    ensures { result ≡ same_key key want.now }
{
    key == *want
}

/// The first stream of a block whose run, from where `home` stands, has the key, if there is one. It takes no memory.
pub fn first_wanted<'s>(
    state: &mut Run<'s>,
    home: &Run<'s>,
    range: &SeedRange,
    want: &TallyKey,
    first: u64,
) -> Option<u64>
    requires home { IsHome home.now state.old }
    requires range { IsRange range.now }
    requires inside { first < range.now.to }
    ensures first { (run : List Bool → Answer) → IsRestOf (set_back state.old) run
        → FirstWanted (sought_of run range.now want.now) first range.now.to result }
    ensures within { IfSome result (λ x. (first ≤ x) × (x < range.now.to)) }
    ensures same_start { set_back state.new ≡ set_back state.old }
{
    let end = range.end_of_block(first);
    let mut bits = StreamBits::new(range.seed, first, range.budget);
    let mut at = first;
    while at < end {
        let key = run_on_stream(state, home, &mut bits, range.seed, at, range.budget);
        if is_same(key, want) {
            return Some(at);
        }
        at += 1;
    }
    None
}
