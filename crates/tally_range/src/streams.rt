// Counts of the runs on streams.

ghost use Rattle.std.specs.Prelude.{◌≡◌, ◌+◌, ◌-◌, ◌<◌, ◌≤◌, ◌^◌, Bool, List, IfOk};
ghost use Rattle.gcl_core.specs.declared.answers.Answer.{Answer};
ghost use Rattle.gcl_core.specs.declared.answers.TallyKey.{TallyKey};
ghost use Rattle.sampler_run.specs.Held.{IsRestOf, set_back};
ghost use Rattle.stream_runs.specs.Blocks.{blocks_over};
ghost use Rattle.stream_runs.specs.Homes.{IsHome};
ghost use Rattle.stream_runs.specs.Ranges.{IsRange};
ghost use Rattle.tally_range.specs.Blocks.{count_block};
ghost use Rattle.tally_range.specs.Counts.{count_over};
ghost use Rattle.tally_range.specs.Rows.{counted_at};
ghost use Rattle.tally_range.specs.Sums.{count_in};

use crate::small_counts::SmallCounts;
use crate::table::Tally;
use gcl_core::TallyKey;
use sampler_run::Run;
use std::alloc::AllocError;
use stream_runs::{STREAMS_OF_A_BLOCK, SeedRange, run_on_stream};
use zar_io::StreamBits;

// Counts one more for the key, in the table only where it is no small value. An error comes only where memory runs out.
#[inline]
fn count_key(small: &mut SmallCounts, table: &mut Tally, key: TallyKey) -> Result<(), AllocError>
    requires { count_in table.old key + count_in small.old key + 1 < 2 ^ 64 }
    ensures { IfOk result (λ _. (other : TallyKey) →
        count_in table.new other + count_in small.new other
        ≡ count_in table.old other + count_in small.old other + counted_at key 1 other) }
{
    if small.count(key) {
        return Ok(());
    }
    table.add(key, 1)
}

// Runs on some streams that follow one another, and counts the keys of the runs. An error comes only where memory runs out.
pub(crate) fn count_streams<'s>(
    state: &mut Run<'s>,
    home: &Run<'s>,
    small: &mut SmallCounts,
    table: &mut Tally,
    range: &SeedRange,
    first: u64,
    end: u64,
) -> Result<(), AllocError>
    requires home { IsHome home.now state.old }
    requires range { IsRange range.now }
    requires order { first ≤ end }
    requires fits { (key : TallyKey) → count_in table.old key + count_in small.old key + (end - first) < 2 ^ 64 }
    ensures counted { IfOk result (λ _. (run : List Bool → Answer) → IsRestOf (set_back state.old) run → (key : TallyKey) →
        count_in table.new key + count_in small.new key
        ≡ count_in table.old key + count_in small.old key + count_over run range.now.seed range.now.budget first end key) }
    ensures few { IfOk result (λ _. (key : TallyKey) →
        count_in table.new key + count_in small.new key ≤ count_in table.old key + count_in small.old key + (end - first)) }
    ensures same_start { set_back state.new ≡ set_back state.old }
{
    let mut bits = StreamBits::new(range.seed, first, range.budget);
    let mut at = first;
    while at < end {
        let key = run_on_stream(state, home, &mut bits, range.seed, at, range.budget);
        count_key(small, table, key)?;
        at += 1;
    }
    Ok(())
}

// Runs on the streams of a block, and counts the keys of the runs. An error comes only where memory runs out.
pub(crate) fn count_block<'s>(
    state: &mut Run<'s>,
    home: &Run<'s>,
    small: &mut SmallCounts,
    table: &mut Tally,
    range: &SeedRange,
    block: u64,
) -> Result<(), AllocError>
    requires home { IsHome home.now state.old }
    requires range { IsRange range.now }
    requires block { block < blocks_over range.now.from range.now.to }
    requires fits { (key : TallyKey) → count_in table.old key + count_in small.old key + STREAMS_OF_A_BLOCK < 2 ^ 64 }
    ensures counted { IfOk result (λ _. (run : List Bool → Answer) → IsRestOf (set_back state.old) run → (key : TallyKey) →
        count_in table.new key + count_in small.new key
        ≡ count_in table.old key + count_in small.old key + count_block run range.now key block) }
    ensures few { IfOk result (λ _. (key : TallyKey) →
        count_in table.new key + count_in small.new key ≤ count_in table.old key + count_in small.old key + STREAMS_OF_A_BLOCK) }
    ensures same_start { set_back state.new ≡ set_back state.old }
{
    let first = range.first_stream(block);
    count_streams(
        state,
        home,
        small,
        table,
        range,
        first,
        range.end_of_block(first),
    )
}
