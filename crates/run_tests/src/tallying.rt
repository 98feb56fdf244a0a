// Tallies by real threads.

ghost use Rattle.stream_runs.specs.Ranges.{IsRange, IsWorkers};

use crate::programs::{DIE, LIMITS, sampler};
use crate::ranges::{FAR, streams};
use gcl_core::{Outcome, TallyKey};
use sampler_run::Sampler;
use std::alloc::{AllocError, Global};
use std::test::Fail;
use std::thread::Threads;
use stream_runs::SeedRange;
use tally_range::{Tally, tally};
use zar_io::Open;

// One row, of this key and count, and no other.
fn has_just(counts: &Tally, key: TallyKey, count: u64) -> bool {
    counts.count() == 1 && matches!(counts.iter().next(), Some((k, n)) if *k == key && *n == count)
}

// The sampler's tally has one row, of this key and count, and no other.
fn counts_just<R: Threads + Sync>(
    rt: &R,
    alloc: Global,
    s: &Sampler,
    range: &SeedRange,
    key: TallyKey,
    count: u64,
) -> Result<bool, AllocError>
    requires range { IsRange range.now }
    requires workers { IsWorkers range.now.workers }
{
    let counts = tally(rt, alloc, s, &LIMITS, range, &Open)?;
    Ok(has_just(&counts, key, count))
}

const VALUE_7: TallyKey = TallyKey::Outcome(Outcome::Value(7));

fn counts_sevens<R: Threads + Sync>(
    rt: &R,
    alloc: Global,
    s: &Sampler,
) -> Result<bool, AllocError> {
    let by_one = counts_just(rt, alloc, s, &streams(0, 1000, 1000, 1), VALUE_7, 1000)?;
    let by_three = counts_just(rt, alloc, s, &streams(0, 1000, 1000, 3), VALUE_7, 1000)?;
    let by_64 = counts_just(rt, alloc, s, &streams(0, 1000, 1000, 64), VALUE_7, 1000)?;
    let none = tally(rt, alloc, s, &LIMITS, &streams(5, 5, 1000, 1), &Open)?;
    Ok(by_one && by_three && by_64 && none.count() == 0)
}

fn counts_draws<R: Threads + Sync>(rt: &R, alloc: Global, s: &Sampler) -> Result<bool, AllocError> {
    let five = TallyKey::Outcome(Outcome::Value(5));
    let first = counts_just(rt, alloc, s, &streams(0, 1, 1000, 1), five, 1)?;
    let cut = counts_just(rt, alloc, s, &streams(0, 1, 2, 1), TallyKey::MoreBits, 1)?;
    let one = TallyKey::Outcome(Outcome::Value(1));
    let far = counts_just(rt, alloc, s, &streams(FAR, FAR + 1, 3, 1), one, 1)?;
    Ok(first && cut && far)
}

#[test]
fn rows_of_streams(rt: HostRuntime) -> Result<(), Fail> {
    let alloc = rt.alloc();
    assert!(rt; counts_sevens(&rt, alloc, &sampler(alloc, "return 7;")?)?);
    assert!(rt; counts_draws(&rt, alloc, &sampler(alloc, DIE)?)?);
    Ok(())
}

fn counts_one_value<R: Threads + Sync>(
    rt: &R,
    alloc: Global,
    s: &Sampler,
    n: i64,
) -> Result<bool, AllocError> {
    let key = TallyKey::Outcome(Outcome::Value(n));
    counts_just(rt, alloc, s, &streams(0, 100, 10, 2), key, 100)
}

// Values on both sides of where small ones end.
const VALUES: [(&str, i64); 4] = [
    ("return -1;", -1),
    ("return 0;", 0),
    ("return 63;", 63),
    ("return 64;", 64),
];

#[test]
fn rows_of_small_values_and_others(rt: HostRuntime) -> Result<(), Fail> {
    let alloc = rt.alloc();
    for (text, n) in VALUES {
        assert!(rt; counts_one_value(&rt, alloc, &sampler(alloc, text)?, n)?);
    }
    Ok(())
}
