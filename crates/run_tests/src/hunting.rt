// Hunts by real threads.

ghost use Rattle.stream_runs.specs.Ranges.{IsRange, IsWorkers};

use crate::programs::{DIE, LIMITS, sampler};
use crate::ranges::{FAR, streams};
use gcl_core::{Outcome, TallyKey};
use hunt_range::hunt;
use sampler_run::Sampler;
use std::alloc::{AllocError, Global};
use std::sync::atomic::AtomicU64;
use std::sync::atomic::Ordering::SeqCst;
use std::test::Fail;
use std::thread::Threads;
use stream_runs::SeedRange;
use zar_io::{Gate, Open};

// Counts the blocks that are entered.
#[derive(Drop)]
struct Counter {
    entered: AtomicU64,
}

impl Gate for Counter {
    fn entered(&self, _: u64) {
        self.entered.fetch_add(1, SeqCst);
    }
}

const FIVE: TallyKey = TallyKey::Outcome(Outcome::Value(5));

const ONE: TallyKey = TallyKey::Outcome(Outcome::Value(1));

const NINE: TallyKey = TallyKey::Outcome(Outcome::Value(9));

fn finds<R: Threads + Sync>(
    rt: &R,
    alloc: Global,
    s: &Sampler,
    range: &SeedRange,
    want: TallyKey,
    found: Option<u64>,
) -> Result<bool, AllocError>
    requires range { IsRange range.now }
    requires workers { IsWorkers range.now.workers }
{
    Ok(hunt(rt, alloc, s, &LIMITS, range, &want, &Open)? == found)
}

fn finds_draws<R: Threads + Sync>(rt: &R, alloc: Global, s: &Sampler) -> Result<bool, AllocError> {
    let here = finds(rt, alloc, s, &streams(0, 1, 1000, 1), FIVE, Some(0))?;
    let cut = finds(
        rt,
        alloc,
        s,
        &streams(0, 1, 2, 1),
        TallyKey::MoreBits,
        Some(0),
    )?;
    let far = finds(rt, alloc, s, &streams(FAR, FAR + 1, 3, 1), ONE, Some(FAR))?;
    let none = finds(rt, alloc, s, &streams(5, 5, 1000, 1), FIVE, None)?;
    Ok(here && cut && far && none)
}

// An early stream ends a hunt over 2^40 streams; one that finds nothing goes over all.
fn ends_early<R: Threads + Sync>(rt: &R, alloc: Global, s: &Sampler) -> Result<bool, AllocError> {
    let early = finds(rt, alloc, s, &streams(0, 1 << 40, 1000, 64), FIVE, Some(0))?;
    let never = finds(rt, alloc, s, &streams(0, 1000, 1000, 4), NINE, None)?;
    Ok(early && never)
}

#[test]
fn the_least_of_many(rt: HostRuntime) -> Result<(), Fail> {
    let alloc = rt.alloc();
    let die = sampler(alloc, DIE)?;
    assert!(rt; finds_draws(&rt, alloc, &die)?);
    assert!(rt; ends_early(&rt, alloc, &die)?);
    Ok(())
}

// In a hunt over 2^40 streams, each of which is wanted, no worker enters a third block.
fn enters_few<R: Threads + Sync>(
    rt: &R,
    alloc: Global,
    s: &Sampler,
    workers: u32,
) -> Result<bool, AllocError>
    requires { IsWorkers workers }
{
    let gate = Counter {
        entered: AtomicU64::new(0),
    };
    let range = streams(0, 1 << 40, 1000, workers);
    let found = hunt(rt, alloc, s, &LIMITS, &range, &FIVE, &gate)?;
    Ok(found == Some(0) && gate.entered.load(SeqCst) <= 2 * u64::from(workers))
}

#[test]
fn workers_stop_behind_what_they_found(rt: HostRuntime) -> Result<(), Fail> {
    let alloc = rt.alloc();
    let five = sampler(alloc, "return 5;")?;
    for workers in [1, 4, 64] {
        assert!(rt; enters_few(&rt, alloc, &five, workers)?);
    }
    Ok(())
}
