// Lines of runs, by real threads.

ghost use Rattle.stream_runs.specs.Ranges.{IsRange, IsWorkers};

use crate::programs::{DIE, LIMITS, program, sampler};
use crate::ranges::{FAR, streams};
use gcl_core::Checked;
use report_text::sample_line;
use sampler_run::{RunError, Sampler, sample};
use std::alloc::{AllocError, Global};
use std::sync::atomic::AtomicU64;
use std::sync::atomic::Ordering::SeqCst;
use std::test::Fail;
use std::thread::Threads;
use stream_lines::write_runs;
use stream_runs::SeedRange;
use zar_io::{Gate, MemSink, Open, StreamBits};

// Adds a bit of its own for each block that is entered, of 64 blocks.
#[derive(Drop)]
struct Entered {
    sum: AtomicU64,
}

impl Gate for Entered {
    fn entered(&self, block: u64) {
        self.sum.fetch_add(1 << (block % 64), SeqCst);
    }
}

// A sink with room for so many bytes gets just these of what is wanted, which begins with the front, and the write that finds no room
// fails.
fn writes<R: Threads + Sync>(
    rt: &R,
    alloc: Global,
    p: &Checked,
    range: &SeedRange,
    front: &[u8],
    want: &[u8],
    room: usize,
) -> Result<bool, AllocError>
    requires range { IsRange range.now }
    requires workers { IsWorkers range.now.workers }
{
    let mut out = MemSink::new(alloc, 1000, room, &[])?;
    let written = write_runs(rt, alloc, &mut out, front, p, range, &LIMITS, &Open)?;
    let taken = &want[..want.len().min(room)];
    Ok(written.is_err() == (room < want.len()) && out.bytes() == taken)
}

// Programs, ranges of streams, and their lines. Stream 0 begins with the bits 101, and the far one with 001.
const ROWS: [(&str, u64, u64, u64, &str); 6] = [
    (DIE, 0, 1, 1000, "value 5 bits 3\n"),
    (DIE, 0, 1, 2, "more bits 2\n"),
    (DIE, FAR, FAR + 1, 3, "value 1 bits 3\n"),
    (
        "x ~ uniform(4294967296); return x;",
        0,
        1,
        1000,
        "value 2917185654 bits 32\n",
    ),
    ("return 7;", 5, 5, 1000, ""),
    (
        "return 7;",
        5,
        8,
        0,
        "value 7 bits 0\nvalue 7 bits 0\nvalue 7 bits 0\n",
    ),
];

#[test]
fn lines_of_streams(rt: HostRuntime) -> Result<(), Fail> {
    let alloc = rt.alloc();
    for (text, from, to, budget, want) in ROWS {
        let p = program(alloc, text)?;
        let range = streams(from, to, budget, 2);
        let want = want.as_bytes();
        assert!(rt; writes(&rt, alloc, &p, &range, b"", want, want.len())?);
    }
    Ok(())
}

// The line of a sample on each stream of the range.
fn sampled(alloc: Global, s: &Sampler, range: &SeedRange) -> Result<Vec<u8>, RunError>
    requires { IsRange range.now }
{
    let mut lines = Vec::new(alloc);
    for stream in range.from..range.to {
        let mut bits = StreamBits::new(range.seed, stream, range.budget);
        let stop = sample(alloc, s, &LIMITS, &mut bits)?;
        lines.extend_from_slice(sample_line(&stop.answer).bytes())?;
    }
    Ok(lines)
}

// Numbers of streams about the borders of batches and rounds.
const COUNTS: [u64; 7] = [0, 1, 1025, 16_383, 16_384, 16_385, 32_769];

const WORD: &str = "x ~ uniform(4294967296); return x;";

#[test]
fn any_number_of_workers_writes_the_lines_of_samples(rt: HostRuntime) -> Result<(), Fail> {
    let alloc = rt.alloc();
    let p = program(alloc, WORD)?;
    let s = sampler(alloc, WORD)?;
    for count in COUNTS {
        let want = sampled(alloc, &s, &streams(3, 3 + count, 40, 1))?;
        for workers in 1..5 {
            let range = streams(3, 3 + count, 40, workers);
            assert!(rt; writes(&rt, alloc, &p, &range, b"", &want, want.len() + 1)?);
        }
    }
    Ok(())
}

// Whether a sink gets the front for which it has room, whatever room it has from `least` bytes on.
fn stops_anywhere<R: Threads + Sync>(
    rt: &R,
    alloc: Global,
    p: &Checked,
    range: &SeedRange,
    want: &[u8],
    least: usize,
) -> Result<bool, AllocError>
    requires range { IsRange range.now }
    requires workers { IsWorkers range.now.workers }
{
    for room in least..=want.len() {
        if !writes(rt, alloc, p, range, b"", want, room)? {
            return Ok(false);
        }
    }
    Ok(true)
}

#[test]
fn a_sink_fails_at_any_byte(rt: HostRuntime) -> Result<(), Fail> {
    let alloc = rt.alloc();
    let p = program(alloc, DIE)?;
    let s = sampler(alloc, DIE)?;
    for count in [5, 16_386] {
        let want = sampled(alloc, &s, &streams(0, count, 1000, 1))?;
        for workers in 1..3 {
            let range = streams(0, count, 1000, workers);
            let least = want.len().saturating_sub(80);
            assert!(rt; stops_anywhere(&rt, alloc, &p, &range, &want, least)?);
        }
    }
    Ok(())
}

// A front of ten bytes, and two lines.
#[test]
fn a_front_stands_before_the_lines(rt: HostRuntime) -> Result<(), Fail> {
    let alloc = rt.alloc();
    let p = program(alloc, "return 7;")?;
    let range = streams(5, 7, 0, 2);
    let want: &[u8] = b"the front\nvalue 7 bits 0\nvalue 7 bits 0\n";
    for room in 0..=want.len() {
        assert!(rt; writes(&rt, alloc, &p, &range, b"the front\n", want, room)?);
    }
    Ok(())
}

// 1030 streams are 17 blocks.
#[test]
fn each_block_is_entered_once(rt: HostRuntime) -> Result<(), Fail> {
    let alloc = rt.alloc();
    let p = program(alloc, "return 7;")?;
    let gate = Entered {
        sum: AtomicU64::new(0),
    };
    let mut out = MemSink::new(alloc, 1000, 20_000, &[])?;
    let written = write_runs(
        &rt,
        alloc,
        &mut out,
        b"",
        &p,
        &streams(9, 1039, 0, 2),
        &LIMITS,
        &gate,
    )?;
    assert!(rt; written.is_ok());
    assert_eq!(rt; gate.sum.load(SeqCst), (1 << 17) - 1);
    Ok(())
}
