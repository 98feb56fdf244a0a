// A tally and a hunt by the top call, with a gate that holds a block.

ghost use Rattle.std.specs.Prelude.{◌^◌, ◌<◌, length};

use crate::in_memory::spelled;
use std::alloc::{AllocError, Global};
use std::marker::Sync;
use std::sync::atomic::AtomicU64;
use std::sync::atomic::Ordering::SeqCst;
use std::test::Fail;
use std::thread;
use std::thread::Threads;
use zar_cli::{Call, zar};
use zar_io::{Gate, MemFiles, MemSink};

// Holds the block that is entered first until the three others were entered.
#[derive(Drop)]
struct Held {
    blocks: [AtomicU64; 4],
    entered: AtomicU64,
    turns_spent: AtomicU64,
}

impl Gate for Held {
    fn entered(&self, block: u64) {
        if block < 4 {
            self.blocks[block as usize].fetch_add(1, SeqCst);
        }
        if self.entered.fetch_add(1, SeqCst) != 0 {
            return;
        }
        for _ in 0..1_000_000_000u64 {
            if self.entered.load(SeqCst) >= 4 {
                return;
            }
            thread::yield_now();
        }
        self.turns_spent.store(1, SeqCst);
    }
}

// Each block was entered once, and the turns were not spent.
fn each_entered_once(gate: &Held) -> bool {
    for block in &gate.blocks {
        if block.load(SeqCst) != 1 {
            return false;
        }
    }
    gate.turns_spent.load(SeqCst) == 0
}

// A gate at which no block was entered yet.
fn no_block_entered() -> Held {
    Held {
        blocks: [
            AtomicU64::new(0),
            AtomicU64::new(0),
            AtomicU64::new(0),
            AtomicU64::new(0),
        ],
        entered: AtomicU64::new(0),
        turns_spent: AtomicU64::new(0),
    }
}

// The call of these words on the program `return 7;` has status 0 and writes this line.
fn says<R: Threads + Sync>(
    rt: &R,
    alloc: Global,
    call: &[&str],
    gate: &Held,
    line: &[u8],
) -> Result<bool, AllocError>
    requires { length call.now < 2 ^ 32 }
{
    let words = spelled(alloc, call)?;
    let mut files = MemFiles::new(alloc, 16, &[])?;
    files.add("p.gcl", b"return 7;")?;
    let mut out = MemSink::new(alloc, 16, 4096, &[])?;
    let mut err = MemSink::new(alloc, 16, 4096, &[])?;
    let call = Call::of(alloc, words.as_slice());
    let status = zar(rt, alloc, &call, &mut files, &mut out, &mut err, gate);
    Ok(status == 0 && out.bytes() == line)
}

const TALLIED: [&str; 10] = [
    "tally",
    "p.gcl",
    "--seed",
    "0",
    "--from",
    "0",
    "--to",
    "256",
    "--workers",
    "2",
];

const HUNTED: [&str; 12] = [
    "hunt",
    "p.gcl",
    "--seed",
    "0",
    "--from",
    "0",
    "--to",
    "256",
    "--want",
    "4",
    "--workers",
    "2",
];

#[test]
fn two_workers_enter_four_blocks(rt: HostRuntime) -> Result<(), Fail> {
    let gate = no_block_entered();
    assert!(rt; says(&rt, rt.alloc(), &TALLIED, &gate, b"value 7 count 256\n")?);
    assert!(rt; each_entered_once(&gate));
    Ok(())
}

#[test]
fn two_workers_hunt_in_four_blocks(rt: HostRuntime) -> Result<(), Fail> {
    let gate = no_block_entered();
    assert!(rt; says(&rt, rt.alloc(), &HUNTED, &gate, b"stream none\n")?);
    assert!(rt; each_entered_once(&gate));
    Ok(())
}
