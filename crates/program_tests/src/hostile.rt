// Each call for the files fails in turn, and each write.

use crate::calls::{TWO_THIRDS, files_of};
use crate::in_memory::spelled;
use std::alloc::{AllocError, Global};
use std::test::Fail;
use std::thread::Threads;
use zar_cli::{Call, zar};
use zar_io::{MemSink, Open};

// Which calls fail in turn.
#[derive(Clone, Copy)]
enum Failing {
    // Those for the files: how many there are.
    Files(u64),
    // The writes of the answer.
    Out,
    // The writes of the answer, and the first of the refusal that follows.
    OutAndErr,
    // The writes of the refusal.
    Err,
}

// The words of a call, its files, of which a read gives at most `step` bytes, and what it says where nothing fails.
#[derive(Clone, Copy)]
struct Row {
    words: &'static [&'static str],
    program: &'static [u8],
    bits: &'static [u8],
    step: usize,
    failing: Failing,
    status: u8,
    out: &'static [u8],
    err: &'static [u8],
}

// Byte by byte, the text of 47 bytes takes an open, as many reads, and one that finds its end; the one byte of bits an open and a
// read.
const ROWS: [Row; 10] = [
    Row {
        words: &["sample", "p.gcl", "--bits", "b.bin"],
        program: TWO_THIRDS,
        bits: b"\xc0",
        step: 1,
        failing: Failing::Files(51),
        status: 0,
        out: b"value 1 bits 3\n",
        err: b"",
    },
    Row {
        words: &["sample", "p.gcl", "--bits", "b.bin"],
        program: TWO_THIRDS,
        bits: b"\xc0",
        step: 1,
        failing: Failing::Out,
        status: 0,
        out: b"value 1 bits 3\n",
        err: b"",
    },
    Row {
        words: &["sample", "p.gcl", "--bits", "b.bin"],
        program: TWO_THIRDS,
        bits: b"\xc0",
        step: 1,
        failing: Failing::OutAndErr,
        status: 0,
        out: b"value 1 bits 3\n",
        err: b"",
    },
    Row {
        words: &["check", "p.gcl"],
        program: b"",
        bits: b"",
        step: 1,
        failing: Failing::Err,
        status: 1,
        out: b"",
        err: b"error E5 unexpected at 0\n",
    },
    // The bits take an open, two reads, and one that finds their end.
    Row {
        words: &[
            "sample",
            "p.gcl",
            "--bits",
            "b.bin",
            "--attempts",
            "1000000000",
        ],
        program: TWO_THIRDS,
        bits: &[0xff; 5000],
        step: 4096,
        failing: Failing::Files(7),
        status: 7,
        out: b"more bits 40000\n",
        err: b"",
    },
    Row {
        words: &["roll", "3,2,1", "--bits", "b.bin"],
        program: b"",
        bits: b"\xc0",
        step: 1,
        failing: Failing::Files(2),
        status: 0,
        out: b"value 2 bits 3\n",
        err: b"",
    },
    Row {
        words: &["fast", "6", "--bits", "b.bin"],
        program: b"",
        bits: b"\xd4",
        step: 1,
        failing: Failing::Files(2),
        status: 0,
        out: b"value 2 bits 5\n",
        err: b"",
    },
    Row {
        words: &["tally", "p.gcl", "--seed", "0", "--from", "3", "--to", "9"],
        program: b"return 7;",
        bits: b"",
        step: 4096,
        failing: Failing::Files(3),
        status: 0,
        out: b"value 7 count 6\n",
        err: b"",
    },
    Row {
        words: &["mass", "p.gcl"],
        program: TWO_THIRDS,
        bits: b"",
        step: 4096,
        failing: Failing::Out,
        status: 0,
        out: b"value 1 mass 2/3\nvalue 2 mass 1/3\n",
        err: b"",
    },
    Row {
        words: &["show", "p.gcl"],
        program: b"choice 2/3{x:=1;}or{x:=2;}return x;",
        bits: b"",
        step: 4096,
        failing: Failing::Out,
        status: 0,
        out: b"choice 2/3 {\n  x := 1;\n} or {\n  x := 2;\n}\nreturn x;\n",
        err: b"",
    },
];

// How many calls fail in turn. A write takes one byte.
fn calls(row: &Row) -> u64 {
    match row.failing {
        Failing::Files(count) => count,
        Failing::Out | Failing::OutAndErr => row.out.len() as u64,
        Failing::Err => row.err.len() as u64,
    }
}

fn front(text: &'static [u8], number: u64) -> &'static [u8] {
    &text[..text.len().min(number as usize)]
}

// What is said where the call of this number fails, if there is one.
fn wanted(row: &Row, number: u64) -> (u8, &'static [u8], &'static [u8]) {
    if number >= calls(row) {
        return (row.status, row.out, row.err);
    }
    match row.failing {
        Failing::Files(_) => (3, b"", b"error read fault\n"),
        Failing::Out => (4, front(row.out, number), b"error write fault\n"),
        Failing::OutAndErr => (4, front(row.out, number), b""),
        Failing::Err => (4, b"", front(row.err, number)),
    }
}

// The call of the row says what it must where those for the files, and the writes, of these numbers fail.
fn says<R: Threads + Sync>(
    rt: &R,
    alloc: Global,
    row: &Row,
    fails: [&[u64]; 3],
    said: (u8, &[u8], &[u8]),
) -> Result<bool, AllocError> {
    if row.words.len() >= 1 << 32 {
        return Ok(false);
    }
    let words = spelled(alloc, row.words)?;
    let step = row.step.max(1);
    let mut files = files_of(alloc, Some(row.program), Some(row.bits), step, fails[0])?;
    let mut out = MemSink::new(alloc, 1, 4096, fails[1])?;
    let mut err = MemSink::new(alloc, 1, 4096, fails[2])?;
    let call = Call::of(alloc, words.as_slice());
    let status = zar(rt, alloc, &call, &mut files, &mut out, &mut err, &Open);
    Ok(status == said.0 && out.bytes() == said.1 && err.bytes() == said.2)
}

// The same where the call of this number fails.
fn says_at<R: Threads + Sync>(
    rt: &R,
    alloc: Global,
    row: &Row,
    number: u64,
) -> Result<bool, AllocError> {
    let it: [u64; 1] = [number];
    let fails: [&[u64]; 3] = match row.failing {
        Failing::Files(_) => [&it, &[], &[]],
        Failing::Out => [&[], &it, &[]],
        Failing::OutAndErr => [&[], &it, &[0]],
        Failing::Err => [&[], &[], &it],
    };
    says(rt, alloc, row, fails, wanted(row, number))
}

// The number of the first call that fails with another answer; in the last run none fails.
fn first_wrong<R: Threads + Sync>(
    rt: &R,
    alloc: Global,
    row: &Row,
) -> Result<Option<u64>, AllocError> {
    for number in 0..=calls(row) {
        if !says_at(rt, alloc, row, number)? {
            return Ok(Some(number));
        }
    }
    Ok(None)
}

// The first row with a call that is not answered as it must be.
fn first_wrong_row<R: Threads + Sync>(
    rt: &R,
    alloc: Global,
    rows: &[Row],
) -> Result<Option<(usize, u64)>, AllocError> {
    for (place, row) in rows.iter().enumerate() {
        if let Some(number) = first_wrong(rt, alloc, row)? {
            return Ok(Some((place, number)));
        }
    }
    Ok(None)
}

#[test]
fn each_call_of_the_outside_fails_in_turn(rt: HostRuntime) -> Result<(), Fail> {
    assert_eq!(rt; first_wrong_row(&rt, rt.alloc(), &ROWS)?, None);
    Ok(())
}
