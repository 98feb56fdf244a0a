// The top call over files and sinks in memory.

ghost use Rattle.std.specs.Prelude.{◌<◌};

use crate::in_memory::{call, spelled};
use std::alloc::{AllocError, Global};
use std::test::Fail;
use std::thread::Threads;
use zar_io::{MemFiles, MemSink};

pub(crate) const TWO_THIRDS: &[u8] = b"choice 2/3 { x := 1; } or { x := 2; } return x;";

// The two files of a call. A read gives at most `step` bytes, and the calls of these numbers fail.
pub(crate) fn files_of(
    alloc: Global,
    program: Option<&[u8]>,
    bits: Option<&[u8]>,
    step: usize,
    fails: &[u64],
) -> Result<MemFiles, AllocError>
    requires { 0 < step }
{
    let mut files = MemFiles::new(alloc, step, fails)?;
    if let Some(bytes) = program {
        files.add("p.gcl", bytes)?;
    }
    if let Some(bytes) = bits {
        files.add("b.bin", bytes)?;
    }
    Ok(files)
}

// A call, its files, and what it says.
struct Row {
    words: &'static [&'static str],
    program: Option<&'static [u8]>,
    bits: Option<&'static [u8]>,
    status: u8,
    out: &'static [u8],
    err: &'static [u8],
}

// Samples from files of bits.
const SAMPLES: [Row; 13] = [
    Row {
        words: &["sample", "p.gcl", "--bits", "b.bin"],
        program: Some(b"return 7;"),
        bits: Some(b""),
        status: 0,
        out: b"value 7 bits 0\n",
        err: b"",
    },
    Row {
        words: &["sample", "p.gcl", "--bits", "b.bin"],
        program: Some(TWO_THIRDS),
        bits: Some(b"\xc0"),
        status: 0,
        out: b"value 1 bits 3\n",
        err: b"",
    },
    Row {
        words: &["sample", "p.gcl", "--bits", "b.bin"],
        program: Some(TWO_THIRDS),
        bits: Some(b""),
        status: 7,
        out: b"more bits 0\n",
        err: b"",
    },
    Row {
        words: &["sample", "p.gcl", "--bits", "b.bin"],
        program: Some(TWO_THIRDS),
        bits: Some(&[0xff; 250]),
        status: 8,
        out: b"limit attempts bits 2000\n",
        err: b"",
    },
    Row {
        words: &["sample", "p.gcl", "--bits", "b.bin"],
        program: Some(TWO_THIRDS),
        bits: Some(&[0xff; 249]),
        status: 7,
        out: b"more bits 1992\n",
        err: b"",
    },
    Row {
        words: &["sample", "p.gcl", "--bits", "b.bin"],
        program: Some(b"choice 0/5 { x := 1; } or { x := 2; } return x;"),
        bits: Some(b""),
        status: 0,
        out: b"value 2 bits 0\n",
        err: b"",
    },
    Row {
        words: &["sample", "p.gcl", "--bits", "b.bin"],
        program: Some(b"choice 4/4 { x := 1; } or { x := 2; } return x;"),
        bits: Some(b""),
        status: 0,
        out: b"value 1 bits 0\n",
        err: b"",
    },
    Row {
        words: &["sample", "p.gcl", "--bits", "b.bin"],
        program: Some(b"choice 1/256 { x := 1; } or { x := 2; } return x;"),
        bits: Some(b"\x00"),
        status: 0,
        out: b"value 1 bits 8\n",
        err: b"",
    },
    Row {
        words: &["sample", "p.gcl", "--bits", "b.bin"],
        program: Some(b"choice 1/3 { x := 1; } or { x := 1; } return x;"),
        bits: Some(b""),
        status: 7,
        out: b"more bits 0\n",
        err: b"",
    },
    Row {
        words: &["sample", "p.gcl", "--bits", "b.bin"],
        program: Some(b"x := ;"),
        bits: Some(b"\xc0"),
        status: 1,
        out: b"",
        err: b"error E5 unexpected at 5\n",
    },
    Row {
        words: &["sample", "p.gcl", "--bits", "b.bin"],
        program: Some(b"x := ;"),
        bits: None,
        status: 1,
        out: b"",
        err: b"error E5 unexpected at 5\n",
    },
    Row {
        words: &["sample", "p.gcl", "--bits", "b.bin"],
        program: None,
        bits: Some(b"\xc0"),
        status: 9,
        out: b"",
        err: b"error no file\n",
    },
    Row {
        words: &["sample", "p.gcl", "--bits", "b.bin"],
        program: Some(TWO_THIRDS),
        bits: None,
        status: 9,
        out: b"",
        err: b"error no file\n",
    },
];

// Calls without one.
const ANSWERS: [Row; 20] = [
    Row {
        words: &["check", "p.gcl"],
        program: Some(b"return 7;"),
        bits: None,
        status: 0,
        out: b"ok statements 0 names 0\n",
        err: b"",
    },
    Row {
        words: &["check", "p.gcl"],
        program: Some(TWO_THIRDS),
        bits: None,
        status: 0,
        out: b"ok statements 3 names 1\n",
        err: b"",
    },
    Row {
        words: &["check", "p.gcl"],
        program: Some(b"x := true; return x;"),
        bits: None,
        status: 1,
        out: b"",
        err: b"error E7 kind mismatch at 0\n",
    },
    Row {
        words: &["show", "p.gcl"],
        program: Some(b"x:=1 ; return  x ;"),
        bits: None,
        status: 0,
        out: b"x := 1;\nreturn x;\n",
        err: b"",
    },
    Row {
        words: &["show", "p.gcl"],
        program: Some(b"return 1"),
        bits: None,
        status: 1,
        out: b"",
        err: b"error E5 unexpected at 8\n",
    },
    Row {
        words: &["mass", "p.gcl"],
        program: Some(TWO_THIRDS),
        bits: None,
        status: 0,
        out: b"value 1 mass 2/3\nvalue 2 mass 1/3\n",
        err: b"",
    },
    Row {
        words: &["posterior", "p.gcl", "--turns", "2"],
        program: Some(
            b"go := 1; while go = 1 { choice 1/2 { x := x + 1; } or { go := 0; } } return x;",
        ),
        bits: None,
        status: 0,
        out: b"value 0 from 1/2 to 3/4\nvalue 1 from 1/4 to 1/2\nother from 0/1 to 1/4\n",
        err: b"",
    },
    Row {
        words: &["exact", "p.gcl"],
        program: Some(b"choice 1/3 { x := 1; } or { skip; } while x = 0 { skip; } return x;"),
        bits: None,
        status: 0,
        out: b"value 1 mass 1/3\nendless mass 2/3\n",
        err: b"",
    },
    Row {
        words: &[
            "enclose",
            "p.gcl",
            "--rounds",
            "1",
            "--turns",
            "1",
            "--all-turns",
        ],
        program: Some(
            b"x ~ uniform(4); observe x > 0; while x = 1 { x ~ uniform(2); } return x % 2;",
        ),
        bits: None,
        status: 0,
        out: b"value 0 from 3/8 to 1/2\nvalue 1 from 1/4 to 3/8\nlimit rounds from 1/4 to 3/8\nother from 0/1 to 1/8\n",
        err: b"",
    },
    Row {
        words: &["cost", "p.gcl", "--attempts", "2", "--rounds", "1"],
        program: Some(TWO_THIRDS),
        bits: None,
        status: 0,
        out: b"bits 15/8\n",
        err: b"",
    },
    Row {
        words: &["cost", "p.gcl"],
        program: Some(TWO_THIRDS),
        bits: None,
        status: 0,
        out: b"bits 2/1\n",
        err: b"",
    },
    Row {
        words: &["cost", "p.gcl"],
        program: Some(b"x ~ uniform(2); observe false; return x;"),
        bits: None,
        status: 0,
        out: b"bits unbounded\n",
        err: b"",
    },
    Row {
        words: &["audit", "p.gcl", "--depth", "3"],
        program: Some(TWO_THIRDS),
        bits: None,
        status: 0,
        out: b"value 1 mass 5/8\nvalue 2 mass 1/4\nundecided mass 1/8\n",
        err: b"",
    },
    Row {
        words: &["tally", "p.gcl", "--seed", "0", "--from", "3", "--to", "9"],
        program: Some(b"return 7;"),
        bits: None,
        status: 0,
        out: b"value 7 count 6\n",
        err: b"",
    },
    Row {
        words: &[
            "hunt", "p.gcl", "--seed", "0", "--from", "0", "--to", "1", "--want", "5",
        ],
        program: Some(b"x ~ uniform(6); return x;"),
        bits: None,
        status: 0,
        out: b"stream 0\n",
        err: b"",
    },
    Row {
        words: &["gen", "1"],
        program: Some(b""),
        bits: None,
        status: 0,
        out: b"statements 10\nbytes 124\nstreams 1000\nvalue 3 count 1000\n",
        err: b"",
    },
    Row {
        words: &["fast", "6", "--seed", "0"],
        program: Some(b""),
        bits: None,
        status: 0,
        out: b"value 5 bits 3\n",
        err: b"",
    },
    Row {
        words: &["fast", "6", "--flips", "5"],
        program: Some(b""),
        bits: None,
        status: 0,
        out: b"each mass 5/32\nlimit flips mass 1/16\n",
        err: b"",
    },
    Row {
        words: &["roll", "3,2,1", "--seed", "0"],
        program: Some(b""),
        bits: None,
        status: 0,
        out: b"value 1 bits 2\n",
        err: b"",
    },
    Row {
        words: &["roll", "3,0,1", "--flips", "1"],
        program: Some(b""),
        bits: None,
        status: 0,
        out: b"value 0 mass 1/2\nlimit flips mass 1/2\nbits 1/1\n",
        err: b"",
    },
];

// The call says what it must where a read gives at most `step` bytes.
fn says<R: Threads + Sync>(
    rt: &R,
    alloc: Global,
    row: &Row,
    step: usize,
) -> Result<bool, AllocError>
    requires { 0 < step }
{
    if row.words.len() >= 1 << 32 {
        return Ok(false);
    }
    let words = spelled(alloc, row.words)?;
    let mut files = files_of(alloc, row.program, row.bits, step, &[])?;
    let mut out = MemSink::new(alloc, 4096, 65_536, &[])?;
    let mut err = MemSink::new(alloc, 4096, 65_536, &[])?;
    let status = call(rt, alloc, words.as_slice(), &mut files, &mut out, &mut err);
    Ok(status == row.status && out.bytes() == row.out && err.bytes() == row.err)
}

// The first row whose call says something else, where a read gives one byte or many.
fn row_at_odds<R: Threads + Sync>(
    rt: &R,
    alloc: Global,
    rows: &[Row],
) -> Result<Option<usize>, AllocError> {
    for (i, row) in rows.iter().enumerate() {
        if !says(rt, alloc, row, 1)? || !says(rt, alloc, row, 4096)? {
            return Ok(Some(i));
        }
    }
    Ok(None)
}

#[test]
fn samples_from_a_file_of_bits(rt: HostRuntime) -> Result<(), Fail> {
    assert_eq!(rt; row_at_odds(&rt, rt.alloc(), &SAMPLES)?, None);
    Ok(())
}

#[test]
fn answers_of_a_program(rt: HostRuntime) -> Result<(), Fail> {
    assert_eq!(rt; row_at_odds(&rt, rt.alloc(), &ANSWERS)?, None);
    Ok(())
}
