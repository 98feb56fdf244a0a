// Which programs are accepted, and the first refusals of others.

use gcl_check::{CheckError, check};
use gcl_text::parse_text;
use std::alloc::{AllocError, Global};
use std::test::Fail;

fn refusal(alloc: Global, text: &[u8]) -> Result<Option<CheckError>, Fail> {
    Ok(check(parse_text(alloc, text)?.program).err())
}

// The statements of arms are numbered on, and what an arm sets is known.
const REFUSALS: [(&'static [u8], Option<CheckError>); 10] = [
    (
        b"x := true; return x;",
        Some(CheckError::KindMismatch { stmt: 0 }),
    ),
    (
        b"while x { skip; } x := 1; return x;",
        Some(CheckError::KindMismatch { stmt: 0 }),
    ),
    (
        b"while true { x ~ uniform(x); } y := y; return false;",
        Some(CheckError::KindMismatch { stmt: 3 }),
    ),
    (
        b"if true { x := y; } else { } x := 1; return x;",
        Some(CheckError::UnknownName { stmt: 1 }),
    ),
    (
        b"x := y + true; return x;",
        Some(CheckError::KindMismatch { stmt: 0 }),
    ),
    (
        b"skip; return y;",
        Some(CheckError::UnknownName { stmt: 1 }),
    ),
    (b"skip; y := 1; return y;", None),
    (
        b"choose { 1: { skip; skip; } | 2: { x := y; } | 3: { } } return x;",
        Some(CheckError::UnknownName { stmt: 3 }),
    ),
    (
        b"choose { 1: { skip; skip; } | 2: { y := 1; } | 3: { } } x := true; return x;",
        Some(CheckError::KindMismatch { stmt: 4 }),
    ),
    (
        b"choose { 1: { skip; skip; } | 2: { y := 1; } | 3: { } } x := y; return x;",
        None,
    ),
];

#[test]
fn kinds_and_names(rt: HostRuntime) -> Result<(), Fail> {
    for (text, want) in REFUSALS {
        assert!(rt; refusal(rt.alloc(), text)? == want, "of {text:?}");
    }
    Ok(())
}

const LETTERS: &[u8; 26] = b"abcdefghijklmnopqrstuvwxyz";

// Sets `count` names of three letters, where there are at most 676.
fn names(alloc: Global, count: usize) -> Result<Vec<u8>, AllocError> {
    let mut text = Vec::new(alloc);
    for i in 0..count {
        text.push(b'v')?;
        text.push(LETTERS[i / 26 % 26])?;
        text.push(LETTERS[i % 26])?;
        text.extend_from_slice(b":=1;")?;
    }
    text.extend_from_slice(b"return 1;")?;
    Ok(text)
}

#[test]
fn at_most_256_names(rt: HostRuntime) -> Result<(), Fail> {
    for (count, want) in [(256, None), (257, Some(CheckError::TooManyNames))] {
        let text = names(rt.alloc(), count)?;
        assert!(rt; refusal(rt.alloc(), &text)? == want, "of {count} names");
    }
    Ok(())
}
