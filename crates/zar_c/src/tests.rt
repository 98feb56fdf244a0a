// Calls of the exports, with answers that the documents have.

use crate::{
    DONE, MASS_REFUSED, NUMBERS_REFUSED, TEXT_REFUSED, ZarFound, ZarLimits, ZarRan, ZarRollLimits,
    zar_audit, zar_check, zar_code, zar_cost, zar_cost_in_the_limit, zar_draws, zar_draws_in_a_row,
    zar_draws_in_the_limit, zar_enclose, zar_explain, zar_hunt, zar_mass, zar_posterior, zar_roll,
    zar_rounds_in_the_limit, zar_run, zar_show, zar_tally, zar_turns_in_the_limit, zar_version,
};
use std::test::Fail;

// A die, whose first runs on the streams of the seed 1 are those of the documents.
const DIE: &[u8] = b"face ~ uniform(6); return face + 1;";

const USUAL: ZarLimits = ZarLimits {
    budget: 65_536,
    turns: 1000,
    attempts: 1000,
    rounds: 1000,
};

#[test]
fn draws(rt: HostRuntime) -> Result<(), Fail> {
    let mut values = [7i64; 3];
    let mut ends = [7u8; 3];
    let said = zar_draws(rt.alloc(), DIE, 1, 0, &USUAL, &mut values, &mut ends);
    assert_eq!(rt; said.status, DONE);
    assert_eq!(rt; values, [4, 1, 4]);
    assert_eq!(rt; ends, [0, 0, 0]);
    Ok(())
}

// Of the weights 3, 2 and 1 the label 1 comes on 10. The stream 0 of the seed 0 begins with 1010 (RFC 8439, appendix A.1, test
// vector 1).
#[test]
fn rolls(rt: HostRuntime) -> Result<(), Fail> {
    let limits = ZarRollLimits {
        budget: 9,
        flips: 9,
    };
    let mut labels = [7u64; 1];
    let mut ends = [7u8; 1];
    let said = zar_roll(rt.alloc(), &[6], 0, 0, &limits, &mut labels, &mut ends);
    assert_eq!(rt; said.status, NUMBERS_REFUSED);
    assert_eq!(rt; labels, [7]);
    let said = zar_roll(
        rt.alloc(),
        &[3, 2, 1],
        0,
        0,
        &limits,
        &mut labels,
        &mut ends,
    );
    assert_eq!(rt; said.status, DONE);
    assert_eq!(rt; labels, [1]);
    assert_eq!(rt; ends, [0]);
    Ok(())
}

// The bits 101 are the number 5.
#[test]
fn runs_on_bits(rt: HostRuntime) -> Result<(), Fail> {
    let mut ran = ZarRan {
        value: 7,
        read: 7,
        end: 0,
    };
    let said = zar_run(rt.alloc(), DIE, &[0b1010_0000], 0, 9, 1, &mut ran);
    assert_eq!(rt; said.status, DONE);
    assert_eq!(rt; ran.value, 6);
    assert_eq!(rt; ran.read, 3);
    let said = zar_run(rt.alloc(), DIE, &[], 0, 9, 1, &mut ran);
    assert_eq!(rt; said.status, DONE);
    assert_eq!(rt; ran.end, 7);
    assert_eq!(rt; ran.read, 0);
    let said = zar_run(rt.alloc(), DIE, &[0], 0, 0, 1, &mut ran);
    assert_eq!(rt; said.status, NUMBERS_REFUSED);
    assert_eq!(rt; ran.end, 7);
    Ok(())
}

// The stream 0 of the seed 0 begins with 10101101 (RFC 8439, appendix A.1, test vector 1).
#[test]
fn draws_in_a_row(rt: HostRuntime) -> Result<(), Fail> {
    let coin = b"x ~ uniform(2); return x;";
    let mut values = [7i64; 8];
    let mut ends = [7u8; 8];
    let mut read = 7;
    let said = zar_draws_in_a_row(
        rt.alloc(),
        coin,
        0,
        0,
        &USUAL,
        &mut values,
        &mut ends,
        &mut read,
    );
    assert_eq!(rt; said.status, DONE);
    assert_eq!(rt; values, [1, 0, 1, 0, 1, 1, 0, 1]);
    assert_eq!(rt; ends, [0; 8]);
    assert_eq!(rt; read, 8);
    let few = ZarLimits { budget: 5, ..USUAL };
    let said = zar_draws_in_a_row(
        rt.alloc(),
        coin,
        0,
        0,
        &few,
        &mut values,
        &mut ends,
        &mut read,
    );
    assert_eq!(rt; said.status, DONE);
    assert_eq!(rt; values, [1, 0, 1, 0, 1, 0, 0, 0]);
    assert_eq!(rt; ends, [0, 0, 0, 0, 0, 7, 7, 7]);
    assert_eq!(rt; read, 5);
    Ok(())
}

#[test]
fn encloses(rt: HostRuntime) -> Result<(), Fail> {
    let mut lines = [0u8; 24];
    let said = zar_enclose(rt.alloc(), b"return 1;", 30, 0, 0, false, &mut lines);
    assert_eq!(rt; said.status, DONE);
    assert_eq!(rt; lines, *b"value 1 from 1/1 to 1/1\n");
    let said = zar_enclose(
        rt.alloc(),
        b"observe false; return 1;",
        30,
        0,
        0,
        false,
        &mut lines,
    );
    assert_eq!(rt; said.status, MASS_REFUSED);
    assert_eq!(rt; said.code, 15);
    Ok(())
}

// Those of the documents: the first draws of the seed 1 are 4, 1 and 4.
#[test]
fn tallies(rt: HostRuntime) -> Result<(), Fail> {
    let mut lines = [0u8; 36];
    let said = zar_tally(rt.alloc(), DIE, 1, 0, 3, &USUAL, &mut lines);
    assert_eq!(rt; said.status, DONE);
    assert_eq!(rt; lines, *b"value 1 count 1\nvalue 4 count 2\n\0\0\0\0");
    let said = zar_tally(rt.alloc(), DIE, 1, 3, 2, &USUAL, &mut lines);
    assert_eq!(rt; said.status, NUMBERS_REFUSED);
    Ok(())
}

// Its first faces are 4, 1 and 4.
#[test]
fn hunts(rt: HostRuntime) -> Result<(), Fail> {
    let mut found = ZarFound {
        stream: 7,
        found: false,
    };
    let said = zar_hunt(rt.alloc(), DIE, 1, 0, 3, &USUAL, 1, 0, &mut found);
    assert_eq!(rt; said.status, DONE);
    assert_eq!(rt; found.found, true);
    assert_eq!(rt; found.stream, 1);
    let said = zar_hunt(rt.alloc(), DIE, 1, 0, 3, &USUAL, 1, 8, &mut found);
    assert_eq!(rt; said.status, NUMBERS_REFUSED);
    assert_eq!(rt; found.stream, 1);
    let said = zar_hunt(rt.alloc(), DIE, 1, 0, 3, &USUAL, 0, 7, &mut found);
    assert_eq!(rt; said.status, DONE);
    assert_eq!(rt; found.found, false);
    assert_eq!(rt; found.stream, 0);
    Ok(())
}

// A choice of 2/3 by three bits, as the documents have it.
#[test]
fn audits(rt: HostRuntime) -> Result<(), Fail> {
    let mut lines = [0u8; 55];
    let coin = b"choice 2/3 { x := 1; } or { x := 2; } return x;";
    let said = zar_audit(rt.alloc(), coin, 3, 0, 9, 1, &mut lines);
    assert_eq!(rt; said.status, DONE);
    assert_eq!(rt;
        lines,
        *b"value 1 mass 5/8\nvalue 2 mass 1/4\nundecided mass 1/8\n\0\0"
    );
    let said = zar_audit(rt.alloc(), coin, 21, 0, 9, 1, &mut lines);
    assert_eq!(rt; said.status, NUMBERS_REFUSED);
    Ok(())
}

#[test]
fn explains(rt: HostRuntime) -> Result<(), Fail> {
    let mut lines = [0u8; 42];
    let said = zar_explain(rt.alloc(), b"face := 1; return fase;", 8, 11, &mut lines);
    assert_eq!(rt; said.status, DONE);
    assert_eq!(rt; said.place, 18);
    assert_eq!(rt; lines, *b"'fase' is never set; did you mean 'face'?\n");
    let said = zar_explain(rt.alloc(), b"", 13, 0, &mut lines);
    assert_eq!(rt; said.length, 0);
    Ok(())
}

#[test]
fn refuses(rt: HostRuntime) -> Result<(), Fail> {
    let mut values = [7i64; 3];
    let mut ends = [7u8; 3];
    let said = zar_draws(
        rt.alloc(),
        b"return y;",
        1,
        0,
        &USUAL,
        &mut values,
        &mut ends,
    );
    assert_eq!(rt; said.status, TEXT_REFUSED);
    assert_eq!(rt; said.code, 8);
    assert_eq!(rt; said.place, 0);
    let said = zar_draws(rt.alloc(), DIE, 1, 0, &USUAL, &mut values[..2], &mut ends);
    assert_eq!(rt; said.status, NUMBERS_REFUSED);
    assert_eq!(rt; values, [7, 7, 7]);
    Ok(())
}

#[test]
fn tells_lines(rt: HostRuntime) -> Result<(), Fail> {
    let mut lines = [0u8; 24];
    let coin = b"choice 1/3 { x := 1; } or { x := 2; } return x;";
    let said = zar_mass(rt.alloc(), coin, 30, 0, 0, &mut lines);
    assert_eq!(rt; said.length, 34);
    assert_eq!(rt; lines, [0; 24]);
    let said = zar_posterior(rt.alloc(), b"return 1;", 30, &mut lines);
    assert_eq!(rt; said.length, 24);
    assert_eq!(rt; lines, *b"value 1 from 1/1 to 1/1\n");
    let mut lines = [0u8; 9];
    let said = zar_cost(rt.alloc(), coin, 30, 1, 1, &mut lines);
    assert_eq!(rt; said.length, 9);
    assert_eq!(rt; lines, *b"bits 2/1\n");
    Ok(())
}

#[test]
fn tells_what_is_expected(rt: HostRuntime) -> Result<(), Fail> {
    let mut lines = [0u8; 15];
    let said = zar_cost_in_the_limit(
        rt.alloc(),
        b"x ~ uniform(2); observe false; return x;",
        &mut lines,
    );
    assert_eq!(rt; said.length, 15);
    assert_eq!(rt; lines, *b"bits unbounded\n");
    let mut lines = [0u8; 11];
    let said = zar_rounds_in_the_limit(
        rt.alloc(),
        b"x ~ uniform(4); observe x < 3; return x;",
        &mut lines,
    );
    assert_eq!(rt; said.length, 11);
    assert_eq!(rt; lines, *b"rounds 4/3\n");
    Ok(())
}

#[test]
fn tells_draws_and_turns(rt: HostRuntime) -> Result<(), Fail> {
    let mut lines = [0u8; 10];
    let loops = b"while x = 0 { x ~ uniform(2); y ~ uniform(2); } return x;";
    let said = zar_draws_in_the_limit(rt.alloc(), loops, &mut lines);
    assert_eq!(rt; said.length, 10);
    assert_eq!(rt; lines, *b"draws 4/1\n");
    let said = zar_turns_in_the_limit(rt.alloc(), loops, &mut lines);
    assert_eq!(rt; said.length, 10);
    assert_eq!(rt; lines, *b"turns 2/1\n");
    Ok(())
}

#[test]
fn tells_of_texts(rt: HostRuntime) -> Result<(), Fail> {
    let mut lines = [0u8; 24];
    let said = zar_version(&mut lines);
    assert_eq!(rt; said.length, 10);
    assert_eq!(rt; lines[..10], *b"zar 1.0.0\n".as_slice());
    assert_eq!(rt; zar_check(rt.alloc(), DIE).status, DONE);
    assert_eq!(rt; zar_check(rt.alloc(), b"return y;").code, 8);
    let said = zar_show(rt.alloc(), b"return(y);", &mut lines);
    assert_eq!(rt; said.length, 10);
    assert_eq!(rt; lines[..10], *b"return y;\n".as_slice());
    let said = zar_code(rt.alloc(), b"return 1+1;", &mut lines);
    assert_eq!(rt; said.length, 15);
    assert_eq!(rt; lines[..15], *b"0 return 1 + 1\n".as_slice());
    Ok(())
}
