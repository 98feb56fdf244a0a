// Programs that are drawn from and weighed, with answers worked out by hand.

use crate::{ReadError, WordBits, chance, draw, draw_row, limit_chance, program};
use gcl_core::{Answer, Limit, Limits, Outcome};
use numbers::Frac;
use std::test::Fail;

const TWO_THIRDS: &[u8] = b"choice 2/3 { x := 1; } or { x := 2; } return x;";

// Two attempts at each draw.
const LIMITS: Limits = Limits {
    turns: 30,
    attempts: 2,
    rounds: 1,
};

fn is_fraction(f: Option<Frac>, num: u128, den: u128) -> bool {
    match f {
        Some(f) => f.num() == num && f.den() == den,
        None => false,
    }
}

// The string 11 is rejected, and 0 takes the first block. With two attempts that has 1/2 + 1/4 * 1/2, the second block 1/4 + 1/4
// * 1/4, and both attempts are rejected with 1/16.
#[test]
fn draws_and_weighs(rt: HostRuntime) -> Result<(), Fail> {
    let alloc = rt.alloc();
    let p = program(alloc, TWO_THIRDS)?;
    let mut bits = WordBits::new(0b110, 3);
    let answer = draw(alloc, &p, &LIMITS, &mut bits)?;
    assert_eq!(rt; answer, Answer::Ended(Outcome::Value(1), 3));
    let more = draw(alloc, &p, &LIMITS, &mut bits)?;
    assert_eq!(rt; more, Answer::MoreBits(0));
    let first = chance(alloc, &p, &LIMITS, Outcome::Value(1))?;
    assert!(rt; is_fraction(first, 5, 8));
    let second = chance(alloc, &p, &LIMITS, Outcome::Value(2))?;
    assert!(rt; is_fraction(second, 5, 16));
    let rejected = chance(alloc, &p, &LIMITS, Outcome::Limit(Limit::Attempts))?;
    assert!(rt; is_fraction(rejected, 1, 16));
    let other = chance(alloc, &p, &LIMITS, Outcome::Value(3))?;
    assert!(rt; other.is_none());
    Ok(())
}

const GAMBLER: &[u8] =
    b"x := 2; while x > 0 and x < 5 { choice 1/3 { x := x + 1; } or { x := x - 1; } } return x;";

// From k coins there are five with (2^k - 1)/(2^5 - 1).
#[test]
fn weighs_without_limits(rt: HostRuntime) -> Result<(), Fail> {
    let alloc = rt.alloc();
    let p = program(alloc, GAMBLER)?;
    let five = limit_chance(alloc, &p, Outcome::Value(5))?;
    assert!(rt; is_fraction(five, 3, 31));
    let four = limit_chance(alloc, &p, Outcome::Value(4))?;
    assert!(rt; four.is_none());
    Ok(())
}

fn is_row(row: Option<Vec<Outcome>>, want: &[Outcome]) -> bool {
    match row {
        Some(outcomes) => outcomes.as_slice() == want,
        None => false,
    }
}

// The string 0 takes the first block, 10 the second, and 110 the first, with its second attempt. A fourth run has no bit.
#[test]
fn draws_in_a_row(rt: HostRuntime) -> Result<(), Fail> {
    let alloc = rt.alloc();
    let p = program(alloc, TWO_THIRDS)?;
    let mut bits = WordBits::new(0b010_110, 6);
    let three = draw_row(alloc, &p, &LIMITS, 3, &mut bits)?;
    let want = [Outcome::Value(1), Outcome::Value(2), Outcome::Value(1)];
    assert!(rt; is_row(three, &want));
    let more = draw(alloc, &p, &LIMITS, &mut bits)?;
    assert_eq!(rt; more, Answer::MoreBits(0));
    let mut again = WordBits::new(0b010_110, 6);
    let four = draw_row(alloc, &p, &LIMITS, 4, &mut again)?;
    assert!(rt; four.is_none());
    Ok(())
}

#[test]
fn refuses_what_is_no_program(rt: HostRuntime) -> Result<(), Fail> {
    let texts: [&[u8]; 3] = [b"x := ?;", b"return 7", b"return y;"];
    for text in texts {
        let refused = matches!(program(rt.alloc(), text), Err(ReadError::NoProgram));
        assert!(rt; refused);
    }
    Ok(())
}
