// Runs of programs, on lists of bits, on words and on sources.

use crate::feeding::{fed_in_two, go_both_ways, go_on_from, run_anew};
use crate::programs::{DIE, GEOMETRIC, LIMITS, TWO_THIRDS, program, sampler};
use crate::retrying::sample_again;
use gcl_core::{Answer, Checked, Fault, Limit, Limits, Outcome};
use sampler_code::list;
use sampler_run::{Progress, Run, RunError, Sampler, Stop, compile, sample};
use std::alloc::{AllocError, Global};
use std::test::Fail;
use zar_io::{Bits, FaultyBits, FileBits, Files, ListBits, OneFile};

fn answers(alloc: Global, s: &Sampler, bits: &[bool], answer: Answer) -> Result<bool, AllocError> {
    let mut bits = ListBits::new(alloc, bits)?;
    Ok(matches!(sample(alloc, s, &LIMITS, &mut bits), Ok(stop) if stop.answer == answer))
}

fn ends_at(alloc: Global, s: &Sampler, bits: &[bool], want: Stop) -> Result<bool, AllocError> {
    let mut bits = ListBits::new(alloc, bits)?;
    Ok(sample_again(alloc, s, &LIMITS, &mut bits) == Ok(want))
}

const ONE: Progress = Progress::Ended(Outcome::Value(1));

const TWO: Progress = Progress::Ended(Outcome::Value(2));

fn stands_at(state: &Run<'_>, progress: Progress, used: u64, place: usize) -> bool {
    state.progress() == progress && state.used() == used && state.place() == place
}

// A run after no bit, after a 1, then after a 0 with one bit too many and after another 1, and begun anew.
fn places(alloc: Global, sampler: &Sampler) -> Result<bool, AllocError> {
    let mut state = sampler.start(alloc, &LIMITS)?;
    let begins = stands_at(&state, Progress::NeedBit, 0, 1);
    state.feed(true);
    let goes_on = stands_at(&state, Progress::NeedBit, 1, 3);
    let other = go_both_ways(&mut state, alloc, &[false, true], &[true])?;
    let ends = stands_at(&state, TWO, 2, 9);
    let tries_again = stands_at(&other, Progress::NeedBit, 2, 1);
    let ends_anew = run_anew(&mut state, &[true], &[false]) == ONE;
    Ok(begins && goes_on && ends && tries_again && ends_anew)
}

// A run that is fed no bit, two bits that are rejected, and two bits with two too many.
fn places_by_words(alloc: Global, sampler: &Sampler) -> Result<bool, AllocError> {
    let mut state = sampler.start(alloc, &LIMITS)?;
    let begins = state.feed_word(0b1, 0) == 0 && stands_at(&state, Progress::NeedBit, 0, 1);
    let tries_again = state.feed_word(0b11, 2) == 0 && stands_at(&state, Progress::NeedBit, 2, 1);
    let ends = state.feed_word(0b1001, 4) == 2 && stands_at(&state, TWO, 4, 9);
    let stays = state.feed_word(0b1, 1) == 1 && stands_at(&state, TWO, 4, 9);
    Ok(begins && tries_again && ends && stays)
}

#[test]
fn places_of_two_thirds(rt: HostRuntime) -> Result<(), Fail> {
    let alloc = rt.alloc();
    let p = program(alloc, TWO_THIRDS)?;
    let s = compile(alloc, &p)?;
    assert!(rt; places(alloc, &s)?);
    assert!(rt; places_by_words(alloc, &s)?);
    assert!(rt; fed_in_two(alloc, &p, &LIMITS, &[true], &[true, true, false])? == TWO);
    Ok(())
}

const TWO_TURNS: Limits = Limits {
    turns: 2,
    attempts: 1000,
    rounds: 1000,
};

const TWO_BITS: &str = "a ~ uniform(2); b ~ uniform(2); return 2 * a + b;";

const THREE_BITS: &str =
    "a ~ uniform(2); b ~ uniform(2); c ~ uniform(2); return 4 * a + 2 * b + c;";

const FOUR_BITS: &str =
    "a ~ uniform(2); b ~ uniform(2); c ~ uniform(2); d ~ uniform(2); return 8 * a + 4 * b + 2 * c + d;";

// The bits of a run, those of another, those that the first goes on with where the other stands, and how it ends.
const PUT: [(&str, &[bool], &[bool], &[bool], Outcome, u64); 6] = [
    (
        DIE,
        &[true, false, true],
        &[false, true],
        &[true],
        Outcome::Value(3),
        3,
    ),
    (
        TWO_BITS,
        &[false, false],
        &[true],
        &[true],
        Outcome::Value(3),
        2,
    ),
    (
        THREE_BITS,
        &[true],
        &[false, true],
        &[true],
        Outcome::Value(3),
        3,
    ),
    (
        FOUR_BITS,
        &[false, true, false, true],
        &[true, false],
        &[true, true],
        Outcome::Value(11),
        4,
    ),
    (
        FOUR_BITS,
        &[],
        &[true, false, false, true],
        &[true],
        Outcome::Value(9),
        4,
    ),
    (
        GEOMETRIC,
        &[],
        &[false],
        &[false],
        Outcome::Limit(Limit::Turns),
        2,
    ),
];

fn ends_from_there(
    alloc: Global,
    s: &Sampler,
    here: &[bool],
    there: &[bool],
    next: &[bool],
    outcome: Outcome,
    used: u64,
) -> Result<bool, AllocError> {
    let mut other = s.start(alloc, &TWO_TURNS)?;
    let mut state = other.fork(alloc)?;
    state.feed_all(here);
    other.feed_all(there);
    let progress = go_on_from(&mut state, &other, next);
    Ok(progress == Progress::Ended(outcome) && state.used() == used)
}

#[test]
fn runs_put_where_others_stand(rt: HostRuntime) -> Result<(), Fail> {
    let alloc = rt.alloc();
    for (text, here, there, next, outcome, used) in PUT {
        let s = sampler(alloc, text)?;
        assert!(rt;
            ends_from_there(alloc, &s, here, there, next, outcome, used)?,
            "at {text}"
        );
    }
    Ok(())
}

const RUNS: [(&[bool], Answer, usize); 4] = [
    (&[false], Answer::Ended(Outcome::Value(1), 1), 9),
    (
        &[true, true, true, false],
        Answer::Ended(Outcome::Value(2), 4),
        9,
    ),
    (&[true], Answer::MoreBits(1), 3),
    (&[], Answer::MoreBits(0), 1),
];

#[test]
fn runs_of_two_thirds(rt: HostRuntime) -> Result<(), Fail> {
    let alloc = rt.alloc();
    let s = sampler(alloc, TWO_THIRDS)?;
    for (bits, answer, place) in RUNS {
        assert!(rt; ends_at(alloc, &s, bits, Stop { answer, place })?);
    }
    Ok(())
}

const VALUE_ONE: Stop = Stop {
    answer: Answer::Ended(Outcome::Value(1), 3),
    place: 9,
};

// The call for a bit that fails, and how the run on 1, 1, 0 ends: it asks for these three bits and no more.
const FAULTS: [(u64, Result<Stop, RunError>); 4] = [
    (0, Err(RunError::Read)),
    (1, Err(RunError::Read)),
    (2, Err(RunError::Read)),
    (3, Ok(VALUE_ONE)),
];

fn ends_by_plan(
    alloc: Global,
    s: &Sampler,
    call: u64,
    want: Result<Stop, RunError>,
) -> Result<bool, AllocError> {
    let mut bits = FaultyBits::new(alloc, &[true, true, false], &[call])?;
    Ok(sample_again(alloc, s, &LIMITS, &mut bits) == want)
}

#[test]
fn a_fault_at_each_call(rt: HostRuntime) -> Result<(), Fail> {
    let alloc = rt.alloc();
    let s = sampler(alloc, TWO_THIRDS)?;
    for (call, want) in FAULTS {
        assert!(rt; ends_by_plan(alloc, &s, call, want)?, "at call {call}");
    }
    Ok(())
}

const BITS: &[bool] = &[true, true, false, true, false, true, false, false];

const GREATEST: &str = "x ~ uniform(9223372036854775807); return x;";

const UNIFORM: [(&str, &[bool], Answer); 6] = [
    (DIE, BITS, Answer::Ended(Outcome::Value(2), 5)),
    (DIE, &[true, true, false, true], Answer::MoreBits(4)),
    (GREATEST, &[false; 64], Answer::Ended(Outcome::Value(0), 63)),
    (GREATEST, &[true; 64], Answer::MoreBits(64)),
    (
        "x ~ uniform(1); return x;",
        &[],
        Answer::Ended(Outcome::Value(0), 0),
    ),
    (
        "x ~ uniform(0); return x;",
        &[],
        Answer::Ended(Outcome::Fault(Fault::BadBound), 0),
    ),
];

#[test]
fn uniform_draws(rt: HostRuntime) -> Result<(), Fail> {
    let alloc = rt.alloc();
    for (text, bits, answer) in UNIFORM {
        assert!(rt;
            answers(alloc, &sampler(alloc, text)?, bits, answer)?,
            "at {text}"
        );
    }
    Ok(())
}

const LISTING: &[u8] =
    b"0 set go 1\n1 arm 0\n2 goto 10\n3 tries\n4 flip 6\n5 goto 7\n6 goto 9\n7 set x x + 1\n8 goto 10\n9 set go 0\n10 loop 0 3 go = 1\n11 return x\n";

// The bits of a file are taken as far as the draw needs them: five of these eight.
#[test]
fn a_draw_on_a_file(rt: HostRuntime) -> Result<(), Fail> {
    let alloc = rt.alloc();
    let mut files = OneFile::new(alloc, 4096, &[0b1101_0100])?;
    files.open("bits")?;
    let mut bits = FileBits::new(&mut files);
    let stop = sample(alloc, &sampler(alloc, DIE)?, &LIMITS, &mut bits)?;
    assert!(rt; stop.answer == Answer::Ended(Outcome::Value(2), 5));
    assert_eq!(rt; bits.next(), Ok(Some(true)));
    Ok(())
}

fn lists_as(alloc: Global, p: &Checked, s: &Sampler, want: &[u8]) -> Result<bool, AllocError> {
    let names = &p.program().names;
    if s.code().vars() > names.count() {
        return Ok(false);
    }
    Ok(list(alloc, s.code(), names)?.as_slice() == want)
}

#[test]
fn runs_of_a_loop(rt: HostRuntime) -> Result<(), Fail> {
    let alloc = rt.alloc();
    let p = program(alloc, GEOMETRIC)?;
    let s = compile(alloc, &p)?;
    assert!(rt; lists_as(alloc, &p, &s, LISTING)?);
    let two = Answer::Ended(Outcome::Value(2), 3);
    assert!(rt; answers(alloc, &s, &[false, false, true], two)?);
    assert!(rt; answers(alloc, &s, &[false; 7], Answer::MoreBits(7))?);
    let turns = Answer::Ended(Outcome::Limit(Limit::Turns), 1000);
    assert!(rt; answers(alloc, &s, &[false; 1001], turns)?);
    Ok(())
}
