// The words of calls.

ghost use Rattle.std.specs.Prelude.{◌^◌, ◌<◌, length};

use crate::in_memory::spelled;
use gcl_core::{Fault, Limit, Outcome, TallyKey};
use std::alloc::{AllocError, Global};
use std::test::Fail;
use zar_cli::{Command, Source, Topic, Verb, WordsError, Work, read_words};

// What the words of a call answer.
fn read(alloc: Global, call: &[&str]) -> Result<Result<Command, WordsError>, AllocError>
    requires { length call.now < 2 ^ 32 }
{
    let words = spelled(alloc, call)?;
    Ok(read_words(alloc, words.as_slice()))
}

// Calls, and the place of the first wrong word of each.
const WRONG: [(&'static [&'static str], u32); 80] = [
    (&[], 0),
    (&["sampel", "x"], 0),
    (&["Sample", "p", "--bits", "b"], 0),
    (&["sample"], 1),
    (&["sample", ""], 1),
    (&["sample", "", "--seed", "1"], 1),
    (&["sample", "p"], 2),
    (&["sample", "p", "--bits"], 3),
    (&["sample", "p", "--bits", ""], 3),
    (&["sample", "p", "--turns", "7"], 4),
    (&["sample", "p", "--attempts", "0", "--bits", "b"], 3),
    (&["sample", "p", "--bits", "b", "--rounds", "1000000001"], 5),
    (
        &[
            "sample",
            "p",
            "--turns",
            "000000000000000000007",
            "--bits",
            "b",
        ],
        3,
    ),
    (&["sample", "p", "--bits", "b", "--bits", "b"], 4),
    (&["sample", "p", "--seed", "1", "--bits", "b"], 4),
    (&["sample", "p", "--bits", "b", "--seed", "1"], 4),
    (&["check"], 1),
    (&["check", "p", "q"], 2),
    (&["show", ""], 1),
    (&["show", "", "q"], 1),
    (&["cost", "p", "--depth", "1"], 2),
    (&["cost", "p", "--attempts"], 3),
    (&["cost", "p", "--attempts", "1"], 4),
    (&["cost", "p", "--turns", "1", "--rounds", "1"], 6),
    (&["cost", "p", "--rounds", "1", "--turns", "-2"], 5),
    (&["cost", "p", "--how-long", "1"], 3),
    (&["cost", "p", "--how-long", "--turns", "1"], 3),
    (&["cost", "p", "--attempts", "1", "--how-long"], 4),
    (&["mass", "p", "--how-long"], 2),
    (&["sample", "p", "--stream", "1"], 4),
    (&["sample", "p", "--seed", "1", "--depth", "2"], 4),
    (&["mass", "p", "--turns", "-1"], 3),
    (&["mass", "p", "--turns"], 3),
    (&["mass", "p", "--bits", "b"], 2),
    (&["posterior", "p", "--attempts", "1"], 2),
    (&["exact", "p", "--turns", "1"], 2),
    (&["enclose", "p", "--all-turns", "1"], 3),
    (&["enclose", "p", "--all-turns", "--all-turns"], 3),
    (&["enclose", "p", "--all-turns", "--turns"], 4),
    (&["enclose", "p", "--turns", "--all-turns"], 3),
    (
        &[
            "enclose",
            "p",
            "--turns",
            "1",
            "--all-turns",
            "--turns",
            "2",
        ],
        5,
    ),
    (&["mass", "p", "--all-turns"], 2),
    (&["mass", "--help", "p"], 2),
    (&["mass", "p", "--help"], 2),
    (&["show", "p", "--explain", "1"], 3),
    (&["exact", "p", "--explain", "--explain"], 3),
    (&["posterior", "p", "--turns", "1000000001"], 3),
    (&["audit", "p"], 2),
    (&["audit", "p", "--depth", "21"], 3),
    (&["tally", "p", "--seed", "0"], 4),
    (
        &["tally", "p", "--seed", "0", "--from", "5", "--to", "4"],
        8,
    ),
    (
        &[
            "tally",
            "p",
            "--seed",
            "0",
            "--from",
            "0",
            "--to",
            "1099511627777",
        ],
        8,
    ),
    (&["tally", "p", "--workers", "65"], 3),
    (&["tally", "p", "--stream", "1"], 2),
    (&["gen"], 1),
    (&["gen", "0"], 1),
    (&["gen", "1001"], 1),
    (&["gen", "p"], 1),
    (&["gen", "5", "--seed", "1"], 2),
    (&["gen", "0", "--seed", "1"], 1),
    (&["fast", "1"], 1),
    (&["fast", "4611686018427387905"], 1),
    (&["fast", "6", "--stream", "1"], 4),
    (&["fast", "6", "--budget", "1", "--flips", "2"], 6),
    (&["fast", "6", "--flips", "1000000001"], 3),
    (&["fast", "6", "--flips", "1", "--flips", "1"], 4),
    (&["roll"], 1),
    (&["roll", "3", "--seed", "1"], 1),
    (&["roll", "3,2,", "--seed", "1"], 1),
    (&["roll", "3,2,1", "--budget", "1"], 4),
    (&["sample", "p", "--bits", "b", "--flips", "1"], 4),
    (&["hunt"], 1),
    (&["hunt", "p"], 2),
    (&["hunt", "p", "--want"], 3),
    (&["hunt", "p", "--want", "five"], 3),
    (&["hunt", "p", "--want", "5", "--want", "5"], 4),
    (&["hunt", "p", "--want", "5", "--stream", "1"], 4),
    (&["hunt", "p", "--seed", "0", "--from", "0", "--to", "1"], 8),
    (
        &[
            "hunt", "p", "--seed", "0", "--from", "5", "--to", "4", "--want", "5",
        ],
        10,
    ),
    (&["tally", "p", "--want", "5"], 2),
];

// The first row whose call has its first wrong word at another place.
fn row_at_odds(
    alloc: Global,
    rows: &[(&'static [&'static str], u32)],
) -> Result<Option<usize>, AllocError> {
    for (i, (call, at)) in rows.iter().enumerate() {
        if call.len() >= 1 << 32 {
            return Ok(Some(i));
        }
        if read(alloc, *call)?.err() != Some(WordsError::BadWords { at: *at }) {
            return Ok(Some(i));
        }
    }
    Ok(None)
}

#[test]
fn names_the_first_wrong_word(rt: HostRuntime) -> Result<(), Fail> {
    assert_eq!(rt; row_at_odds(rt.alloc(), &WRONG)?, None);
    Ok(())
}

#[test]
fn reads_the_options_of_sample(rt: HostRuntime) -> Result<(), Fail> {
    let cases: [(&[&str], u64, u64, u64); 6] = [
        (&["sample", "p", "--bits", "b"], 1000, 1000, 1000),
        (
            &["sample", "p", "--turns", "0", "--bits", "b"],
            0,
            1000,
            1000,
        ),
        (
            &[
                "sample",
                "p",
                "--turns",
                "00000000000000000007",
                "--bits",
                "b",
            ],
            7,
            1000,
            1000,
        ),
        (
            &["sample", "p", "--bits", "b", "--attempts", "1"],
            1000,
            1,
            1000,
        ),
        (
            &["sample", "p", "--bits", "b", "--rounds", "1000000000"],
            1000,
            1000,
            1_000_000_000,
        ),
        (
            &[
                "sample",
                "p",
                "--rounds",
                "3",
                "--attempts",
                "2",
                "--bits",
                "b",
                "--turns",
                "1",
            ],
            1,
            2,
            3,
        ),
    ];
    for (words, turns, attempts, rounds) in cases {
        match &read(rt.alloc(), words)? {
            Ok(Command::Checked(program, Work::Sample(source, limits))) => {
                assert_eq!(rt; program.text(), "p");
                match source {
                    Source::File(bits) => assert_eq!(rt; bits.text(), "b"),
                    Source::Stream(..) => panic!(rt; "no file of bits"),
                }
                assert_eq!(rt; limits.turns, turns);
                assert_eq!(rt; limits.attempts, attempts);
                assert_eq!(rt; limits.rounds, rounds);
            }
            _ => panic!(rt; "no sample"),
        }
    }
    Ok(())
}

#[test]
fn reads_an_option_that_stands_alone(rt: HostRuntime) -> Result<(), Fail> {
    let cases: [(&[&str], u64, Option<u64>, bool); 4] = [
        (&["enclose", "p"], 30, None, false),
        (&["enclose", "p", "--all-turns"], 30, None, true),
        (
            &[
                "enclose",
                "p",
                "--all-turns",
                "--turns",
                "3",
                "--rounds",
                "2",
            ],
            3,
            Some(2),
            true,
        ),
        (
            &[
                "enclose",
                "p",
                "--turns",
                "3",
                "--rounds",
                "2",
                "--all-turns",
            ],
            3,
            Some(2),
            true,
        ),
    ];
    for (words, turns, rounds, all_turns) in cases {
        match read(rt.alloc(), words)? {
            Ok(Command::Checked(_, Work::Enclose(n, attempts, most, all, _))) => {
                assert_eq!(rt; n, turns);
                assert_eq!(rt; attempts, None);
                assert_eq!(rt; most, rounds);
                assert_eq!(rt; all, all_turns);
            }
            _ => panic!(rt; "no enclose"),
        }
    }
    Ok(())
}

#[test]
fn reads_the_numbers_of_counts(rt: HostRuntime) -> Result<(), Fail> {
    match &read(rt.alloc(), &["mass", "p", "--rounds", "2"])? {
        Ok(Command::Checked(program, Work::Mass(turns, attempts, rounds, _))) => {
            assert_eq!(rt; program.text(), "p");
            assert_eq!(rt; *turns, 30);
            assert_eq!(rt; *attempts, None);
            assert_eq!(rt; *rounds, Some(2));
        }
        _ => panic!(rt; "no mass"),
    }
    match read(
        rt.alloc(),
        &["cost", "p", "--attempts", "5", "--rounds", "2"],
    )? {
        Ok(Command::Checked(_, Work::Cost(Some(limits), _))) => {
            assert_eq!(rt; (limits.turns, limits.attempts, limits.rounds), (30, 5, 2));
        }
        _ => panic!(rt; "no cost under limits"),
    }
    match read(rt.alloc(), &["cost", "p"])? {
        Ok(Command::Checked(_, Work::Cost(None, _))) => (),
        _ => panic!(rt; "no cost without limits"),
    }
    match read(rt.alloc(), &["cost", "p", "--how-long"])? {
        Ok(Command::Checked(_, Work::HowLong(_))) => (),
        _ => panic!(rt; "not how long"),
    }
    match &read(rt.alloc(), &["posterior", "p"])? {
        Ok(Command::Checked(program, Work::Posterior(turns, _))) => {
            assert_eq!(rt; program.text(), "p");
            assert_eq!(rt; *turns, 30);
        }
        _ => panic!(rt; "no posterior"),
    }
    match read(rt.alloc(), &["exact", "p"])? {
        Ok(Command::Checked(_, Work::Exact(_))) => (),
        _ => panic!(rt; "no exact"),
    }
    match read(rt.alloc(), &["audit", "p", "--depth", "3"])? {
        Ok(Command::Checked(_, Work::Audit(depth, limits, _))) => {
            assert_eq!(rt; depth, 3);
            assert_eq!(rt; limits.attempts, 1000);
        }
        _ => panic!(rt; "no audit"),
    }
    match read(
        rt.alloc(),
        &[
            "tally",
            "p",
            "--seed",
            "18446744073709551615",
            "--from",
            "5",
            "--to",
            "9",
        ],
    )? {
        Ok(Command::Checked(_, Work::Tally(range, _, named))) => {
            assert!(rt; !named);
            assert_eq!(rt; range.seed, u64::MAX);
            assert_eq!(rt; range.from, 5);
            assert_eq!(rt; range.to, 9);
            assert_eq!(rt; range.budget, 65_536);
            assert_eq!(rt; range.workers, 4);
        }
        _ => panic!(rt; "no tally"),
    }
    Ok(())
}

#[test]
fn reads_the_numbers_of_gen_and_fast(rt: HostRuntime) -> Result<(), Fail> {
    match read(rt.alloc(), &["gen", "01000"])? {
        Ok(Command::Gen(k)) => assert_eq!(rt; k, 1000),
        _ => panic!(rt; "no generated program"),
    }
    match read(rt.alloc(), &["fast", "6"])? {
        Ok(Command::Fast(labels, flips, None, _)) => {
            assert_eq!(rt; labels, 6);
            assert_eq!(rt; flips, 30);
        }
        _ => panic!(rt; "no weights"),
    }
    match read(rt.alloc(), &["fast", "4611686018427387904", "--bits", "b"])? {
        Ok(Command::Fast(labels, flips, Some(Source::File(bits)), _)) => {
            assert_eq!(rt; labels, 1 << 62);
            assert_eq!(rt; flips, 1000);
            assert_eq!(rt; bits.text(), "b");
        }
        _ => panic!(rt; "no roll"),
    }
    Ok(())
}

#[test]
fn reads_the_weights_of_roll(rt: HostRuntime) -> Result<(), Fail> {
    match read(rt.alloc(), &["roll", "3,02,0"])? {
        Ok(Command::Roll(list, flips, None, _)) => {
            assert_eq!(rt; list.weights(), [3, 2, 0].as_slice());
            assert_eq!(rt; flips, 30);
        }
        _ => panic!(rt; "no shares"),
    }
    match read(rt.alloc(), &["roll", "1,1", "--seed", "7"])? {
        Ok(Command::Roll(list, flips, source, _)) => {
            assert_eq!(rt; list.weights(), [1, 1].as_slice());
            assert_eq!(rt; flips, 1000);
            match source {
                Some(Source::Stream(seed, stream, budget)) => {
                    assert_eq!(rt; (seed, stream, budget), (7, 0, 65_536));
                }
                _ => panic!(rt; "no stream"),
            }
        }
        _ => panic!(rt; "no roll"),
    }
    Ok(())
}

#[test]
fn reads_the_file_of_check_and_show(rt: HostRuntime) -> Result<(), Fail> {
    match read(rt.alloc(), &["check", "p"])? {
        Ok(Command::Checked(program, Work::Check)) => assert_eq!(rt; program.text(), "p"),
        _ => panic!(rt; "no check"),
    }
    match read(rt.alloc(), &["show", "--bits"])? {
        Ok(Command::Show(program)) => assert_eq!(rt; program.text(), "--bits"),
        _ => panic!(rt; "no show"),
    }
    Ok(())
}

#[test]
fn reads_the_numbers_and_the_key_of_hunt(rt: HostRuntime) -> Result<(), Fail> {
    match &read(
        rt.alloc(),
        &[
            "hunt", "p", "--want", "-5", "--to", "9", "--from", "5", "--seed", "7", "--turns", "3",
        ],
    )? {
        Ok(Command::Checked(program, Work::Hunt(range, limits, want, _))) => {
            assert_eq!(rt; program.text(), "p");
            assert_eq!(rt; (range.seed, range.from, range.to), (7, 5, 9));
            assert_eq!(rt; (range.budget, range.workers), (65_536, 4));
            assert_eq!(rt; (limits.turns, limits.attempts), (3, 1000));
            assert_eq!(rt; *want, TallyKey::Outcome(Outcome::Value(-5)));
        }
        _ => panic!(rt; "no hunt"),
    }
    Ok(())
}

// What a hunt looks for by this word.
fn wanted(alloc: Global, word: &str) -> Result<Result<TallyKey, WordsError>, AllocError> {
    let hunted = [
        "hunt", "p", "--want", word, "--seed", "0", "--from", "0", "--to", "1",
    ];
    match read(alloc, &hunted)? {
        Ok(Command::Checked(_, Work::Hunt(_, _, want, _))) => Ok(Ok(want)),
        Ok(_) => Ok(Err(WordsError::BadWords { at: 0 })),
        Err(error) => Ok(Err(error)),
    }
}

// Words, and the outcome that each names, if it names one.
const OUTCOMES: [(&'static str, Option<Outcome>); 36] = [
    ("0", Some(Outcome::Value(0))),
    ("-0", Some(Outcome::Value(0))),
    ("-5", Some(Outcome::Value(-5))),
    ("00000000000000000005", Some(Outcome::Value(5))),
    ("-00000000000000000005", Some(Outcome::Value(-5))),
    ("9223372036854775807", Some(Outcome::Value(i64::MAX))),
    ("-9223372036854775808", Some(Outcome::Value(i64::MIN))),
    ("overflow", Some(Outcome::Fault(Fault::Overflow))),
    ("zero-divisor", Some(Outcome::Fault(Fault::ZeroDivisor))),
    ("bad-bound", Some(Outcome::Fault(Fault::BadBound))),
    ("turns", Some(Outcome::Limit(Limit::Turns))),
    ("attempts", Some(Outcome::Limit(Limit::Attempts))),
    ("rounds", Some(Outcome::Limit(Limit::Rounds))),
    ("", None),
    ("-", None),
    ("--5", None),
    ("+5", None),
    ("five", None),
    ("9223372036854775808", None),
    ("-9223372036854775809", None),
    ("000000000000000000005", None),
    ("value 5", Some(Outcome::Value(5))),
    ("value -5", Some(Outcome::Value(-5))),
    ("zero divisor", Some(Outcome::Fault(Fault::ZeroDivisor))),
    ("bad bound", Some(Outcome::Fault(Fault::BadBound))),
    ("fault overflow", Some(Outcome::Fault(Fault::Overflow))),
    (
        "fault zero divisor",
        Some(Outcome::Fault(Fault::ZeroDivisor)),
    ),
    ("fault bad bound", Some(Outcome::Fault(Fault::BadBound))),
    ("limit turns", Some(Outcome::Limit(Limit::Turns))),
    ("limit attempts", Some(Outcome::Limit(Limit::Attempts))),
    ("limit rounds", Some(Outcome::Limit(Limit::Rounds))),
    ("value", None),
    ("value ", None),
    ("value  5", None),
    ("value value 5", None),
    ("fault zero-divisor", None),
];

// The first word that names something else.
fn word_at_odds(
    alloc: Global,
    rows: &[(&'static str, Option<Outcome>)],
) -> Result<Option<&'static str>, AllocError> {
    for (word, outcome) in rows {
        let want = match outcome {
            Some(outcome) => Ok(TallyKey::Outcome(*outcome)),
            None => Err(WordsError::BadWords { at: 3 }),
        };
        if wanted(alloc, *word)? != want {
            return Ok(Some(*word));
        }
    }
    Ok(None)
}

#[test]
fn keys_are_named(rt: HostRuntime) -> Result<(), Fail> {
    assert_eq!(rt; word_at_odds(rt.alloc(), &OUTCOMES)?, None);
    assert_eq!(rt; wanted(rt.alloc(), "more-bits")?, Ok(TallyKey::MoreBits));
    assert_eq!(rt; wanted(rt.alloc(), "more bits")?, Ok(TallyKey::MoreBits));
    Ok(())
}

fn asks_for(alloc: Global, words: &[&str], want: Topic) -> Result<bool, AllocError>
    requires { length words.now < 2 ^ 32 }
{
    match read(alloc, words)? {
        Ok(Command::Help(topic)) => Ok(topic == want),
        _ => Ok(false),
    }
}

#[test]
fn reads_what_help_is_asked_for(rt: HostRuntime) -> Result<(), Fail> {
    let alloc = rt.alloc();
    assert!(rt; asks_for(alloc, &["help"], Topic::Everything)?);
    assert!(rt; asks_for(alloc, &["-h", "tally"], Topic::One(Verb::Tally))?);
    assert!(rt; asks_for(alloc, &["--version"], Topic::Version)?);
    assert!(rt; asks_for(alloc, &["--help", "E17"], Topic::Refused(17))?);
    assert!(rt; asks_for(alloc, &["help", "e5"], Topic::Refused(5))?);
    assert!(rt; asks_for(alloc, &["help", "help"], Topic::Everything)?);
    assert!(rt; asks_for(alloc, &["roll", "--help"], Topic::One(Verb::Roll))?);
    assert!(rt; asks_for(alloc, &["mass", "-h"], Topic::One(Verb::Mass))?);
    for word in ["E0", "E18", "E", "e", "E5 ", "5"] {
        assert!(rt; read(alloc, &["help", word])?.is_err(), "{word}");
    }
    Ok(())
}
