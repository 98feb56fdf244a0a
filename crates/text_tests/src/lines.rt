// The tests of `report_text`: the lines, byte by byte.

use gcl_core::{Answer, Fault, Limit, Outcome, TallyKey};
use numbers::Frac;
use report_text::{
    Decimals, Refusal, bound_line, check_line, cost_line, fault_line, hunt_line, mass_line,
    other_line, sample_line, tally_line, undecided_line,
};

#[test]
fn answers_have_their_lines(rt: HostRuntime) {
    let table: [(Answer, &str); 9] = [
        (Answer::Ended(Outcome::Value(1), 3), "value 1 bits 3\n"),
        (
            Answer::Ended(Outcome::Value(i64::MIN), u64::MAX),
            "value -9223372036854775808 bits 18446744073709551615\n",
        ),
        (
            Answer::Ended(Outcome::Fault(Fault::Overflow), 0),
            "fault overflow bits 0\n",
        ),
        (
            Answer::Ended(Outcome::Fault(Fault::BadBound), 10),
            "fault bad bound bits 10\n",
        ),
        (
            Answer::Ended(Outcome::Fault(Fault::ZeroDivisor), 2),
            "fault zero divisor bits 2\n",
        ),
        (
            Answer::Ended(Outcome::Limit(Limit::Attempts), 2000),
            "limit attempts bits 2000\n",
        ),
        (
            Answer::Ended(Outcome::Limit(Limit::Rounds), 4),
            "limit rounds bits 4\n",
        ),
        (
            Answer::Ended(Outcome::Limit(Limit::Turns), 1),
            "limit turns bits 1\n",
        ),
        (Answer::MoreBits(1992), "more bits 1992\n"),
    ];
    for (answer, want) in table {
        assert_eq!(rt; sample_line(&answer).bytes(), want.as_bytes());
    }
}

#[test]
fn refusals_have_their_lines(rt: HostRuntime) {
    let table: [(Refusal, &str); 10] = [
        (Refusal::Coded(1, None), "error E1 text too long\n"),
        (Refusal::Coded(5, Some(0)), "error E5 unexpected at 0\n"),
        (
            Refusal::Coded(12, Some(7)),
            "error E12 weight too fine at 7\n",
        ),
        (Refusal::Coded(15, None), "error E15 every round fails\n"),
        (Refusal::Coded(16, Some(4)), "error E16 bad words at 4\n"),
        (
            Refusal::Coded(17, None),
            "error E17 too unlikely to enclose\n",
        ),
        (Refusal::Read, "error read fault\n"),
        (Refusal::Write, "error write fault\n"),
        (Refusal::Memory, "error out of memory\n"),
        (Refusal::NoFile, "error no file\n"),
    ];
    for (refusal, want) in table {
        assert_eq!(rt; fault_line(&refusal).bytes(), want.as_bytes());
    }
}

#[test]
fn rows_and_programs_have_their_lines(rt: HostRuntime) {
    let half = Frac::of(2, 4);
    let none = Decimals::none();
    assert_eq!(rt;
        mass_line(&Outcome::Value(-3), &half, none).bytes(),
        b"value -3 mass 1/2\n".as_slice()
    );
    assert_eq!(rt;
        mass_line(&Outcome::Limit(Limit::Turns), &Frac::of(1, 1), none).bytes(),
        b"limit turns mass 1/1\n".as_slice()
    );
    assert_eq!(rt;
        cost_line(&Frac::of(30, 16), none).bytes(),
        b"bits 15/8\n".as_slice()
    );
    assert_eq!(rt;
        undecided_line(&Frac::of(2, 16), none).bytes(),
        b"undecided mass 1/8\n".as_slice()
    );
    assert_eq!(rt;
        tally_line(&TallyKey::Outcome(Outcome::Value(7)), 1000).bytes(),
        b"value 7 count 1000\n".as_slice()
    );
    assert_eq!(rt;
        tally_line(&TallyKey::MoreBits, 1).bytes(),
        b"more bits count 1\n".as_slice()
    );
    assert_eq!(rt;
        check_line(3, 1).bytes(),
        b"ok statements 3 names 1\n".as_slice()
    );
}

#[test]
fn bounds_have_their_lines(rt: HostRuntime) {
    let quarter = Frac::of(1, 4);
    let none = Decimals::none();
    let half = Frac::of(1, 2);
    let narrow = Frac::of(u128::MAX - 1, u128::MAX);
    assert_eq!(rt;
        bound_line(&Outcome::Value(1), &quarter, &half, none).bytes(),
        b"value 1 from 1/4 to 1/2\n".as_slice()
    );
    assert_eq!(rt;
        bound_line(&Outcome::Fault(Fault::ZeroDivisor), &half, &half, none).bytes(),
        b"fault zero divisor from 1/2 to 1/2\n".as_slice()
    );
    assert_eq!(rt;
        bound_line(&Outcome::Value(i64::MIN), &narrow, &narrow, none).bytes(),
        b"value -9223372036854775808 from 340282366920938463463374607431768211454/340282366920938463463374607431768211455 to 340282366920938463463374607431768211454/340282366920938463463374607431768211455\n".as_slice()
    );
    assert_eq!(rt;
        other_line(&quarter, none).bytes(),
        b"other from 0/1 to 1/4\n".as_slice()
    );
    assert_eq!(rt;
        other_line(&Frac::of(7, 7), none).bytes(),
        b"other from 0/1 to 1/1\n".as_slice()
    );
}

#[test]
fn streams_have_their_lines(rt: HostRuntime) {
    assert_eq!(rt; hunt_line(Some(0)).bytes(), b"stream 0\n".as_slice());
    assert_eq!(rt;
        hunt_line(Some(u64::MAX - 1)).bytes(),
        b"stream 18446744073709551614\n".as_slice()
    );
    assert_eq!(rt; hunt_line(None).bytes(), b"stream none\n".as_slice());
}

// By long division on paper, or in whole numbers by another program: the fraction, how many decimals, and its line as a mass and as
// two bounds.
#[test]
fn decimals_stand_behind_fractions(rt: HostRuntime) {
    let table: [(u128, u128, u64, &str, &str); 12] = [
        (
            1,
            4,
            2,
            "value 7 mass 1/4 = 0.25\n",
            "value 7 from 1/4 = 0.25 to 1/4 = 0.25\n",
        ),
        (
            1,
            4,
            4,
            "value 7 mass 1/4 = 0.2500\n",
            "value 7 from 1/4 = 0.2500 to 1/4 = 0.2500\n",
        ),
        (
            1,
            4,
            1,
            "value 7 mass 1/4 < 0.3\n",
            "value 7 from 1/4 > 0.2 to 1/4 < 0.3\n",
        ),
        (
            1,
            3,
            3,
            "value 7 mass 1/3 > 0.333\n",
            "value 7 from 1/3 > 0.333 to 1/3 < 0.334\n",
        ),
        (
            2,
            3,
            3,
            "value 7 mass 2/3 < 0.667\n",
            "value 7 from 2/3 > 0.666 to 2/3 < 0.667\n",
        ),
        (
            1,
            36,
            4,
            "value 7 mass 1/36 < 0.0278\n",
            "value 7 from 1/36 > 0.0277 to 1/36 < 0.0278\n",
        ),
        (
            999,
            1000,
            2,
            "value 7 mass 999/1000 < 1.00\n",
            "value 7 from 999/1000 > 0.99 to 999/1000 < 1.00\n",
        ),
        (
            0,
            1,
            3,
            "value 7 mass 0/1 = 0.000\n",
            "value 7 from 0/1 = 0.000 to 0/1 = 0.000\n",
        ),
        (
            77,
            16,
            3,
            "value 7 mass 77/16 < 4.813\n",
            "value 7 from 77/16 > 4.812 to 77/16 < 4.813\n",
        ),
        (
            1,
            u128::MAX,
            36,
            "value 7 mass 1/340282366920938463463374607431768211455 > 0.000000000000000000000000000000000000\n",
            "value 7 from 1/340282366920938463463374607431768211455 > 0.000000000000000000000000000000000000 to 1/340282366920938463463374607431768211455 < 0.000000000000000000000000000000000001\n",
        ),
        (
            u128::MAX,
            1,
            1,
            "value 7 mass 340282366920938463463374607431768211455/1 = 340282366920938463463374607431768211455.0\n",
            "value 7 from 340282366920938463463374607431768211455/1 = 340282366920938463463374607431768211455.0 to 340282366920938463463374607431768211455/1 = 340282366920938463463374607431768211455.0\n",
        ),
        (
            u128::MAX,
            2,
            1,
            "value 7 mass 340282366920938463463374607431768211455/2 = 170141183460469231731687303715884105727.5\n",
            "value 7 from 340282366920938463463374607431768211455/2 = 170141183460469231731687303715884105727.5 to 340282366920938463463374607431768211455/2 = 170141183460469231731687303715884105727.5\n",
        ),
    ];
    for (num, den, count, mass, bounds) in table {
        let (share, decimals) = (Frac::of(num, den), Decimals::of(count));
        let outcome = Outcome::Value(7);
        assert_eq!(rt;
            mass_line(&outcome, &share, decimals).bytes(),
            mass.as_bytes()
        );
        assert_eq!(rt;
            bound_line(&outcome, &share, &share, decimals).bytes(),
            bounds.as_bytes()
        );
    }
}
