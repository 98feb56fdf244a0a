// Audits by real threads.

use crate::programs::{GEOMETRIC, LIMITS, TWO_THIRDS, sampler};
use audit_walk::{Audit, AuditRows, MOST_DEPTH, audit};
use gcl_core::{Limit, Limits, Outcome};
use std::alloc::Global;
use std::test::Fail;
use std::thread::Threads;

const TWO_COINS: &str = "x ~ uniform(2); y ~ uniform(2); observe x = 1 or y = 1; return x + y;";

const REVERSED: &str = "a ~ uniform(2); b ~ uniform(4); return 2 * b + a;";

const EIGHT_AND_HEADS: &str =
    "a ~ uniform(6); b ~ uniform(6); observe a + b = 8; heads := 0; while heads = 0 { heads ~ uniform(2); } return a;";

struct Case {
    text: &'static str,
    limits: Limits,
    depth: u32,
    rows: &'static [(Outcome, u64)],
    undecided: u64,
}

const CASES: [Case; 9] = [
    Case {
        text: "return 7;",
        limits: LIMITS,
        depth: 0,
        rows: &[(Outcome::Value(7), 1)],
        undecided: 0,
    },
    Case {
        text: TWO_THIRDS,
        limits: LIMITS,
        depth: 0,
        rows: &[],
        undecided: 1,
    },
    Case {
        text: TWO_THIRDS,
        limits: LIMITS,
        depth: 3,
        rows: &[(Outcome::Value(1), 5), (Outcome::Value(2), 2)],
        undecided: 1,
    },
    Case {
        text: TWO_THIRDS,
        limits: Limits {
            turns: 1000,
            attempts: 1,
            rounds: 1000,
        },
        depth: 2,
        rows: &[
            (Outcome::Value(1), 2),
            (Outcome::Value(2), 1),
            (Outcome::Limit(Limit::Attempts), 1),
        ],
        undecided: 0,
    },
    Case {
        text: TWO_COINS,
        limits: LIMITS,
        depth: 2,
        rows: &[(Outcome::Value(1), 2), (Outcome::Value(2), 1)],
        undecided: 1,
    },
    Case {
        text: TWO_COINS,
        limits: Limits {
            turns: 1000,
            attempts: 1000,
            rounds: 2,
        },
        depth: 4,
        rows: &[
            (Outcome::Value(1), 10),
            (Outcome::Value(2), 5),
            (Outcome::Limit(Limit::Rounds), 1),
        ],
        undecided: 0,
    },
    Case {
        text: GEOMETRIC,
        limits: Limits {
            turns: 2,
            attempts: 1000,
            rounds: 1000,
        },
        depth: 2,
        rows: &[
            (Outcome::Value(0), 2),
            (Outcome::Value(1), 1),
            (Outcome::Limit(Limit::Turns), 1),
        ],
        undecided: 0,
    },
    Case {
        text: GEOMETRIC,
        limits: LIMITS,
        depth: 6,
        rows: &[
            (Outcome::Value(0), 32),
            (Outcome::Value(1), 16),
            (Outcome::Value(2), 8),
            (Outcome::Value(3), 4),
            (Outcome::Value(4), 2),
            (Outcome::Value(5), 1),
        ],
        undecided: 1,
    },
    Case {
        text: REVERSED,
        limits: LIMITS,
        depth: 3,
        rows: &[
            (Outcome::Value(0), 1),
            (Outcome::Value(1), 1),
            (Outcome::Value(2), 1),
            (Outcome::Value(3), 1),
            (Outcome::Value(4), 1),
            (Outcome::Value(5), 1),
            (Outcome::Value(6), 1),
            (Outcome::Value(7), 1),
        ],
        undecided: 0,
    },
];

fn has_rows(rows: &AuditRows, want: &[(Outcome, u64)]) -> bool {
    if rows.count() != want.len() {
        return false;
    }
    for i in 0..want.len() {
        if rows.get(i) != want[i] {
            return false;
        }
    }
    true
}

fn audit_of<R: Threads + Sync>(
    rt: &R,
    alloc: Global,
    text: &str,
    l: Limits,
    depth: u32,
) -> Result<Audit, Fail> {
    if l.turns > 1000 || l.attempts > 1000 || l.rounds > 1000 || depth > MOST_DEPTH {
        return Err(Fail::from("a number above its range"));
    }
    if l.attempts == 0 || l.rounds == 0 {
        return Err(Fail::from("a limit of 0"));
    }
    Ok(audit(rt, alloc, &sampler(alloc, text)?, &l, depth)?)
}

fn is_as_told<R: Threads + Sync>(rt: &R, alloc: Global, case: &Case) -> Result<bool, Fail> {
    let a = audit_of(rt, alloc, case.text, case.limits, case.depth)?;
    Ok(a.undecided == case.undecided && has_rows(&a.rows, case.rows))
}

fn all_as_told<R: Threads + Sync>(rt: &R, alloc: Global, cases: &[Case]) -> Result<bool, Fail> {
    for case in cases {
        if !is_as_told(rt, alloc, case)? {
            return Ok(false);
        }
    }
    Ok(true)
}

#[test]
fn audits(rt: HostRuntime) -> Result<(), Fail> {
    assert!(rt; all_as_told(&rt, rt.alloc(), &CASES)?);
    Ok(())
}

fn sum_of_counts(rows: &AuditRows) -> u64 {
    let mut sum: u64 = 0;
    for i in 0..rows.count() {
        sum = sum.saturating_add(rows.get(i).1);
    }
    sum
}

// An audit at the greatest depth counts each of its 2^20 strings once.
#[test]
fn audits_at_the_greatest_depth(rt: HostRuntime) -> Result<(), Fail> {
    let a = audit_of(&rt, rt.alloc(), EIGHT_AND_HEADS, LIMITS, MOST_DEPTH)?;
    assert!(rt; sum_of_counts(&a.rows).saturating_add(a.undecided) == 1_048_576);
    Ok(())
}
