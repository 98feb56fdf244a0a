// The bits of an attempt, worked by hand.

use attempt_bits::{arms_bits, choice_bits, uniform_bits};
use gcl_core::{Weight, draws};

// At 2/3 the empty string and 1 decide nothing: 4 + 2. At 1/2 the empty string alone. At 0/1 and 1/1 a number has no bits. At 1/3
// the empty string, 0 and 1: 4 + 2 + 2. At 3/8 the empty string, 0 and 01: 8 + 4 + 2.
const CHOICES: [(u64, u64, u128); 6] = [
    (2, 3, 6),
    (1, 2, 2),
    (0, 1, 0),
    (1, 1, 0),
    (1, 3, 8),
    (3, 8, 14),
];

// The parts 1, 2 and 3: the empty string, 0, 1, 00 and 01, so 8 + 4 + 4 + 2 + 2. The parts 2, 0 and 3: the empty string, 0, 1 and
// 10, so 8 + 4 + 4 + 2. The parts 2, 1 and 0: those of 2/3. One part alone: a number has no bits.
const ARMS: [([u64; 3], u128); 4] = [
    ([1, 3, 6], 20),
    ([2, 2, 5], 18),
    ([2, 3, 3], 6),
    ([0, 1, 1], 0),
];

// A die: the empty string, 0, 1, 00, 01 and 10, so 8 + 4 + 4 + 2 + 2 + 2. Five sides: the same, since 10 has 4 and what is
// rejected.
const SIDES: [(u64, u128); 6] = [(1, 0), (2, 2), (3, 8), (4, 8), (5, 22), (6, 22)];

fn choices_are() -> bool {
    for (num, den, want) in CHOICES {
        if num > den || den < 1 || den > 1 << 62 {
            return false;
        }
        if choice_bits(Weight { num, den }) != want {
            return false;
        }
    }
    true
}

fn arms_are() -> bool {
    for (ends, want) in ARMS {
        if draws::last_end(&ends) > 1 << 62 {
            return false;
        }
        if arms_bits(&ends) != want {
            return false;
        }
    }
    true
}

fn sides_are() -> bool {
    for (bound, want) in SIDES {
        if bound < 1 || bound >= 1 << 63 {
            return false;
        }
        if uniform_bits(bound) != want {
            return false;
        }
    }
    true
}

#[test]
fn bits_of_attempts(rt: HostRuntime) {
    assert!(rt; choices_are());
    assert!(rt; arms_are());
    assert!(rt; sides_are());
}
