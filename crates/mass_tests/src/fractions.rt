ghost use Rattle.std.specs.Prelude.{◌≤◌};

use numbers::Frac;
use std::cmp::Ordering;

// the greatest number of 128 bits, and those before it
const MAX: u128 = u128::MAX;

const MAX_1: u128 = u128::MAX - 1;

const MAX_2: u128 = u128::MAX - 2;

// 2^126, 2^127 and its neighbour
const QUARTER: u128 = 1 << 126;

const HALF: u128 = 1 << 127;

const HALF_1: u128 = (1 << 127) - 1;

// 2^64 and its neighbours: the two neighbours' product is MAX
const ROOT: u128 = 1 << 64;

const ROOT_LESS: u128 = (1 << 64) - 1;

const ROOT_MORE: u128 = (1 << 64) + 1;

const ROOT_TWICE: u128 = 1 << 65;

const ROOT_HALVED: u128 = 1 << 63;

// Two fractions, and what the calls give of them.
#[derive(Clone, Copy)]
struct Row {
    left: (u128, u128),
    right: (u128, u128),
    sum: Option<(u128, u128)>,
    difference: Option<(u128, u128)>,
    product: Option<(u128, u128)>,
    quotient: Option<(u128, u128)>,
    order: Ordering,
}

// From the seventh row on the fractions stand at the edge of 128 bits, on the one side or the other.
const ROWS: [Row; 16] = [
    Row {
        left: (0, 5),
        right: (MAX, MAX),
        sum: Some((1, 1)),
        difference: None,
        product: Some((0, 1)),
        quotient: Some((0, 1)),
        order: Ordering::Less,
    },
    Row {
        left: (2, 4),
        right: (1, 3),
        sum: Some((5, 6)),
        difference: Some((1, 6)),
        product: Some((1, 6)),
        quotient: Some((3, 2)),
        order: Ordering::Greater,
    },
    Row {
        left: (1, 6),
        right: (1, 3),
        sum: Some((1, 2)),
        difference: None,
        product: Some((1, 18)),
        quotient: Some((1, 2)),
        order: Ordering::Less,
    },
    Row {
        left: (1, 4),
        right: (1, 3),
        sum: Some((7, 12)),
        difference: None,
        product: Some((1, 12)),
        quotient: Some((3, 4)),
        order: Ordering::Less,
    },
    Row {
        left: (5, 2),
        right: (0, 1),
        sum: Some((5, 2)),
        difference: Some((5, 2)),
        product: Some((0, 1)),
        quotient: None,
        order: Ordering::Greater,
    },
    Row {
        left: (7, 9),
        right: (7, 9),
        sum: Some((14, 9)),
        difference: Some((0, 1)),
        product: Some((49, 81)),
        quotient: Some((1, 1)),
        order: Ordering::Equal,
    },
    Row {
        left: (1, HALF),
        right: (1, 3),
        sum: None,
        difference: None,
        product: None,
        quotient: Some((3, HALF)),
        order: Ordering::Less,
    },
    Row {
        left: (1, ROOT),
        right: (1, ROOT),
        sum: Some((1, ROOT_HALVED)),
        difference: Some((0, 1)),
        product: None,
        quotient: Some((1, 1)),
        order: Ordering::Equal,
    },
    Row {
        left: (ROOT, 3),
        right: (3, ROOT),
        sum: None,
        difference: None,
        product: Some((1, 1)),
        quotient: None,
        order: Ordering::Greater,
    },
    Row {
        left: (1, ROOT_LESS),
        right: (1, ROOT_MORE),
        sum: Some((ROOT_TWICE, MAX)),
        difference: Some((2, MAX)),
        product: Some((1, MAX)),
        quotient: Some((ROOT_MORE, ROOT_LESS)),
        order: Ordering::Greater,
    },
    Row {
        left: (1, ROOT),
        right: (1, ROOT_MORE),
        sum: None,
        difference: None,
        product: None,
        quotient: Some((ROOT_MORE, ROOT)),
        order: Ordering::Greater,
    },
    Row {
        left: (MAX_1, 1),
        right: (1, 1),
        sum: Some((MAX, 1)),
        difference: Some((MAX_2, 1)),
        product: Some((MAX_1, 1)),
        quotient: Some((MAX_1, 1)),
        order: Ordering::Greater,
    },
    Row {
        left: (MAX, 1),
        right: (1, 1),
        sum: None,
        difference: Some((MAX_1, 1)),
        product: Some((MAX, 1)),
        quotient: Some((MAX, 1)),
        order: Ordering::Greater,
    },
    Row {
        left: (HALF_1, 1),
        right: (1, 2),
        sum: Some((MAX, 2)),
        difference: Some((MAX_2, 2)),
        product: Some((HALF_1, 2)),
        quotient: Some((MAX_1, 1)),
        order: Ordering::Greater,
    },
    Row {
        left: (HALF, 1),
        right: (1, 2),
        sum: None,
        difference: None,
        product: Some((QUARTER, 1)),
        quotient: None,
        order: Ordering::Greater,
    },
    Row {
        left: (MAX, MAX_1),
        right: (MAX_1, MAX_2),
        sum: None,
        difference: None,
        product: Some((MAX, MAX_2)),
        quotient: None,
        order: Ordering::Less,
    },
];

fn parts(answer: Option<Frac>) -> Option<(u128, u128)> {
    answer.map(|f| (f.num(), f.den()))
}

// Whether each call gives what the row has.
fn holds(row: Row) -> bool
    requires left { 1 ≤ row.left.1 }
    requires right { 1 ≤ row.right.1 }
{
    let a = Frac::of(row.left.0, row.left.1);
    let b = Frac::of(row.right.0, row.right.1);
    parts(a.add(&b)) == row.sum
        && parts(a.sub(&b)) == row.difference
        && parts(a.mul(&b)) == row.product
        && parts(a.div(&b)) == row.quotient
        && a.compare(&b) == row.order
}

#[test]
fn fractions_are_exact_or_refused(rt: HostRuntime) {
    for (index, row) in ROWS.iter().enumerate() {
        assert!(rt; row.left.1 > 0 && row.right.1 > 0);
        assert!(rt; holds(*row), "row {index}");
    }
}
