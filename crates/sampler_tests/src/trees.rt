// Programs on their way to a tied tree.

use crate::programs::{AMONG, TWO_THIRDS, program};
use bit_tree::{Bt, BtRow, Tied, coalesce_all, debias, tie};
use choice_tree::{Cf, to_tree};
use draw_tree::{Attempt, Draw, attempt, perfect};
use gcl_core::{Expr, Weight};
use std::test::Fail;

// A row with one tree, which sets x.
fn sets_in_choice(t: &Cf, value: i64) -> bool {
    match t {
        Cf::Row(row) => match row.members.as_slice() {
            [Cf::Set(0, Expr::Num(n))] => *n == value,
            _ => false,
        },
        _ => false,
    }
}

fn is_choice(t: &Cf) -> bool {
    match t {
        Cf::Row(row) => match row.members.as_slice() {
            [Cf::Choice(weight, first, second)] => {
                *weight == Weight { num: 2, den: 3 }
                    && sets_in_choice(first, 1)
                    && sets_in_choice(second, 2)
            }
            _ => false,
        },
        _ => false,
    }
}

fn sets_in_pick(t: &Bt, value: i64) -> bool {
    match t {
        Bt::Row(row) => match row.members.as_slice() {
            [Bt::Set(0, Expr::Num(n))] => *n == value,
            _ => false,
        },
        _ => false,
    }
}

fn is_label(d: &Draw, label: u32) -> bool {
    match d {
        Draw::Label(class) => *class == label,
        _ => false,
    }
}

// A flip between label 1 and another attempt.
fn is_rest(d: &Draw) -> bool {
    match d {
        Draw::Flip(left, right) => is_label(left, 1) && matches!(**right, Draw::Again),
        _ => false,
    }
}

fn is_draw(d: &Draw) -> bool {
    match d {
        Draw::Flip(left, right) => is_label(left, 0) && is_rest(right),
        _ => false,
    }
}

fn is_pick(t: &Bt) -> bool {
    match t {
        Bt::Row(row) => match row.members.as_slice() {
            [Bt::Pick(draw, arms)] => match arms.members.as_slice() {
                [first, second] => {
                    is_draw(draw) && sets_in_pick(first, 1) && sets_in_pick(second, 2)
                }
                _ => false,
            },
            _ => false,
        },
        _ => false,
    }
}

fn is_tied(t: &Tied) -> bool {
    is_pick(&t.body) && t.vars == 1 && matches!(t.result, Expr::Var(0))
}

#[test]
fn from_two_thirds_to_a_tied_tree(rt: HostRuntime) -> Result<(), Fail> {
    let alloc = rt.alloc();
    let p = program(alloc, TWO_THIRDS)?;
    let choice = to_tree(alloc, &p)?;
    assert!(rt; is_choice(&choice));
    let body = debias(alloc, &choice)?;
    assert!(rt; is_pick(&body));
    assert!(rt; is_tied(&tie(alloc, &p, body)?));
    Ok(())
}

fn is_pick_of_thirds(t: &Bt) -> bool {
    match t {
        Bt::Pick(draw, _arms) => is_draw(draw),
        _ => false,
    }
}

#[test]
fn a_perfect_draw_is_coalesced(rt: HostRuntime) -> Result<(), Fail> {
    let alloc = rt.alloc();
    let draw = perfect(alloc, &[2, 3])?;
    assert!(rt; !is_draw(&draw));
    let members = Vec::new(alloc);
    let mut tree = Bt::Pick(draw, BtRow { members });
    coalesce_all(&mut tree);
    assert!(rt; is_pick_of_thirds(&tree));
    Ok(())
}

// The numbers 0 to 2 are of class 0, 3 and 4 of class 1, and 5 of class 2; 6 and 7 are rejected.
const ATTEMPTS: &[(&[bool], Attempt)] = &[
    (&[false], Attempt::MoreBits),
    (&[false, false], Attempt::Class(0, 2)),
    (&[false, true, false], Attempt::Class(0, 3)),
    (&[false, true, true], Attempt::Class(1, 3)),
    (&[true, false], Attempt::MoreBits),
    (&[true, false, false], Attempt::Class(1, 3)),
    (&[true, false, true], Attempt::Class(2, 3)),
    (&[true, true], Attempt::Again(2)),
];

fn is_draw_among(draw: &Draw) -> bool {
    ATTEMPTS.iter().all(|(bits, want)| bits.len() < 100 && attempt(draw, bits) == *want)
}

fn is_pick_among(tree: &Bt) -> bool {
    match tree {
        Bt::Row(row) => match row.members.as_slice() {
            [Bt::Pick(draw, arms)] => match arms.members.as_slice() {
                [first, second, third] => {
                    is_draw_among(draw)
                        && sets_in_pick(first, 1)
                        && sets_in_pick(second, 2)
                        && sets_in_pick(third, 3)
                }
                _ => false,
            },
            _ => false,
        },
        _ => false,
    }
}

#[test]
fn from_a_choice_among_three_to_a_tied_tree(rt: HostRuntime) -> Result<(), Fail> {
    let alloc = rt.alloc();
    let p = program(alloc, AMONG)?;
    let body = debias(alloc, &to_tree(alloc, &p)?)?;
    assert!(rt; is_pick_among(&tie(alloc, &p, body)?.body));
    Ok(())
}
