// Attempts and widths that were worked by hand.

ghost use Rattle.std.specs.Prelude.{◌≤◌, ◌<◌, length};
ghost use Rattle.gcl_core.specs.declared.rules.TheConstants.{GREATEST_DENOMINATOR, MOST_ARMS};
ghost use Rattle.gcl_core.specs.meaning.Draw.{last_end};

use draw_tree::{
    Attempt, Draw, LAST_END_OF_COMPLETE, attempt, bits_for, coalesce, direct, perfect,
};
use std::alloc::{AllocError, Global};
use std::test::Fail;

const THIRDS: &[u64] = &[2, 3];

const SIX: &[u64] = &[1, 2, 3, 4, 5, 6];

const NEVER: &[u64] = &[0, 1];

fn coalesced(alloc: Global, ends: &[u64]) -> Result<Draw, AllocError>
    requires few { length ends.now ≤ MOST_ARMS }
    requires low { last_end ends.now ≤ LAST_END_OF_COMPLETE }
{
    let mut draw = perfect(alloc, ends)?;
    coalesce(&mut draw);
    Ok(draw)
}

fn attempts_are(draw: &Draw, rows: &[(&[bool], Attempt)]) -> bool {
    rows.iter().all(|(bits, want)| bits.len() < 100 && attempt(draw, bits) == *want)
}

#[test]
fn attempts_on_coalesced_draws(rt: HostRuntime) -> Result<(), Fail> {
    let thirds = coalesced(rt.alloc(), THIRDS)?;
    let rows: [(&[bool], Attempt); 4] = [
        (&[false], Attempt::Class(0, 1)),
        (&[true], Attempt::MoreBits),
        (&[true, false], Attempt::Class(1, 2)),
        (&[true, true], Attempt::Again(2)),
    ];
    assert!(rt; attempts_are(&thirds, &rows));
    let six = coalesced(rt.alloc(), SIX)?;
    let rows: [(&[bool], Attempt); 2] = [
        (&[true, true], Attempt::Again(2)),
        (&[false, true, false, true], Attempt::Class(2, 3)),
    ];
    assert!(rt; attempts_are(&six, &rows));
    let never = coalesced(rt.alloc(), NEVER)?;
    assert!(rt; attempts_are(&never, &[(&[], Attempt::Class(1, 0))]));
    let whole = perfect(rt.alloc(), THIRDS)?;
    assert!(rt; attempts_are(&whole, &[(&[false], Attempt::MoreBits)]));
    Ok(())
}

#[test]
fn widths(rt: HostRuntime) {
    let rows = [(0, 0), (1, 0), (2, 1), (256, 8), (257, 9), (1 << 63, 63)];
    assert!(rt; rows.iter().all(|(bound, bits)| *bound <= 1 << 63 && bits_for(*bound) == *bits));
}

fn same(a: &Draw, b: &Draw) -> bool {
    match (a, b) {
        (Draw::Label(i), Draw::Label(j)) => i == j,
        (Draw::Again, Draw::Again) => true,
        (Draw::Flip(l, r), Draw::Flip(m, s)) => same(l, m) && same(r, s),
        _ => false,
    }
}

// Both ways to the draw of a choice give the same.
fn agree(alloc: Global, a: u64, b: u64) -> Result<bool, AllocError>
    requires { b ≤ LAST_END_OF_COMPLETE }
{
    let ends = [a, b];
    Ok(same(&direct(alloc, &ends)?, &coalesced(alloc, &ends)?))
}

#[test]
fn direct_draws_are_coalesced_perfect_draws(rt: HostRuntime) -> Result<(), Fail> {
    for b in 0..LAST_END_OF_COMPLETE + 1 {
        for a in 0..b + 1 {
            assert!(rt; agree(rt.alloc(), a, b)?);
        }
    }
    Ok(())
}

// The draw of one number among many.
fn one_of(alloc: Global, bound: u64) -> Result<Draw, AllocError>
    requires { bound ≤ GREATEST_DENOMINATOR }
{
    direct(alloc, &[1, bound])
}

#[test]
fn a_fine_draw_is_small(rt: HostRuntime) -> Result<(), Fail> {
    let fine = one_of(rt.alloc(), 1 << 62)?;
    let rows: [(&[bool], Attempt); 3] = [
        (&[true], Attempt::Class(1, 1)),
        (&[false, true], Attempt::Class(1, 2)),
        (&[false, false, false], Attempt::MoreBits),
    ];
    assert!(rt; attempts_are(&fine, &rows));
    Ok(())
}
