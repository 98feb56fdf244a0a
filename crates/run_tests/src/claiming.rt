// The tests of `claim_board`: blocks are claimed by one pass, and by four in threads.

ghost use Rattle.std.specs.Prelude.{All};
ghost use Rattle.std.specs.List.{AllZip};
ghost use Rattle.std.specs.Thread.{IsSync};
ghost use Rattle.claim_board.specs.Board.{IsPassOf, IsSamePass, IsNew};

use claim_board::{Board, Pass};
use std::marker::Sync;
use std::sync::atomic::AtomicU64;
use std::sync::atomic::Ordering::SeqCst;
use std::test::Fail;
use std::thread::{Threads, join_mut};

const BLOCKS: u64 = 1000;

#[test]
fn one_of_two_passes_claims_both_blocks(rt: HostRuntime) -> Result<(), Fail> {
    let (board, mut passes) = Board::new(rt.alloc(), 2, 2)?;
    let pass = &mut passes[0];
    let first = board.claim(pass);
    let second = board.claim(pass);
    let third = board.claim(pass);
    let fourth = board.claim(pass);
    let dealt = board.close(passes).dealt;
    assert!(rt; (first, second, third, fourth) == (Some(0), Some(1), None, None));
    assert!(rt; dealt == 2);
    Ok(())
}

#[test]
fn a_board_of_no_blocks_deals_nothing(rt: HostRuntime) -> Result<(), Fail> {
    let (board, mut passes) = Board::new(rt.alloc(), 0, 1)?;
    let answer = board.claim(&mut passes[0]);
    let dealt = board.close(passes).dealt;
    assert!(rt; answer.is_none() && dealt == 0);
    Ok(())
}

fn count_block(counts: &[AtomicU64], block: u64) {
    if let Some(count) = counts.get(block as usize) {
        count.fetch_add(1, SeqCst);
    }
}

// Claims until there is no block left, and counts each block that it claims.
fn claim_all(board: &Board, pass: &mut Pass, counts: &[AtomicU64])
    requires { IsPassOf board.now pass.old × IsNew pass.old }
    ensures { IsSamePass pass.old pass.new }
{
    while let Some(block) = board.claim(pass) {
        count_block(counts, block);
    }
}

// Each pass claims in a thread of its own.
fn claim_in_threads<R: Threads + Sync>(
    rt: &R,
    board: &Board,
    counts: &[AtomicU64],
    passes: &mut [Pass],
)
    requires { All (λ p. IsPassOf board.now p × IsNew p) passes.old }
    ensures { AllZip IsSamePass passes.old passes.new }
{
    if passes.len() == 0 {
        return;
    }
    if passes.len() == 1 {
        claim_all(board, &mut passes[0], counts);
        return;
    }
    let (front, back) = passes.split_at_mut(passes.len() / 2);
    join_mut(
        rt,
        &mut ||
            requires { IsSync R.row × All (λ p. IsPassOf board.now p × IsNew p) front.now }
            ensures { AllZip IsSamePass front.entry.now front.exit.now }
        { claim_in_threads(rt, board, counts, front) },
        &mut ||
            requires { IsSync R.row × All (λ p. IsPassOf board.now p × IsNew p) back.now }
            ensures { AllZip IsSamePass back.entry.now back.exit.now }
        { claim_in_threads(rt, board, counts, back) },
    );
}

#[test]
fn four_threads_claim_each_block_once(rt: HostRuntime) -> Result<(), Fail> {
    let (board, mut passes) = Board::new(rt.alloc(), BLOCKS, 4)?;
    let mut counts = Vec::new(rt.alloc());
    for _ in 0..BLOCKS {
        counts.push(AtomicU64::new(0))?;
    }
    claim_in_threads(&rt, &board, counts.as_slice(), passes.as_mut_slice());
    for count in &counts {
        assert_eq!(rt; count.load(SeqCst), 1);
    }
    assert_eq!(rt; board.close(passes).dealt, BLOCKS);
    Ok(())
}
