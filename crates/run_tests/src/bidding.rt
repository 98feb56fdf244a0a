// The tests of `least_board`: the least of what is offered.

use least_board::LeastBoard;
use std::test::Fail;

#[test]
fn the_least_of_two_offers(rt: HostRuntime) -> Result<(), Fail> {
    let (board, mut passes) = LeastBoard::new(rt.alloc(), 100, 2)?;
    let pass = &mut passes[0];
    let before = board.look(pass);
    board.offer(pass, 40);
    board.offer(pass, 60);
    let after = board.look(pass);
    let least = board.close(passes);
    assert!(rt; before == 100 && after == 40 && least == 40);
    Ok(())
}

#[test]
fn the_top_where_nothing_is_offered(rt: HostRuntime) -> Result<(), Fail> {
    let (board, passes) = LeastBoard::new(rt.alloc(), 7, 3)?;
    let least = board.close(passes);
    assert!(rt; least == 7);
    Ok(())
}
