// The expected visits of the states of a loop.

use crate::rows::{Pair, is};
use numbers::Frac;
use std::alloc::Global;
use visit_finder::{FinderError, Turns};

// Where turns lead from and to, and with which weight; and what each state has.
struct Loop {
    turns: &'static [(u64, u64, Pair)],
    states: u64,
    entered: &'static [(u64, Pair)],
    visits: &'static [(u64, Pair)],
}

const HEADS: Loop = Loop {
    turns: &[(0, 0, (1, 2))],
    states: 1,
    entered: &[(0, (1, 1))],
    visits: &[(0, (2, 1))],
};

// One, two or three coins of which each turn wins one with 1/3 or loses one, begun with two.
const RUIN: Loop = Loop {
    turns: &[
        (0, 1, (1, 3)),
        (1, 0, (2, 3)),
        (1, 2, (1, 3)),
        (2, 1, (2, 3)),
    ],
    states: 3,
    entered: &[(1, (1, 1))],
    visits: &[(0, (6, 5)), (1, (9, 5)), (2, (3, 5))],
};

// The state 1 is never left.
const DOORS: Loop = Loop {
    turns: &[(0, 0, (1, 3)), (0, 1, (1, 3)), (1, 1, (1, 1))],
    states: 2,
    entered: &[(0, (1, 1))],
    visits: &[(0, (3, 2))],
};

fn fraction(pair: Pair) -> Frac {
    Frac::of(pair.0, pair.1.max(1))
}

fn has_visits(alloc: Global, it: &Loop) -> Result<bool, FinderError> {
    let mut turns = Turns::none(alloc);
    for (from, to, weight) in it.turns {
        turns.lead(*from, *to, fraction(*weight))?;
    }
    let mut entered = Vec::new(alloc);
    for (state, weight) in it.entered {
        entered.push((*state, fraction(*weight)))?;
    }
    let visits = turns.visits(alloc, it.states, &entered)?;
    if visits.len() != it.visits.len() {
        return Ok(false);
    }
    for (state, want) in it.visits {
        match visits.get(state) {
            Some(visit) if is(visit, *want) => {}
            _ => return Ok(false),
        }
    }
    Ok(true)
}

#[test]
fn visits_are_found(rt: HostRuntime) {
    assert!(rt; matches!(has_visits(rt.alloc(), &HEADS), Ok(true)), "heads");
    assert!(rt; matches!(has_visits(rt.alloc(), &RUIN), Ok(true)), "ruin");
    assert!(rt; matches!(has_visits(rt.alloc(), &DOORS), Ok(true)), "doors");
}
