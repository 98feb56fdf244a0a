//! What a pass knows, and the rule of the board.
ghost use Rattle.claim_board.specs.Views.{passes_of, first_hand, makes, made_by, joined, spent_hand, are_numbered, drawing};
ghost use Rattle.claim_board.specs.Rule.{Holds};

use atomic_table::{Play, TableRule};
use passes::{Numbering, View};
use std::collections::LinkedList;

/// What the board is told when it is made.
#[derive(Drop)]
pub struct Terms {
    pub blocks: u64,
    pub workers: u64,
}

/// The view of a pass: the numbers of the passes that it stands for, the blocks dealt to them, and which of them had `None`.
/// Contracts alone speak of it, and no value of it is made.
pub struct Hand {
    pub blocks: u64,
    pub passes: Numbering,
    pub dealt: LinkedList<u64>,
    pub ended: LinkedList<u64>,
}

impl View for Hand {
    ghost passes = { passes_of };

    ghost makes = { makes };

    ghost made_by = { made_by };

    ghost joined = { joined };

    ghost spent = { spent_hand };

    ghost numbered = { are_numbered };
}

/// The rule of the board's word and of all views.
pub struct Dealing;

impl TableRule<(), Hand, Terms> for Dealing {
    ghost holds = { Holds };

    ghost first = { first_hand };
}

/// A claim: the word is read, and 1 is added to it.
pub struct Claiming;

impl Play<(), Hand> for Claiming {
    ghost then = { drawing };
}
