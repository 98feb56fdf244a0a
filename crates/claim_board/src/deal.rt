//! The laws of the dealing and of the board.
ghost use Rattle.claim_board.specs.Deal.{DealsFairly};
ghost use Rattle.claim_board.specs.Rule.{RuleSays};

/// It does nothing: its clause is the law of the dealing, for every list of events.
pub fn deals_fairly()
    ensures { DealsFairly }
{}

/// It does nothing: its clause is what the rule of the board says of every state that keeps it, and the rule is kept between
/// any two steps.
pub fn board_shows_a_dealing()
    ensures { RuleSays }
{}
