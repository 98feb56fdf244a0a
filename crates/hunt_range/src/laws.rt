//! The law of hunts.
ghost use Rattle.hunt_range.specs.Laws.{LeastIsOne};

/// It does nothing: its clause is the law that of what is looked for there is one least stream, or none, and not both.
pub fn least_is_one()
    ensures { LeastIsOne }
{}
