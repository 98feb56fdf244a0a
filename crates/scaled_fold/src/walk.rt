// What stands where on a walk through a program.

ghost use Rattle.std.specs.Prelude.{◌≡◌};

use crate::ended::Ended;
use crate::stack::Stack;
use crate::table::Table;

/// The table that goes on, those that stand aside meanwhile, what has ended, what is loose, and how often units were doubled.
#[derive(Drop)]
pub struct Walk {
    pub next: Table,
    pub aside: Stack,
    pub ended: Ended,
    pub loose: (u128, u128),
    pub doubled: u64,
    ghost sized: { aside.vars ≡ next.vars },
}
