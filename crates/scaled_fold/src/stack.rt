// The tables that stand aside.

ghost use Rattle.std.specs.Prelude.{◌≡◌, All};
ghost use Rattle.std.proofs.Props.{props};

use crate::table::Table;

/// Tables of states of `vars` variables, one on the other.
#[derive(Drop)]
pub struct Stack {
    /// How many variables each state has.
    pub vars: u32,
    /// The tables, the last on top.
    pub tables: Vec<Table>,
    ghost sized: { All (λ t. t.vars ≡ vars) tables.items } by { Prim.hlevel props },
}
