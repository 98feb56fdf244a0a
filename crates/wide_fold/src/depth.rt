// Which statements are settled in wide fractions, and which from each state alone in 128 bits.

use gcl_core::Stmt;

/// What is settled in wide fractions; all else is settled from each state alone.
#[derive(Clone, Copy)]
pub enum Depth {
    /// Loops that stand in no other statement, and their visits.
    Loops,
    /// Each statement that has others inside, and each turn of a loop.
    All,
}

impl Depth {
    /// Whether the statement, which stands in no other, is settled from each state alone.
    pub fn takes_each(self, statement: &Stmt) -> bool {
        match self {
            Depth::Loops => !matches!(statement, Stmt::While(_, _)),
            Depth::All => false,
        }
    }

    /// Whether turns of loops are settled in wide fractions.
    pub fn is_all(self) -> bool {
        matches!(self, Depth::All)
    }
}
