//! The blocks that a worker told a gate of. Only clauses read them: they take no memory, and noting one does nothing at run time.
ghost use Rattle.std.specs.Prelude.{◌≡◌, ℕ, List, [], ◌∷◌, ◌++◌};
ghost use Rattle.std.specs.Borrow.{ftrue};

use crate::Gate;
use std::marker::Model;

/// The blocks that a gate was told of, in their order.
#[derive(Drop)]
pub struct Visits {
    ghost told: { List ℕ },
}

impl Model for Visits {
    ghost also_owns = { λ _. ftrue };
}

// A struct with `also_owns` is not `Send` by itself. This one owns nothing.
unsafe impl Send for Visits {}

impl Visits {
    ghost use Rattle.zar_io.specs.Visits.{blocks_told};

    /// No block was told of.
    #[inline(always)]
    pub fn new() -> Visits
        ensures { blocks_told result ≡ [] }
    {
        Visits {}
    }

    // Those, and then this block.
    #[inline(always)]
    fn then(&self, _block: u64) -> Visits
        ensures { blocks_told result ≡ blocks_told self.now ++ _block ∷ [] }
    {
        Visits {}
    }

    /// Tells the gate of a block, and notes it. Nothing else notes one.
    #[inline(always)]
    pub fn enter<G: Gate>(&mut self, gate: &G, block: u64)
        ensures { blocks_told self.new ≡ blocks_told self.old ++ block ∷ [] }
    {
        gate.entered(block);
        *self = self.then(block);
    }
}
