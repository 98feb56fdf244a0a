// The parts of a choice among several arms.

ghost use Rattle.std.specs.Prelude.{◌≡◌, ◌<◌, ◌^◌, IfOk};
ghost use Rattle.std.specs.List.{sum};
ghost use Rattle.gcl_core.specs.meaning.Parts.{partial_sums};

use std::alloc::{AllocError, Global};
use std::marker::Model;

/// The parts of a choice among several arms, in the order of the arms: each is taken with its part over the sum of all.
#[derive(Drop)]
pub struct Parts {
    list: Vec<u64>,
}

impl Model for Parts {
    ghost use Rattle.std.specs.Prelude.{List, ℕ};

    ghost Value = { List ℕ };

    ghost view = { λ p. p.list.items };
}

impl Parts {
    /// These parts, in this order. It takes no memory.
    pub fn of(list: Vec<u64>) -> Parts
        ensures { result ≡ list.items }
    {
        Parts { list }
    }

    /// The first part, that and the second, up to the sum of all: the ends of the draw. It refuses where memory runs out.
    pub fn partial_sums(&self, alloc: Global) -> Result<Vec<u64>, AllocError>
        requires { sum self.now < 2 ^ 64 }
        ensures { IfOk result (λ v. v.items ≡ partial_sums self.now) }
    {
        let mut ends = Vec::new(alloc);
        let mut end = 0;
        for part in &self.list {
            end += *part;
            ends.push(end)?;
        }
        Ok(ends)
    }
}
