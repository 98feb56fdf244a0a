// Which table goes on.

ghost use Rattle.std.specs.Prelude.{◌≡◌, IfOk};
ghost use Rattle.scaled_law.specs.Scaled.{swapped, taken_back, with_tables, top, below};
ghost use Rattle.scaled_fold.specs.inner.Holding.{Follows};

use crate::error::PairsError;
use crate::tables::merge;
use crate::walk::Walk;
use std::alloc::Global;

impl Walk {
    /// The table on top of those aside goes on, and the other stands there.
    pub fn swapped(self, alloc: Global) -> Result<Walk, PairsError>
        ensures { IfOk result (Follows swapped self) }
    {
        let (next, rest) = self.aside.taken(alloc);
        Ok(Walk {
            next,
            aside: rest.topped(self.next)?,
            ended: self.ended,
            loose: self.loose,
            doubled: self.doubled,
        })
    }

    /// Behind the table on top of those aside.
    pub fn taken_back(self, alloc: Global) -> Result<Walk, PairsError>
        ensures { IfOk result (Follows taken_back self) }
    {
        let (next, aside) = self.aside.taken(alloc);
        Ok(Walk {
            next: merge(next, self.next)?,
            aside,
            ended: self.ended,
            loose: self.loose,
            doubled: self.doubled,
        })
    }

    /// The table goes on that is on top of those aside.
    pub fn left(self, alloc: Global) -> Walk
        ensures { Follows (λ f. with_tables (top f.aside) (below f.aside) f) self result }
    {
        let (next, aside) = self.aside.taken(alloc);
        Walk {
            next,
            aside,
            ended: self.ended,
            loose: self.loose,
            doubled: self.doubled,
        }
    }
}
