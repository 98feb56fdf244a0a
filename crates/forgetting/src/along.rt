// What may differ from 0 along a block.

ghost use Rattle.std.specs.Prelude.{◌≡◌, ℕ, ◌≤◌, ◌+◌, length, get_or, IfOk};
ghost use Rattle.gcl_core.specs.declared.rules.TheConstants.{MOST_NAMES};
ghost use Rattle.gcl_core.specs.meaning.Bounds.{BlockBelow};
ghost use Rattle.gcl_core.specs.meaning.Views.{statements_of};
ghost use Rattle.forgetting.specs.inner.Fronts.{AreFronts};
ghost use Rattle.forgetting.specs.Marks.{marked};

use crate::filled::behind_statement;
use crate::name_set::NameSet;
use gcl_core::Block;
use std::alloc::{AllocError, Global};

// The variables that may differ from 0 before each statement of a block, and behind the last.
pub fn fronts(alloc: Global, block: &Block, filled: NameSet) -> Result<Vec<NameSet>, AllocError>
    requires { BlockBelow MOST_NAMES (statements_of block.now) }
    ensures length { IfOk result (λ v. length v.items ≡ length block.now.stmts.items + 1) }
    ensures sets { IfOk result (λ v. AreFronts v.items block.now.stmts.items (marked filled.marks)) }
{
    let mut sets = Vec::new(alloc);
    let mut set = filled;
    sets.push(set)?;
    for i in 0..block.stmts.len() {
        set = behind_statement(&block.stmts[i], set);
        sets.push(set)?;
    }
    Ok(sets)
}
