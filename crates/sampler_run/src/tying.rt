// From a program to its tied tree.

ghost use Rattle.std.specs.Prelude.{◌≡◌, Bool, List, IfOk};
ghost use Rattle.gcl_core.specs.declared.answers.Limits.{Limits};
ghost use Rattle.gcl_core.specs.meaning.Runs.{run_on};
ghost use Rattle.gcl_core.specs.meaning.Views.{source_of};
ghost use Rattle.bit_tree.specs.Debiased.{body_tree, tied_tree};
ghost use Rattle.bit_tree.specs.Sampleable.{TiedIsSampleable};
ghost use Rattle.bit_tree.specs.Meaning.{tied_on};
ghost use Rattle.bit_tree.specs.Views.{bit_tree_of, tied_tree_of};

use bit_tree::{Bt, Tied, debias, tie};
use choice_tree::to_tree;
use gcl_core::Checked;
use std::alloc::{AllocError, Global};

// The tree of the body, over coalesced draws.
fn body_of(alloc: Global, p: &Checked) -> Result<Bt, AllocError>
    ensures { IfOk result (λ b. bit_tree_of b ≡ body_tree (source_of p.now)) }
{
    debias(alloc, &to_tree(alloc, p)?)
}

// The tied tree of the program.
pub(crate) fn tied_of(alloc: Global, p: &Checked) -> Result<Tied, AllocError>
    ensures tied { IfOk result (λ t. tied_tree_of t ≡ tied_tree (source_of p.now)) }
    ensures runs { IfOk result (λ t. (l : Limits) (w : List Bool) → tied_on (tied_tree_of t) l w ≡ run_on (source_of p.now) l w) }
    ensures sampleable { IfOk result (λ t. TiedIsSampleable (tied_tree_of t)) }
{
    tie(alloc, p, body_of(alloc, p)?)
}
