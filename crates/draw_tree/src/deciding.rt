// Decided draws, straight from the ends.

ghost use Rattle.std.specs.Prelude.{◌≡◌, ◌≤◌, ◌+◌, ◌*◌, ◌^◌, true, false, Bool, List, length, IfOk, IfNone, MatchOption};
ghost use Rattle.gcl_core.specs.declared.rules.TheConstants.{GREATEST_DENOMINATOR, MOST_ARMS};
ghost use Rattle.gcl_core.specs.meaning.Draw.{last_end, bits_for, class_of, have_one_class, attempt_on};
ghost use Rattle.draw_tree.specs.Coalescing.{IsCoalesced, coalesced};
ghost use Rattle.draw_tree.specs.Decided.{decided_from, decided_draw};
ghost use Rattle.draw_tree.specs.Flips.{leaf};
ghost use Rattle.draw_tree.specs.Classes.{flip_count};
ghost use Rattle.draw_tree.specs.Perfect.{perfect_draw};
ghost use Rattle.draw_tree.specs.Prefixes.{attempt_by};
ghost use Rattle.draw_tree.specs.Views.{flips_of};
ghost use Rattle.draw_tree.specs.Walk.{LeadsToClasses};

use crate::leaves::leaf_of;
use crate::tree::Draw;
use crate::widths::bits_for;
use gcl_core::draws;
use std::alloc::{AllocError, Global};

// The leaf of the 2^depth numbers from `first` on, where they have one class. A single number always has.
fn decided_leaf(ends: &[u64], depth: u32, first: u64) -> Option<Draw>
    requires ends { length ends.now ≤ MOST_ARMS }
    requires depth { depth ≤ 63 }
    requires fits { first + 2 ^ depth ≤ 2 ^ 63 }
    ensures decides { MatchOption result (have_one_class ends.now first (2 ^ depth) ≡ false)
        (λ d. (have_one_class ends.now first (2 ^ depth) ≡ true) × (flips_of d ≡ leaf (class_of ends.now first))) }
    ensures last { IfNone result (1 ≤ depth) }
{
    let class = draws::common_class(ends, first, 1 << depth)?;
    Some(leaf_of(class))
}

// The decided draw over the 2^depth numbers from `first` on.
fn decided(alloc: Global, depth: u32, ends: &[u64], first: u64) -> Result<Draw, AllocError>
    requires ends { length ends.now ≤ MOST_ARMS }
    requires depth { depth ≤ 63 }
    requires fits { first + 2 ^ depth ≤ 2 ^ 63 }
    ensures { IfOk result (λ d. flips_of d ≡ decided_from ends.now depth first) }
{
    if let Some(leaf) = decided_leaf(ends, depth, first) {
        return Ok(leaf);
    }
    let left = decided(alloc, depth - 1, ends, first)?;
    let right = decided(alloc, depth - 1, ends, first + (1 << (depth - 1)))?;
    Ok(Draw::Flip(Box::new(alloc, left)?, Box::new(alloc, right)?))
}

/// The decided draw of some ends, at most [`gcl_core::MOST_ARMS`], of which the last is at most 2^62: the one draw without a flip
/// of two equal leaves in which each number leads to its class. It is built from the ends, without the perfect draw, which
/// coalesces to it, and has at most m * k flips for m ends and numbers of k bits. An attempt at it is the attempt among the
/// classes. It refuses where memory runs out.
pub fn direct(alloc: Global, ends: &[u64]) -> Result<Draw, AllocError>
    requires few { length ends.now ≤ MOST_ARMS }
    requires low { last_end ends.now ≤ GREATEST_DENOMINATOR }
    ensures tree { IfOk result (λ d. flips_of d ≡ decided_draw ends.now) }
    ensures apart { IfOk result (λ d. IsCoalesced (flips_of d)) }
    ensures classes { IfOk result (λ d. LeadsToClasses ends.now (flips_of d)) }
    ensures same { IfOk result (λ d. flips_of d ≡ coalesced (perfect_draw ends.now)) }
    ensures attempts { IfOk result (λ d. (w : List Bool) → attempt_by (flips_of d) w ≡ attempt_on ends.now w) }
    ensures small { IfOk result (λ d. flip_count (flips_of d) ≤ length ends.now * bits_for (last_end ends.now)) }
{
    decided(alloc, bits_for(draws::last_end(ends)), ends, 0)
}
