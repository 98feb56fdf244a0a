// What a call is asked.

ghost use Rattle.std.specs.Prelude.{◌≡◌, ◌↔◌, IsTrue};
ghost use Rattle.gcl_core.specs.meaning.LimitRange.{InRange};
ghost use Rattle.zar_c.specs.Counts.{CanAudit, CanCount};
ghost use Rattle.zar_c.specs.Draws.{CanDraw, CanDrawInARow, limits_of};
ghost use Rattle.zar_c.specs.Hunts.{CanHunt};
ghost use Rattle.zar_c.specs.Places.{CanFill};
ghost use Rattle.zar_c.specs.Rolls.{CanRoll};

use audit_walk::MOST_DEPTH;
use dice_roll::MOST_FLIPS;
use gcl_core::Limits;
use gcl_core::rules::MOST_LIMIT;
use stream_runs::{MORE_BITS, MOST_STREAMS};
use weighted_roll::are_weights;
use zar_io::MOST_BUDGET;

/// How many bits of each stream a run may read, and the limits of runs.
#[repr(C)]
#[derive(Drop)]
pub struct ZarLimits {
    pub budget: u64,
    pub turns: u64,
    pub attempts: u64,
    pub rounds: u64,
}

/// How many bits of each stream there are for a roll, and how many of them it may read.
#[repr(C)]
#[derive(Drop)]
pub struct ZarRollLimits {
    pub budget: u64,
    pub flips: u64,
}

pub(crate) fn run_limits(limits: &ZarLimits) -> Limits
    ensures { result ≡ limits_of limits.now }
{
    Limits {
        turns: limits.turns,
        attempts: limits.attempts,
        rounds: limits.rounds,
    }
}

pub(crate) fn is_in_range(l: &Limits) -> bool
    ensures { IsTrue result ↔ InRange l.now }
{
    l.turns <= MOST_LIMIT
        && 1 <= l.attempts
        && l.attempts <= MOST_LIMIT
        && 1 <= l.rounds
        && l.rounds <= MOST_LIMIT
}

// Whether places can be filled: the budget is in range, the arrays are alike, and the streams have numbers of 64 bits.
fn can_fill(budget: u64, first: u64, values: usize, ends: usize) -> bool
    ensures { IsTrue result ↔ CanFill budget first values ends }
{
    budget <= MOST_BUDGET
        && ends == values
        && (values == 0 || values as u64 - 1 <= u64::MAX - first)
}

// Whether draws can be made: the limits are in range, and the places can be filled.
pub(crate) fn can_draw(limits: &ZarLimits, first: u64, values: usize, ends: usize) -> bool
    ensures { IsTrue result ↔ CanDraw limits.now first values ends }
{
    is_in_range(&run_limits(limits)) && can_fill(limits.budget, first, values, ends)
}

// Whether draws in a row can be made: the limits and the budget are in range, and the arrays are alike.
pub(crate) fn can_draw_in_a_row(limits: &ZarLimits, values: usize, ends: usize) -> bool
    ensures { IsTrue result ↔ CanDrawInARow limits.now values ends }
{
    is_in_range(&run_limits(limits)) && limits.budget <= MOST_BUDGET && ends == values
}

// Whether the runs on the streams of a range can be counted: the limits are in range, and the range can be gone through.
pub(crate) fn can_count(limits: &ZarLimits, from: u64, to: u64) -> bool
    ensures { IsTrue result ↔ CanCount limits.now from to }
{
    is_in_range(&run_limits(limits))
        && from <= to
        && to - from <= MOST_STREAMS
        && limits.budget <= MOST_BUDGET
}

// Whether they can be sought: they can be counted, and a run may end so.
pub(crate) fn can_hunt(limits: &ZarLimits, from: u64, to: u64, end: u8) -> bool
    ensures { IsTrue result ↔ CanHunt limits.now from to end }
{
    can_count(limits, from, to) && end <= MORE_BITS
}

// Whether the runs on all strings of a length can be counted: these are not too long, and the limits are in range.
pub(crate) fn can_audit(depth: u32, l: &Limits) -> bool
    ensures { IsTrue result ↔ CanAudit depth l.now.turns l.now.attempts l.now.rounds }
{
    depth <= MOST_DEPTH && is_in_range(l)
}

// Whether rolls can be made: a roll may have the weights, the flips are in range, and the places can be filled.
pub(crate) fn can_roll(
    weights: &[u64],
    limits: &ZarRollLimits,
    first: u64,
    labels: usize,
    ends: usize,
) -> bool
    ensures { IsTrue result ↔ CanRoll weights.now limits.now first labels ends }
{
    are_weights(weights)
        && limits.flips <= MOST_FLIPS
        && can_fill(limits.budget, first, labels, ends)
}
