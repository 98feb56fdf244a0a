// Why the draws by attempts that the compiler makes never decide sooner.

ghost use Rattle.std.specs.Prelude.{◌≡◌, ℕ, List, slice_index};
ghost use Rattle.std.specs.List.{sum};
ghost use Rattle.gcl_core.specs.meaning.Draw.{last_end};
ghost use Rattle.gcl_core.specs.weighing.OneDraw.{Ascends, class_size};
ghost use Rattle.weighted_roll.specs.Weights.{AreWeights};
ghost use Rattle.weighted_roll.specs.Drawn.{StaysBehind};

use gcl_core::draw_weighs;

/// It does nothing: its clause says of a draw by attempts, whatever their limit, that after N flips it has decided no more
/// strings for any class than the roll by the sizes of the classes, for every N, and that it makes no fewer flips on average. A
/// draw that comes to its limit of attempts has no class however many flips follow.
pub fn draws_by_attempts_stay_behind()
    ensures { (ends : List ℕ) (r : ℕ) (ws : List ℕ) → Ascends 0 ends → AreWeights ws → last_end ends ≡ sum ws
        → ((i : ℕ) → class_size ends i ≡ slice_index ws i) → StaysBehind ends r ws }
{
    draw_weighs();
}
