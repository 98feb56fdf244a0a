// Why no roll has decided more after any number of flips.
ghost use Rattle.std.specs.Prelude.{◌≡◌, ◌<◌, ◌≤◌, ◌*◌, ◌^◌, ◌/◌, ℕ, Bool, List, Option, length};
ghost use Rattle.weighted_roll.specs.Rollers.{decided};
ghost use Rattle.weighted_roll.specs.ExactRollers.{Keeps, HasAtMost, Tends, fast};
ghost use Rattle.weighted_roll.specs.Weights.{AreWeights};
ghost use Rattle.weighted_roll.specs.Optimal.{IsOptimal, IsFastest};

/// It does nothing: its clauses are of whatever reads flips in order and keeps its label on longer strings. Where the share of
/// the strings that give a label does not stay above a / b, at most the whole part of 2^T a / b of the strings of T bits give
/// it, for every T; and a share that tends to a / b does not stay above it.
pub fn exact_rollers_stay_below()
    ensures below { (r : List Bool → Option ℕ) (i a b : ℕ) → 0 < b → Keeps r → HasAtMost r i a b
        → (T : ℕ) → decided r i T ≤ 2 ^ T * a / b }
    ensures exact { (r : List Bool → Option ℕ) (i a b : ℕ) → Tends r i a b → HasAtMost r i a b }
{}

/// It does nothing: its clause says of the roll by weights that for every T exactly the whole part of 2^T a / b of the strings
/// of T bits give a label of weight a in the sum b, and that no exact roll gives it to more of them, or makes fewer flips on
/// average.
pub fn weighted_rolls_are_optimal()
    ensures { (ws : List ℕ) → AreWeights ws → IsOptimal ws }
{}

/// It does nothing: its clause says that the Fast Dice Roller is the roll by equal weights, bit by bit, and that it is optimal.
pub fn equal_weights_roll_fast()
    ensures { (m : ℕ) → 2 ≤ m → IsFastest m }
{}
