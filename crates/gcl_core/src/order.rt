// The order of outcomes, and of what a tally counts.

ghost use Rattle.std.specs.Prelude.{◌≡◌, true};
ghost use Rattle.std.specs.Ordering.{MatchOrdering};
ghost use Rattle.gcl_core.specs.declared.answers.Outcome.TheVariants as outcome;
ghost use Rattle.gcl_core.specs.meaning.Order.{is_before, is_key_before};

use crate::answers::{Fault, Limit, Outcome, TallyKey};

/// It does nothing: its clauses say which order the comparisons tell. Of outcomes, values come first, in ascending order, then
/// overflow, a zero divisor and a bad bound, then the limits of turns, attempts and rounds. Faults and limits are compared as the
/// outcomes that they are, and the keys of a tally as their outcomes, with the runs that needed more bits behind them all.
pub fn outcomes_are_ordered()
    ensures outcomes { (x : Outcome) (y : Outcome)
        → MatchOrdering (⟦<Outcome as Ord>⟧.cmp x y) (is_before x y ≡ true) (x ≡ y) (is_before y x ≡ true) }
    ensures faults { (f : Fault) (g : Fault) → MatchOrdering (⟦<Fault as Ord>⟧.cmp f g)
        (is_before (outcome.Fault f) (outcome.Fault g) ≡ true) (f ≡ g) (is_before (outcome.Fault g) (outcome.Fault f) ≡ true) }
    ensures limits { (k : Limit) (l : Limit) → MatchOrdering (⟦<Limit as Ord>⟧.cmp k l)
        (is_before (outcome.Limit k) (outcome.Limit l) ≡ true) (k ≡ l) (is_before (outcome.Limit l) (outcome.Limit k) ≡ true) }
    ensures keys { (a : TallyKey) (b : TallyKey) → MatchOrdering (⟦<TallyKey as Ord>⟧.cmp a b)
        (is_key_before a b ≡ true) (a ≡ b) (is_key_before b a ≡ true) }
{}
