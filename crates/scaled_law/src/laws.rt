// What a round over pairs of units says of the masses of its program.

ghost use Rattle.std.specs.Prelude.{◌≡◌, ◌*◌, ◌≤◌, ◌<◌, ◌++◌, ◌∷◌, ℕ, Bool, true, Option, None, length, All};
ghost use Rattle.numbers.specs.declared.units.TheConstants.{ALL};
ghost use Rattle.gcl_core.specs.declared.answers.Outcome.{Outcome};
ghost use Rattle.gcl_core.specs.meaning.Bounds.{BlockIsWeighed};
ghost use Rattle.gcl_core.specs.meaning.Checked.{IsChecked};
ghost use Rattle.gcl_core.specs.meaning.Syntax.{SourceProgram};
ghost use Rattle.gcl_core.specs.meaning.Value.{State};
ghost use Rattle.gcl_core.specs.weighing.Fractions.{Fraction, IsBelowOne};
ghost use Rattle.gcl_core.specs.weighing.Mass.{round_mass, failed_mass};
ghost use Rattle.table_flow.specs.Tables.{peak_of};
ghost use Rattle.units_law.specs.Merged.{IsMerged, merged};
ghost use Rattle.units_law.specs.Rounding.{Rounding, RoundsDown};
ghost use Rattle.bounds_law.specs.Rows.{Rows};
ghost use Rattle.units_law.specs.Holding.{IsFor, AreOrdered, Enclose};
ghost use Rattle.units_law.specs.Units.{held};
ghost use Rattle.scaled_law.specs.Given.{least_of, most_of, AreWithin, AreEnough, LiesBetween};
ghost use Rattle.scaled_law.specs.Growth.{growth, growing};
ghost use Rattle.scaled_law.specs.Listed.{AreListed, AreNear, all_least, upper_of_others};
ghost use Rattle.scaled_law.specs.Pairs.{Pair, Pairs, InOrder, at_least, at_most, merged_pairs, put_pairs};
ghost use Rattle.scaled_law.specs.Scaled.{Steering, IsPositive, round_scaled};
ghost use Rattle.scaled_law.specs.Up.{RoundsUp, up};

/// It does nothing: its clauses say what merging pairs is. At most a merged list is the merged list of units; at least it holds as much
/// as the list does, where no state has more at least than at most, and that stays so. Lists that hold the same are merged to one list, to
/// merge again changes nothing, and further entries are put into what was merged.
pub fn pairs_are_merged()
    ensures most { (J : Pairs State) → at_most (merged_pairs J) ≡ merged (at_most J) }
    ensures least { (J : Pairs State) → InOrder J → (G : State → ℕ) → held G (at_least (merged_pairs J)) ≡ held G (at_least J) }
    ensures in_order { (J : Pairs State) → InOrder J → InOrder (merged_pairs J) }
    ensures one { (J K : Pairs State) → InOrder J → InOrder K → ((G : State → ℕ) → held G (at_least J) ≡ held G (at_least K)) →
        ((G : State → ℕ) → held G (at_most J) ≡ held G (at_most K)) → merged_pairs J ≡ merged_pairs K }
    ensures again { (J : Pairs State) → IsMerged (at_most J) → InOrder J → merged_pairs J ≡ J }
    ensures further { (J K : Pairs State) → merged_pairs (J ++ K) ≡ put_pairs (merged_pairs J) K }
{}

/// It does nothing: its clause says that the products which are meant to be most are no less than their weights.
pub fn products_are_rounded_up()
    ensures { RoundsUp up }
{}

/// It does nothing: its clauses say how units change by growth: no factor is 0, and where some state goes on, what has not failed comes to
/// at most `ALL` of the new units, and to more than half of it.
pub fn units_grow_with_what_is_left()
    ensures positive { IsPositive growing }
    ensures within { (e : State × Pair) (es : Pairs State) (w : ℕ) → w * (growth (e ∷ es) w).0 ≤ ALL * (growth (e ∷ es) w).1 }
    ensures near { (e : State × Pair) (es : Pairs State) (w : ℕ) → 0 < w → ALL * (growth (e ∷ es) w).1 < 2 * (w * (growth (e ∷ es) w).0) }
{}

/// It does nothing: its clauses say that the units which a round gives any set of outcomes at least are at most its mass, and that those
/// which it gives them at most, with what is loose, are at least its mass. So it is for the limit of turns of the round, and for all turns
/// for every greater one. And no table on the way has more states than the peak of the round.
pub fn rounds_hold_masses()
    ensures least { (low high : Rounding) → RoundsDown low → (steer : Steering) → IsPositive steer → (p : SourceProgram) (n n' : ℕ) (r : Option ℕ)
        (all_turns : Bool) → IsChecked p → IsFor all_turns n n' → (meant : Outcome → Bool) →
        AreWithin (round_scaled low high steer p n r).scale (least_of p all_turns meant (round_scaled low high steer p n r)) (round_mass p n' r meant) }
    ensures most { (low high : Rounding) → RoundsUp high → (steer : Steering) → IsPositive steer → (p : SourceProgram) (n n' : ℕ) (r : Option ℕ)
        (all_turns : Bool) → IsChecked p → IsFor all_turns n n' → (meant : Outcome → Bool) →
        AreEnough (round_scaled low high steer p n r).scale (most_of p all_turns meant (round_scaled low high steer p n r)) (round_mass p n' r meant) }
    ensures tables { (low high : Rounding) → RoundsUp high → (steer : Steering) → IsPositive steer → (p : SourceProgram) (n : ℕ) (r : Option ℕ) →
        BlockIsWeighed p.body → All (λ J. length J ≤ peak_of p n r) (round_scaled low high steer p n r).tables }
{}

/// It does nothing: its clauses say that the mass of any set of outcomes, without a limit of rounds, lies between what its units at
/// least are beside those that all others have at most, and the reverse. Where some unit at least does not fail, a round fails with
/// probability below 1. So it is for the limit of turns of the round, and for all turns for every greater one.
pub fn masses_lie_beside_others()
    ensures between { (low high : Rounding) → RoundsDown low → RoundsUp high → (steer : Steering) → IsPositive steer → (p : SourceProgram)
        (n n' : ℕ) (r : Option ℕ) (all_turns : Bool) → IsChecked p → IsFor all_turns n n' → IsBelowOne (failed_mass p n' r) →
        (meant : Outcome → Bool) → LiesBetween p n' r all_turns (round_scaled low high steer p n r) meant }
    ensures passes { (low high : Rounding) → RoundsDown low → (steer : Steering) → IsPositive steer → (p : SourceProgram) (n n' : ℕ)
        (r : Option ℕ) (all_turns : Bool) → IsChecked p → IsFor all_turns n n' →
        0 < least_of p all_turns (λ x. true) (round_scaled low high steer p n r) → IsBelowOne (failed_mass p n' r) }
{}

/// It does nothing: its clauses say that rows of bounds hold, in order, where a round gives some outcome a unit at least: each mass lies
/// between its two bounds, and outcomes without a row have together at most the bound of the others. Two bounds of a row are no further
/// apart than what is not certain to belong to one outcome beside what is, and two parts of 2^-120. So it is for the limit of turns of the
/// round, and for all turns for every greater one.
pub fn bounds_beside_others_hold()
    ensures enclose { (low high : Rounding) → RoundsDown low → RoundsUp high → (steer : Steering) → IsPositive steer → (p : SourceProgram)
        (n n' : ℕ) (r : Option ℕ) (all_turns : Bool) → IsChecked p → IsFor all_turns n n' →
        0 < all_least p all_turns (round_scaled low high steer p n r) → (rows : Rows) (other : Fraction) →
        AreListed p all_turns (round_scaled low high steer p n r) rows → other ≡ upper_of_others p all_turns (round_scaled low high steer p n r) →
        Enclose p n' r None rows other }
    ensures ordered { (low high : Rounding) (steer : Steering) (p : SourceProgram) (n : ℕ) (r : Option ℕ) (all_turns : Bool) (rows : Rows)
        (other : Fraction) → AreListed p all_turns (round_scaled low high steer p n r) rows →
        other ≡ upper_of_others p all_turns (round_scaled low high steer p n r) → AreOrdered rows other }
    ensures near { (low high : Rounding) → RoundsDown low → RoundsUp high → (steer : Steering) → IsPositive steer → (p : SourceProgram) (n : ℕ)
        (r : Option ℕ) (all_turns : Bool) → IsChecked p → 0 < all_least p all_turns (round_scaled low high steer p n r) → (rows : Rows) →
        AreListed p all_turns (round_scaled low high steer p n r) rows → AreNear p all_turns (round_scaled low high steer p n r) rows }
{}
