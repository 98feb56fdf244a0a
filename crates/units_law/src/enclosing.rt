// Bounds between which masses lie, from one round in units.

ghost use Rattle.std.specs.Prelude.{◌≡◌, ◌-◌, ◌*◌, ◌^◌, ◌≤◌, ◌<◌, ℕ, Bool, true, false, Option, None, length};
ghost use Rattle.numbers.specs.declared.units.TheConstants.{ALL};
ghost use Rattle.gcl_core.specs.declared.answers.Outcome.{Outcome};
ghost use Rattle.gcl_core.specs.meaning.Checked.{IsChecked};
ghost use Rattle.gcl_core.specs.meaning.Syntax.{SourceProgram};
ghost use Rattle.gcl_core.specs.weighing.Fractions.{Fraction, times, power, power_sum, AtMost, IsBelowOne, IsOne};
ghost use Rattle.gcl_core.specs.weighing.Mass.{failed_mass};
ghost use Rattle.table_flow.specs.Tables.{peak_of, tables_of};
ghost use Rattle.bounds_law.specs.Rows.{Rows};
ghost use Rattle.units_law.specs.Down.{down};
ghost use Rattle.units_law.specs.Rounding.{LosesFew};
ghost use Rattle.units_law.specs.Roundings.{round_roundings};
ghost use Rattle.units_law.specs.Rounds.{StandsBelow};
ghost use Rattle.units_law.specs.SomeRounds.{InRounds, in_rounds};
ghost use Rattle.units_law.specs.Enclosures.{fails_in, lost_units, upper_of_others, NothingPasses, SomePasses, AreEnclosures};
ghost use Rattle.units_law.specs.Events.{IsBetween};
ghost use Rattle.units_law.specs.FewOthers.{most_of_others, BlockWithin, HaveLittle, NearlyFails};
ghost use Rattle.units_law.specs.Points.{points_of, most_states};
ghost use Rattle.units_law.specs.Holding.{IsFor, MayEnd, AreOrdered, Enclose, most_apart, AreClose};

/// It does nothing: its clauses say that the units of R rounds, worked out by the binary digits of R, are at most the exact weights:
/// those of what fails in all of them, and of what some outcomes have in them.
pub fn some_rounds_stay_below()
    ensures fails { (p : Fraction) → 1 ≤ p.1 → (one : InRounds) → StandsBelow one.0 p → (R : ℕ) → StandsBelow (in_rounds one R).0 (power p R) }
    ensures gives { (m p : Fraction) → 1 ≤ m.1 → 1 ≤ p.1 → (one : InRounds) → StandsBelow one.0 p → StandsBelow one.1 m →
        (R : ℕ) → StandsBelow (in_rounds one R).1 (times m (power_sum p R)) }
{}

/// It does nothing: its clauses say that the masses of a program lie between the bounds that one round gives, rounded down, for every
/// checked program, all limits, and for all turns every greater limit of turns at which a round fails with probability below 1, where
/// there is no limit of rounds. So it is for every set of outcomes, and for each row; outcomes without a row have together at most the
/// bound of the others. Rows ascend, each is of a possible outcome, and all fractions are in lowest terms. Where the round has a unit
/// that does not fail, it fails with probability below 1; where all units fail, with probability 1.
pub fn masses_lie_between()
    ensures events { (p : SourceProgram) (n n' : ℕ) (r R : Option ℕ) (all_turns : Bool) → IsChecked p → IsFor all_turns n n' → MayEnd p n' r R →
        (meant : Outcome → Bool) → IsBetween p n n' r R all_turns meant }
    ensures rows { (p : SourceProgram) (n n' : ℕ) (r R : Option ℕ) (all_turns : Bool) → IsChecked p → IsFor all_turns n n' → MayEnd p n' r R →
        (rows : Rows) (other : Fraction) → AreEnclosures p n r R all_turns rows → other ≡ upper_of_others p n r R all_turns →
        Enclose p n' r R rows other }
    ensures ordered { (p : SourceProgram) (n : ℕ) (r R : Option ℕ) (all_turns : Bool) → IsChecked p → MayEnd p n r R →
        (rows : Rows) (other : Fraction) → AreEnclosures p n r R all_turns rows → other ≡ upper_of_others p n r R all_turns →
        AreOrdered rows other }
    ensures passes { (p : SourceProgram) (n : ℕ) (r : Option ℕ) → IsChecked p → SomePasses p n r → IsBelowOne (failed_mass p n r) }
    ensures fails { (p : SourceProgram) (n : ℕ) (r : Option ℕ) → IsChecked p → fails_in p n r ≡ ALL → IsOne (failed_mass p n r) }
{}

/// It does nothing: its clauses say how far apart the bounds are: no further than the bound of the others, but for a unit, and with a
/// limit of rounds one for each round. Without a limit of rounds, and but for all turns, what no outcome has is no more than what the
/// roundings of the round lose; for all turns what ran out of turns is lost, too.
pub fn bounds_are_as_wide_as_what_is_lost()
    ensures rows { (p : SourceProgram) (n : ℕ) (r R : Option ℕ) (all_turns : Bool) → IsChecked p → MayEnd p n r R →
        (rows : Rows) (other : Fraction) → AreEnclosures p n r R all_turns rows → other ≡ upper_of_others p n r R all_turns →
        AreClose (most_apart R) rows other }
    ensures lost { (p : SourceProgram) (n k : ℕ) (r : Option ℕ) → IsChecked p → LosesFew k ALL r down →
        lost_units p n r None false ≤ k * round_roundings down p n r }
{}

/// It does nothing: its clauses say that the points of a round are its tables, of which these have a law: there are as many, and the
/// most different states of one are as many.
pub fn points_are_tables()
    ensures states { (p : SourceProgram) (n : ℕ) (r : Option ℕ) → most_states (points_of p n r) ≡ peak_of p n r }
    ensures points { (p : SourceProgram) (n : ℕ) (r : Option ℕ) → length (points_of p n r) ≡ length (tables_of p n r).tables }
{}

/// It does nothing: its clauses say what the bound of the others is at most: the units that the roundings of a round lose, and for all
/// turns what ran out of turns, in all rounds, and one unit more, with a limit of rounds two for each. Of roundings there are no more
/// than the points of a round, the most states of one and its widest uniform draw in a state of numbers of 64 bits allow, which is always
/// below 2^63. Where no unit passes, a round fails with all weight but for so many units.
pub fn others_have_little()
    ensures by_roundings { (p : SourceProgram) (n k units : ℕ) (r R : Option ℕ) (all_turns : Bool) → IsChecked p → MayEnd p n r R →
        LosesFew k ALL r down → k * round_roundings down p n r ≤ units →
        AtMost (upper_of_others p n r R all_turns) (most_of_others p n r R all_turns units) }
    ensures by_tables { (p : SourceProgram) (n : ℕ) (r R : Option ℕ) (all_turns : Bool) → IsChecked p → MayEnd p n r R →
        HaveLittle p n r R all_turns (upper_of_others p n r R all_turns) }
    ensures widest { (p : SourceProgram) → IsChecked p → BlockWithin (2 ^ 63 - 1) p.body }
    ensures none { (p : SourceProgram) (n : ℕ) (r : Option ℕ) → IsChecked p → NothingPasses p n r → NearlyFails p n r }
{}
