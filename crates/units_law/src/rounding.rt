// What a program makes of tables of units, each product rounded down.

ghost use Rattle.std.specs.Prelude.{◌≡◌, ◌≤◌, ◌<◌, ◌-◌, ◌+◌, ◌*◌, ◌^◌, ◌++◌, ℕ, Bool, Option, Some, None, length, All};
ghost use Rattle.numbers.specs.declared.units.TheConstants.{ALL};
ghost use Rattle.gcl_core.specs.declared.answers.Outcome.{Outcome};
ghost use Rattle.gcl_core.specs.meaning.Bounds.{BlockIsWeighed};
ghost use Rattle.gcl_core.specs.meaning.Draw.{bits_for, rejected_numbers};
ghost use Rattle.gcl_core.specs.meaning.Syntax.{Statements, SourceProgram};
ghost use Rattle.gcl_core.specs.meaning.Value.{State};
ghost use Rattle.gcl_core.specs.weighing.Mass.{round_mass, failed_mass};
ghost use Rattle.table_flow.specs.Scale.{Within};
ghost use Rattle.table_flow.specs.Tables.{Table, block_flow, peak_of};
ghost use Rattle.units_law.specs.Below.{IsBelow, FlowIsBelow};
ghost use Rattle.units_law.specs.Down.{down, again_down, again_up};
ghost use Rattle.units_law.specs.Flows.{all_units, block_units};
ghost use Rattle.units_law.specs.Merged.{IsMerged, merged, put_all};
ghost use Rattle.units_law.specs.Rounding.{Rounding, RoundsDown, LosesFew};
ghost use Rattle.units_law.specs.Roundings.{roundings_of, round_roundings};
ghost use Rattle.units_law.specs.Rounds.{StandsBelow, round_units, meant_units, failed_units};
ghost use Rattle.units_law.specs.Units.{Units, held, total};

/// It does nothing: its clauses say what merging is. A merged list holds as much as the list does, for every weighting of states; it
/// has each state once, in order, and none with 0 units. Lists that hold the same are merged to one list, to merge again changes
/// nothing, and further entries never make the merged list shorter.
pub fn tables_are_merged()
    ensures held { (J : Units State) (G : State → ℕ) → held G (merged J) ≡ held G J }
    ensures each_once { (J : Units State) → IsMerged (merged J) }
    ensures one { (J K : Units State) → ((G : State → ℕ) → held G J ≡ held G K) → merged J ≡ merged K }
    ensures again { (J : Units State) → IsMerged J → merged J ≡ J }
    ensures further { (J K : Units State) → merged (J ++ K) ≡ put_all (merged J) K }
    ensures longer { (J K : Units State) → length (merged J) ≤ length (merged (J ++ K)) }
{}

/// It does nothing: its clauses say that the program's products are rounded down, and how much each loses: at most one unit, and with a
/// limit of attempts at most six. How often an attempt is rejected is exact in units for numbers of at most 120 bits.
pub fn products_are_rounded_down()
    ensures below { RoundsDown down }
    ensures without_limit { LosesFew 1 ALL None down }
    ensures with_limit { (r : ℕ) → LosesFew 6 ALL (Some r) down }
    ensures exact { (b : ℕ) → bits_for b ≤ 120 →
        (again_down b ≡ rejected_numbers b * 2 ^ (120 - bits_for b)) × (again_up b ≡ rejected_numbers b * 2 ^ (120 - bits_for b)) }
{}

/// It does nothing: its clause says that a table of units that is below a table of fractions is so after a block that rounds each
/// product down, for every weighting of states and of ends. And no table on the way has more states.
pub fn blocks_stay_below()
    ensures { (cut : Rounding) → RoundsDown cut → (N L n : ℕ) → 0 < N → (r : Option ℕ) (b : Statements) → BlockIsWeighed b →
        (J : Units State) (I : Table) → Within N L (block_flow n r b I) → IsBelow N J I → FlowIsBelow N L (block_units cut n r b J) (block_flow n r b I) }
{}

/// It does nothing: its clauses say that the units which a round gives any set of outcomes are at most its mass, and those of a failed
/// observation at most the mass of failing. And no table on the way has more states than the peak of the round.
pub fn rounds_stay_below()
    ensures meant { (cut : Rounding) → RoundsDown cut → (p : SourceProgram) (n : ℕ) (r : Option ℕ) → BlockIsWeighed p.body →
        (meant : Outcome → Bool) → StandsBelow (meant_units p meant (round_units cut p n r)) (round_mass p n r meant) }
    ensures failed { (cut : Rounding) → RoundsDown cut → (p : SourceProgram) (n : ℕ) (r : Option ℕ) → BlockIsWeighed p.body →
        StandsBelow (failed_units (round_units cut p n r)) (failed_mass p n r) }
    ensures tables { (cut : Rounding) → RoundsDown cut → (p : SourceProgram) (n : ℕ) (r : Option ℕ) → BlockIsWeighed p.body →
        All (λ J. length J ≤ peak_of p n r) (round_units cut p n r).tables }
{}

/// It does nothing: its clauses say that no unit is made, and how many are lost: at most k for each product that is rounded, where each
/// product loses at most k.
pub fn units_are_lost_by_rounding()
    ensures none_made { (cut : Rounding) → RoundsDown cut → (n : ℕ) (r : Option ℕ) (b : Statements) → BlockIsWeighed b →
        (J : Units State) → all_units (block_units cut n r b J) ≤ total J }
    ensures few_lost { (cut : Rounding) → RoundsDown cut → (k n : ℕ) (r : Option ℕ) → LosesFew k ALL r cut → (b : Statements) → BlockIsWeighed b →
        (J : Units State) → total J ≤ ALL → total J ≤ all_units (block_units cut n r b J) + k * roundings_of (block_units cut n r b J).reached }
    ensures in_a_round { (cut : Rounding) → RoundsDown cut → (k n : ℕ) (r : Option ℕ) → LosesFew k ALL r cut → (p : SourceProgram) → BlockIsWeighed p.body →
        ALL ≤ all_units (round_units cut p n r) + k * round_roundings cut p n r }
{}
