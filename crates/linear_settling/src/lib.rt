//! Settling is linear: what a block comes to in the limit of turns is the sum of what it comes to from each state, by weight. The
//! function does nothing: its clauses are theorems about definitions.
//!
//! Proved: from two tables together, the first by a weight, a block settles to what it settles to from each, the first by that weight
//! (`blocks_settle_linearly`: `mixed`); so from a table of states to what comes of each state alone, by its weight (`states`).
//!
//! No clause says that a block settles from a state, or with which visits.
#![tactic(auto)]

ghost use Rattle.std.specs.Prelude.{◌≤◌, List, ◌++◌};
ghost use Rattle.gcl_core.specs.meaning.Bounds.{BlockIsWeighed};
ghost use Rattle.gcl_core.specs.meaning.Syntax.{Statements};
ghost use Rattle.gcl_core.specs.weighing.Fractions.{Fraction};
ghost use Rattle.gcl_core.specs.weighing.WeightedEnds.{scaled};
ghost use Rattle.table_flow.specs.Tables.{Table};
ghost use Rattle.unlimited_law.specs.Alike.{AreFractions};
ghost use Rattle.unlimited_law.specs.Settling.{Outflow};
ghost use Rattle.unlimited_law.specs.SettledMasses.{Settles};
ghost use Rattle.linear_settling.specs.Mixed.{mixed, Source, table_of, together, SettlesEach};

/// It does nothing: its clauses say that from two tables together, the first by a weight, a block settles to what it settles to from
/// each, likewise together; and from a table to what it settles to from each of its states alone, by the weights of the states.
pub fn blocks_settle_linearly()
    ensures mixed { (b : Statements) (w : Fraction) (I J : Table) (f g : Outflow) → BlockIsWeighed b → 1 ≤ w.1 →
        AreFractions I → AreFractions J → Settles b I f → Settles b J g → Settles b (scaled w I ++ J) (mixed w f g) }
    ensures states { (b : Statements) (m : List Source) → BlockIsWeighed b → AreFractions (table_of m) →
        SettlesEach b m → Settles b (table_of m) (together m) }
{}
